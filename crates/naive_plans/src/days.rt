//! Days by their numbers: which one a second lies in, and its place in its week, month and year.
ghost use Rattle.std.specs.Prelude.{◌≡◌, ◌<◌, ◌≤◌, ◌-◌, ◌≤ℤ◌, ◌+ℤ◌, ◌-ℤ◌, ◌*ℤ◌, neg_ℤ, pos};
ghost use Rattle.{
  gregorian.specs.{DateOf.{day_of_year, year_of}, Month.{days_in_month}, Year.{days_in_year, floor_div, floor_mod, is_leap}},
  naive_base.specs.{Range.{IsWideDay}, Weekday.{weekday_number}},
};

use gregorian::YearMonthDay;
use naive_base::Weekday;

/// 86,400.
pub const SECONDS_PER_DAY: i64 = 86_400;

/// Returns the day that a second lies in, counted from 1970-01-01.
pub fn day_of(second: i64) -> i64
    ensures { result ≡ floor_div second 86_400 }
{
    second.div_euclid(SECONDS_PER_DAY)
}

/// Returns the second of its day, from 0 to 86,399.
pub fn second_of(second: i64) -> u32
    ensures value { result ≡ floor_mod second 86_400 }
    ensures bound { result < 86_400 }
{
    second.rem_euclid(SECONDS_PER_DAY) as u32
}

/// Returns that second of a day as seconds from 1970-01-01 00:00:00.
pub fn second_at(day: i64, second: u32) -> i64
    requires day { (neg_ℤ (pos 100_000_000) ≤ℤ day) × (day ≤ℤ pos 100_000_000) }
    requires second { second ≤ 86_400 }
    ensures { result ≡ day *ℤ pos 86_400 +ℤ pos second }
{
    day * SECONDS_PER_DAY + second as i64
}

/// Returns the number of days of a date's month.
pub fn month_length(date: YearMonthDay) -> u32
    ensures value { result ≡ days_in_month (is_leap date.year) date.month }
    ensures bound { (28 ≤ result) × (result ≤ 31) }
{
    gregorian::days_in_month(date.year, date.month)
}

/// Returns the number of days of its week that come before a day.
#[tactic(auto, using(crate::proofs::DayPlaces::passed_of_week))]
pub fn days_of_week(day: i64, week_start: Weekday) -> u32
    requires { IsWideDay day }
    ensures value { result ≡ floor_mod (day +ℤ pos 4 -ℤ pos (weekday_number week_start)) 7 }
    ensures bound { result < 7 }
{
    (gregorian::weekday_of(day) + 7 - week_start.num_days_from_sunday()) % 7
}

/// Returns how many days of its year come before a day, and how many after it.
pub fn place_in_year(day: i64) -> (u32, u32)
    requires { IsWideDay day }
    ensures before { result.0 ≡ day_of_year day }
    ensures after { result.1 ≡ days_in_year (year_of day) - 1 - day_of_year day }
    ensures bounds { (result.0 < 366) × (result.1 < 366) }
{
    let before = gregorian::day_of_year(day);
    let days = gregorian::days_in_year(gregorian::year_of(day));
    (before, days - 1 - before)
}
