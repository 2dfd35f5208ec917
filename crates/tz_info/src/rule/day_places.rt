//! How many days of a year come before a rule's day.

ghost use Rattle.std.specs.{Int.{IsInRange}, Prelude.{◌≡◌, ◌<◌, ◌≤◌, ◌+ℤ◌, pos}};
ghost use Rattle.{
  naive_base.specs.{Date.{day_number}, Month.{days_in_month}, Weekday.{weekday_of}, Year.{is_leap, year_start}},
  tz_info.specs.{RuleDays.{IsWrittenDate}, Steps.RuleDays.{julian_place, weekday_place}},
};

use gregorian::{day_number, days_in_month, days_in_year, is_leap_year, month_and_day, weekday_of};

// The month and the day of the month `place` days after the year's 1 January, up to the next
// 1 January.
#[tactic(auto, using(crate::proofs::RuleDays::after_december))]
pub(super) fn date_in_year(year: i32, place: u32) -> (usize, i64)
    requires { place ≤ 365 }
    ensures { IsWrittenDate (year_start year +ℤ pos place) year result.0 result.1 }
{
    if place >= days_in_year(year) {
        return (12, 32);
    }
    let (month, day) = month_and_day(year, place);
    (month as usize, day as i64)
}

// How many days of the year come before the n-th of the 365 dates of a common year.
pub(super) fn julian_place(year: i32, n: u32) -> u32
    requires { IsInRange 1 365 n }
    ensures value { result ≡ julian_place (is_leap year) n }
    ensures bound { result ≤ 365 }
{
    if n >= 60 && is_leap_year(year) {
        n
    } else {
        n - 1
    }
}

// How many days of the month come before the weekday of that week.
pub(super) fn place_in_month(year: i32, month: u32, week: u32, weekday: u32) -> u32
    requires month_in { IsInRange 1 12 month }
    requires week_in { IsInRange 1 5 week }
    requires weekday_in { weekday ≤ 6 }
    ensures value { result ≡ weekday_place (days_in_month (is_leap year) month)
        (weekday_of (day_number year month 1)) week weekday }
    ensures within { result < days_in_month (is_leap year) month }
    ensures bound { result < 31 }
{
    let first = weekday_of(day_number(year, month, 1));
    weekday_place(days_in_month(year, month), first, week, weekday)
}

// How many days come before the weekday of that week, in a month of `days` days that begins with
// the weekday `first`.
pub(super) fn weekday_place(days: u32, first: u32, week: u32, weekday: u32) -> u32
    requires days_in { IsInRange 28 31 days }
    requires first_in { first < 7 }
    requires week_in { IsInRange 1 5 week }
    requires weekday_in { weekday ≤ 6 }
    ensures value { result ≡ weekday_place days first week weekday }
    ensures bound { result < days }
{
    let place = (weekday + 7 - first) % 7 + 7 * (week - 1);
    if place < days { place } else { place - 7 }
}
