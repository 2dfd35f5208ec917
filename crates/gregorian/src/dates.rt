//! Dates: a year, a month and a day of the month.
ghost use Rattle.std.specs.{Int.{IsInRange}, Prelude.{◌≡◌, ◌↔◌, ◌<◌, ◌≤◌, ◌+◌, ◌*◌, ◌/◌, ◌%◌, ◌+ℤ◌, pos, IsTrue, ℕ, ℤ}};
ghost use Rattle.{
  gregorian.specs.{Date.{day_number, IsDate}, DateOf.{day_of_month, month_of, year_of}},
  gregorian.specs.{Steps.Cycle.{number_from_march}, Year.{days_in_year, year_start, IsDay, LiesIn}},
};

use super::years::{days_of_years, place_of, year_from_base, years_since_base};
use super::{days_before_month, days_in_month};

// The days from 1 March of the base year to 1970-01-01.
const DAYS_FROM_MARCH: i64 = 784_353_144_338;

/// A year, a month from 1 to 12 and a day of that month from 1.
#[derive(Clone, Copy, PartialEq, Eq, Debug)]
pub struct YearMonthDay {
    pub year: i32,
    pub month: u32,
    pub day: u32,
}

/// Whether the calendar has the date.
pub fn is_date(year: i32, month: u32, day: u32) -> bool
    ensures { IsTrue result ↔ IsDate year month day }
{
    month >= 1 && month <= 12 && day >= 1 && day <= days_in_month(year, month)
}

// The day number of a date from March on, where January and February are the months 13 and 14.
fn number_from_march(years: u64, month: u32, day: u32) -> i64
    requires year_in { years ≤ 4_294_968_000 }
    requires month_in { IsInRange 3 14 month }
    requires day_in { IsInRange 1 31 day }
    ensures { result +ℤ pos 784_353_144_338 ≡ pos (number_from_march years month day) }
{
    let before_month = (979 * month - 2919) / 32;
    (days_of_years(years) + (before_month + (day - 1)) as u64) as i64 - DAYS_FROM_MARCH
}

/// The day number of a date. Requires: the calendar has it, as [`is_date`] says.
pub fn day_number(year: i32, month: u32, day: u32) -> i64
    requires { IsDate year month day }
    ensures value { result ≡ day_number year month day }
    ensures bound { IsDay result }
{
    let years = years_since_base(year);
    if month <= 2 {
        return number_from_march(years - 1, month + 12, day);
    }
    number_from_march(years, month, day)
}

fn days_since_march(day: i64) -> u64
    requires { IsDay day }
    ensures value { day +ℤ pos 784_353_144_338 ≡ pos result }
    ensures bound { IsInRange 128_505 1_568_704_721_114 result }
{
    (day + DAYS_FROM_MARCH) as u64
}

// A date with that day number.
fn find_date(day: i64) -> YearMonthDay
    requires { IsDay day }
    ensures date { IsDate result.year result.month result.day }
    ensures number { day_number result.year result.month result.day ≡ day }
{
    let place = place_of(days_since_march(day));
    let (month, day_of_month) = march_month(place.passed);
    let years = 100 * place.century + place.year as u64;
    if month > 12 {
        return YearMonthDay {
            year: year_from_base(years + 1),
            month: month - 12,
            day: day_of_month,
        };
    }
    YearMonthDay {
        year: year_from_base(years),
        month,
        day: day_of_month,
    }
}

// The month from 3 to 14 and the day of the month that many days after 1 March.
fn march_month(passed: u32) -> (u32, u32)
    requires { passed < 366 }
    ensures month { result.0 ≡ (5 * passed + 461) / 153 }
    ensures day { result.1 ≡ (5 * passed + 461) % 153 / 5 + 1 }
{
    let scaled = 2141 * passed + 197_913;
    (scaled / 65_536, scaled % 65_536 / 2141 + 1)
}

/// The date of a day number. Requires: a day of the years of an `i32`.
pub fn date_of(day: i64) -> YearMonthDay
    requires { IsDay day }
    ensures year { result.year ≡ year_of day }
    ensures month { result.month ≡ month_of day }
    ensures day { result.day ≡ day_of_month day }
    ensures date { IsDate result.year result.month result.day }
    ensures number { day_number result.year result.month result.day ≡ day }
{
    find_date(day)
}

/// Returns the month and the day of the month of the day that comes that many days after the year's
/// 1 January. Requires: fewer days than the year has.
pub fn month_and_day(year: i32, day_of_year: u32) -> (u32, u32)
    requires { day_of_year < days_in_year year }
    ensures date { IsDate year result.0 result.1 }
    ensures number { day_number year result.0 result.1 ≡ year_start year +ℤ pos day_of_year }
{
    let before_march = days_before_month(year, 3);
    if day_of_year < before_march {
        return (day_of_year / 31 + 1, day_of_year % 31 + 1);
    }
    let scaled = 5 * (day_of_year - before_march) + 461;
    (scaled / 153, scaled % 153 / 5 + 1)
}

/// Each day has one date, and each date is one day.
pub fn dates_law()
    ensures found { (day : ℤ) → IsDate (year_of day) (month_of day) (day_of_month day)
        × (day_number (year_of day) (month_of day) (day_of_month day) ≡ day) }
    ensures once { (day y : ℤ) (m d : ℕ) → IsDate y m d → day_number y m d ≡ day
        → (year_of day ≡ y) × (month_of day ≡ m) × (day_of_month day ≡ d) }
    ensures lies { (y : ℤ) (m d : ℕ) → IsDate y m d → LiesIn (day_number y m d) y }
{}
