//! Days in their years, and what a year's calendar depends on.

ghost use Rattle.std.specs.Prelude.{◌≡◌, ◌<◌, ◌+◌, ◌*◌, ◌/◌, ◌%◌, ◌&&◌, ◌==◌, ◌||◌, not};
ghost use Rattle.gregorian.specs.{DateOf.{day_of_year, year_of}, Year.{is_leap, year_start, IsDay}, Weekdays.{weekday_of}};

use super::years::{days_since_january, place_of};

/// A day in its year.
#[derive(Clone, Copy, Debug)]
pub struct YearDay {
    /// How many days of the year come before the day, from 0.
    pub day_of_year: u32,
    /// Whether the year has a 29 February.
    pub is_leap: bool,
    /// The weekday of the year's 1 January, 0 for Sunday to 6 for Saturday.
    pub first_weekday: u32,
}

/// Returns the day's place in its year, and the two things that determine the year's calendar: with
/// the weekday of its first day and whether it is a leap year, all its dates have their weekdays.
/// Requires: a day of the years of an `i32`.
#[inline(always)]
pub fn year_day_of(day: i64) -> YearDay
    requires { IsDay day }
    ensures place { result.day_of_year ≡ day_of_year day }
    ensures leap { result.is_leap ≡ is_leap (year_of day) }
    ensures first { result.first_weekday ≡ weekday_of (year_start (year_of day)) }
    ensures bound { result.day_of_year < 366 }
    ensures weekday { result.first_weekday < 7 }
{
    let place = place_of(days_since_january(day));
    YearDay {
        day_of_year: place.passed,
        is_leap: is_leap_place(place.century, place.year),
        first_weekday: first_weekday(place.century, place.year),
    }
}

// Whether the year after that many centuries and years ends a cycle of four, but of the centuries
// only every fourth.
fn is_leap_place(century: u64, year: u32) -> bool
    ensures { result ≡ (year % 4 == 3) && (not (year == 99) || (century % 4 == 3)) }
{
    (year % 4 == 3) & ((year != 99) | (century % 4 == 3))
}

// The weekday of that year's first day. Four centuries are whole weeks.
fn first_weekday(century: u64, year: u32) -> u32
    requires { year < 100 }
    ensures value { result ≡ (5 * (century % 4) + year + year / 4 + 1) % 7 }
    ensures bound { result < 7 }
{
    rest_of_week(5 * (century % 4) as u32 + year + year / 4 + 1)
}

// What whole weeks leave of so few days.
fn rest_of_week(days: u32) -> u32
    requires { days < 1000 }
    ensures value { result ≡ days % 7 }
    ensures bound { result < 7 }
{
    days - 7 * (days * 9363 / 65_536)
}
