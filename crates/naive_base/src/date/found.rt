//! Dates found by other names: a day of a year, of an ISO week or of a month's weekdays.
ghost use Rattle.std.specs.Prelude.{◌≡◌, ◌<◌, ◌≤◌, ◌+◌, ◌-◌, ◌*◌, ◌%◌, ◌+ℤ◌, ◌-ℤ◌, option_map, pos, IfSome, IsSome, MatchOption, SomeIff, ℤ};
ghost use Rattle.{
  gregorian.specs.Year.{days_in_year, year_start},
  naive_base.specs.{NaiveDate.{day_of}, Range.{IsDayInRange, IsInnerDay, IsInnerYear, IsYearInRange}},
  naive_base.specs.{Named.{IsDayOfIsoWeek, IsThursdayOfWeek, IsWeekdayOfMonth}, Steps.Moves.{IsWithin}},
  naive_base.specs.Weekday.{days_from_monday, weekday_number, weekday_of},
};

use crate::range::{FIRST_YEAR, LAST_YEAR};
use crate::{Datelike, NaiveDate, Weekday};

impl NaiveDate {
    /// Returns the n-th day of a year, counted from 1. `None` if the year has no such day, or is
    /// not one from -262143 to 262142.
    ///
    /// ```
    /// let in_april = NaiveDate::from_yo_opt(2015, 100); // Some(2015-04-10)
    /// let none = NaiveDate::from_yo_opt(2015, 366); // None
    /// ```
    pub fn from_yo_opt(year: i32, ordinal: u32) -> Option<NaiveDate>
        ensures value { SomeIff (option_map day_of result)
            (IsYearInRange year × (1 ≤ ordinal) × (ordinal ≤ days_in_year year))
            (year_start year +ℤ pos (ordinal - 1)) }
        ensures in_range { IfSome result (λ d. IsDayInRange (day_of d)) }
        ensures inner { IsInnerYear year → IfSome result (λ d. IsInnerDay (day_of d)) }
    {
        if year < FIRST_YEAR || year > LAST_YEAR {
            return None;
        }
        if ordinal == 0 || ordinal > gregorian::days_in_year(year) {
            return None;
        }
        Some(NaiveDate::of_ordinal(year, ordinal))
    }

    /// Returns the n-th Monday, Tuesday or other day of the week in a month from 1, counted from 1.
    /// `None` if the month has no such day, or the year is not one from -262143 to 262142.
    ///
    /// ```
    /// let friday = NaiveDate::from_weekday_of_month_opt(2017, 3, Weekday::Fri, 2); // Some(2017-03-10)
    /// ```
    pub fn from_weekday_of_month_opt(
        year: i32,
        month: u32,
        weekday: Weekday,
        n: u8,
    ) -> Option<NaiveDate>
        ensures value { MatchOption result
            (IsYearInRange year → (day : ℤ)
            → IsWeekdayOfMonth year month (weekday_number weekday) n day → ⊥)
            (λ d. IsYearInRange year
            × IsWeekdayOfMonth year month (weekday_number weekday) n (day_of d)) }
        ensures first_four { IsYearInRange year → 1 ≤ month → month ≤ 12 → 1 ≤ n → n ≤ 4
            → IsSome result }
        ensures in_range { IfSome result (λ d. IsDayInRange (day_of d)) }
        ensures inner { IsInnerYear year → IfSome result (λ d. IsInnerDay (day_of d)) }
    {
        if n == 0 {
            return None;
        }
        match NaiveDate::from_ymd_opt(year, month, 1) {
            Some(first) => {
                let to_weekday = weekday.days_since(first.weekday());
                NaiveDate::from_ymd_opt(year, month, to_weekday + 7 * (n as u32 - 1) + 1)
            }
            None => None,
        }
    }

    /// Returns the day of a week by the rule of ISO 8601, whose weeks are counted from 1. `None` if
    /// the year has no such week, or the day is out of range.
    ///
    /// ```
    /// let none = NaiveDate::from_isoywd_opt(2014, 53, Weekday::Mon); // None
    /// let monday = NaiveDate::from_isoywd_opt(2015, 1, Weekday::Mon); // Some(2014-12-29)
    /// let sunday = NaiveDate::from_isoywd_opt(2015, 53, Weekday::Sun); // Some(2016-01-03)
    /// ```
    pub fn from_isoywd_opt(year: i32, week: u32, weekday: Weekday) -> Option<NaiveDate>
        ensures value { MatchOption result
            ((day : ℤ) → IsDayInRange day
            → IsDayOfIsoWeek year week (weekday_number weekday) day → ⊥)
            (λ d. IsDayInRange (day_of d)
            × IsDayOfIsoWeek year week (weekday_number weekday) (day_of d)) }
        ensures all_but_last { IsInnerYear year → 1 ≤ week → week ≤ 52 → IsSome result }
    {
        let Some(thursday) = thursday_of(year, week) else {
            return None;
        };
        NaiveDate::in_range(day_in_week(thursday, weekday))
    }
}

// The day of the week that a Thursday lies in.
fn day_in_week(thursday: i64, weekday: Weekday) -> i64
    requires { IsWithin 1_000_000_000_000 thursday }
    ensures { result ≡ thursday -ℤ pos 3 +ℤ pos (days_from_monday weekday) }
{
    thursday - 3 + weekday.num_days_from_monday() as i64
}

// The Thursday of a week of a year by the rule of ISO 8601, if the year has the week.
fn thursday_of(year: i32, week: u32) -> Option<i64>
    ensures value { MatchOption result ((t : ℤ) → IsThursdayOfWeek year week t → ⊥)
        (λ t. IsThursdayOfWeek year week t) }
    ensures bound { IfSome result (λ t. IsWithin 1_000_000_000_000 t) }
    ensures inner { IsInnerYear year → IfSome result (λ t. IsInnerDay t) }
    ensures all_but_last { 1 ≤ week → week ≤ 52 → IsSome result }
{
    if week == 0 {
        return None;
    }
    let place = place_of_thursday(year, week);
    if place >= gregorian::days_in_year(year) as u64 {
        return None;
    }
    Some(day_at_place(year, place))
}

// How many days of a year come before the Thursday of a week.
fn place_of_thursday(year: i32, week: u32) -> u64
    requires { 1 ≤ week }
    ensures { result ≡ (11 - weekday_of (year_start year)) % 7 + 7 * (week - 1) }
{
    let first = gregorian::weekday_of(gregorian::year_start(year));
    ((11 - first) % 7) as u64 + 7 * (week as u64 - 1)
}

fn day_at_place(year: i32, place: u64) -> i64
    requires { place < days_in_year year }
    ensures value { result ≡ year_start year +ℤ pos place }
    ensures bound { IsWithin 1_000_000_000_000 result }
    ensures inner { IsInnerYear year → IsInnerDay result }
{
    gregorian::year_start(year) + place as i64
}
