//! Weeks that begin on a chosen day of the week.
ghost use Rattle.std.specs.{Prelude.{◌≡◌, ◌<ℤ◌, ◌≤ℤ◌, ◌+ℤ◌, pos, MatchOption}, Range.{range_inclusive_end, range_inclusive_start}};
ghost use Rattle.{
  naive_base.specs.{NaiveDate.{day_of, IsDateOfDay}, Weekday.{weekday_number, weekday_of}, Range.{IsDayInRange}},
  naive_base.specs.Week.{first_of},
};

use crate::{Datelike, NaiveDate, Weekday};
use std::ops::RangeInclusive;

/// Seven days in a row. From [`NaiveDate::week`].
///
/// Weeks compare and hash by their first days. At either end of the range a week may have days that
/// no [`NaiveDate`] is.
///
/// ```
/// let day = NaiveDate::from_ymd_opt(2022, 4, 18)?;
/// let week = day.week(Weekday::Sun);
/// let first = week.checked_first_day(); // Some(2022-04-17)
/// let last = week.checked_last_day(); // Some(2022-04-23)
/// let ends = (week.first_day(), week.last_day()); // (2022-04-17, 2022-04-23)
/// let holds = week.days().contains(&day); // true
/// ```
#[derive(Clone, Copy, PartialEq, Eq, Hash, Debug)]
pub struct NaiveWeek {
    first: i32,
}

impl NaiveDate {
    /// Returns the week of this date that begins on that day of the week.
    pub fn week(&self, start: Weekday) -> NaiveWeek
        ensures start { weekday_of (first_of result) ≡ weekday_number start }
        ensures first { first_of result ≤ℤ day_of self.now }
        ensures last { day_of self.now <ℤ (first_of result +ℤ pos 7) }
    {
        NaiveWeek {
            first: self.first_of_week(start) as i32,
        }
    }

    fn first_of_week(&self, start: Weekday) -> i64
        ensures start { weekday_of result ≡ weekday_number start }
        ensures first { result ≤ℤ day_of self.now }
        ensures last { day_of self.now <ℤ (result +ℤ pos 7) }
    {
        self.number() - self.weekday().days_since(start) as i64
    }
}

impl NaiveWeek {
    /// Returns the first day. Requires: it is in range, so that
    /// [`NaiveWeek::checked_first_day`] returns it.
    pub fn first_day(&self) -> NaiveDate
        requires { IsDayInRange (first_of self.now) }
        ensures { day_of result ≡ first_of self.now }
    {
        self.checked_first_day().unwrap()
    }

    /// Returns the first day, or `None` if it is out of range.
    pub fn checked_first_day(&self) -> Option<NaiveDate>
        ensures { IsDateOfDay (first_of self.now) result }
    {
        NaiveDate::in_range(self.first as i64)
    }

    /// Returns the last day. Requires: it is in range, so that [`NaiveWeek::checked_last_day`]
    /// returns it.
    pub fn last_day(&self) -> NaiveDate
        requires { IsDayInRange (first_of self.now +ℤ pos 6) }
        ensures { day_of result ≡ first_of self.now +ℤ pos 6 }
    {
        self.checked_last_day().unwrap()
    }

    /// Returns the last day, or `None` if it is out of range.
    pub fn checked_last_day(&self) -> Option<NaiveDate>
        ensures { IsDateOfDay (first_of self.now +ℤ pos 6) result }
    {
        NaiveDate::in_range(self.first as i64 + 6)
    }

    /// Returns the range from the first day to the last. Requires: both are in range.
    pub fn days(&self) -> RangeInclusive<NaiveDate>
        requires first { IsDayInRange (first_of self.now) }
        requires last { IsDayInRange (first_of self.now +ℤ pos 6) }
        ensures first { day_of (range_inclusive_start result) ≡ first_of self.now }
        ensures last { day_of (range_inclusive_end result) ≡ first_of self.now +ℤ pos 6 }
    {
        self.first_day()..=self.last_day()
    }

    /// Returns the range from the first day to the last, or `None` if one of them is out of range.
    pub fn checked_days(&self) -> Option<RangeInclusive<NaiveDate>>
        ensures { MatchOption result
            (IsDayInRange (first_of self.now) → IsDayInRange (first_of self.now +ℤ pos 6) → ⊥)
            (λ days. (day_of (range_inclusive_start days) ≡ first_of self.now)
            × (day_of (range_inclusive_end days) ≡ first_of self.now +ℤ pos 6)) }
    {
        Some(self.checked_first_day()?..=self.checked_last_day()?)
    }
}
