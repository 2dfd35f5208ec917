//! The days around a date, and runs of days and weeks.
ghost use Rattle.std.specs.{Iterator.{at_most}, Prelude.{◌≡◌, ◌<ℤ◌, ◌≤ℤ◌, ◌+ℤ◌, ◌-ℤ◌, ◌*ℤ◌, pos, unsigned_abs, MatchOption, SomeIff}};
ghost use Rattle.{
  gregorian.specs.{DateOf.{year_of}, Year.{is_leap}},
  naive_base.specs.{Months.{days_of}, Runs.{days_from, days_left, weeks_from, weeks_left}},
  naive_base.specs.{NaiveDate.{day_of, IsDateOfDay}, Named.{is_earlier_in_year, whole_years}, Range.{last_day}},
  offset_core.specs.{Nanoseconds.{nanos_per_day}, TimeDelta.{nanos_of}},
};

use crate::{Datelike, Days, NaiveDate};
use offset_core::TimeDelta;
use std::iter::FusedIterator;

impl NaiveDate {
    /// Returns the next day, or `None` after the last day in range.
    ///
    /// ```
    /// let leap_day = NaiveDate::from_ymd_opt(2024, 2, 28)?.succ_opt(); // Some(2024-02-29)
    /// let none = NaiveDate::MAX.succ_opt(); // None
    /// ```
    pub fn succ_opt(&self) -> Option<NaiveDate>
        ensures { IsDateOfDay (day_of self.now +ℤ pos 1) result }
    {
        NaiveDate::in_range(self.number() + 1)
    }

    /// Returns the day before, or `None` before the first day in range.
    ///
    /// ```
    /// let leap_day = NaiveDate::from_ymd_opt(2024, 3, 1)?.pred_opt(); // Some(2024-02-29)
    /// ```
    pub fn pred_opt(&self) -> Option<NaiveDate>
        ensures { IsDateOfDay (day_of self.now -ℤ pos 1) result }
    {
        NaiveDate::in_range(self.number() - 1)
    }

    /// Returns whether the year has a 29 February.
    pub fn leap_year(&self) -> bool
        ensures { result ≡ is_leap (year_of (day_of self.now)) }
    {
        gregorian::is_leap_year(self.year())
    }

    /// Returns the days from another date to this one, each of 24 hours, negative if this one is
    /// earlier.
    ///
    /// ```
    /// let start = NaiveDate::from_ymd_opt(2024, 1, 1)?;
    /// let year = NaiveDate::from_ymd_opt(2025, 1, 1)?.signed_duration_since(start); // 366 days
    /// ```
    pub fn signed_duration_since(self, rhs: NaiveDate) -> TimeDelta
        ensures { nanos_of result ≡ (day_of self -ℤ day_of rhs) *ℤ nanos_per_day }
    {
        TimeDelta::days(self.number() - rhs.number())
    }

    /// Returns the number of days between the two dates, whichever is earlier.
    ///
    /// ```
    /// let first = NaiveDate::from_ymd_opt(2024, 1, 1)?;
    /// let days = NaiveDate::from_ymd_opt(2025, 1, 1)?.abs_diff(first);
    /// let is_leap_year = days == Days::new(366); // true
    /// ```
    pub fn abs_diff(self, rhs: NaiveDate) -> Days
        ensures { days_of result ≡ unsigned_abs (day_of self -ℤ day_of rhs) }
    {
        Days::new((self.number() - rhs.number()).unsigned_abs())
    }

    /// Returns the whole years from another date to this one, or `None` if this one is earlier.
    ///
    /// From 2004-02-29 the first year has passed on 2005-03-01.
    pub fn years_since(&self, base: NaiveDate) -> Option<u32>
        ensures { let years = whole_years (day_of self.now) (day_of base) in
            SomeIff result (pos 0 ≤ℤ years) (unsigned_abs years) }
    {
        u32::try_from(self.whole_years(base)).ok()
    }

    // The same, negative if this date is earlier.
    fn whole_years(&self, base: NaiveDate) -> i32
        ensures { result ≡ whole_years (day_of self.now) (day_of base) }
    {
        let (date, base) = (self.year_month_day(), base.year_month_day());
        let years = date.year - base.year;
        if is_earlier_in_year(date.month, date.day, base.month, base.day) {
            return years - 1;
        }
        years
    }

    /// Returns this date and each day after it, in order. As in chrono, the last day in range
    /// doesn't come.
    ///
    /// ```
    /// let mut days = first.iter_days();
    /// let two = (days.next(), days.next()); // (Some(2022-04-17), Some(2022-04-18))
    /// ```
    pub fn iter_days(&self) -> NaiveDateDaysIterator
        ensures { days_from result ≡ day_of self.now }
    {
        NaiveDateDaysIterator { value: *self }
    }

    /// Returns this date and each date that is some weeks after it, in order, as long as the date a
    /// week later is in range.
    ///
    /// ```
    /// let mut days = first.iter_weeks();
    /// let two = (days.next(), days.next()); // (Some(2022-04-17), Some(2022-04-24))
    /// ```
    pub fn iter_weeks(&self) -> NaiveDateWeeksIterator
        ensures { weeks_from result ≡ day_of self.now }
    {
        NaiveDateWeeksIterator { value: *self }
    }
}

fn is_earlier_in_year(month: u32, day: u32, base_month: u32, base_day: u32) -> bool
    ensures { result ≡ is_earlier_in_year month day base_month base_day }
{
    month < base_month || (month == base_month && day < base_day)
}

/// A date and the days after it. From [`NaiveDate::iter_days`].
#[derive(Clone, Copy, PartialEq, Eq, PartialOrd, Ord, Hash, Debug)]
pub struct NaiveDateDaysIterator {
    pub(super) value: NaiveDate,
}

/// A date and the dates that are some weeks after it. From [`NaiveDate::iter_weeks`].
#[derive(Clone, Copy, PartialEq, Eq, PartialOrd, Ord, Hash, Debug)]
pub struct NaiveDateWeeksIterator {
    pub(super) value: NaiveDate,
}

impl Iterator for NaiveDateDaysIterator {
    type Item = NaiveDate;

    ghost next_gives = { λ before item after. MatchOption item
        ((last_day ≤ℤ days_from before) × (after ≡ before))
        (λ date. (days_from before <ℤ last_day) × (day_of date ≡ days_from before)
        × (days_from after ≡ days_from before +ℤ pos 1)) };

    ghost remaining = { λ run. at_most (days_left run) };

    fn next(&mut self) -> Option<NaiveDate> {
        let date = self.value;
        self.value = date.succ_opt()?;
        Some(date)
    }
}

impl Iterator for NaiveDateWeeksIterator {
    type Item = NaiveDate;

    ghost next_gives = { λ before item after. MatchOption item
        ((last_day <ℤ (weeks_from before +ℤ pos 7)) × (after ≡ before))
        (λ date. ((weeks_from before +ℤ pos 7) ≤ℤ last_day) × (day_of date ≡ weeks_from before)
        × (weeks_from after ≡ weeks_from before +ℤ pos 7)) };

    ghost remaining = { λ run. at_most (weeks_left run) };

    fn next(&mut self) -> Option<NaiveDate> {
        let date = self.value;
        self.value = NaiveDate::in_range(date.number() + 7)?;
        Some(date)
    }
}

impl FusedIterator for NaiveDateDaysIterator {}

impl FusedIterator for NaiveDateWeeksIterator {}
