//! Runs of days and of weeks that go back in time.
ghost use Rattle.std.specs.{Iterator.{at_most}, Prelude.{◌≡◌, ◌<ℤ◌, ◌≤ℤ◌, ◌-ℤ◌, pos, MatchOption}};
ghost use Rattle.naive_base.specs.Runs as runs;
ghost use Rattle.naive_base.specs.{NaiveDate.{day_of}, Range.{first_day}};

use crate::{NaiveDate, NaiveDateDaysIterator, NaiveDateWeeksIterator};
use std::iter::FusedIterator;

impl NaiveDateDaysIterator {
    /// Returns the next date of the run and each day before it, in order. As in chrono, the first
    /// day in range doesn't come.
    ///
    /// ```
    /// let mut days = last.iter_days().rev();
    /// let two = (days.next(), days.next()); // (Some(2022-04-23), Some(2022-04-22))
    /// ```
    pub fn rev(self) -> NaiveDateDaysBack
        ensures { runs.days_back_from result ≡ runs.days_from self }
    {
        NaiveDateDaysBack { value: self.value }
    }
}

impl NaiveDateWeeksIterator {
    /// Returns the next date of the run and each date that is some weeks before it, in order, as
    /// long as the date a week earlier is in range.
    pub fn rev(self) -> NaiveDateWeeksBack
        ensures { runs.weeks_back_from result ≡ runs.weeks_from self }
    {
        NaiveDateWeeksBack { value: self.value }
    }
}

/// A date and the days before it. From [`NaiveDateDaysIterator::rev`].
#[derive(Clone, Copy, PartialEq, Eq, Debug)]
pub struct NaiveDateDaysBack {
    value: NaiveDate,
}

/// A date and the dates that are some weeks before it. From [`NaiveDateWeeksIterator::rev`].
#[derive(Clone, Copy, PartialEq, Eq, Debug)]
pub struct NaiveDateWeeksBack {
    value: NaiveDate,
}

impl Iterator for NaiveDateDaysBack {
    type Item = NaiveDate;

    ghost next_gives = { λ before item after. MatchOption item
        ((runs.days_back_from before ≤ℤ first_day) × (after ≡ before))
        (λ date. (first_day <ℤ runs.days_back_from before)
        × (day_of date ≡ runs.days_back_from before)
        × (runs.days_back_from after ≡ runs.days_back_from before -ℤ pos 1)) };

    ghost remaining = { λ run. at_most (runs.days_back_left run) };

    fn next(&mut self) -> Option<NaiveDate> {
        let date = self.value;
        self.value = date.pred_opt()?;
        Some(date)
    }
}

impl Iterator for NaiveDateWeeksBack {
    type Item = NaiveDate;

    ghost next_gives = { λ before item after. MatchOption item
        (((runs.weeks_back_from before -ℤ pos 7) <ℤ first_day) × (after ≡ before))
        (λ date. (first_day ≤ℤ (runs.weeks_back_from before -ℤ pos 7))
        × (day_of date ≡ runs.weeks_back_from before)
        × (runs.weeks_back_from after ≡ runs.weeks_back_from before -ℤ pos 7)) };

    ghost remaining = { λ run. at_most (runs.weeks_back_left run) };

    fn next(&mut self) -> Option<NaiveDate> {
        let date = self.value;
        self.value = NaiveDate::in_range(date.number() - 7)?;
        Some(date)
    }
}

impl FusedIterator for NaiveDateDaysBack {}

impl FusedIterator for NaiveDateWeeksBack {}
