//! The operators of dates. Each requires a result in range; the checked forms return `None` for any
//! other.
ghost use Rattle.std.specs.Prelude.{◌≡◌, ◌+ℤ◌, ◌-ℤ◌, ◌*ℤ◌, int_div, neg_ℤ, pos, Some};
ghost use Rattle.{
  naive_base.specs.{Fields.{month_after, IsMonthsLater, MayShowDay}, NaiveDate.{day_of, IsDateOn}},
  naive_base.specs.{Months.{days_of, months_of, year_of_number}, Range.{IsYearInRange}},
  offset_core.specs.{Nanoseconds.{nanos_per_day}, TimeDelta.{nanos_of}},
};

use crate::{Days, Months, NaiveDate};
use offset_core::TimeDelta;
use std::ops::{Add, AddAssign, Sub, SubAssign};

/// [`NaiveDate::checked_add_signed`], which must return a date.
///
/// ```
/// let later = first + TimeDelta::days(45); // 2022-06-01
/// let same = first + Days::new(45); // 2022-06-01
/// let length = later - first; // 45 days
/// ```
impl Add<TimeDelta> for NaiveDate {
    type Output = NaiveDate;

    ghost can_add = { λ date delta. let days = int_div (nanos_of delta) nanos_per_day in
        MayShowDay (day_of date) (day_of date +ℤ days) };

    ghost add_gives = { λ date delta later. day_of later
        ≡ day_of date +ℤ int_div (nanos_of delta) nanos_per_day };

    fn add(self, rhs: TimeDelta) -> NaiveDate {
        self.days_later(rhs.num_days() as i128).unwrap()
    }
}

/// [`NaiveDate::checked_sub_signed`], which must return a date.
impl Sub<TimeDelta> for NaiveDate {
    type Output = NaiveDate;

    ghost can_sub = { λ date delta. let days = int_div (nanos_of delta) nanos_per_day in
        MayShowDay (day_of date) (day_of date +ℤ neg_ℤ days) };

    ghost sub_gives = { λ date delta earlier. day_of earlier
        ≡ day_of date +ℤ neg_ℤ (int_div (nanos_of delta) nanos_per_day) };

    fn sub(self, rhs: TimeDelta) -> NaiveDate {
        self.days_later(-(rhs.num_days() as i128)).unwrap()
    }
}

impl AddAssign<TimeDelta> for NaiveDate {
    ghost can_add_assign = { λ date delta. let days = int_div (nanos_of delta) nanos_per_day in
        MayShowDay (day_of date) (day_of date +ℤ days) };

    ghost add_assign_gives = { λ date delta later. day_of later
        ≡ day_of date +ℤ int_div (nanos_of delta) nanos_per_day };

    fn add_assign(&mut self, rhs: TimeDelta) {
        *self = *self + rhs;
    }
}

impl SubAssign<TimeDelta> for NaiveDate {
    ghost can_sub_assign = { λ date delta. let days = int_div (nanos_of delta) nanos_per_day in
        MayShowDay (day_of date) (day_of date +ℤ neg_ℤ days) };

    ghost sub_assign_gives = { λ date delta earlier. day_of earlier
        ≡ day_of date +ℤ neg_ℤ (int_div (nanos_of delta) nanos_per_day) };

    fn sub_assign(&mut self, rhs: TimeDelta) {
        *self = *self - rhs;
    }
}

/// [`NaiveDate::checked_add_days`], which must return a date.
impl Add<Days> for NaiveDate {
    type Output = NaiveDate;

    ghost can_add = { λ date days.
        MayShowDay (day_of date) (day_of date +ℤ pos (days_of days)) };

    ghost add_gives = { λ date days later. day_of later ≡ day_of date +ℤ pos (days_of days) };

    fn add(self, rhs: Days) -> NaiveDate {
        self.days_later(rhs.count() as i128).unwrap()
    }
}

/// [`NaiveDate::checked_sub_days`], which must return a date.
impl Sub<Days> for NaiveDate {
    type Output = NaiveDate;

    ghost can_sub = { λ date days.
        MayShowDay (day_of date) (day_of date +ℤ neg_ℤ (pos (days_of days))) };

    ghost sub_gives = { λ date days earlier. day_of earlier
        ≡ day_of date +ℤ neg_ℤ (pos (days_of days)) };

    fn sub(self, rhs: Days) -> NaiveDate {
        self.days_later(-(rhs.count() as i128)).unwrap()
    }
}

/// [`NaiveDate::checked_add_months`]. The year that many months later must be in range.
impl Add<Months> for NaiveDate {
    type Output = NaiveDate;

    ghost can_add = { λ date months.
        IsYearInRange (year_of_number (month_after (day_of date) (pos (months_of months)))) };

    ghost add_gives = { λ date months later.
        IsMonthsLater day_of IsDateOn (day_of date) (pos (months_of months)) (Some later) };

    fn add(self, rhs: Months) -> NaiveDate {
        self.checked_add_months(rhs).unwrap()
    }
}

/// [`NaiveDate::checked_sub_months`]. The year that many months earlier must be in range.
impl Sub<Months> for NaiveDate {
    type Output = NaiveDate;

    ghost can_sub = { λ date months. IsYearInRange
        (year_of_number (month_after (day_of date) (neg_ℤ (pos (months_of months))))) };

    ghost sub_gives = { λ date months earlier.
        IsMonthsLater day_of IsDateOn (day_of date) (neg_ℤ (pos (months_of months)))
        (Some earlier) };

    fn sub(self, rhs: Months) -> NaiveDate {
        self.checked_sub_months(rhs).unwrap()
    }
}

/// [`NaiveDate::signed_duration_since`].
impl Sub for NaiveDate {
    type Output = TimeDelta;

    ghost sub_gives = { λ date other delta. nanos_of delta
        ≡ (day_of date -ℤ day_of other) *ℤ nanos_per_day };

    fn sub(self, rhs: NaiveDate) -> TimeDelta {
        self.signed_duration_since(rhs)
    }
}

/// 1970-01-01, as chrono has it.
impl Default for NaiveDate {
    ghost is_default = { λ date. day_of date ≡ pos 0 };

    fn default() -> NaiveDate {
        NaiveDate { day: 0 }
    }
}
