//! The operators of local date-times. Each requires a result in range; the checked forms return `None` for
//! any other.
ghost use Rattle.std.specs.Prelude.{◌≡◌, ◌+ℤ◌, neg_ℤ, pos, Some};
ghost use Rattle.{
  naive_base.specs.{Fields.{month_after, IsMonthsLater, MayShowDay}, Range.{IsInRange, IsYearInRange}},
  naive_base.specs.{Months.{days_of, months_of, year_of_number}, NaiveDateTime.{day_shown_by, reading, IsReadingOnDay}},
  naive_base.specs.Reading.{ahead, behind, day_at, difference, moved, reading_at, second_at},
  offset_core.specs.{FixedOffset.{seconds_of}, TimeDelta.{nanos_of}},
};

use crate::{Days, Months, NaiveDateTime};
use offset_core::{FixedOffset, TimeDelta};
use std::ops::{Add, AddAssign, Sub, SubAssign};

/// [`NaiveDateTime::checked_add_signed`], which must return a value.
///
/// ```
/// let later = start + TimeDelta::minutes(90); // 2022-01-01 00:30:00
/// let length = later - start; // 90 minutes
/// let tomorrow = start + Days::new(1); // 2022-01-01 23:00:00
/// ```
impl Add<TimeDelta> for NaiveDateTime {
    type Output = NaiveDateTime;

    ghost can_add = { λ r delta. IsInRange (moved (reading r) (nanos_of delta)).s };

    ghost add_gives = { λ r delta later. reading later ≡ moved (reading r) (nanos_of delta) };

    fn add(self, rhs: TimeDelta) -> NaiveDateTime {
        self.checked_add_signed(rhs).unwrap()
    }
}

/// [`NaiveDateTime::checked_sub_signed`], which must return a value.
impl Sub<TimeDelta> for NaiveDateTime {
    type Output = NaiveDateTime;

    ghost can_sub = { λ r delta. IsInRange (moved (reading r) (neg_ℤ (nanos_of delta))).s };

    ghost sub_gives = { λ r delta earlier. reading earlier
        ≡ moved (reading r) (neg_ℤ (nanos_of delta)) };

    fn sub(self, rhs: TimeDelta) -> NaiveDateTime {
        self.checked_sub_signed(rhs).unwrap()
    }
}

impl AddAssign<TimeDelta> for NaiveDateTime {
    ghost can_add_assign = { λ r delta. IsInRange (moved (reading r) (nanos_of delta)).s };

    ghost add_assign_gives = { λ r delta later. reading later
        ≡ moved (reading r) (nanos_of delta) };

    fn add_assign(&mut self, rhs: TimeDelta) {
        *self = *self + rhs;
    }
}

impl SubAssign<TimeDelta> for NaiveDateTime {
    ghost can_sub_assign = { λ r delta.
        IsInRange (moved (reading r) (neg_ℤ (nanos_of delta))).s };

    ghost sub_assign_gives = { λ r delta earlier. reading earlier
        ≡ moved (reading r) (neg_ℤ (nanos_of delta)) };

    fn sub_assign(&mut self, rhs: TimeDelta) {
        *self = *self - rhs;
    }
}

/// [`NaiveDateTime::checked_add_offset`], which must return a value.
///
/// ```
/// let local = utc + FixedOffset::east(3600); // 2021-03-14 01:00:00
/// ```
impl Add<FixedOffset> for NaiveDateTime {
    type Output = NaiveDateTime;

    ghost can_add = { λ r offset. IsInRange (ahead (reading r) (seconds_of offset)).s };

    ghost add_gives = { λ r offset later. reading later ≡ ahead (reading r) (seconds_of offset) };

    fn add(self, rhs: FixedOffset) -> NaiveDateTime {
        self.checked_add_offset(rhs).unwrap()
    }
}

/// [`NaiveDateTime::checked_sub_offset`], which must return a value.
impl Sub<FixedOffset> for NaiveDateTime {
    type Output = NaiveDateTime;

    ghost can_sub = { λ r offset. IsInRange (behind (reading r) (seconds_of offset)).s };

    ghost sub_gives = { λ r offset earlier. reading earlier
        ≡ behind (reading r) (seconds_of offset) };

    fn sub(self, rhs: FixedOffset) -> NaiveDateTime {
        self.checked_sub_offset(rhs).unwrap()
    }
}

/// [`NaiveDateTime::checked_add_days`], which must return a value.
impl Add<Days> for NaiveDateTime {
    type Output = NaiveDateTime;

    ghost can_add = { λ r days. let day = day_at (reading r) in
        MayShowDay day (day +ℤ pos (days_of days)) };

    ghost add_gives = { λ r days later. reading later
        ≡ reading_at (day_at (reading r) +ℤ pos (days_of days)) (second_at (reading r))
        (reading r).f };

    fn add(self, rhs: Days) -> NaiveDateTime {
        (self.date() + rhs).and_time(self.time())
    }
}

/// [`NaiveDateTime::checked_sub_days`], which must return a value.
impl Sub<Days> for NaiveDateTime {
    type Output = NaiveDateTime;

    ghost can_sub = { λ r days. let day = day_at (reading r) in
        MayShowDay day (day +ℤ neg_ℤ (pos (days_of days))) };

    ghost sub_gives = { λ r days earlier. reading earlier
        ≡ reading_at (day_at (reading r) +ℤ neg_ℤ (pos (days_of days))) (second_at (reading r))
        (reading r).f };

    fn sub(self, rhs: Days) -> NaiveDateTime {
        (self.date() - rhs).and_time(self.time())
    }
}

/// [`NaiveDateTime::checked_add_months`]. The year that many months later must be in range.
impl Add<Months> for NaiveDateTime {
    type Output = NaiveDateTime;

    ghost can_add = { λ r months. IsYearInRange
        (year_of_number (month_after (day_shown_by r) (pos (months_of months)))) };

    ghost add_gives = { λ r months later. IsMonthsLater day_shown_by
        (IsReadingOnDay (reading r)) (day_shown_by r) (pos (months_of months)) (Some later) };

    fn add(self, rhs: Months) -> NaiveDateTime {
        self.checked_add_months(rhs).unwrap()
    }
}

/// [`NaiveDateTime::checked_sub_months`]. The year that many months earlier must be in range.
impl Sub<Months> for NaiveDateTime {
    type Output = NaiveDateTime;

    ghost can_sub = { λ r months. IsYearInRange
        (year_of_number (month_after (day_shown_by r) (neg_ℤ (pos (months_of months))))) };

    ghost sub_gives = { λ r months earlier. IsMonthsLater day_shown_by
        (IsReadingOnDay (reading r)) (day_shown_by r) (neg_ℤ (pos (months_of months)))
        (Some earlier) };

    fn sub(self, rhs: Months) -> NaiveDateTime {
        self.checked_sub_months(rhs).unwrap()
    }
}

/// [`NaiveDateTime::signed_duration_since`].
impl Sub for NaiveDateTime {
    type Output = TimeDelta;

    ghost sub_gives = { λ r other delta. nanos_of delta
        ≡ difference (reading r) (reading other) };

    fn sub(self, rhs: NaiveDateTime) -> TimeDelta {
        self.signed_duration_since(rhs)
    }
}
