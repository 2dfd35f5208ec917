//! The operators of instants, which ask that the result exists. If it may not, call the checked
//! form.
ghost use Rattle.std.specs.{Duration.{as_nanos}, Prelude.{◌≡◌, neg_ℤ, pos, Some}};
ghost use Rattle.{
  naive_base.specs.{Months.{days_of, months_of}, Range.{IsInRange}, Reading.{ahead, behind, difference}},
  offset_core.specs.{FixedOffset.{seconds_of}, Nanoseconds.{FitsTimeDelta}, TimeDelta.{nanos_of}},
};
ghost use Rattle.zoned_time.specs.DateTime as shown;

use super::DateTime;
use crate::TimeZone;
use naive_base::{Days, Months};
use offset_core::{FixedOffset, TimeDelta};
use std::ops::{Add, AddAssign, Sub, SubAssign};
use std::time::Duration;

/// [`DateTime::checked_add_signed`], if it returns a value.
///
/// ```
/// let start = Utc.timestamp(1_636_264_800, 0); // 2021-11-07 06:00:00 UTC
/// start + TimeDelta::hours(1) // 2021-11-07 07:00:00 UTC
/// start + Months::new(1) // 2021-12-07 06:00:00 UTC
/// (start + TimeDelta::hours(1)) - start // 60 minutes
/// ```
impl<Tz: TimeZone> Add<TimeDelta> for DateTime<Tz> {
    type Output = DateTime<Tz>;

    ghost can_add = { λ d t. shown.CanMove d (nanos_of t) };

    ghost add_gives = { λ d t r. shown.IsMoved Tz.meaning d (nanos_of t) r };

    fn add(self, rhs: TimeDelta) -> DateTime<Tz> {
        self.checked_add_signed(rhs).unwrap()
    }
}

/// [`DateTime::checked_sub_signed`], if it returns a value.
impl<Tz: TimeZone> Sub<TimeDelta> for DateTime<Tz> {
    type Output = DateTime<Tz>;

    ghost can_sub = { λ d t. shown.CanMove d (neg_ℤ (nanos_of t)) };

    ghost sub_gives = { λ d t r. shown.IsMoved Tz.meaning d (neg_ℤ (nanos_of t)) r };

    fn sub(self, rhs: TimeDelta) -> DateTime<Tz> {
        self.checked_sub_signed(rhs).unwrap()
    }
}

impl<Tz: TimeZone> AddAssign<TimeDelta> for DateTime<Tz> {
    ghost can_add_assign = { λ d t. shown.CanMove d (nanos_of t) };

    ghost add_assign_gives = { λ d t r. shown.IsMoved Tz.meaning d (nanos_of t) r };

    fn add_assign(&mut self, rhs: TimeDelta) {
        *self = *self + rhs;
    }
}

impl<Tz: TimeZone> SubAssign<TimeDelta> for DateTime<Tz> {
    ghost can_sub_assign = { λ d t. shown.CanMove d (neg_ℤ (nanos_of t)) };

    ghost sub_assign_gives = { λ d t r. shown.IsMoved Tz.meaning d (neg_ℤ (nanos_of t)) r };

    fn sub_assign(&mut self, rhs: TimeDelta) {
        *self = *self - rhs;
    }
}

/// Adds a `Duration` of std. Requires: [`TimeDelta::from_std`] and [`DateTime::checked_add_signed`]
/// succeed.
impl<Tz: TimeZone> Add<Duration> for DateTime<Tz> {
    type Output = DateTime<Tz>;

    ghost can_add = { λ d t. FitsTimeDelta (pos (as_nanos t)) × shown.CanMove d (pos (as_nanos t)) };

    ghost add_gives = { λ d t r. shown.IsMoved Tz.meaning d (pos (as_nanos t)) r };

    fn add(self, rhs: Duration) -> DateTime<Tz> {
        self + TimeDelta::from_std(rhs).unwrap()
    }
}

/// Subtracts a `Duration` of std. Requires: [`TimeDelta::from_std`] and
/// [`DateTime::checked_sub_signed`] succeed.
impl<Tz: TimeZone> Sub<Duration> for DateTime<Tz> {
    type Output = DateTime<Tz>;

    ghost can_sub = { λ d t.
        FitsTimeDelta (pos (as_nanos t)) × shown.CanMove d (neg_ℤ (pos (as_nanos t))) };

    ghost sub_gives = { λ d t r. shown.IsMoved Tz.meaning d (neg_ℤ (pos (as_nanos t))) r };

    fn sub(self, rhs: Duration) -> DateTime<Tz> {
        self - TimeDelta::from_std(rhs).unwrap()
    }
}

impl<Tz: TimeZone> AddAssign<Duration> for DateTime<Tz> {
    ghost can_add_assign = { λ d t.
        FitsTimeDelta (pos (as_nanos t)) × shown.CanMove d (pos (as_nanos t)) };

    ghost add_assign_gives = { λ d t r. shown.IsMoved Tz.meaning d (pos (as_nanos t)) r };

    fn add_assign(&mut self, rhs: Duration) {
        *self = *self + rhs;
    }
}

impl<Tz: TimeZone> SubAssign<Duration> for DateTime<Tz> {
    ghost can_sub_assign = { λ d t. FitsTimeDelta (pos (as_nanos t))
        × shown.CanMove d (neg_ℤ (pos (as_nanos t))) };

    ghost sub_assign_gives = { λ d t r. shown.IsMoved Tz.meaning d (neg_ℤ (pos (as_nanos t))) r };

    fn sub_assign(&mut self, rhs: Duration) {
        *self = *self - rhs;
    }
}

/// The instant whose UTC date-time is that many seconds later, with this one's offset. It is in
/// range.
impl<Tz: TimeZone> Add<FixedOffset> for DateTime<Tz> {
    type Output = DateTime<Tz>;

    ghost can_add = { λ d o. IsInRange (ahead (shown.zoned d).utc (seconds_of o)).s };

    ghost add_gives = { λ d o r. shown.IsSetTo d (ahead (shown.zoned d).utc (seconds_of o)) r };

    fn add(self, rhs: FixedOffset) -> DateTime<Tz> {
        let utc = self.datetime.checked_add_offset(rhs).unwrap();
        DateTime::from_naive_utc_and_offset(utc, self.offset)
    }
}

/// The instant whose UTC date-time is that many seconds earlier, with this one's offset. It is in
/// range.
impl<Tz: TimeZone> Sub<FixedOffset> for DateTime<Tz> {
    type Output = DateTime<Tz>;

    ghost can_sub = { λ d o. IsInRange (behind (shown.zoned d).utc (seconds_of o)).s };

    ghost sub_gives = { λ d o r. shown.IsSetTo d (behind (shown.zoned d).utc (seconds_of o)) r };

    fn sub(self, rhs: FixedOffset) -> DateTime<Tz> {
        let utc = self.datetime.checked_sub_offset(rhs).unwrap();
        DateTime::from_naive_utc_and_offset(utc, self.offset)
    }
}

/// [`DateTime::signed_duration_since`].
impl<Tz: TimeZone> Sub<DateTime<Tz>> for DateTime<Tz> {
    type Output = TimeDelta;

    ghost sub_gives = { λ d e r. nanos_of r ≡ difference (shown.zoned d).utc (shown.zoned e).utc };

    fn sub(self, rhs: DateTime<Tz>) -> TimeDelta {
        self.signed_duration_since(&rhs)
    }
}

/// [`DateTime::signed_duration_since`].
impl<Tz: TimeZone> Sub<&DateTime<Tz>> for DateTime<Tz> {
    type Output = TimeDelta;

    ghost sub_gives = { λ d e r. nanos_of r ≡ difference (shown.zoned d).utc (shown.zoned e.now).utc };

    fn sub(self, rhs: &DateTime<Tz>) -> TimeDelta {
        self.signed_duration_since(rhs)
    }
}

/// [`DateTime::checked_add_months`], if it returns a value.
impl<Tz: TimeZone> Add<Months> for DateTime<Tz> {
    type Output = DateTime<Tz>;

    ghost can_add = { λ d n.
        (e : _) × shown.IsOnlyMonthsLater Tz.meaning d (pos (months_of n)) (Some e) };

    ghost add_gives = { λ d n r. shown.IsOnlyMonthsLater Tz.meaning d (pos (months_of n)) (Some r) };

    fn add(self, rhs: Months) -> DateTime<Tz> {
        self.checked_add_months(rhs).unwrap()
    }
}

/// [`DateTime::checked_sub_months`], if it returns a value.
impl<Tz: TimeZone> Sub<Months> for DateTime<Tz> {
    type Output = DateTime<Tz>;

    ghost can_sub = { λ d n.
        (e : _) × shown.IsOnlyMonthsLater Tz.meaning d (neg_ℤ (pos (months_of n))) (Some e) };

    ghost sub_gives = { λ d n r.
        shown.IsOnlyMonthsLater Tz.meaning d (neg_ℤ (pos (months_of n))) (Some r) };

    fn sub(self, rhs: Months) -> DateTime<Tz> {
        self.checked_sub_months(rhs).unwrap()
    }
}

/// [`DateTime::checked_add_days`], if it returns a value.
impl<Tz: TimeZone> Add<Days> for DateTime<Tz> {
    type Output = DateTime<Tz>;

    ghost can_add = { λ d n. (e : _) × shown.IsDaysAdded Tz.meaning d (days_of n) (Some e) };

    ghost add_gives = { λ d n r. shown.IsDaysAdded Tz.meaning d (days_of n) (Some r) };

    fn add(self, rhs: Days) -> DateTime<Tz> {
        self.checked_add_days(rhs).unwrap()
    }
}

/// [`DateTime::checked_sub_days`], if it returns a value.
impl<Tz: TimeZone> Sub<Days> for DateTime<Tz> {
    type Output = DateTime<Tz>;

    ghost can_sub = { λ d n.
        (e : _) × shown.IsOnlyDaysLater Tz.meaning d (neg_ℤ (pos (days_of n))) (Some e) };

    ghost sub_gives = { λ d n r. shown.IsOnlyDaysLater Tz.meaning d (neg_ℤ (pos (days_of n))) (Some r) };

    fn sub(self, rhs: Days) -> DateTime<Tz> {
        self.checked_sub_days(rhs).unwrap()
    }
}
