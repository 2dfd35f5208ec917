//! Times moved by a length of time, past midnight too, and the time between two.
ghost use Rattle.std.specs.Prelude.{◌≡◌, ◌<◌, ◌*ℤ◌, neg_ℤ, pos};
ghost use Rattle.{
  naive_base.specs.{Fields.{time_at}, Reading.{ahead, behind, day_at, difference, moved, reading_at}},
  naive_base.specs.{NaiveDateTime.{reading}, NaiveTime.{fraction_of, second_of, time_of}, Stamp.{of_secs}},
  naive_base.specs.Steps.Moves.{IsWithin},
  offset_core.specs.{FixedOffset.{seconds_of}, TimeDelta.{nanos_of}},
};

use crate::{NaiveDate, NaiveDateTime, NaiveTime};
use offset_core::{FixedOffset, TimeDelta};
use std::ops::{Add, AddAssign, Sub, SubAssign};

impl NaiveTime {
    /// Returns the time that much later, or earlier for a negative length, and the seconds of the
    /// whole days that this passes over.
    ///
    /// A leap second counts as in [`NaiveDateTime::checked_add_signed`].
    ///
    /// ```
    /// let time = NaiveTime::from_hms_opt(3, 4, 5)?;
    /// let later = time.overflowing_add_signed(TimeDelta::hours(11)); // (14:04:05, 0)
    /// let next_day = time.overflowing_add_signed(TimeDelta::hours(23)); // (02:04:05, 86_400)
    /// let day_before = time.overflowing_add_signed(TimeDelta::hours(-7)); // (20:04:05, -86_400)
    /// ```
    pub fn overflowing_add_signed(&self, rhs: TimeDelta) -> (NaiveTime, i64)
        ensures time { let day = reading_at (pos 0) (second_of self.now) (fraction_of self.now) in
            time_of result.0 ≡ time_at (moved day (nanos_of rhs)) }
        ensures days { let day = reading_at (pos 0) (second_of self.now) (fraction_of self.now) in
            result.1 ≡ day_at (moved day (nanos_of rhs)) *ℤ pos 86_400 }
    {
        let (secs, frac) = self.on_epoch().moved(rhs);
        time_and_days(secs, frac)
    }

    /// Returns the time that much earlier, or later for a negative length, and the seconds of the
    /// whole days that this passes over, positive if it is earlier.
    ///
    /// ```
    /// let time = NaiveTime::from_hms_opt(8, 30, 0)?;
    /// let earlier = time.overflowing_sub_signed(TimeDelta::hours(2)); // (06:30:00, 0)
    /// let day_before = time.overflowing_sub_signed(TimeDelta::hours(9)); // (23:30:00, 86400)
    /// ```
    pub fn overflowing_sub_signed(&self, rhs: TimeDelta) -> (NaiveTime, i64)
        ensures time { let day = reading_at (pos 0) (second_of self.now) (fraction_of self.now) in
            time_of result.0 ≡ time_at (moved day (neg_ℤ (nanos_of rhs))) }
        ensures days { let day = reading_at (pos 0) (second_of self.now) (fraction_of self.now) in
            result.1 ≡ neg_ℤ (day_at (moved day (neg_ℤ (nanos_of rhs))) *ℤ pos 86_400) }
    {
        let (time, days) = self.overflowing_add_signed(-rhs);
        (time, -days)
    }

    /// Returns the time from another time of the same day to this one, negative if this one is
    /// earlier.
    ///
    /// A leap second counts as in [`NaiveDateTime::signed_duration_since`].
    ///
    /// ```
    /// let start = NaiveTime::from_hms_opt(8, 30, 0)?;
    /// let length = NaiveTime::from_hms_opt(12, 0, 0)?.signed_duration_since(start); // 12,600 seconds
    /// ```
    pub fn signed_duration_since(self, rhs: NaiveTime) -> TimeDelta
        ensures { nanos_of result ≡ difference
            (reading_at (pos 0) (second_of self) (fraction_of self))
            (reading_at (pos 0) (second_of rhs) (fraction_of rhs)) }
    {
        self.on_epoch().signed_duration_since(rhs.on_epoch())
    }

    // The time on 1970-01-01.
    fn on_epoch(&self) -> NaiveDateTime
        ensures { reading result ≡ reading_at (pos 0) (second_of self.now) (fraction_of self.now) }
    {
        NaiveDate::default().and_time(*self)
    }
}

// The time of day of a local date-time, and the seconds from 1970-01-01 to its day.
fn time_and_days(secs: i64, frac: u32) -> (NaiveTime, i64)
    requires second { IsWithin 100_000_000_000_000_000 secs }
    requires fraction { frac < 2_000_000_000 }
    ensures time { time_of result.0 ≡ time_at (of_secs secs frac) }
    ensures days { result.1 ≡ day_at (of_secs secs frac) *ℤ pos 86_400 }
{
    let time = NaiveTime::of_second(secs, frac);
    (time, secs - time.num_seconds_from_midnight() as i64)
}

/// [`NaiveTime::overflowing_add_signed`] without the days: after midnight the time goes on.
impl Add<TimeDelta> for NaiveTime {
    type Output = NaiveTime;

    ghost add_gives = { λ time delta later. time_of later ≡ time_at
        (moved (reading_at (pos 0) (second_of time) (fraction_of time)) (nanos_of delta)) };

    fn add(self, rhs: TimeDelta) -> NaiveTime {
        let (time, _) = self.overflowing_add_signed(rhs);
        time
    }
}

/// [`NaiveTime::overflowing_sub_signed`] without the days.
impl Sub<TimeDelta> for NaiveTime {
    type Output = NaiveTime;

    ghost sub_gives = { λ time delta earlier. time_of earlier ≡ time_at
        (moved (reading_at (pos 0) (second_of time) (fraction_of time)) (neg_ℤ (nanos_of delta))) };

    fn sub(self, rhs: TimeDelta) -> NaiveTime {
        let (time, _) = self.overflowing_sub_signed(rhs);
        time
    }
}

impl AddAssign<TimeDelta> for NaiveTime {
    ghost add_assign_gives = { λ time delta later. time_of later ≡ time_at
        (moved (reading_at (pos 0) (second_of time) (fraction_of time)) (nanos_of delta)) };

    fn add_assign(&mut self, rhs: TimeDelta) {
        *self = *self + rhs;
    }
}

impl SubAssign<TimeDelta> for NaiveTime {
    ghost sub_assign_gives = { λ time delta earlier. time_of earlier ≡ time_at
        (moved (reading_at (pos 0) (second_of time) (fraction_of time)) (neg_ℤ (nanos_of delta))) };

    fn sub_assign(&mut self, rhs: TimeDelta) {
        *self = *self - rhs;
    }
}

/// The time that a clock with that offset shows when one without shows this: past midnight it goes
/// on, and a leap second stays one.
///
/// ```
/// let late = NaiveTime::from_hms_opt(23, 30, 0)? + FixedOffset::east(3600); // 00:30:00
/// ```
impl Add<FixedOffset> for NaiveTime {
    type Output = NaiveTime;

    ghost add_gives = { λ time offset later. time_of later ≡ time_at
        (ahead (reading_at (pos 0) (second_of time) (fraction_of time)) (seconds_of offset)) };

    fn add(self, rhs: FixedOffset) -> NaiveTime {
        self.on_epoch().overflowing_add_offset(rhs).time()
    }
}

/// The time that a clock without an offset shows when one with it shows this.
impl Sub<FixedOffset> for NaiveTime {
    type Output = NaiveTime;

    ghost sub_gives = { λ time offset earlier. time_of earlier ≡ time_at
        (behind (reading_at (pos 0) (second_of time) (fraction_of time)) (seconds_of offset)) };

    fn sub(self, rhs: FixedOffset) -> NaiveTime {
        self.on_epoch().checked_sub_offset(rhs).unwrap().time()
    }
}

/// [`NaiveTime::signed_duration_since`].
impl Sub for NaiveTime {
    type Output = TimeDelta;

    ghost sub_gives = { λ time other delta. nanos_of delta ≡ difference
        (reading_at (pos 0) (second_of time) (fraction_of time))
        (reading_at (pos 0) (second_of other) (fraction_of other)) };

    fn sub(self, rhs: NaiveTime) -> TimeDelta {
        self.signed_duration_since(rhs)
    }
}

/// Midnight.
impl Default for NaiveTime {
    ghost is_default = { λ time. (second_of time ≡ 0) × (fraction_of time ≡ 0) };

    fn default() -> NaiveTime {
        NaiveTime::MIN
    }
}
