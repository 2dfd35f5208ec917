//! Local date-times moved by a length of time, and the time between two.
ghost use Rattle.std.specs.Prelude.{◌≡◌, ◌<◌, ◌<ℤ◌, ◌≤ℤ◌, ◌+ℤ◌, ◌-ℤ◌, ◌*ℤ◌, int_div, int_rem, neg_ℤ, pos};
ghost use Rattle.{
  naive_base.specs.{NaiveDateTime.{reading, IsReadingOf}, Steps.Moves.{IsShort, IsSmall, IsWithin}},
  naive_base.specs.Reading.{difference, leap_between, moved, moved_leap, of_total, total},
  offset_core.specs.{Nanoseconds.{nanos_per_second}, TimeDelta.{nanos_of}},
};

use crate::NaiveDateTime;
use offset_core::TimeDelta;

const NANOS_PER_SECOND: i128 = 1_000_000_000;

// The length of that many seconds and nanoseconds.
fn sum_of(secs: i64, nanos: i32) -> TimeDelta
    requires secs { IsWithin 20_000_000_000_000 secs }
    requires nanos { IsWithin 1_999_999_999 nanos }
    ensures { nanos_of result ≡ secs *ℤ pos 1_000_000_000 +ℤ nanos }
{
    if nanos < -1_000_000_000 {
        return near_sum(secs - 1, nanos + 1_000_000_000);
    }
    if nanos >= 1_000_000_000 {
        return near_sum(secs + 1, nanos - 1_000_000_000);
    }
    near_sum(secs, nanos)
}

// The sum of a second and nanoseconds that are a second at most.
fn near_sum(secs: i64, nanos: i32) -> TimeDelta
    requires secs { IsWithin 20_000_000_000_001 secs }
    requires least { neg_ℤ (pos 1_000_000_000) ≤ℤ nanos }
    requires greatest { nanos <ℤ pos 1_000_000_000 }
    ensures { nanos_of result ≡ secs *ℤ pos 1_000_000_000 +ℤ nanos }
{
    if nanos < 0 {
        return TimeDelta::from_parts(secs - 1, (nanos + 1_000_000_000) as u32);
    }
    TimeDelta::from_parts(secs, nanos as u32)
}

// The second and the nanoseconds of a local date-time that is no leap second.
fn parts_of(total: i128) -> (i64, u32)
    requires { IsSmall total }
    ensures value { record { s = result.0; f = result.1 } ≡ of_total total }
    ensures second { IsWithin 100_000_000_000_000_000 result.0 }
    ensures fraction { result.1 < 1_000_000_000 }
{
    (
        total.div_euclid(NANOS_PER_SECOND) as i64,
        total.rem_euclid(NANOS_PER_SECOND) as u32,
    )
}

// The same, of a number of seconds and of nanoseconds, which may be negative or more than a second.
fn carried(secs: i64, nanos: i32) -> (i64, u32)
    requires second { IsWithin 50_000_000_000_000_000 secs }
    requires least { neg_ℤ (pos 1_000_000_000) ≤ℤ nanos }
    requires greatest { nanos <ℤ pos 2_000_000_000 }
    ensures value { record { s = result.0; f = result.1 }
        ≡ of_total (secs *ℤ pos 1_000_000_000 +ℤ nanos) }
    ensures second { IsWithin 100_000_000_000_000_000 result.0 }
    ensures fraction { result.1 < 1_000_000_000 }
{
    if nanos < 0 {
        return (secs - 1, (nanos + 1_000_000_000) as u32);
    }
    if nanos >= 1_000_000_000 {
        return (secs + 1, (nanos - 1_000_000_000) as u32);
    }
    (secs, nanos as u32)
}

impl NaiveDateTime {
    /// Returns the local date-time that much later, or earlier for a negative length. `None` if
    /// that isn't in range.
    ///
    /// A leap second counts only if the local date-time itself lies in it. From 23:59:59 with
    /// 1,750,500,000 nanoseconds on 2016-12-31, a move by 249,500,000 nanoseconds gives midnight,
    /// and one by -750,500,000 the leap second's start.
    ///
    /// ```
    /// let start = NaiveDate::from_ymd_opt(2021, 12, 31)?.and_hms_opt(23, 0, 0)?;
    /// let later = start.checked_add_signed(TimeDelta::minutes(90)); // Some(2022-01-01T00:30:00)
    /// ```
    pub fn checked_add_signed(self, rhs: TimeDelta) -> Option<NaiveDateTime>
        ensures { IsReadingOf (moved (reading self) (nanos_of rhs)) result }
    {
        let (secs, frac) = self.moved(rhs);
        NaiveDateTime::at_second(secs, frac)
    }

    /// Returns the local date-time that much earlier, or later for a negative length. `None` if
    /// that isn't in range.
    ///
    /// The same as [`NaiveDateTime::checked_add_signed`] of the opposite length.
    ///
    /// ```
    /// let start = NaiveDate::from_ymd_opt(2022, 1, 1)?.and_hms_opt(0, 30, 0)?;
    /// let earlier = start.checked_sub_signed(TimeDelta::minutes(90)); // Some(2021-12-31T23:00:00)
    /// ```
    pub fn checked_sub_signed(self, rhs: TimeDelta) -> Option<NaiveDateTime>
        ensures { IsReadingOf (moved (reading self) (neg_ℤ (nanos_of rhs))) result }
    {
        let (secs, frac) = self.moved(-rhs);
        NaiveDateTime::at_second(secs, frac)
    }

    // The second and the nanoseconds of the local date-time that much later.
    pub(crate) fn moved(self, delta: TimeDelta) -> (i64, u32)
        ensures value { record { s = result.0; f = result.1 }
            ≡ moved (reading self) (nanos_of delta) }
        ensures second { IsWithin 100_000_000_000_000_000 result.0 }
        ensures fraction { result.1 < 2_000_000_000 }
    {
        if self.frac < 1_000_000_000 {
            let (secs, nanos) = self.parts_after(delta);
            return carried(secs, nanos);
        }
        self.moved_leap(self.within_after(delta))
    }

    // The second and the nanoseconds that lie `within` nanoseconds after the start of this second;
    // a leap second follows it.
    fn moved_leap(self, within: i128) -> (i64, u32)
        requires { IsShort within }
        ensures value { record { s = result.0; f = result.1 } ≡ moved_leap (reading self).s within }
        ensures second { IsWithin 100_000_000_000_000_000 result.0 }
        ensures fraction { result.1 < 2_000_000_000 }
    {
        if within < 0 {
            return parts_of(self.total_at(within));
        }
        if within >= 2_000_000_000 {
            return parts_of(self.total_past(within));
        }
        (self.secs, within as u32)
    }

    // The seconds and the nanoseconds, each so much later.
    fn parts_after(self, delta: TimeDelta) -> (i64, i32)
        requires { (reading self).f < 1_000_000_000 }
        ensures value { result.0 *ℤ pos 1_000_000_000 +ℤ result.1
            ≡ total (reading self) +ℤ nanos_of delta }
        ensures bound { IsWithin 50_000_000_000_000_000 result.0 }
        ensures least { neg_ℤ (pos 1_000_000_000) ≤ℤ result.1 }
        ensures greatest { result.1 <ℤ pos 2_000_000_000 }
    {
        (self.second_after(delta), self.nanos_after(delta))
    }

    fn second_after(self, delta: TimeDelta) -> i64
        ensures value { result ≡ (reading self).s +ℤ int_div (nanos_of delta) nanos_per_second }
        ensures bound { IsWithin 50_000_000_000_000_000 result }
    {
        self.secs + delta.num_seconds()
    }

    fn nanos_after(self, delta: TimeDelta) -> i32
        requires { (reading self).f < 1_000_000_000 }
        ensures value { result ≡ pos (reading self).f +ℤ int_rem (nanos_of delta) nanos_per_second }
        ensures least { neg_ℤ (pos 1_000_000_000) ≤ℤ result }
        ensures greatest { result <ℤ pos 2_000_000_000 }
    {
        self.frac as i32 + delta.subsec_nanos()
    }

    // The nanoseconds since this second began, so much later.
    fn within_after(self, delta: TimeDelta) -> i128
        ensures value { result ≡ pos (reading self).f +ℤ nanos_of delta }
        ensures bound { IsShort result }
    {
        self.frac as i128 + delta.whole_nanoseconds()
    }

    // All of it in nanoseconds, at that many from the start of this second.
    fn total_at(self, within: i128) -> i128
        requires { IsShort within }
        ensures value { result ≡ (reading self).s *ℤ pos 1_000_000_000 +ℤ within }
        ensures bound { IsSmall result }
    {
        self.secs as i128 * NANOS_PER_SECOND + within
    }

    // The same, if the leap second lies between.
    fn total_past(self, within: i128) -> i128
        requires { IsShort within }
        ensures value { result ≡ (reading self).s *ℤ pos 1_000_000_000 +ℤ within -ℤ pos
            1_000_000_000 }
        ensures bound { IsSmall result }
    {
        self.secs as i128 * NANOS_PER_SECOND + within - NANOS_PER_SECOND
    }

    /// Returns the time from another local date-time to this one, negative if this one is earlier.
    ///
    /// The own leap second of a local date-time counts if its second of the day is less than the
    /// other's, whatever the days: from 00:00:59 with 1,500,000,000 nanoseconds to 00:01:00 it is
    /// half a second.
    ///
    /// ```
    /// let date = NaiveDate::from_ymd_opt(2021, 3, 14)?;
    /// let start = date.and_hms_opt(8, 30, 0)?;
    /// let length = date.and_hms_opt(12, 0, 0)?.signed_duration_since(start); // 12,600 seconds
    /// ```
    pub fn signed_duration_since(self, rhs: NaiveDateTime) -> TimeDelta
        ensures { nanos_of result ≡ difference (reading self) (reading rhs) }
    {
        if self.frac < 1_000_000_000 && rhs.frac < 1_000_000_000 {
            return self.plain_duration_since(rhs);
        }
        self.leap_duration_since(rhs)
    }

    // The same, where neither lies in a leap second.
    fn plain_duration_since(self, rhs: NaiveDateTime) -> TimeDelta
        requires this { (reading self).f < 1_000_000_000 }
        requires other { (reading rhs).f < 1_000_000_000 }
        ensures { nanos_of result ≡ difference (reading self) (reading rhs) }
    {
        let secs = self.seconds_from(rhs);
        if self.frac < rhs.frac {
            return TimeDelta::from_parts(secs - 1, self.frac + 1_000_000_000 - rhs.frac);
        }
        TimeDelta::from_parts(secs, self.frac - rhs.frac)
    }

    // The same, where either may.
    fn leap_duration_since(self, rhs: NaiveDateTime) -> TimeDelta
        ensures { nanos_of result ≡ difference (reading self) (reading rhs) }
    {
        sum_of(self.seconds_from(rhs), self.nanos_from(rhs))
    }

    fn nanos_from(self, rhs: NaiveDateTime) -> i32
        ensures { result ≡ pos (reading self).f -ℤ pos (reading rhs).f }
    {
        self.frac as i32 - rhs.frac as i32
    }

    fn seconds_from(self, rhs: NaiveDateTime) -> i64
        ensures value { result ≡ (reading self).s -ℤ (reading rhs).s +ℤ leap_between (reading self)
            (reading rhs) }
        ensures bound { IsWithin 20_000_000_000_000 result }
    {
        self.secs - rhs.secs + self.leap_seconds_from(rhs)
    }

    fn leap_seconds_from(self, rhs: NaiveDateTime) -> i64
        ensures value { result ≡ leap_between (reading self) (reading rhs) }
        ensures bound { IsWithin 1 result }
    {
        if self.frac < 1_000_000_000 && rhs.frac < 1_000_000_000 {
            return 0;
        }
        let here = self.time().num_seconds_from_midnight();
        let there = rhs.time().num_seconds_from_midnight();
        if there < here && rhs.frac >= 1_000_000_000 {
            return 1;
        }
        if here < there && self.frac >= 1_000_000_000 {
            return -1;
        }
        0
    }
}
