//! Timestamps of instants, and instants of timestamps.
ghost use Rattle.std.specs.{Int.{w64}, Prelude.{◌≡◌, ◌/◌, option_map, FitsSigned, SomeIff}};
ghost use Rattle.{
  naive_base.specs.{Range.{IsInRange}, Reading.{of_total, total}, Stamp.{of_secs, IsStamp}},
  zoned_time.specs.{DateTime.{zoned}, Stamps.{in_utc, micros_of, millis_of, of_micros, of_millis}},
};

use super::{DateTime, Instant};
use crate::{Offset, Utc};
use naive_base::{NaiveDateTime, Timelike};

impl<Tz, O: Offset> Instant<Tz, O> {
    /// Returns the whole seconds since 1970-01-01 00:00:00 UTC.
    pub fn timestamp(&self) -> i64
        ensures { result ≡ (zoned self.now).utc.s }
    {
        self.datetime.secs_since_epoch()
    }

    /// Returns the whole milliseconds since 1970-01-01 00:00:00 UTC, and those of a leap second on
    /// top of its second's.
    ///
    /// ```
    /// let millis = Utc.timestamp(1_625_155_200, 250_000_000).timestamp_millis(); // 1625155200250
    /// ```
    pub fn timestamp_millis(&self) -> i64
        ensures { result ≡ millis_of (zoned self.now).utc }
    {
        self.timestamp() * 1_000 + self.timestamp_subsec_millis() as i64
    }

    /// Returns the whole microseconds since 1970-01-01 00:00:00 UTC, and those of a leap second on
    /// top of its second's.
    ///
    /// ```
    /// let micros = Utc.timestamp(1_625_155_200, 250_000_000).timestamp_micros(); // 1625155200250000
    /// ```
    pub fn timestamp_micros(&self) -> i64
        ensures { result ≡ micros_of (zoned self.now).utc }
    {
        self.timestamp() * 1_000_000 + self.timestamp_subsec_micros() as i64
    }

    /// Returns the nanoseconds since 1970-01-01 00:00:00 UTC, and those of a leap second on top of
    /// its second's. `None` if an `i64` doesn't hold them: before 1677-09-21 00:12:43.145224192 UTC
    /// and after 2262-04-11 23:47:16.854775807 UTC.
    ///
    /// ```
    /// let nanos = Utc.timestamp(1_625_155_200, 7).timestamp_nanos_opt(); // Some(1625155200000000007)
    /// let none = DateTime::<Utc>::MAX_UTC().timestamp_nanos_opt(); // None
    /// ```
    pub fn timestamp_nanos_opt(&self) -> Option<i64>
        ensures { let nanos = total (zoned self.now).utc in SomeIff result
            (FitsSigned w64 nanos) nanos }
    {
        i64::try_from(self.total_nanos()).ok()
    }

    /// Returns the nanoseconds of [`DateTime::timestamp_nanos_opt`]. Requires: that returns some.
    ///
    /// ```
    /// let nanos = Utc.timestamp(1_625_155_200, 7).timestamp_nanos(); // 1625155200000000007
    /// ```
    pub fn timestamp_nanos(&self) -> i64
        requires { FitsSigned w64 (total (zoned self.now).utc) }
        ensures { result ≡ total (zoned self.now).utc }
    {
        self.total_nanos() as i64
    }

    fn total_nanos(&self) -> i128
        ensures { result ≡ total (zoned self.now).utc }
    {
        self.timestamp() as i128 * 1_000_000_000 + self.timestamp_subsec_nanos() as i128
    }

    /// Returns the whole milliseconds since the second began: from 1000 on, those of a leap second
    /// after it.
    pub fn timestamp_subsec_millis(&self) -> u32
        ensures { result ≡ (zoned self.now).utc.f / 1_000_000 }
    {
        self.timestamp_subsec_nanos() / 1_000_000
    }

    /// Returns the whole microseconds since the second began: from 10^6 on, those of a leap second
    /// after it.
    pub fn timestamp_subsec_micros(&self) -> u32
        ensures { result ≡ (zoned self.now).utc.f / 1_000 }
    {
        self.timestamp_subsec_nanos() / 1_000
    }

    /// Returns the nanoseconds since the second began: from 10^9 on, those of a leap second after it.
    pub fn timestamp_subsec_nanos(&self) -> u32
        ensures { result ≡ (zoned self.now).utc.f }
    {
        self.datetime.nanosecond()
    }
}

impl DateTime<Utc> {
    /// Returns the instant at that Unix time in seconds and nanoseconds. `None` if it is out of range,
    /// or if the nanoseconds are 10^9 or more, unless they are a leap second's: below 2*10^9, after
    /// the last second of a minute.
    ///
    /// ```
    /// DateTime::<Utc>::from_timestamp(1_609_459_200, 0) // Some(2021-01-01 00:00:00 UTC)
    /// DateTime::<Utc>::from_timestamp(59, 1_500_000_000) // Some(1970-01-01 00:00:60.500 UTC)
    /// DateTime::<Utc>::from_timestamp(0, 1_000_000_000) // None
    /// ```
    pub fn from_timestamp(secs: i64, nsecs: u32) -> Option<DateTime<Utc>>
        ensures { let r = of_secs secs nsecs in SomeIff (option_map zoned result) (IsStamp r)
            (in_utc r) }
    {
        let utc = NaiveDateTime::from_timestamp_opt(secs, nsecs)?;
        Some(DateTime::from_naive_utc_and_offset(utc, Utc))
    }

    /// Returns the instant at that Unix time in seconds. `None` if it is out of range.
    pub fn from_timestamp_secs(secs: i64) -> Option<DateTime<Utc>>
        ensures { let r = of_secs secs 0 in SomeIff (option_map zoned result) (IsInRange r.s)
            (in_utc r) }
    {
        DateTime::<Utc>::from_timestamp(secs, 0)
    }

    /// Returns the instant at that Unix time in milliseconds. `None` if it is out of range.
    ///
    /// ```
    /// let before = DateTime::<Utc>::from_timestamp_millis(-1); // Some(1969-12-31 23:59:59.999 UTC)
    /// ```
    pub fn from_timestamp_millis(millis: i64) -> Option<DateTime<Utc>>
        ensures { let r = of_millis millis in SomeIff (option_map zoned result) (IsInRange r.s)
            (in_utc r) }
    {
        let nanos = millis.rem_euclid(1_000) as u32 * 1_000_000;
        DateTime::<Utc>::from_timestamp(millis.div_euclid(1_000), nanos)
    }

    /// Returns the instant at that Unix time in microseconds. `None` if it is out of range.
    pub fn from_timestamp_micros(micros: i64) -> Option<DateTime<Utc>>
        ensures { let r = of_micros micros in SomeIff (option_map zoned result) (IsInRange r.s)
            (in_utc r) }
    {
        let nanos = micros.rem_euclid(1_000_000) as u32 * 1_000;
        DateTime::<Utc>::from_timestamp(micros.div_euclid(1_000_000), nanos)
    }

    /// Returns the instant at that Unix time in nanoseconds.
    pub fn from_timestamp_nanos(nanos: i64) -> DateTime<Utc>
        ensures { zoned result ≡ in_utc (of_total nanos) }
    {
        let subsecond = nanos.rem_euclid(1_000_000_000) as u32;
        DateTime::<Utc>::from_timestamp(nanos.div_euclid(1_000_000_000), subsecond).unwrap()
    }
}
