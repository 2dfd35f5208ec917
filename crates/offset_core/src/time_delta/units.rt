//! A length of time in each of its units.
ghost use Rattle.std.specs.{Duration.{as_nanos}, Int.{w64}};
ghost use Rattle.std.specs.Prelude.{◌≡◌, ◌<ℤ◌, int_div, int_rem, pos, FitsSigned, MatchResult, SomeIff};
ghost use Rattle.offset_core.specs.TimeDelta.{nanos_of};
ghost use Rattle.offset_core.specs.Nanoseconds as lengths;

use super::{
    NANOS_PER_SECOND, SECONDS_PER_DAY, SECONDS_PER_HOUR, SECONDS_PER_MINUTE, SECONDS_PER_WEEK,
};
use crate::{OutOfRangeError, TimeDelta};
use std::time::Duration;

impl TimeDelta {
    /// Returns the whole weeks of this length, toward zero.
    pub fn num_weeks(&self) -> i64
        ensures { result ≡ int_div (nanos_of self.now) lengths.nanos_per_week }
    {
        self.num_seconds() / SECONDS_PER_WEEK
    }

    /// Returns the whole days of 86,400 seconds of this length, toward zero.
    pub fn num_days(&self) -> i64
        ensures { result ≡ int_div (nanos_of self.now) lengths.nanos_per_day }
    {
        self.num_seconds() / SECONDS_PER_DAY
    }

    /// Returns the whole hours of this length, toward zero.
    pub fn num_hours(&self) -> i64
        ensures { result ≡ int_div (nanos_of self.now) lengths.nanos_per_hour }
    {
        self.num_seconds() / SECONDS_PER_HOUR
    }

    /// Returns the whole minutes of this length, toward zero.
    pub fn num_minutes(&self) -> i64
        ensures { result ≡ int_div (nanos_of self.now) lengths.nanos_per_minute }
    {
        self.num_seconds() / SECONDS_PER_MINUTE
    }

    /// Returns the whole seconds of this length, toward zero.
    pub fn num_seconds(&self) -> i64
        ensures { result ≡ int_div (nanos_of self.now) lengths.nanos_per_second }
    {
        // A negative length with nanoseconds has one more: a carry, which takes no jump.
        let carrying = if self.secs < 0 { u32::MAX } else { 0 };
        match self.nanos.checked_add(carrying) {
            Some(_) => self.secs,
            None => self.secs + 1,
        }
    }

    /// Returns the whole milliseconds of this length, toward zero.
    pub fn num_milliseconds(&self) -> i64
        ensures { result ≡ int_div (nanos_of self.now) lengths.nanos_per_millisecond }
    {
        self.num_seconds() * 1_000 + self.subsec_millis() as i64
    }

    /// Returns the whole microseconds of this length, toward zero, or `None` if they leave an
    /// `i64`.
    pub fn num_microseconds(&self) -> Option<i64>
        ensures { let micros = int_div (nanos_of self.now) lengths.nanos_per_microsecond in
            SomeIff result (FitsSigned w64 micros) micros }
    {
        let micros = self.num_seconds() as i128 * 1_000_000 + self.subsec_micros() as i128;
        i64::try_from(micros).ok()
    }

    /// Returns all of this length in nanoseconds, or `None` if they leave an `i64`.
    pub fn num_nanoseconds(&self) -> Option<i64>
        ensures { SomeIff result (FitsSigned w64 (nanos_of self.now)) (nanos_of self.now) }
    {
        i64::try_from(self.whole_nanoseconds()).ok()
    }

    /// Returns all of this length in nanoseconds.
    pub fn whole_nanoseconds(&self) -> i128
        ensures { result ≡ nanos_of self.now }
    {
        self.secs as i128 * NANOS_PER_SECOND + self.nanos as i128
    }

    /// Returns the nanoseconds that the whole seconds leave, with the sign of the length.
    pub fn subsec_nanos(&self) -> i32
        ensures { result ≡ int_rem (nanos_of self.now) lengths.nanos_per_second }
    {
        if (self.secs < 0) & (self.nanos > 0) {
            self.nanos as i32 - 1_000_000_000
        } else {
            self.nanos as i32
        }
    }

    /// Returns the whole microseconds that the whole seconds leave, with the sign of the length.
    pub fn subsec_micros(&self) -> i32
        ensures { result ≡ int_div (int_rem (nanos_of self.now) lengths.nanos_per_second)
            lengths.nanos_per_microsecond }
    {
        self.subsec_nanos() / 1_000
    }

    /// Returns the whole milliseconds that the whole seconds leave, with the sign of the length.
    pub fn subsec_millis(&self) -> i32
        ensures { result ≡ int_div (int_rem (nanos_of self.now) lengths.nanos_per_second)
            lengths.nanos_per_millisecond }
    {
        self.subsec_nanos() / 1_000_000
    }

    /// Returns the length as a duration of the standard library.
    ///
    /// # Errors
    ///
    /// A negative length.
    pub fn to_std(&self) -> Result<Duration, OutOfRangeError>
        ensures { MatchResult result (λ duration. nanos_of self.now ≡ pos (as_nanos duration))
            (λ _. nanos_of self.now <ℤ pos 0) }
    {
        match u128::try_from(self.whole_nanoseconds()) {
            Ok(nanos) => Ok(Duration::from_nanos_u128(nanos)),
            Err(_) => Err(OutOfRangeError::new()),
        }
    }
}
