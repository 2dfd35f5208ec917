//! Lengths of time.
ghost use Rattle.std.specs.{Duration.{as_nanos}, Prelude.{◌≡◌, ◌<◌, ◌≤ℤ◌, ◌+ℤ◌, ◌*ℤ◌, neg_ℤ, pos}};
ghost use Rattle.offset_core.specs.Nanoseconds as lengths;

mod arithmetic;
mod operators;
mod out_of_range;
mod print;
mod sums;
mod units;

pub use out_of_range::OutOfRangeError;
use std::time::Duration;

/// A length of time in whole nanoseconds, which may be negative: at most `i64::MAX` milliseconds
/// either way, which is some 292 million years.
///
/// Lengths compare by their nanoseconds, and hash by their seconds, rounded down, and the nanoseconds
/// after these. A length prints in seconds, in the form of ISO 8601, whatever width, fill or flags the
/// formatter has:
///
/// ```
/// let nothing = TimeDelta::zero(); // P0D
/// let six_weeks = TimeDelta::days(42); // PT3628800S
/// let back = TimeDelta::milliseconds(-1500); // -PT1.5S
/// ```
#[derive(Clone, Copy, PartialEq, Eq, PartialOrd, Ord, Hash, Debug)]
pub struct TimeDelta {
    secs: i64,
    // The nanoseconds after these seconds.
    nanos: u32,
    pub ghost in_range: { lengths.AreParts secs nanos },
}

const SECONDS_PER_MINUTE: i64 = 60;

const SECONDS_PER_HOUR: i64 = 60 * SECONDS_PER_MINUTE;

const SECONDS_PER_DAY: i64 = 24 * SECONDS_PER_HOUR;

const SECONDS_PER_WEEK: i64 = 7 * SECONDS_PER_DAY;

const NANOS_PER_SECOND: i128 = 1_000_000_000;

const MAX_NANOS: i128 = 9_223_372_036_854_775_807_000_000;

impl TimeDelta {
    ghost use Rattle.offset_core.specs.TimeDelta.{nanos_of, IsDeltaOf, IsDeltaOfParts};

    /// The longest length, `i64::MAX` milliseconds.
    pub const MAX: TimeDelta = TimeDelta {
        secs: 9_223_372_036_854_775,
        nanos: 807_000_000,
    };

    /// The least length, `-i64::MAX` milliseconds.
    pub const MIN: TimeDelta = TimeDelta {
        secs: -9_223_372_036_854_776,
        nanos: 193_000_000,
    };

    /// Returns the length of that many seconds and nanoseconds, or `None` if it is out of range or
    /// the nanoseconds are 10^9 or more.
    pub fn new(secs: i64, nanos: u32) -> Option<TimeDelta>
        ensures { IsDeltaOfParts secs nanos result }
    {
        if nanos >= 1_000_000_000 {
            return None;
        }
        TimeDelta::of_parts(secs, nanos)
    }

    /// Returns the length of that many seconds and nanoseconds. Requires: [`TimeDelta::new`] returns
    /// one.
    pub fn from_parts(secs: i64, nanos: u32) -> TimeDelta
        requires nanos { nanos < 1_000_000_000 }
        requires range { lengths.FitsTimeDelta (secs *ℤ lengths.nanos_per_second +ℤ pos nanos) }
        ensures { nanos_of result ≡ secs *ℤ lengths.nanos_per_second +ℤ pos nanos }
    {
        TimeDelta { secs, nanos }
    }

    fn of_parts(secs: i64, nanos: u32) -> Option<TimeDelta>
        requires { nanos < 1_000_000_000 }
        ensures { IsDeltaOf (secs *ℤ lengths.nanos_per_second +ℤ pos nanos) result }
    {
        let (least, greatest) = (TimeDelta::MIN, TimeDelta::MAX);
        if secs < least.secs || secs > greatest.secs {
            return None;
        }
        if secs == least.secs && nanos < least.nanos {
            return None;
        }
        if secs == greatest.secs && nanos > greatest.nanos {
            return None;
        }
        Some(TimeDelta::from_parts(secs, nanos))
    }

    // The nanoseconds may be a second more than a length has.
    fn carried(secs: i64, nanos: u32) -> Option<TimeDelta>
        requires least { neg_ℤ (pos 20_000_000_000_000_000) ≤ℤ secs }
        requires greatest { secs ≤ℤ pos 20_000_000_000_000_000 }
        requires nanos { nanos < 2_000_000_000 }
        ensures { IsDeltaOf (secs *ℤ lengths.nanos_per_second +ℤ pos nanos) result }
    {
        if nanos < 1_000_000_000 {
            return TimeDelta::of_parts(secs, nanos);
        }
        TimeDelta::of_parts(secs + 1, nanos - 1_000_000_000)
    }

    fn of_seconds(secs: i128) -> Option<TimeDelta>
        ensures { IsDeltaOf (secs *ℤ lengths.nanos_per_second) result }
    {
        match i64::try_from(secs) {
            Ok(secs) => TimeDelta::of_parts(secs, 0),
            Err(_) => None,
        }
    }

    // Nanoseconds below 292 years fit 64 bits, which a processor divides much faster than 128.
    fn of_nanos(nanos: i128) -> Option<TimeDelta>
        ensures { IsDeltaOf nanos result }
    {
        if let Ok(near) = i64::try_from(nanos) {
            return Some(TimeDelta::nanoseconds(near));
        }
        if nanos < -MAX_NANOS || nanos > MAX_NANOS {
            return None;
        }
        Some(TimeDelta {
            secs: nanos.div_euclid(NANOS_PER_SECOND) as i64,
            nanos: nanos.rem_euclid(NANOS_PER_SECOND) as u32,
        })
    }

    /// Returns the length of no time.
    pub fn zero() -> TimeDelta
        ensures { nanos_of result ≡ pos 0 }
    {
        TimeDelta { secs: 0, nanos: 0 }
    }

    /// Returns the length of that many nanoseconds.
    pub fn nanoseconds(nanos: i64) -> TimeDelta
        ensures { nanos_of result ≡ nanos }
    {
        TimeDelta {
            secs: nanos.div_euclid(1_000_000_000),
            nanos: nanos.rem_euclid(1_000_000_000) as u32,
        }
    }

    /// Returns the length of that many microseconds.
    pub fn microseconds(micros: i64) -> TimeDelta
        ensures { nanos_of result ≡ micros *ℤ lengths.nanos_per_microsecond }
    {
        TimeDelta {
            secs: micros.div_euclid(1_000_000),
            nanos: micros.rem_euclid(1_000_000) as u32 * 1_000,
        }
    }

    /// Returns the length of that many milliseconds, or `None` if it is out of range, as only that
    /// of `i64::MIN` is.
    pub fn try_milliseconds(millis: i64) -> Option<TimeDelta>
        ensures { IsDeltaOf (millis *ℤ lengths.nanos_per_millisecond) result }
    {
        let nanos = millis.rem_euclid(1_000) as u32 * 1_000_000;
        TimeDelta::of_parts(millis.div_euclid(1_000), nanos)
    }

    /// Returns the length of that many milliseconds. Requires: [`TimeDelta::try_milliseconds`]
    /// returns `Some`.
    pub fn milliseconds(millis: i64) -> TimeDelta
        requires { lengths.FitsTimeDelta (millis *ℤ lengths.nanos_per_millisecond) }
        ensures { nanos_of result ≡ millis *ℤ lengths.nanos_per_millisecond }
    {
        TimeDelta::try_milliseconds(millis).unwrap()
    }

    /// Returns the length of that many seconds, or `None` if it is out of range.
    pub fn try_seconds(secs: i64) -> Option<TimeDelta>
        ensures { IsDeltaOf (secs *ℤ lengths.nanos_per_second) result }
    {
        TimeDelta::of_parts(secs, 0)
    }

    /// Returns the length of that many seconds. Requires: [`TimeDelta::try_seconds`] returns `Some`.
    pub fn seconds(secs: i64) -> TimeDelta
        requires { lengths.FitsTimeDelta (secs *ℤ lengths.nanos_per_second) }
        ensures { nanos_of result ≡ secs *ℤ lengths.nanos_per_second }
    {
        TimeDelta::try_seconds(secs).unwrap()
    }

    /// Returns the length of that many minutes, or `None` if it is out of range.
    pub fn try_minutes(minutes: i64) -> Option<TimeDelta>
        ensures { IsDeltaOf (minutes *ℤ lengths.nanos_per_minute) result }
    {
        TimeDelta::of_seconds(minutes as i128 * SECONDS_PER_MINUTE as i128)
    }

    /// Returns the length of that many minutes. Requires: [`TimeDelta::try_minutes`] returns `Some`.
    pub fn minutes(minutes: i64) -> TimeDelta
        requires { lengths.FitsTimeDelta (minutes *ℤ lengths.nanos_per_minute) }
        ensures { nanos_of result ≡ minutes *ℤ lengths.nanos_per_minute }
    {
        TimeDelta::try_minutes(minutes).unwrap()
    }

    /// Returns the length of that many hours, or `None` if it is out of range.
    pub fn try_hours(hours: i64) -> Option<TimeDelta>
        ensures { IsDeltaOf (hours *ℤ lengths.nanos_per_hour) result }
    {
        TimeDelta::of_seconds(hours as i128 * SECONDS_PER_HOUR as i128)
    }

    /// Returns the length of that many hours. Requires: [`TimeDelta::try_hours`] returns `Some`.
    pub fn hours(hours: i64) -> TimeDelta
        requires { lengths.FitsTimeDelta (hours *ℤ lengths.nanos_per_hour) }
        ensures { nanos_of result ≡ hours *ℤ lengths.nanos_per_hour }
    {
        TimeDelta::try_hours(hours).unwrap()
    }

    /// Returns the length of that many days of 86,400 seconds, or `None` if it is out of range.
    pub fn try_days(days: i64) -> Option<TimeDelta>
        ensures { IsDeltaOf (days *ℤ lengths.nanos_per_day) result }
    {
        TimeDelta::of_seconds(days as i128 * SECONDS_PER_DAY as i128)
    }

    /// Returns the length of that many days. Requires: [`TimeDelta::try_days`] returns `Some`.
    pub fn days(days: i64) -> TimeDelta
        requires { lengths.FitsTimeDelta (days *ℤ lengths.nanos_per_day) }
        ensures { nanos_of result ≡ days *ℤ lengths.nanos_per_day }
    {
        TimeDelta::try_days(days).unwrap()
    }

    /// Returns the length of that many weeks of seven such days, or `None` if it is out of range.
    pub fn try_weeks(weeks: i64) -> Option<TimeDelta>
        ensures { IsDeltaOf (weeks *ℤ lengths.nanos_per_week) result }
    {
        TimeDelta::of_seconds(weeks as i128 * SECONDS_PER_WEEK as i128)
    }

    /// Returns the length of that many weeks. Requires: [`TimeDelta::try_weeks`] returns `Some`.
    pub fn weeks(weeks: i64) -> TimeDelta
        requires { lengths.FitsTimeDelta (weeks *ℤ lengths.nanos_per_week) }
        ensures { nanos_of result ≡ weeks *ℤ lengths.nanos_per_week }
    {
        TimeDelta::try_weeks(weeks).unwrap()
    }

    /// Returns the length of a duration of the standard library, or `None` if it is out of range.
    pub fn from_std(duration: Duration) -> Option<TimeDelta>
        ensures { IsDeltaOf (pos (as_nanos duration)) result }
    {
        TimeDelta::of_nanos(duration.as_nanos() as i128)
    }
}
