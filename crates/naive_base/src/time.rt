//! Times of day.
ghost use Rattle.std.specs.Prelude.{◌≡◌, ◌<◌, ◌*◌};
ghost use Rattle.{
  gregorian.specs.Year.{floor_mod},
  naive_base.specs.{Clock.{clock_second, IsClock}, Range.{IsTime}, Steps.Moves.{IsWithin}},
};

mod fields;
mod moves;

use crate::day_second::day_and_second;

/// A second of the day and nanoseconds, which from 10^9 on are those of a leap second after that
/// second.
///
/// Times compare and hash by the second, then the nanoseconds. A time prints as `23:59:59`, with a
/// point and 3, 6 or 9 digits after it if there are nanoseconds, and a leap second as `23:59:60`,
/// whatever width, fill or flags the formatter has. `{:?}` prints the same.
#[derive(Clone, Copy, PartialEq, Eq, PartialOrd, Ord, Hash)]
pub struct NaiveTime {
    secs: u32,
    frac: u32,
    pub ghost in_range: { IsTime secs frac },
}

impl NaiveTime {
    ghost use Rattle.naive_base.specs.NaiveTime.{second_of, fraction_of, IsTimeOf};

    /// Midnight.
    pub const MIN: NaiveTime = NaiveTime { secs: 0, frac: 0 };

    /// Returns the time at an hour from 0 to 23, a minute and a second from 0 to 59. `None` for any
    /// other.
    ///
    /// ```
    /// let last = NaiveTime::from_hms_opt(23, 59, 59); // Some(23:59:59)
    /// let none = NaiveTime::from_hms_opt(23, 59, 60); // None
    /// ```
    pub fn from_hms_opt(hour: u32, min: u32, sec: u32) -> Option<NaiveTime>
        ensures { IsTimeOf (IsClock hour min sec) (clock_second hour min sec) 0 result }
    {
        NaiveTime::from_hms_nano_opt(hour, min, sec, 0)
    }

    /// Returns the time at an hour, a minute, a second and a number of milliseconds: below 1000,
    /// or, for a leap second after a second 59, below 2000. `None` for any other.
    ///
    /// ```
    /// let leap_second = NaiveTime::from_hms_milli_opt(23, 59, 59, 1_500); // Some(23:59:60.500)
    /// let none = NaiveTime::from_hms_milli_opt(23, 59, 58, 1_500); // None
    /// ```
    pub fn from_hms_milli_opt(hour: u32, min: u32, sec: u32, milli: u32) -> Option<NaiveTime>
        ensures { IsTimeOf (IsClock hour min sec) (clock_second hour min sec)
            (milli * 1_000_000) result }
    {
        let nano = milli.checked_mul(1_000_000)?;
        NaiveTime::from_hms_nano_opt(hour, min, sec, nano)
    }

    /// Returns the time at an hour, a minute, a second and a number of microseconds: below 10^6,
    /// or, for a leap second after a second 59, below 2*10^6. `None` for any other.
    ///
    /// ```
    /// let time = NaiveTime::from_hms_micro_opt(8, 30, 0, 250); // Some(08:30:00.000250)
    /// ```
    pub fn from_hms_micro_opt(hour: u32, min: u32, sec: u32, micro: u32) -> Option<NaiveTime>
        ensures { IsTimeOf (IsClock hour min sec) (clock_second hour min sec)
            (micro * 1_000) result }
    {
        let nano = micro.checked_mul(1_000)?;
        NaiveTime::from_hms_nano_opt(hour, min, sec, nano)
    }

    /// Returns the time at an hour, a minute, a second and a number of nanoseconds: below 10^9, or,
    /// for a leap second after a second 59, below 2*10^9. `None` for any other.
    ///
    /// ```
    /// let time = NaiveTime::from_hms_nano_opt(8, 30, 0, 7); // Some(08:30:00.000000007)
    /// ```
    pub fn from_hms_nano_opt(hour: u32, min: u32, sec: u32, nano: u32) -> Option<NaiveTime>
        ensures { IsTimeOf (IsClock hour min sec) (clock_second hour min sec) nano result }
    {
        if hour > 23 || min > 59 || sec > 59 {
            return None;
        }
        NaiveTime::from_num_seconds_from_midnight_opt(hour * 3600 + min * 60 + sec, nano)
    }

    /// Returns the time at a second of the day below 86400 and a number of nanoseconds: below 10^9,
    /// or, for a leap second after the last second of a minute, below 2*10^9. `None` for any other.
    ///
    /// ```
    /// let time = NaiveTime::from_num_seconds_from_midnight_opt(30_600, 0); // Some(08:30:00)
    /// let none = NaiveTime::from_num_seconds_from_midnight_opt(86_400, 0); // None
    /// ```
    pub fn from_num_seconds_from_midnight_opt(secs: u32, nano: u32) -> Option<NaiveTime>
        ensures { IsTimeOf (secs < 86_400) secs nano result }
    {
        if secs >= 86_400 || nano >= 2_000_000_000 {
            return None;
        }
        if nano >= 1_000_000_000 && secs % 60 != 59 {
            return None;
        }
        Some(NaiveTime { secs, frac: nano })
    }

    /// Returns the second of the day.
    ///
    /// ```
    /// let second = NaiveTime::from_hms_opt(8, 30, 0)?.num_seconds_from_midnight(); // 30600
    /// ```
    pub fn num_seconds_from_midnight(&self) -> u32
        ensures { result ≡ second_of self.now }
    {
        self.secs
    }

    pub(crate) fn at(secs: u32, frac: u32) -> NaiveTime
        requires { IsTime secs frac }
        ensures second { second_of result ≡ secs }
        ensures fraction { fraction_of result ≡ frac }
    {
        NaiveTime { secs, frac }
    }

    // The time of day at a second since the epoch.
    pub(crate) fn of_second(second: i64, frac: u32) -> NaiveTime
        requires second { IsWithin 100_000_000_000_000_000 second }
        requires fraction { frac < 2_000_000_000 }
        ensures second { second_of result ≡ floor_mod second 86_400 }
        ensures fraction { fraction_of result ≡ frac }
    {
        NaiveTime {
            secs: day_and_second(second).1,
            frac,
        }
    }
}
