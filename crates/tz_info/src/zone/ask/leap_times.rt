//! Leap times of Unix times, and Unix times of leap times.

ghost use Rattle.std.specs.Prelude.{◌≡◌, MatchResult};
ghost use Rattle.tz_info.specs.Leaps.{expected_of_leap_time, IsLeapTime, IsLeapTimeRefused, IsUnixTime, IsUnixTimeRefused};

use crate::zone::lists::leap_time::unix_time;
use crate::zone::time_zone::TimeZone;
use tz_base::{Error, Expected};

impl TimeZone {
    /// The leap time of a Unix time: the second counted from 1970 with the zone's leap seconds.
    ///
    /// # Errors
    ///
    /// [`Error::OutOfRange`] if the Unix time and the correction of a leap second that it has
    /// passed leave 64 bits.
    pub fn unix_time_to_unix_leap_time(&self, unix_time: i64) -> Result<i64, Error>
        ensures { MatchResult result
            (λ x. IsLeapTime self.now.leaps unix_time x)
            (λ e. (e ≡ Error.OutOfRange Expected.LeapTimeOf64Bits)
            × IsLeapTimeRefused self.now.leaps unix_time) }
    {
        self.leap_seconds.leap_time(unix_time)
    }

    /// The Unix time of a leap time: the second without the leap seconds before it. An inserted
    /// leap second has the Unix time of the second after it.
    ///
    /// # Errors
    ///
    /// [`Error::OutOfRange`] if the leap time is `i64::MIN`, or if less its correction it leaves 64
    /// bits.
    pub fn unix_leap_time_to_unix_time(&self, unix_leap_time: i64) -> Result<i64, Error>
        ensures { MatchResult result
            (λ u. IsUnixTime self.now.leaps unix_leap_time u)
            (λ e. (e ≡ Error.OutOfRange (expected_of_leap_time unix_leap_time))
            × IsUnixTimeRefused self.now.leaps unix_leap_time) }
    {
        unix_time(self.leap_seconds.entries(), unix_leap_time)
    }
}
