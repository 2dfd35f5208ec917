//! The same instant in another zone.
ghost use Rattle.std.specs.Prelude.{◌≡◌, pos};
ghost use Rattle.zoned_time.specs.{DateTime.{zoned}, Stamps.{in_utc}, Zoned.{IsAt, IsFixedFrom}};

use super::{DateTime, Instant};
use crate::{Offset, TimeZone, Utc};
use offset_core::FixedOffset;

impl<Tz, O: Offset> Instant<Tz, O> {
    /// The same instant, with the offset that the zone has then.
    ///
    /// ```
    /// let there = Utc.timestamp(1_636_264_800, 0); // 2021-11-07 06:00:00 UTC
    /// there.with_timezone(&FixedOffset::east(3600)); // 2021-11-07 07:00:00 +01:00
    /// ```
    pub fn with_timezone<Tz2: TimeZone>(&self, tz: &Tz2) -> DateTime<Tz2>
        ensures { IsAt (Tz2.law tz.now) (zoned self.now).utc (zoned result) }
    {
        tz.from_utc_datetime(&self.datetime)
    }

    /// Returns the same instant with its offset as a plain `FixedOffset`.
    pub fn fixed_offset(&self) -> DateTime<FixedOffset>
        ensures { IsFixedFrom O.seconds (zoned self.now) (zoned result) }
    {
        DateTime::from_naive_utc_and_offset(self.datetime, self.offset.fix())
    }

    /// Returns the same instant in UTC.
    pub fn to_utc(&self) -> DateTime<Utc>
        ensures { zoned result ≡ in_utc (zoned self.now).utc }
    {
        DateTime::from_naive_utc_and_offset(self.datetime, Utc)
    }
}

impl From<DateTime<Utc>> for DateTime<FixedOffset> {
    ghost from_gives = { λ d r. IsFixedFrom (λ _. pos 0) (zoned d) (zoned r) };

    fn from(instant: DateTime<Utc>) -> DateTime<FixedOffset> {
        instant.fixed_offset()
    }
}

impl From<DateTime<FixedOffset>> for DateTime<Utc> {
    ghost from_gives = { λ d r. zoned r ≡ in_utc (zoned d).utc };

    fn from(instant: DateTime<FixedOffset>) -> DateTime<Utc> {
        instant.to_utc()
    }
}
