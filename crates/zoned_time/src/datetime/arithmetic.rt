//! Instants moved by a length of time, and the time between two.
ghost use Rattle.std.specs.Prelude.{◌≡◌, neg_ℤ, option_map};
ghost use Rattle.{
  naive_base.specs.{NaiveDateTime.{reading}, Range.{IsInRange}, Reading.{difference, moved, Reading}},
  offset_core.specs.{LocalResult.{map_of}, TimeDelta.{nanos_of}},
  zoned_time.specs.{DateTime.{home_law_of, zoned}, Relocal.{IsRelocal}, Zoned.{IsAt, IsAtInRange}},
};

use super::{DateTime, Instant};
use crate::{Offset, TimeZone};
use naive_base::NaiveDateTime;
use offset_core::{LocalResult, TimeDelta};

impl<Tz: TimeZone> DateTime<Tz> {
    // The instant of a UTC date-time in range, in the zone that this one's offset came from.
    pub(super) fn at(&self, utc: &NaiveDateTime) -> DateTime<Tz>
        requires { IsInRange (reading utc.now).s }
        ensures { IsAt (home_law_of Tz.meaning self.now) (reading utc.now) (zoned result) }
    {
        self.timezone().from_utc_datetime(utc)
    }

    // The instant when the clocks of that zone show a local date-time.
    #[tactic(auto, using(crate::proofs::Homes::relocal_home))]
    pub(super) fn relocal(&self, local: &NaiveDateTime) -> LocalResult<DateTime<Tz>>
        ensures { IsRelocal (home_law_of Tz.meaning self.now) (reading local.now)
            (map_of zoned result) }
    {
        self.timezone().from_local_datetime(local)
    }

    /// Returns the instant moved by that length, backward if it is negative, with the offset that its
    /// zone has then. `None` if that is out of range.
    ///
    /// A leap second counts only if the instant itself lies in it.
    ///
    /// ```
    /// // In New York clocks were set back at 06:00:00 UTC on 2021-11-07.
    /// let before = new_york.timestamp(1_636_263_000, 0); // 2021-11-07 01:30:00 -04:00
    /// let after = before.checked_add_signed(TimeDelta::hours(1))?; // 2021-11-07 01:30:00 -05:00
    /// ```
    pub fn checked_add_signed(&self, rhs: TimeDelta) -> Option<DateTime<Tz>>
        ensures { IsAtInRange (home_law_of Tz.meaning self.now)
            (moved (zoned self.now).utc (nanos_of rhs))
            (option_map zoned result) }
    {
        let utc = self.datetime.checked_add_signed(rhs)?;
        Some(self.at(&utc))
    }

    /// Returns what [`DateTime::checked_add_signed`] of the opposite length does. `None` if that is
    /// out of range.
    pub fn checked_sub_signed(&self, rhs: TimeDelta) -> Option<DateTime<Tz>>
        ensures { IsAtInRange (home_law_of Tz.meaning self.now)
            (moved (zoned self.now).utc (neg_ℤ (nanos_of rhs)))
            (option_map zoned result) }
    {
        let utc = self.datetime.checked_sub_signed(rhs)?;
        Some(self.at(&utc))
    }
}

/// An instant of any zone, or a reference to one.
pub trait AsInstant {
    // its UTC date-time
    ghost utc: { Self → Reading };

    /// Returns its UTC date-time.
    fn as_utc(&self) -> NaiveDateTime
        ensures { reading result ≡ utc self.now };
}

impl<Tz, O: Offset> AsInstant for Instant<Tz, O> {
    ghost utc = { λ d. (zoned d).utc };

    fn as_utc(&self) -> NaiveDateTime {
        self.datetime
    }
}

impl<'a, Tz, O: Offset> AsInstant for &'a Instant<Tz, O> {
    ghost utc = { λ d. (zoned d.now).utc };

    fn as_utc(&self) -> NaiveDateTime {
        self.datetime
    }
}

impl<Tz, O: Offset> Instant<Tz, O> {
    /// Returns the time from another instant to this one, negative if this one is earlier. The other
    /// is given by value or by reference, and may be in another zone.
    ///
    /// An instant's own leap second counts if its second of the day, in UTC, is less than the
    /// other's.
    ///
    /// ```
    /// let hour = Utc.timestamp(3_600, 0).signed_duration_since(Utc.timestamp(0, 0)); // 60 minutes
    /// ```
    pub fn signed_duration_since<R: AsInstant + Copy>(&self, rhs: R) -> TimeDelta
        ensures { nanos_of result ≡ difference (zoned self.now).utc (R.utc rhs) }
    {
        self.datetime.signed_duration_since(rhs.as_utc())
    }
}
