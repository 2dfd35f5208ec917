//! Local date-times brought into a zone.
ghost use Rattle.std.specs.Prelude.{◌≡◌};
ghost use Rattle.{
  naive_base.specs.{NaiveDateTime.{reading}, Range.{IsInRange}, Reading.{Reading}},
  offset_core.specs.LocalResult.{map_of},
  zoned_time.specs.{DateTime.{zoned}, Relocal.{IsRelocal}, Stamps.{in_utc}},
};

use crate::{DateTime, TimeZone, Utc};
use naive_base::NaiveDateTime;
use offset_core::LocalResult;

/// The instants that a local time of a clock means.
pub trait NaiveZoned: Sized {
    // what is read
    ghost shown: { Self → Reading };

    /// Returns the instant at which a clock of UTC shows the local time. Requires: it is in range.
    fn and_utc(&self) -> DateTime<Utc>
        requires { IsInRange (shown self.now).s }
        ensures { zoned result ≡ in_utc (shown self.now) };

    /// Returns the instants at which the clocks of a zone show the local time, as
    /// [`TimeZone::from_local_datetime`] does.
    ///
    /// ```
    /// let local = NaiveDate::from_ymd_opt(2021, 7, 1)?.and_hms_opt(12, 0, 0)?;
    /// let noon = local.and_local_timezone(new_york).single()?; // 2021-07-01 12:00:00 -04:00
    /// ```
    fn and_local_timezone<Tz: TimeZone>(&self, tz: Tz) -> LocalResult<DateTime<Tz>>
        ensures { IsRelocal (Tz.law tz) (shown self.now) (map_of zoned result) };
}

impl NaiveZoned for NaiveDateTime {
    ghost shown = { reading };

    fn and_utc(&self) -> DateTime<Utc> {
        DateTime::from_naive_utc_and_offset(*self, Utc)
    }

    fn and_local_timezone<Tz: TimeZone>(&self, tz: Tz) -> LocalResult<DateTime<Tz>>
        ensures { IsRelocal (Tz.law tz) (reading self.now) (map_of zoned result) }
    {
        tz.from_local_datetime(self)
    }
}
