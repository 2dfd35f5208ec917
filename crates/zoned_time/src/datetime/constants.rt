//! The instants that have names.
ghost use Rattle.std.specs.Prelude.{◌≡◌, pos};
ghost use Rattle.{
  naive_base.specs.Range.{epoch, first_reading, last_reading},
  zoned_time.specs.{DateTime.{zoned}, Stamps.{in_utc}, Zoned.{IsFixedFrom}},
};

use super::DateTime;
use crate::{TimeZone, Utc};
use naive_base::NaiveDateTime;
use offset_core::FixedOffset;

impl<Tz: TimeZone> DateTime<Tz> {
    /// The first instant, at [`NaiveDateTime::MIN`] in UTC.
    #[allow(non_snake_case)]
    pub fn MIN_UTC() -> DateTime<Utc>
        ensures { zoned result ≡ in_utc first_reading }
    {
        DateTime::from_naive_utc_and_offset(NaiveDateTime::MIN, Utc)
    }

    /// The last instant except those of a leap second, at [`NaiveDateTime::MAX`] in UTC.
    #[allow(non_snake_case)]
    pub fn MAX_UTC() -> DateTime<Utc>
        ensures { zoned result ≡ in_utc last_reading }
    {
        DateTime::from_naive_utc_and_offset(NaiveDateTime::MAX, Utc)
    }
}

impl DateTime<Utc> {
    /// 1970-01-01 00:00:00 UTC.
    #[allow(non_snake_case)]
    pub fn UNIX_EPOCH() -> DateTime<Utc>
        ensures { zoned result ≡ in_utc epoch }
    {
        DateTime::from_naive_utc_and_offset(NaiveDateTime::default(), Utc)
    }
}

/// chrono's older name of [`DateTime::MIN_UTC`].
#[allow(non_snake_case)]
pub fn MIN_DATETIME() -> DateTime<Utc>
    ensures { zoned result ≡ in_utc first_reading }
{
    DateTime::<Utc>::MIN_UTC()
}

/// chrono's older name of [`DateTime::MAX_UTC`].
#[allow(non_snake_case)]
pub fn MAX_DATETIME() -> DateTime<Utc>
    ensures { zoned result ≡ in_utc last_reading }
{
    DateTime::<Utc>::MAX_UTC()
}

impl Default for DateTime<Utc> {
    ghost is_default = { λ d. zoned d ≡ in_utc epoch };

    fn default() -> DateTime<Utc> {
        DateTime::<Utc>::UNIX_EPOCH()
    }
}

impl Default for DateTime<FixedOffset> {
    ghost is_default = { λ d. IsFixedFrom (λ _. pos 0) (in_utc epoch) (zoned d) };

    fn default() -> DateTime<FixedOffset> {
        DateTime::<Utc>::UNIX_EPOCH().fixed_offset()
    }
}
