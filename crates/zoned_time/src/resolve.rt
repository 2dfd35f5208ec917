//! Instants of a second, and those that a choice takes.
ghost use Rattle.std.specs.Prelude.{◌≡◌, ◌<◌, MatchOption, MatchResult};
ghost use Rattle.naive_base.specs.{NaiveDateTime.{reading}, Range.{IsInRange}, Reading.{behind}, Stamp.{of_secs}};
ghost use Rattle.zoned_time.specs.{DateTime.{zoned}, Relocal.{instant_of, HasInstant}, Zoned.{IsAt}};

use crate::{DateTime, Offset, TimeZone};
use naive_base::NaiveDateTime;
use offset_core::ResolveError;

// The instant of a second and its nanoseconds, if it is in range.
pub(crate) fn instant_at<Tz: TimeZone>(zone: &Tz, second: i64, nanos: u32) -> Option<DateTime<Tz>>
    requires { nanos < 1_000_000_000 }
    ensures { MatchOption result (IsInRange second → ⊥)
        (λ d. IsInRange second × IsAt (Tz.law zone.now) (of_secs second nanos) (zoned d)) }
{
    zone.timestamp_opt(second, nanos).single()
}

// The instant when a clock with that offset shows the local date-time, if it is in range.
pub(crate) fn instant_by<Tz: TimeZone>(
    local: &NaiveDateTime,
    offset: Tz::Offset,
) -> Result<DateTime<Tz>, ResolveError>
    ensures { let seconds = Tz.Offset.seconds in let l = reading local.now in
        MatchResult result
        (λ d. HasInstant seconds l offset × (zoned d ≡ instant_of seconds l offset))
        (λ e. (e ≡ ResolveError.OutOfRange) × ¬ (HasInstant seconds l offset)) }
{
    match DateTime::from_local_opt(local, offset) {
        Some(instant) => Ok(instant),
        None => Err(ResolveError::OutOfRange),
    }
}

// The instant at which a clock of that offset would show the local date-time, with the zone's own offset there.
pub(crate) fn shifted<Tz: TimeZone>(
    zone: &Tz,
    local: &NaiveDateTime,
    before: Tz::Offset,
) -> Result<DateTime<Tz>, ResolveError>
    ensures { let utc = behind (reading local.now) (Tz.Offset.seconds before) in
        MatchResult result
        (λ d. IsInRange utc.s × IsAt (Tz.law zone.now) utc (zoned d))
        (λ e. (e ≡ ResolveError.OutOfRange) × ¬ (IsInRange utc.s)) }
{
    match local.checked_sub_offset(before.fix()) {
        Some(utc) => Ok(zone.from_utc_datetime(&utc)),
        None => Err(ResolveError::OutOfRange),
    }
}
