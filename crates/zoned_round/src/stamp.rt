//! How far a stamp is from the multiples of a span.
ghost use Rattle.std.specs.{Int.{w64}, Prelude.{◌≡◌, ◌<ℤ◌, ◌-ℤ◌, pos, unsigned_abs, FitsSigned, SomeIff}};
ghost use Rattle.{
  naive_base.specs.{NaiveDateTime.{reading}, Reading.{total}},
  offset_core.specs.TimeDelta.{nanos_of},
  zoned_round.specs.Multiples.{multiple_above, multiple_below, nearest_multiple},
};

use crate::RoundingError;
use naive_base::{NaiveDateTime, Timelike};
use offset_core::TimeDelta;

const NANOS_PER_SECOND: i128 = 1_000_000_000;

// What a clock shows, in nanoseconds since 1970-01-01 00:00:00, and the span that it is rounded by.
#[derive(Drop)]
pub(crate) struct Stamp {
    nanos: i64,
    span: i64,
    ghost positive: { pos 0 <ℤ span },
}

// All of a local date-time in nanoseconds, if that fits.
fn nanos_shown(clock: NaiveDateTime) -> Option<i64>
    ensures { SomeIff result (FitsSigned w64 (total (reading clock))) (total (reading clock)) }
{
    let nanos = clock.secs_since_epoch() as i128 * NANOS_PER_SECOND + clock.nanosecond() as i128;
    i64::try_from(nanos).ok()
}

impl Stamp {
    ghost use Rattle.zoned_round.specs.Steps.Stamps.{IsStampOf};

    pub(crate) fn of(clock: NaiveDateTime, duration: TimeDelta) -> Result<Stamp, RoundingError>
        ensures { IsStampOf (total (reading clock)) (nanos_of duration) result }
    {
        let Some(span) = duration.num_nanoseconds() else {
            return Err(RoundingError::DurationExceedsLimit);
        };
        if span <= 0 {
            return Err(RoundingError::DurationExceedsLimit);
        }
        match nanos_shown(clock) {
            Some(nanos) => Ok(Stamp { nanos, span }),
            None => Err(RoundingError::TimestampExceedsLimit),
        }
    }

    // How far it is past the multiple below.
    fn past(&self) -> i64
        ensures is { let here = self.now.nanos in
            here -ℤ result ≡ multiple_below here (unsigned_abs self.now.span) }
        ensures below { result <ℤ self.now.span }
    {
        self.nanos.rem_euclid(self.span)
    }

    // The way to the greatest multiple of the span that isn't above.
    pub(crate) fn way_below(&self) -> TimeDelta
        ensures is { let here = self.now.nanos in
            nanos_of result ≡ multiple_below here (unsigned_abs self.now.span) -ℤ here }
        ensures short { FitsSigned w64 (nanos_of result) }
    {
        TimeDelta::nanoseconds(-self.past())
    }

    // The way to the least one that isn't below.
    pub(crate) fn way_above(&self) -> TimeDelta
        ensures is { let here = self.now.nanos in
            nanos_of result ≡ multiple_above here (unsigned_abs self.now.span) -ℤ here }
        ensures short { FitsSigned w64 (nanos_of result) }
    {
        match self.past() {
            0 => TimeDelta::zero(),
            past => TimeDelta::nanoseconds(self.span - past),
        }
    }

    // The way to the nearer one, and to the one above if both are as near.
    pub(crate) fn way_to_nearest(&self) -> TimeDelta
        ensures is { let here = self.now.nanos in
            nanos_of result ≡ nearest_multiple here (unsigned_abs self.now.span) -ℤ here }
        ensures short { FitsSigned w64 (nanos_of result) }
    {
        let past = self.past();
        if past < self.span - past {
            TimeDelta::nanoseconds(-past)
        } else {
            TimeDelta::nanoseconds(self.span - past)
        }
    }
}
