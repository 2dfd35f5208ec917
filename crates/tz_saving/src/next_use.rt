//! The next use of a type.

ghost use Rattle.std.specs.Prelude.{◌≡◌, true};
ghost use Rattle.{
  tz_info.specs.Zones.{TypeAt},
  tz_saving.specs.{Amounts.{IsNextCandidate}, Sides.{IsFound}},
};

use crate::candidates::{candidates_at, only_of};
use crate::sides::{Side, Wanted, nearest_turn};
use tz_info::{LocalTimeType, TimeZone};

// The only candidate that the type, which has the DST flag, has when it is next used after the
// second; none if that is never, or out of reach.
#[tactic(auto, using(tz_info::proofs::Fits::fits, crate::proofs::AmountLaws::no_next))]
pub(crate) fn next_candidate(zone: &TimeZone, second: i64, local: &LocalTimeType) -> Option<i32>
    requires flagged { local.now.dst ≡ true }
    ensures { IsFound (IsNextCandidate (TypeAt zone.now) zone.now.rule local.now second) result }
{
    match nearest_turn(zone, second, Side::After, Wanted::Same(local)) {
        Some(change) => {
            let (early, late) = candidates_at(zone, change.at, local);
            only_of(early, late)
        }
        None => None,
    }
}
