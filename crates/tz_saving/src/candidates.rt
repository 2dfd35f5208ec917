//! Candidates: the amounts that standard time on each side of a second allows.

ghost use Rattle.std.specs.Prelude.{◌≡◌, ◌≢◌, ◌↔◌, pos, true, IsTrue};
ghost use Rattle.{
  offset_core.specs.Offset.{IsWithinDay},
  tz_info.specs.Zones.{TypeAt},
  tz_saving.specs.{Amounts.{AreCandidates, IsCandidate, IsOnly}, Sides.{IsFound}},
};

use crate::sides::{Side, nearest_standard, standard_after};
use tz_info::{LocalTimeType, TimeZone};

// The two candidates of a second at which that type is in force, with the DST flag.
pub(crate) fn candidates_at(
    zone: &TimeZone,
    second: i64,
    local: &LocalTimeType,
) -> (Option<i32>, Option<i32>)
    requires in_force { TypeAt zone.now second local.now }
    requires flagged { local.now.dst ≡ true }
    ensures { AreCandidates (TypeAt zone.now) zone.now.rule second local.now.offset result.0 result.1 }
{
    let before = nearest_standard(zone, second, Side::Before);
    let after = standard_after(zone, second);
    (candidate_of(local, before), candidate_of(local, after))
}

// How far the type's offset is from a standard offset that was found, unless that is 0, or a day or
// more.
#[tactic(auto, using(tz_info::proofs::Fits::fits))]
fn candidate_of(local: &LocalTimeType, standard: Option<i32>) -> Option<i32>
    ensures { IsFound (IsCandidate (λ s. standard ≡ Some s) local.now.offset) result }
{
    match standard {
        Some(standard) => {
            let amount = local.offset() as i64 - standard as i64;
            if is_amount(amount) {
                Some(amount as i32)
            } else {
                None
            }
        }
        None => None,
    }
}

// Whether it is not 0, and less than a day either way.
fn is_amount(seconds: i64) -> bool
    ensures { IsTrue result ↔ ((seconds ≢ pos 0) × IsWithinDay seconds) }
{
    seconds != 0 && -86_400 < seconds && seconds < 86_400
}

// The only one of two candidates.
pub(crate) fn only_of(early: Option<i32>, late: Option<i32>) -> Option<i32>
    ensures { IsFound (IsOnly early late) result }
{
    match (early, late) {
        (None, None) => None,
        (Some(only), None) => Some(only),
        (None, Some(only)) => Some(only),
        (Some(early), Some(late)) => if early == late { Some(early) } else { None },
    }
}
