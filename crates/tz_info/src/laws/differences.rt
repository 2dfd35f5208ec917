//! Theorems of the differences of two zones: each function is empty, its contract is proved; never
//! called.

ghost use Rattle.std.specs.Prelude.{◌≡◌, ℤ};
ghost use Rattle.tz_info.specs.{Differences.{IsDifference, IsInDifference}, Zones.{TypeAt, Zone}};

use crate::zone::ask::differences::Difference;

/// Two differences of two zones that share a second are the same.
#[tactic(auto, using(crate::proofs::DifferenceLaws::one_difference))]
pub fn one_difference_law()
    ensures { (z w : Zone) (from until u : ℤ) (d e : Difference)
        → IsDifference (TypeAt z) (TypeAt w) from until d
        → IsDifference (TypeAt z) (TypeAt w) from until e
        → IsInDifference u d → IsInDifference u e → d ≡ e }
{}
