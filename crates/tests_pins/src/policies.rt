//! When a plan fires under a policy for gaps and folds, and stretches of one offset, in zones whose clocks
//! are set once, as `zdump -v` of the tz database has them.
#![tactic(auto)]

ghost use Rattle.std.specs.Prelude.{◌≡◌, neg_ℤ, pos, ℤ};
ghost use Rattle.{
  tests_pins.specs.{Days.{AreSetAt}, Plans.{daily}},
  zoned_plans.specs.{Nearest.{IsNextOf}, Policies.{IsFireBy, IsShownFire}},
  zoned_time.specs.Zone.{IsOffsetStretch},
};

use zoned_plans::{FirePolicy, FoldFires, GapFires};

/// In New York clocks went from 02:00 on 2021-03-14 on to 03:00, at 07:00:00 UTC. A run at 02:30 on each
/// day is then under the policy of the gap's end. They never show 02:30: otherwise the next run is on the
/// day after, at 06:30:00 UTC.
pub fn gap_in_new_york()
    ensures at_end { (off : ℤ → ℤ) (policy : FirePolicy) → policy.gap ≡ GapFires.AtEnd
        → AreSetAt off (pos 1_615_705_200) (neg_ℤ (pos 18_000)) (neg_ℤ (pos 14_400))
        → IsFireBy policy off (daily 9_000) (pos 1_615_705_200) }
    ensures not_shown { (off : ℤ → ℤ)
        → AreSetAt off (pos 1_615_705_200) (neg_ℤ (pos 18_000)) (neg_ℤ (pos 14_400))
        → ¬ (IsShownFire off (daily 9_000) (pos 1_615_705_200)) }
    ensures never { (off : ℤ → ℤ) (policy : FirePolicy) → policy.gap ≡ GapFires.Never
        → AreSetAt off (pos 1_615_705_200) (neg_ℤ (pos 18_000)) (neg_ℤ (pos 14_400))
        → ¬ (IsFireBy policy off (daily 9_000) (pos 1_615_705_200)) }
    ensures next { (off : ℤ → ℤ) (policy : FirePolicy) → policy.gap ≡ GapFires.Never
        → AreSetAt off (pos 1_615_705_200) (neg_ℤ (pos 18_000)) (neg_ℤ (pos 14_400))
        → IsNextOf (IsFireBy policy off (daily 9_000)) (pos 1_615_698_000) (pos 1_615_789_800) }
    ensures only { (off : ℤ → ℤ) (policy : FirePolicy) (u : ℤ) → policy.gap ≡ GapFires.Never
        → AreSetAt off (pos 1_615_705_200) (neg_ℤ (pos 18_000)) (neg_ℤ (pos 14_400))
        → IsNextOf (IsFireBy policy off (daily 9_000)) (pos 1_615_698_000) u
        → u ≡ pos 1_615_789_800 }
{}

/// There they went from 02:00 on 2021-11-07 back to 01:00, at 06:00:00 UTC. A run at 01:30 on each day is
/// at 05:30:00 UTC under each policy, and again at 06:30:00 UTC under that of each pass. Otherwise the next
/// one is on the day after, at 06:30:00 UTC.
pub fn fold_in_new_york()
    ensures first_pass { (off : ℤ → ℤ) (policy : FirePolicy)
        → AreSetAt off (pos 1_636_264_800) (neg_ℤ (pos 14_400)) (neg_ℤ (pos 18_000))
        → IsFireBy policy off (daily 5_400) (pos 1_636_263_000) }
    ensures second_pass { (off : ℤ → ℤ) (policy : FirePolicy) → policy.fold ≡ FoldFires.EachPass
        → AreSetAt off (pos 1_636_264_800) (neg_ℤ (pos 14_400)) (neg_ℤ (pos 18_000))
        → IsFireBy policy off (daily 5_400) (pos 1_636_266_600) }
    ensures next { (off : ℤ → ℤ) (policy : FirePolicy) → policy.fold ≡ FoldFires.FirstPass
        → AreSetAt off (pos 1_636_264_800) (neg_ℤ (pos 14_400)) (neg_ℤ (pos 18_000))
        → IsNextOf (IsFireBy policy off (daily 5_400)) (pos 1_636_263_000) (pos 1_636_353_000) }
    ensures only { (off : ℤ → ℤ) (policy : FirePolicy) (u : ℤ) → policy.fold ≡ FoldFires.FirstPass
        → AreSetAt off (pos 1_636_264_800) (neg_ℤ (pos 14_400)) (neg_ℤ (pos 18_000))
        → IsNextOf (IsFireBy policy off (daily 5_400)) (pos 1_636_263_000) u
        → u ≡ pos 1_636_353_000 }
{}

/// From then on New York is five hours behind UTC, and before it was four: the second before belongs to no
/// stretch of five.
pub fn stretches()
    ensures from { (off : ℤ → ℤ)
        → AreSetAt off (pos 1_636_264_800) (neg_ℤ (pos 14_400)) (neg_ℤ (pos 18_000))
        → IsOffsetStretch off (pos 1_636_266_600) (pos 1_636_264_800) (pos 1_700_000_000)
        (neg_ℤ (pos 18_000)) }
    ensures offset { (off : ℤ → ℤ) (k : ℤ)
        → AreSetAt off (pos 1_636_264_800) (neg_ℤ (pos 14_400)) (neg_ℤ (pos 18_000))
        → IsOffsetStretch off (pos 1_636_266_600) (pos 1_636_264_800) (pos 1_700_000_000) k
        → k ≡ neg_ℤ (pos 18_000) }
    ensures before { (off : ℤ → ℤ) (until k : ℤ)
        → AreSetAt off (pos 1_636_264_800) (neg_ℤ (pos 14_400)) (neg_ℤ (pos 18_000))
        → ¬ (IsOffsetStretch off (pos 1_636_266_600) (pos 1_636_264_799) until k) }
    ensures end { (off : ℤ → ℤ) (from k : ℤ)
        → AreSetAt off (pos 1_636_264_800) (neg_ℤ (pos 14_400)) (neg_ℤ (pos 18_000))
        → ¬ (IsOffsetStretch off (pos 1_636_263_000) from (pos 1_636_264_801) k) }
    ensures beyond { (off : ℤ → ℤ) (from k : ℤ)
        → ¬ (IsOffsetStretch off (pos 1_636_263_000) from (pos 1_636_263_000) k) }
{}
