//! When plans fire in zones whose clocks are set once, as `zdump -v` of the tz database has them, and
//! the last local times that those clocks have shown.
#![tactic(auto)]

ghost use Rattle.std.specs.Prelude.{◌≡◌, ◌∷◌, [], neg_ℤ, pos, List, ℤ};
ghost use Rattle.{
  tests_pins.specs.{Days.{AreSetAt}, Plans.{daily, twice_daily}},
  zoned_plans.specs.Fires.{second_before, AreFires, IsFire, IsLastFire, IsNextFire},
  zoned_time.specs.Zone.{IsReachedAt},
};

/// In St. John's clocks went from 00:01 on 2005-10-30 back to 23:01, at 02:31:00 UTC. At 03:02:00 UTC
/// they show 23:32, and have shown 00:00:59, the second 1,130,630,459.
pub fn st_johns()
    ensures reached { (off : ℤ → ℤ)
        → AreSetAt off (pos 1_130_639_460) (neg_ℤ (pos 9_000)) (neg_ℤ (pos 12_600))
        → IsReachedAt off (pos 1_130_641_320) (pos 1_130_630_459) }
    ensures only { (off : ℤ → ℤ) (l : ℤ)
        → AreSetAt off (pos 1_130_639_460) (neg_ℤ (pos 9_000)) (neg_ℤ (pos 12_600))
        → IsReachedAt off (pos 1_130_641_320) l → l ≡ pos 1_130_630_459 }
{}

/// In New York clocks went from 02:00 on 2021-11-07 back to 01:00, at 06:00:00 UTC. A run at 01:30 on
/// each day is at 05:30:00 UTC, on the first pass, and not at 06:30:00 UTC.
pub fn new_york_in_autumn()
    ensures first_pass { (off : ℤ → ℤ)
        → AreSetAt off (pos 1_636_264_800) (neg_ℤ (pos 14_400)) (neg_ℤ (pos 18_000))
        → IsFire off (daily 5_400) (pos 1_636_263_000) }
    ensures second_pass { (off : ℤ → ℤ)
        → AreSetAt off (pos 1_636_264_800) (neg_ℤ (pos 14_400)) (neg_ℤ (pos 18_000))
        → IsFire off (daily 5_400) (pos 1_636_266_600) → ⊥ }
{}

/// There they went from 02:00 on 2021-03-14 on to 03:00, at 07:00:00 UTC. Runs at 02:15 and 02:45 on
/// each day are one run then, and are at 06:15 and 06:45 UTC on the next day. After midnight of the
/// first and up to the last of these there are no others.
pub fn new_york_in_spring()
    ensures fires { (off : ℤ → ℤ)
        → AreSetAt off (pos 1_615_705_200) (neg_ℤ (pos 18_000)) (neg_ℤ (pos 14_400))
        → AreFires off (twice_daily 8_100 9_900) (pos 1_615_698_000) (pos 1_615_790_700)
        (pos 1_615_705_200 ∷ pos 1_615_788_900 ∷ pos 1_615_790_700 ∷ []) }
    ensures only { (off : ℤ → ℤ) (us : List ℤ)
        → AreSetAt off (pos 1_615_705_200) (neg_ℤ (pos 18_000)) (neg_ℤ (pos 14_400))
        → AreFires off (twice_daily 8_100 9_900) (pos 1_615_698_000) (pos 1_615_790_700) us
        → us ≡ (pos 1_615_705_200 ∷ pos 1_615_788_900 ∷ pos 1_615_790_700 ∷ []) }
{}

/// In Apia clocks went over the whole of 2011-12-30, at 10:00:00 UTC. A run at 09:00 on each day is then,
/// since clocks show 00:00 of the next day: it is the next one after the second before, and the last one
/// until then.
pub fn apia()
    ensures at_the_end { (off : ℤ → ℤ)
        → AreSetAt off (pos 1_325_239_200) (neg_ℤ (pos 36_000)) (pos 50_400)
        → IsFire off (daily 32_400) (pos 1_325_239_200) }
    ensures next { (off : ℤ → ℤ)
        → AreSetAt off (pos 1_325_239_200) (neg_ℤ (pos 36_000)) (pos 50_400)
        → IsNextFire off (daily 32_400) (pos 1_325_239_199) (pos 1_325_239_200) }
    ensures last { (off : ℤ → ℤ)
        → AreSetAt off (pos 1_325_239_200) (neg_ℤ (pos 36_000)) (pos 50_400)
        → IsLastFire off (daily 32_400) (pos 1_325_239_200) (pos 1_325_239_200) }
    ensures not_after_itself { (off : ℤ → ℤ)
        → ¬ (IsNextFire off (daily 32_400) (pos 1_325_239_200) (pos 1_325_239_200)) }
{}

/// The last whole second before an instant: before a whole second it is the one before it.
pub fn seconds_before()
    ensures within { second_before (record { s = pos 5; f = 1 }) ≡ pos 5 }
    ensures whole { second_before (record { s = pos 5; f = 0 }) ≡ pos 4 }
{}
