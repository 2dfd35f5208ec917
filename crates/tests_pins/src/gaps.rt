//! What is around a local time in New York: one type, two types, or a gap with both its sides.

ghost use Rattle.{
  std.specs.Prelude.{pos},
  tests_pins.specs.NewYork.{edt, est, new_york_zone},
  tz_info.specs.{Around.{AreTypesAround}, Gaps.{IsShown}, Zones.{TypeAt}},
};

use offset_core::Around;

/// 02:30 on 14 March 2021 lies in the gap at 1615705200, from EST to EDT; 01:59:59 is shown once.
pub fn gap()
    ensures half_past_two { AreTypesAround (TypeAt new_york_zone) (pos 1_615_689_000)
        (Around.Gap (record { before = est; after = edt; at = pos 1_615_705_200 })) }
    ensures not_first { ¬ (AreTypesAround (TypeAt new_york_zone) (pos 1_615_689_000)
        (Around.Gap (record { before = est; after = edt; at = pos 1_615_705_199 }))) }
    ensures not_shown { ¬ (IsShown (TypeAt new_york_zone) (pos 1_615_689_000)) }
    ensures before { AreTypesAround (TypeAt new_york_zone) (pos 1_615_687_199) (Around.Single est) }
    ensures shown { IsShown (TypeAt new_york_zone) (pos 1_615_687_199) }
{}

/// 01:30 on 7 November 2021 is shown first by EDT and last by EST.
#[tactic(auto, using(crate::proofs::NewYork::once, crate::proofs::NewYork::twice))]
pub fn fold()
    ensures half_past_one { AreTypesAround (TypeAt new_york_zone) (pos 1_636_248_600)
        (Around.Ambiguous edt est) }
    ensures after { AreTypesAround (TypeAt new_york_zone) (pos 1_636_250_400) (Around.Single est) }
{}
