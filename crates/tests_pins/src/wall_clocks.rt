//! What New York's clocks show in 2021, over all seconds of 64 bits: a gap on 14 March, from 02:00
//! to 03:00, and a fold on 7 November, from 01:00 to 02:00.

ghost use Rattle.std.specs.Prelude.{◌≡◌, pos};
ghost use Rattle.{
  offset_core.specs.WallAnswer.{IsWallAnswer},
  tests_pins.specs.NewYork.{edt, est, new_york_zone},
  tz_base.specs.LocalTypes.{LocalType},
  tz_info.specs.{Gaps.{IsTypeBeforeGap}, WallClocks.{Shows}, Zones.{TypeAt}},
};

use offset_core::LocalResult;

/// No second shows 02:30, nor 02:00. 01:59:59 is shown once, by EST, and 03:00 once, by EDT.
pub fn gap()
    ensures before { IsWallAnswer (Shows (TypeAt new_york_zone) (pos 1_615_687_199))
        (LocalResult.Single est) }
    ensures first { IsWallAnswer (Shows (TypeAt new_york_zone) (pos 1_615_687_200)) LocalResult.None }
    ensures half_past_two { IsWallAnswer (Shows (TypeAt new_york_zone) (pos 1_615_689_000))
        LocalResult.None }
    ensures last { IsWallAnswer (Shows (TypeAt new_york_zone) (pos 1_615_690_799)) LocalResult.None }
    ensures after { IsWallAnswer (Shows (TypeAt new_york_zone) (pos 1_615_690_800))
        (LocalResult.Single edt) }
    ensures type_before { IsTypeBeforeGap (TypeAt new_york_zone) (pos 1_615_689_000) est }
    ensures no_other_before { (t : LocalType)
        → IsTypeBeforeGap (TypeAt new_york_zone) (pos 1_615_689_000) t → t ≡ est }
{}

/// Two seconds show 01:30, the first by EDT and the last by EST. So it is from 01:00 on.
#[tactic(auto, using(crate::proofs::NewYork::once, crate::proofs::NewYork::twice))]
pub fn fold()
    ensures before { IsWallAnswer (Shows (TypeAt new_york_zone) (pos 1_636_246_799))
        (LocalResult.Single edt) }
    ensures first { IsWallAnswer (Shows (TypeAt new_york_zone) (pos 1_636_246_800))
        (LocalResult.Ambiguous edt est) }
    ensures half_past_one { IsWallAnswer (Shows (TypeAt new_york_zone) (pos 1_636_248_600))
        (LocalResult.Ambiguous edt est) }
    ensures last { IsWallAnswer (Shows (TypeAt new_york_zone) (pos 1_636_250_399))
        (LocalResult.Ambiguous edt est) }
{}
