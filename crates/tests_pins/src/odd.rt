//! The odd zone: its clocks are a second ahead at each odd second.

ghost use Rattle.std.specs.Prelude.{◌≡◌, pos, neg_ℤ};
ghost use Rattle.{
  demo_own_zone.specs.Odd.{odd_offset},
  offset_core.specs.WallAnswer.{IsNeverShown, IsShownBetween},
  zoned_time.specs.Zone.{ShowsByOffset},
};

/// Before 1970 too.
pub fn offsets()
    ensures even { odd_offset (pos 0) ≡ pos 0 }
    ensures odd { odd_offset (pos 1) ≡ pos 1 }
    ensures odd_before_1970 { odd_offset (neg_ℤ (pos 1)) ≡ pos 1 }
    ensures even_before_1970 { odd_offset (neg_ℤ (pos 2)) ≡ pos 0 }
{}

/// The local time 1 is shown at no second, and 2 at two, first with the offset 1 and then with 0.
#[tactic(auto, using(demo_own_zone::proofs::Walls::shown_never, demo_own_zone::proofs::Walls::shown_twice))]
pub fn clocks()
    ensures odd { IsNeverShown (ShowsByOffset odd_offset (pos 1)) }
    ensures even { IsShownBetween (ShowsByOffset odd_offset (pos 2)) (pos 1) (pos 0) }
{}
