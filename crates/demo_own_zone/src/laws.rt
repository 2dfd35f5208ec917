//! Theorems: each function is empty, its contract is proved; never called.
ghost use Rattle.std.specs.Prelude.{◌≡◌, ◌↔◌, pos, IsTrue, ℤ};
ghost use Rattle.{
  demo_own_zone.specs.Odd.{odd_offset},
  naive_base.specs.{Range.{IsWide}, Year.{floor_mod}},
  offset_core.specs.WallAnswer.{IsNeverShown, IsShownBetween},
  zoned_time.specs.Zone.{ShowsByOffset},
};

use crate::{Odd, OddOffset};

/// The clocks of the odd zone show no odd second, and each even one twice: first with the offset 1,
/// then with 0.
#[tactic(auto, using(crate::proofs::Walls::shown_twice))]
pub fn odd_seconds_are_gaps_and_even_ones_folds()
    ensures odd { (l : ℤ) → floor_mod l 2 ≡ 1 → IsNeverShown (ShowsByOffset odd_offset l) }
    ensures even { (l : ℤ) → IsWide l → floor_mod l 2 ≡ 0
        → IsShownBetween (ShowsByOffset odd_offset l) (pos 1) (pos 0) }
{}

/// Offsets are equal if and only if they are the same one, and a clone is the offset.
pub fn offsets()
    ensures equal { (a b : OddOffset) → IsTrue (⟦<OddOffset as PartialEq>⟧.eq a b) ↔ (a ≡ b) }
    ensures cloned { (a b : OddOffset) → ⟦<OddOffset as Clone>⟧.is_clone a b ↔ (a ≡ b) }
    ensures infallible { (a : OddOffset) → ⟦<OddOffset as Clone>⟧.is_infallible a }
{}

/// There is one odd zone, and making a clone of it never fails.
pub fn one_odd_zone(a: &Odd, b: &Odd)
    ensures one { a.now ≡ b.now }
    ensures infallible { ⟦<Odd as Clone>⟧.is_infallible a.now }
{}
