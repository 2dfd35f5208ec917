//! Theorems of wall clocks over all seconds: each function is empty, its contract is proved; never
//! called.

ghost use Rattle.std.specs.{Int.{w64}, Prelude.{◌≡◌, ◌+ℤ◌, FitsSigned, ℕ, ℤ}};
ghost use Rattle.{
  offset_core.specs.WallAnswer.{IsWallAnswer},
  tz_base.specs.LocalTypes.{LocalType},
  tz_info.specs.{Around.{AreTypesAround}, Zones.{IsRuleOrNone, IsValid, TypeAt, Zone}},
  tz_info.specs.{WallClocks.{AreShown, IsAmongShown, Shows}, Windows.{IsWindowCount}},
};

use offset_core::{Around, LocalResult};
use tz_base::Change;

/// Each local time has an answer in each zone.
#[tactic(auto, using(crate::proofs::WallLaws::wall_decided))]
pub fn decided()
    ensures { (z : Zone) (local : ℤ) → IsValid z → IsRuleOrNone z.rule
        → (types : LocalResult LocalType) × IsWallAnswer (Shows (TypeAt z) local) types }
{}

/// Each type that a wall clock answers is in force at the local time less its offset. And an
/// instant whose wall clock is asked is the answer's only one, or lies between its first and its
/// last.
#[tactic(auto, using(crate::proofs::WallLaws::are_shown, crate::proofs::WallLaws::is_among_shown))]
pub fn wall_clock_law()
    ensures shown { (z : Zone) (local : ℤ) (answer : LocalResult LocalType)
        → IsWallAnswer (Shows (TypeAt z) local) answer → AreShown (TypeAt z) local answer }
    ensures around { (z : Zone) (u : ℤ) (t : LocalType) (answer : LocalResult LocalType)
        → FitsSigned w64 u → TypeAt z u t
        → IsWallAnswer (Shows (TypeAt z) (u +ℤ t.offset)) answer
        → IsAmongShown (u +ℤ t.offset) u answer }
{}

/// A local time has one answer: that of the index and that of the walk are equal.
#[tactic(auto, using(crate::proofs::WallLaws::one_wall_clock))]
pub fn one_wall_clock_law()
    ensures { (z : Zone) (local : ℤ) (a b : LocalResult LocalType)
        → IsWallAnswer (Shows (TypeAt z) local) a
        → IsWallAnswer (Shows (TypeAt z) local) b
        → a ≡ b }
{}

/// And it has one answer with both sides of its gap.
#[tactic(auto, using(crate::proofs::WallLaws::one_answer_around))]
pub fn one_answer_around_law()
    ensures { (z : Zone) (local : ℤ) (a b : Around LocalType Change)
        → AreTypesAround (TypeAt z) local a → AreTypesAround (TypeAt z) local b → a ≡ b }
{}

/// A local time has one count of the transitions that come near it.
pub fn window_count_law()
    ensures { (z : Zone) (local : ℤ) (j k : ℕ) → IsWindowCount z local j
        → IsWindowCount z local k → j ≡ k }
{}
