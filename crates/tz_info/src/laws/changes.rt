//! Theorems of the changes of a zone's clocks: each function is empty, its contract is proved; never
//! called.

ghost use Rattle.std.specs.Prelude.{◌≡◌, ◌<ℤ◌, ◌≤ℤ◌, ◌-ℤ◌, ◌∷◌, pos, List, Option, ℤ};
ghost use Rattle.{
  tz_base.specs.LocalTypes.{LocalType},
  tz_info.specs.{Changes.{AreChanges, IsChange, IsFirst, IsLast}, Gaps.{IsTypeBeforeGap}, Zones.{TypeAt, Zone}},
};

use tz_base::Change;

/// At a second there is one change. So a second has one next change and one previous change, and a
/// stretch of time has one list of changes, whose first one is the next change after the second
/// before the stretch.
pub fn one_change_law()
    ensures once { (z : Zone) (c d : Change) → IsChange (TypeAt z) c → IsChange (TypeAt z) d
        → c.at ≡ d.at → c ≡ d }
    ensures next { (z : Zone) (s : ℤ) (a b : Option Change) → IsFirst (TypeAt z) (λ u. s <ℤ u) a
        → IsFirst (TypeAt z) (λ u. s <ℤ u) b → a ≡ b }
    ensures previous { (z : Zone) (s : ℤ) (a b : Option Change) → IsLast (TypeAt z) (λ u. u ≤ℤ s) a
        → IsLast (TypeAt z) (λ u. u ≤ℤ s) b → a ≡ b }
    ensures lists { (z : Zone) (from until : ℤ) (a b : List Change)
        → AreChanges (TypeAt z) from until a → AreChanges (TypeAt z) from until b → a ≡ b }
    ensures first { (z : Zone) (from until : ℤ) (c : Change) (cs : List Change)
        → AreChanges (TypeAt z) from until (c ∷ cs)
        → IsFirst (TypeAt z) (λ u. (from -ℤ pos 1) <ℤ u) (Some c) }
{}

/// One type is in force before a gap.
pub fn one_type_before_gap_law()
    ensures { (z : Zone) (local : ℤ) (s t : LocalType) → IsTypeBeforeGap (TypeAt z) local s
        → IsTypeBeforeGap (TypeAt z) local t → s ≡ t }
{}
