//! Theorems of amounts: each function is empty, its contract is proved; never called.

ghost use Rattle.std.specs.Prelude.{◌≡◌, ◌↔◌, IsTrue, ℤ};
ghost use Rattle.{
  tz_info.specs.Zones.{TypeAt, Zone},
  tz_saving.specs.{Amounts.{IsAmount}, Amounts.{IsSavingAt}},
};

use crate::Saving;

/// A second has one amount, and one standard offset.
pub fn one_amount_law()
    ensures once { (z : Zone) (u a b : ℤ) → IsAmount (TypeAt z) z.rule u a
        → IsAmount (TypeAt z) z.rule u b → a ≡ b }
    ensures both { (z : Zone) (u : ℤ) (s t : Saving) → IsSavingAt z u s
        → IsSavingAt z u t → s ≡ t }
{}

/// Amounts are equal if and only if both of their parts are. A clone is the amount, and does not fail.
pub fn savings()
    ensures equal { (a b : Saving) → IsTrue (⟦<Saving as PartialEq>⟧.eq a b) ↔ (a ≡ b) }
    ensures clone { (a b : Saving) → ⟦<Saving as Clone>⟧.is_clone a b ↔ (b ≡ a) }
    ensures infallible { (a : Saving) → ⟦<Saving as Clone>⟧.is_infallible a }
{}
