//! Theorems of the numbers and the structs that calls return: each function is empty, its contract is
//! proved; never called.

ghost use Rattle.std.specs.Prelude.{◌≡◌, ◌↔◌, ◌⊎◌, List, ℕ};
ghost use Rattle.zoned_ffi.specs.Refusals.{IsErrorOfKind};

use crate::changes::WrittenChange;
use crate::days::WrittenDay;
use crate::fields::Fields;
use crate::local_info::WrittenLocalInfo;
use crate::local_result::WrittenLocalResult;
use crate::local_type::WrittenType;
use crate::resolved::Resolved;
use crate::saving::WrittenSaving;
use crate::span::WrittenSpan;

/// A call that is rejected returns one number, or 17 if memory runs out first.
#[tactic(auto, using(crate::proofs::OneNumber::one_number))]
pub fn one_number()
    ensures { (kind : ℕ) (bytes : List ℕ) (m n : ℕ)
        → IsErrorOfKind kind bytes m → IsErrorOfKind kind bytes n
        → (m ≡ n) ⊎ (m ≡ 17) ⊎ (n ≡ 17) }
{}

/// A clone of a struct that C reads is the struct, and does not fail.
pub fn structs()
    ensures types { (a b : WrittenType) → ⟦<WrittenType as Clone>⟧.is_clone a b ↔ (b ≡ a) }
    ensures types_infallible { (a : WrittenType) → ⟦<WrittenType as Clone>⟧.is_infallible a }
    ensures changes { (a b : WrittenChange) → ⟦<WrittenChange as Clone>⟧.is_clone a b ↔ (b ≡ a) }
    ensures changes_infallible { (a : WrittenChange) → ⟦<WrittenChange as Clone>⟧.is_infallible a }
    ensures spans { (a b : WrittenSpan) → ⟦<WrittenSpan as Clone>⟧.is_clone a b ↔ (b ≡ a) }
    ensures spans_infallible { (a : WrittenSpan) → ⟦<WrittenSpan as Clone>⟧.is_infallible a }
    ensures local_infos { (a b : WrittenLocalInfo)
        → ⟦<WrittenLocalInfo as Clone>⟧.is_clone a b ↔ (b ≡ a) }
    ensures local_infos_infallible { (a : WrittenLocalInfo)
        → ⟦<WrittenLocalInfo as Clone>⟧.is_infallible a }
    ensures local_results { (a b : WrittenLocalResult)
        → ⟦<WrittenLocalResult as Clone>⟧.is_clone a b ↔ (b ≡ a) }
    ensures local_results_infallible { (a : WrittenLocalResult)
        → ⟦<WrittenLocalResult as Clone>⟧.is_infallible a }
    ensures resolved { (a b : Resolved) → ⟦<Resolved as Clone>⟧.is_clone a b ↔ (b ≡ a) }
    ensures resolved_infallible { (a : Resolved) → ⟦<Resolved as Clone>⟧.is_infallible a }
    ensures days { (a b : WrittenDay) → ⟦<WrittenDay as Clone>⟧.is_clone a b ↔ (b ≡ a) }
    ensures days_infallible { (a : WrittenDay) → ⟦<WrittenDay as Clone>⟧.is_infallible a }
    ensures fields { (a b : Fields) → ⟦<Fields as Clone>⟧.is_clone a b ↔ (b ≡ a) }
    ensures fields_infallible { (a : Fields) → ⟦<Fields as Clone>⟧.is_infallible a }
    ensures savings { (a b : WrittenSaving) → ⟦<WrittenSaving as Clone>⟧.is_clone a b ↔ (b ≡ a) }
    ensures savings_infallible { (a : WrittenSaving) → ⟦<WrittenSaving as Clone>⟧.is_infallible a }
{}
