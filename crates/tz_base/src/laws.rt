//! Theorems of equality and clones: each function is empty, its contract is proved; never called.

ghost use Rattle.std.specs.Prelude.{◌≡◌, ◌↔◌, IsTrue, List, ℕ};
ghost use Rattle.tz_base.specs.LocalTypes.{LocalType};

use crate::change::Change;
use crate::error::{Error, Expected};
use crate::local_time_type::LocalTimeType;
use crate::name::TimeZoneName;
use crate::parse_error::ParseError;
use crate::span::Span;

/// Names are equal if and only if their bytes are. A clone is the value, and does not fail.
pub fn names()
    ensures equal { (a b : List ℕ) → IsTrue (⟦<TimeZoneName as PartialEq>⟧.eq a b) ↔ (a ≡ b) }
    ensures clone { (a b : List ℕ) → ⟦<TimeZoneName as Clone>⟧.is_clone a b ↔ (b ≡ a) }
    ensures infallible { (a : List ℕ) → ⟦<TimeZoneName as Clone>⟧.is_infallible a }
{}

/// Types are equal if and only if their offsets, DST flags and names are. A clone is the value, and
/// does not fail.
pub fn local_time_types()
    ensures equal { (a b : LocalType) → IsTrue (⟦<LocalTimeType as PartialEq>⟧.eq a b) ↔ (a ≡ b) }
    ensures clone { (a b : LocalType) → ⟦<LocalTimeType as Clone>⟧.is_clone a b ↔ (b ≡ a) }
    ensures infallible { (a : LocalType) → ⟦<LocalTimeType as Clone>⟧.is_infallible a }
{}

/// Changes of the clocks are equal if and only if their seconds and the types before and after are.
/// A clone is the value, and does not fail.
#[tactic(auto, using(crate::proofs::ChangeEquality::change_exact))]
pub fn changes()
    ensures equal { (a b : Change) → IsTrue (⟦<Change as PartialEq>⟧.eq a b) ↔ (a ≡ b) }
    ensures clone { (a b : Change) → ⟦<Change as Clone>⟧.is_clone a b ↔ (b ≡ a) }
    ensures infallible { (a : Change) → ⟦<Change as Clone>⟧.is_infallible a }
{}

/// Spans are equal if and only if their types and both of their ends are. A clone is the value, and
/// does not fail.
#[tactic(auto, using(crate::proofs::ChangeEquality::span_exact))]
pub fn spans()
    ensures equal { (a b : Span) → IsTrue (⟦<Span as PartialEq>⟧.eq a b) ↔ (a ≡ b) }
    ensures clone { (a b : Span) → ⟦<Span as Clone>⟧.is_clone a b ↔ (b ≡ a) }
    ensures infallible { (a : Span) → ⟦<Span as Clone>⟧.is_infallible a }
{}

/// What was expected is equal if it is the same. A clone is the value, and does not fail.
pub fn expectations()
    ensures equal { (a b : Expected) → IsTrue (⟦<Expected as PartialEq>⟧.eq a b) ↔ (a ≡ b) }
    ensures clone { (a b : Expected) → ⟦<Expected as Clone>⟧.is_clone a b ↔ (b ≡ a) }
    ensures infallible { (a : Expected) → ⟦<Expected as Clone>⟧.is_infallible a }
{}

/// Errors are equal if they are the same. A clone is the error, and does not fail.
#[tactic(auto, using(crate::proofs::ErrorEquality::error_exact))]
pub fn errors()
    ensures equal { (a b : Error) → IsTrue (⟦<Error as PartialEq>⟧.eq a b) ↔ (a ≡ b) }
    ensures clone { (a b : Error) → ⟦<Error as Clone>⟧.is_clone a b ↔ (b ≡ a) }
    ensures infallible { (a : Error) → ⟦<Error as Clone>⟧.is_infallible a }
{}

/// Errors with their place are equal if and only if their errors and their places are. A clone is the
/// value, and does not fail.
#[tactic(auto, using(crate::proofs::ErrorEquality::parse_error_exact))]
pub fn parse_errors()
    ensures equal { (a b : ParseError) → IsTrue (⟦<ParseError as PartialEq>⟧.eq a b) ↔ (a ≡ b) }
    ensures clone { (a b : ParseError) → ⟦<ParseError as Clone>⟧.is_clone a b ↔ (b ≡ a) }
    ensures infallible { (a : ParseError) → ⟦<ParseError as Clone>⟧.is_infallible a }
{}
