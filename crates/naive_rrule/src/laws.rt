//! Theorems of equality and clones: each function is empty, its contract is proved; never called.

ghost use Rattle.std.specs.Prelude.{◌≡◌, ◌↔◌, IsTrue};

use crate::{Frequency, NthWeekday, RecurrenceEnd, RecurrenceError};

/// Frequencies are equal if and only if they are the same. A clone is the value, and does not fail.
pub fn frequencies()
    ensures equal { (a b : Frequency) → IsTrue (⟦<Frequency as PartialEq>⟧.eq a b) ↔ (a ≡ b) }
    ensures clone { (a b : Frequency) → ⟦<Frequency as Clone>⟧.is_clone a b ↔ (b ≡ a) }
    ensures infallible { (a : Frequency) → ⟦<Frequency as Clone>⟧.is_infallible a }
{}

/// Entries of `BYDAY` are equal if and only if their weekdays and their numbers are. A clone is the
/// value, and does not fail.
pub fn nth_weekdays()
    ensures equal { (a b : NthWeekday) → IsTrue (⟦<NthWeekday as PartialEq>⟧.eq a b) ↔ (a ≡ b) }
    ensures clone { (a b : NthWeekday) → ⟦<NthWeekday as Clone>⟧.is_clone a b ↔ (b ≡ a) }
    ensures infallible { (a : NthWeekday) → ⟦<NthWeekday as Clone>⟧.is_infallible a }
{}

/// Errors are equal if and only if they are the same. A clone is the error, and does not fail.
pub fn errors()
    ensures equal { (a b : RecurrenceError)
        → IsTrue (⟦<RecurrenceError as PartialEq>⟧.eq a b) ↔ (a ≡ b) }
    ensures clone { (a b : RecurrenceError) → ⟦<RecurrenceError as Clone>⟧.is_clone a b ↔ (b ≡ a) }
    ensures infallible { (a : RecurrenceError) → ⟦<RecurrenceError as Clone>⟧.is_infallible a }
{}

/// A clone of an end is that end, and does not fail.
pub fn ends()
    ensures clone { (a b : RecurrenceEnd) → ⟦<RecurrenceEnd as Clone>⟧.is_clone a b ↔ (b ≡ a) }
    ensures infallible { (a : RecurrenceEnd) → ⟦<RecurrenceEnd as Clone>⟧.is_infallible a }
{}
