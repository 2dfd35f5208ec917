//! Theorems: each function is empty, its contract is proved; never called.

ghost use Rattle.std.specs.Prelude.{◌≡◌, MatchBool};

use crate::run_error::RunError;

/// Two stops compare as equal if and only if they are the same, and making a clone never fails.
pub fn stops_are_equal_where_they_are_the_same(a: RunError, b: RunError)
    ensures equal { MatchBool (⟦<RunError as PartialEq>⟧.eq a b) (a ≡ b) (¬ (a ≡ b)) }
    ensures infallible { ⟦<RunError as Clone>⟧.is_infallible a }
{}
