//! Theorems: each function is empty, its contract is proved; never called.
ghost use Rattle.std.specs.Prelude.{◌≡◌, ◌↔◌, IsTrue};

use crate::{YearDay, YearMonthDay};

/// A clone of a day's place in its year is that place.
pub fn year_days()
    ensures cloned { (a b : YearDay) → ⟦<YearDay as Clone>⟧.is_clone a b ↔ (a ≡ b) }
    ensures infallible { (a : YearDay) → ⟦<YearDay as Clone>⟧.is_infallible a }
{}

/// Dates of the calendar are equal if and only if their years, months and days are, and a clone is
/// the date.
pub fn year_month_days()
    ensures equal { (a b : YearMonthDay) → IsTrue (⟦<YearMonthDay as PartialEq>⟧.eq a b)
        ↔ ((a.year ≡ b.year) × (a.month ≡ b.month) × (a.day ≡ b.day)) }
    ensures cloned { (a b : YearMonthDay) → ⟦<YearMonthDay as Clone>⟧.is_clone a b ↔ (a ≡ b) }
    ensures infallible { (a : YearMonthDay) → ⟦<YearMonthDay as Clone>⟧.is_infallible a }
{}
