//! Theorems of clones and daily times: each function is empty, its contract is proved; never called.

ghost use Rattle.std.specs.Prelude.{◌≡◌, ◌↔◌, ◌+ℤ◌, pos, ℕ, ℤ};
ghost use Rattle.naive_plans.specs.DailyTimes.{IsDailyFrom};

use crate::{Cron, DailyTime};

/// A clone of a plan is that plan, and does not fail.
pub fn crons()
    ensures clone { (a b : Cron) → ⟦<Cron as Clone>⟧.is_clone a b ↔ (b ≡ a) }
    ensures infallible { (a : Cron) → ⟦<Cron as Clone>⟧.is_infallible a }
{}

/// A clone of a daily time is that daily time, and does not fail.
pub fn daily_clones()
    ensures clone { (a b : DailyTime) → ⟦<DailyTime as Clone>⟧.is_clone a b ↔ (b ≡ a) }
    ensures infallible { (a : DailyTime) → ⟦<DailyTime as Clone>⟧.is_infallible a }
{}

/// A daily time is its second on its first day and on each day after it, and no other second.
pub fn daily_times()
    ensures days { (first : ℤ) (at n : ℕ) → IsDailyFrom first at (first +ℤ pos n) at }
    ensures no_others { (first : ℤ) (at : ℕ) (day : ℤ) (second : ℕ) → IsDailyFrom first at day second
        → (n : ℕ) × (day ≡ first +ℤ pos n) × (second ≡ at) }
{}
