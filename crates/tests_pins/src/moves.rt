//! Which runs of a plan only one of two zones has. In New York clocks went from 02:00 on 2021-03-14 on to
//! 03:00, at 07:00:00 UTC, as `zdump -v` of the tz database has it. In Panama they are five hours behind UTC
//! all year.
#![tactic(auto)]

ghost use Rattle.std.specs.Prelude.{◌≡◌, neg_ℤ, pos, ℤ};
ghost use Rattle.{
  tests_pins.specs.{Days.{plain_law, AreSetAt, IsAlways}, Plans.{daily}},
  zoned_plans.specs.Moves.{seconds_left, moves_between, utc_of_move, FiresInFirstOnly, IsMove, IsNextMove},
  zoned_plans.specs.Moves.{NoneMovesBefore, NoneMovesBetween},
  zoned_time.specs.Zoned.{Zoned},
};

use zoned_plans::Move;

/// A run at noon on each day is at 17:00 UTC in both zones until 2021-03-13. On the day after it is at 16:00
/// UTC in New York alone, and at 17:00 UTC in Panama alone.
pub fn noon()
    ensures removed { (old new : ℤ → ℤ)
        → AreSetAt old (pos 1_615_705_200) (neg_ℤ (pos 18_000)) (neg_ℤ (pos 14_400))
        → IsAlways new (neg_ℤ (pos 18_000))
        → FiresInFirstOnly old new (daily 43_200) (pos 1_615_737_600) }
    ensures added { (old new : ℤ → ℤ)
        → AreSetAt old (pos 1_615_705_200) (neg_ℤ (pos 18_000)) (neg_ℤ (pos 14_400))
        → IsAlways new (neg_ℤ (pos 18_000))
        → FiresInFirstOnly new old (daily 43_200) (pos 1_615_741_200) }
    ensures moves { (old new : ℤ → ℤ)
        → AreSetAt old (pos 1_615_705_200) (neg_ℤ (pos 18_000)) (neg_ℤ (pos 14_400))
        → IsAlways new (neg_ℤ (pos 18_000))
        → IsMove old new (daily 43_200) (pos 1_615_741_200) }
    ensures stays { (old new : ℤ → ℤ)
        → AreSetAt old (pos 1_615_705_200) (neg_ℤ (pos 18_000)) (neg_ℤ (pos 14_400))
        → IsAlways new (neg_ℤ (pos 18_000))
        → ¬ (IsMove old new (daily 43_200) (pos 1_615_654_800)) }
    ensures before { (old new : ℤ → ℤ)
        → AreSetAt old (pos 1_615_705_200) (neg_ℤ (pos 18_000)) (neg_ℤ (pos 14_400))
        → IsAlways new (neg_ℤ (pos 18_000))
        → NoneMovesBefore old new (daily 43_200) (pos 1_615_654_800) (pos 1_615_737_600) }
    ensures not_before { (old new : ℤ → ℤ)
        → AreSetAt old (pos 1_615_705_200) (neg_ℤ (pos 18_000)) (neg_ℤ (pos 14_400))
        → IsAlways new (neg_ℤ (pos 18_000))
        → ¬ (NoneMovesBefore old new (daily 43_200) (pos 1_615_654_800) (pos 1_615_737_601)) }
    ensures between { (old new : ℤ → ℤ)
        → AreSetAt old (pos 1_615_705_200) (neg_ℤ (pos 18_000)) (neg_ℤ (pos 14_400))
        → IsAlways new (neg_ℤ (pos 18_000))
        → NoneMovesBetween old new (daily 43_200) (pos 1_615_654_800) (pos 1_615_737_599) }
    ensures not_between { (old new : ℤ → ℤ)
        → AreSetAt old (pos 1_615_705_200) (neg_ℤ (pos 18_000)) (neg_ℤ (pos 14_400))
        → IsAlways new (neg_ℤ (pos 18_000))
        → ¬ (NoneMovesBetween old new (daily 43_200) (pos 1_615_654_800) (pos 1_615_737_600)) }
{}

/// So after noon of 2021-03-13 the first run that only one of them has is that of New York, at 16:00 UTC on
/// the day after.
pub fn next_move()
    ensures removed { (old new : ℤ → ℤ) (d : Zoned ℤ)
        → AreSetAt old (pos 1_615_705_200) (neg_ℤ (pos 18_000)) (neg_ℤ (pos 14_400))
        → IsAlways new (neg_ℤ (pos 18_000))
        → d.utc ≡ record { s = pos 1_615_737_600; f = 0 } → d.offset ≡ neg_ℤ (pos 14_400)
        → IsNextMove (plain_law old) (plain_law new) (daily 43_200) (λ z. z) (λ z. z)
        (pos 1_615_654_800) (pos 1_615_737_600) (Move.Removed d) }
    ensures only { (old new : ℤ → ℤ) (found : Move (Zoned ℤ) (Zoned ℤ))
        → AreSetAt old (pos 1_615_705_200) (neg_ℤ (pos 18_000)) (neg_ℤ (pos 14_400))
        → IsAlways new (neg_ℤ (pos 18_000))
        → IsNextMove (plain_law old) (plain_law new) (daily 43_200) (λ z. z) (λ z. z)
        (pos 1_615_654_800) (pos 1_615_800_000) found
        → (utc_of_move (λ z. z) (λ z. z) found).s ≡ pos 1_615_737_600 }
    ensures added { (old new : ℤ → ℤ) (d : Zoned ℤ)
        → AreSetAt old (pos 1_615_705_200) (neg_ℤ (pos 18_000)) (neg_ℤ (pos 14_400))
        → IsAlways new (neg_ℤ (pos 18_000))
        → ¬ (IsNextMove (plain_law old) (plain_law new) (daily 43_200) (λ z. z) (λ z. z)
        (pos 1_615_654_800) (pos 1_615_800_000) (Move.Added d)) }
    ensures until { (old new : ℤ → ℤ) (found : Move (Zoned ℤ) (Zoned ℤ))
        → AreSetAt old (pos 1_615_705_200) (neg_ℤ (pos 18_000)) (neg_ℤ (pos 14_400))
        → IsAlways new (neg_ℤ (pos 18_000))
        → ¬ (IsNextMove (plain_law old) (plain_law new) (daily 43_200) (λ z. z) (λ z. z)
        (pos 1_615_654_800) (pos 1_615_737_599) found) }
    ensures other_offset { (old new : ℤ → ℤ) (d : Zoned ℤ) (until : ℤ)
        → AreSetAt old (pos 1_615_705_200) (neg_ℤ (pos 18_000)) (neg_ℤ (pos 14_400))
        → IsAlways new (neg_ℤ (pos 18_000))
        → d.offset ≡ neg_ℤ (pos 18_000)
        → ¬ (IsNextMove (plain_law old) (plain_law new) (daily 43_200) (λ z. z) (λ z. z)
        (pos 1_615_654_800) until (Move.Removed d)) }
{}

/// What is left after the second 4 and up to the second 9 are at most five runs, and none the other way
/// round.
pub fn runs_left()
    ensures after { (moves_between (pos 1) (pos 2) (pos 3) (pos 4) (pos 9)).after ≡ pos 4 }
    ensures until { (moves_between (pos 1) (pos 2) (pos 3) (pos 4) (pos 9)).until ≡ pos 9 }
    ensures five { seconds_left (moves_between (pos 1) (pos 2) (pos 3) (pos 4) (pos 9)) ≡ 5 }
    ensures none { seconds_left (moves_between (pos 1) (pos 2) (pos 3) (pos 9) (pos 4)) ≡ 0 }
{}
