//! Months and days that have passed, as java.time counts them: `Period.between` of Java 17, in jshell. Stored
//! offsets and moved instants in New York, where clocks are taken as set once: by `zdump -v` of the tz database.
#![tactic(auto, unfolding(crate::proofs::Computed::calendar))]

ghost use Rattle.std.specs.Prelude.{◌≡◌, ◌≤◌, neg_ℤ, pos, ℤ};
ghost use Rattle.{
  naive_base.specs.Since.{later_by, HaveDaysPassed, HaveMonthsPassed, IsGreatest},
  naive_base.specs.{Reading.{Reading}, Stamp.{of_secs}},
  tests_pins.specs.{Days.{plain_law, AreSetAt}, Instants.{noon}},
  zoned_time.specs.Calendar.{HasReachedBy, IsAtOffset, IsMovedBy, NoneAtOffset},
  zoned_time.specs.Zoned.{Zoned},
};

/// From 31 January to 28 February no month has passed, and to 1 March one has. From 29 February 2020 eleven
/// have passed on 28 February 2021, and twelve on 1 March. A second before noon it isn't a month yet.
pub fn months_passed()
    ensures short { HaveMonthsPassed (noon (pos 2021) 2 28 0) (noon (pos 2021) 1 31 0) 1 → ⊥ }
    ensures next { HaveMonthsPassed (noon (pos 2021) 3 1 0) (noon (pos 2021) 1 31 0) 1 }
    ensures not_two { HaveMonthsPassed (noon (pos 2021) 3 1 0) (noon (pos 2021) 1 31 0) 2 → ⊥ }
    ensures eleven { HaveMonthsPassed (noon (pos 2021) 2 28 0) (noon (pos 2020) 2 29 0) 11 }
    ensures not_twelve { HaveMonthsPassed (noon (pos 2021) 2 28 0) (noon (pos 2020) 2 29 0) 12 → ⊥ }
    ensures twelve { HaveMonthsPassed (noon (pos 2021) 3 1 0) (noon (pos 2020) 2 29 0) 12 }
    ensures noon_comes { HaveMonthsPassed (noon (pos 2021) 2 15 1) (noon (pos 2021) 1 15 1) 1 }
    ensures before_noon { HaveMonthsPassed (noon (pos 2021) 2 15 0) (noon (pos 2021) 1 15 1) 1 → ⊥ }
{}

/// From noon of 31 January 28 days have passed at noon of 28 February, and not a second before.
pub fn days_passed()
    ensures days { HaveDaysPassed (noon (pos 2021) 2 28 1) (noon (pos 2021) 1 31 1) 28 }
    ensures not_yet { HaveDaysPassed (noon (pos 2021) 2 28 0) (noon (pos 2021) 1 31 1) 28 → ⊥ }
    ensures no_more { HaveDaysPassed (noon (pos 2021) 2 28 1) (noon (pos 2021) 1 31 1) 29 → ⊥ }
{}

/// A month after 31 January 2021 it is 28 February, and three days later 3 March; 13 months after it is
/// 28 February 2022.
pub fn moved()
    ensures month { later_by (noon (pos 2021) 1 31 0) 1 0 ≡ noon (pos 2021) 2 28 0 }
    ensures days { later_by (noon (pos 2021) 1 31 0) 1 3 ≡ noon (pos 2021) 3 3 0 }
    ensures months { later_by (noon (pos 2021) 1 31 0) 13 0 ≡ noon (pos 2022) 2 28 0 }
{}

/// Of the numbers up to 3 the greatest is 3.
pub fn greatest()
    ensures three { IsGreatest (λ n. n ≤ 3) 3 }
    ensures not_two { IsGreatest (λ n. n ≤ 3) 2 → ⊥ }
    ensures not_four { IsGreatest (λ n. n ≤ 3) 4 → ⊥ }
{}

/// In New York clocks went from 4 hours behind UTC to 5 at 2021-11-07 06:00:00 UTC. At -5 hours they showed
/// 01:30 at 06:30 UTC, and at no second at -3 hours.
#[tactic(auto, using(crate::proofs::Words::ints))]
pub fn stored_offsets()
    ensures none { (off : ℤ → ℤ)
        → AreSetAt off (pos 1_636_264_800) (neg_ℤ (pos 14_400)) (neg_ℤ (pos 18_000))
        → NoneAtOffset off (pos 1_636_248_600) (neg_ℤ (pos 10_800)) }
    ensures wrong { (off : ℤ → ℤ) (d : Zoned ℤ)
        → AreSetAt off (pos 1_636_264_800) (neg_ℤ (pos 14_400)) (neg_ℤ (pos 18_000))
        → ¬ (IsAtOffset (plain_law off) (of_secs (pos 1_636_248_600) 0) (neg_ℤ (pos 10_800)) d) }
    ensures second_pass { (off : ℤ → ℤ) (d : Zoned ℤ)
        → AreSetAt off (pos 1_636_264_800) (neg_ℤ (pos 14_400)) (neg_ℤ (pos 18_000))
        → IsAtOffset (plain_law off) (of_secs (pos 1_636_248_600) 0) (neg_ℤ (pos 18_000)) d
        → d.utc ≡ of_secs (pos 1_636_266_600) 0 }
{}

/// There an instant of the second pass that isn't moved stays, and a day after noon of 6 November is noon of
/// the 7th, 25 hours later.
#[tactic(auto, using(crate::proofs::Words::ints))]
pub fn moved_instants()
    ensures stays { (off : ℤ → ℤ) (e m r : Reading) → IsMovedBy off e m 0 0 r → r ≡ e }
    ensures day { (off : ℤ → ℤ)
        → AreSetAt off (pos 1_636_264_800) (neg_ℤ (pos 14_400)) (neg_ℤ (pos 18_000))
        → IsMovedBy off (of_secs (pos 1_636_214_400) 0) (noon (pos 2021) 11 6 0) 0 1
        (of_secs (pos 1_636_304_400) 0) }
{}

/// There clocks have reached 01:59:59 at 06:10 UTC, when they show 01:10 again, and not 02:00.
#[tactic(auto, using(crate::proofs::Words::ints))]
pub fn reached()
    ensures past { (off : ℤ → ℤ)
        → AreSetAt off (pos 1_636_264_800) (neg_ℤ (pos 14_400)) (neg_ℤ (pos 18_000))
        → HasReachedBy off (of_secs (pos 1_636_250_399) 0) (of_secs (pos 1_636_265_400) 0) }
    ensures not_yet { (off : ℤ → ℤ)
        → AreSetAt off (pos 1_636_264_800) (neg_ℤ (pos 14_400)) (neg_ℤ (pos 18_000))
        → ¬ (HasReachedBy off (of_secs (pos 1_636_250_400) 0) (of_secs (pos 1_636_265_400) 0)) }
{}
