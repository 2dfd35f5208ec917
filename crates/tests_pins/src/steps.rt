//! Steps of the local clock in zones whose clocks are set once, as `zdump -v` of the tz database has
//! them.
#![tactic(auto)]

ghost use Rattle.std.specs.Prelude.{◌≡◌, neg_ℤ, pos, ℤ};
ghost use Rattle.{
  naive_plans.specs.ClockSteps.{BeginsStep},
  tests_pins.specs.Days.{AreSetAt},
  zoned_plans.specs.StepBounds.{AreStepBounds},
};

use naive_plans::{ClockStep, PartOfDay};

/// In New York clocks went from 02:00 on 2021-11-07 back to 01:00, at 06:00:00 UTC. At 06:30:00 UTC they
/// are in the hour of 01:00, which began at 05:00:00 UTC and ends when they show 02:00 again, at 07:00:00
/// UTC.
pub fn new_york_in_autumn()
    ensures { (off : ℤ → ℤ) (hour : PartOfDay) → hour.seconds ≡ 3_600
        → AreSetAt off (pos 1_636_264_800) (neg_ℤ (pos 14_400)) (neg_ℤ (pos 18_000))
        → AreStepBounds off (BeginsStep (ClockStep.Part hour)) (pos 1_636_266_600)
        (pos 1_636_261_200) (pos 1_636_268_400) }
{}

/// In Lord Howe clocks went from 02:00 on 2021-04-04 back to 01:30, at 15:00:00 UTC of the day before. At
/// 15:15:00 UTC they are in the hour of 01:00, which lasts from 14:00:00 to 15:30:00 UTC: 90 minutes.
pub fn lord_howe()
    ensures { (off : ℤ → ℤ) (hour : PartOfDay) → hour.seconds ≡ 3_600
        → AreSetAt off (pos 1_617_462_000) (pos 39_600) (pos 37_800)
        → AreStepBounds off (BeginsStep (ClockStep.Part hour)) (pos 1_617_462_900)
        (pos 1_617_458_400) (pos 1_617_463_800) }
{}

/// In St. John's clocks went from 00:01 on 2005-10-30 back to 23:01, at 02:31:00 UTC. At 03:02:00 UTC they
/// show 23:32 of the date before, and are in the day that began at 02:30:00 UTC and has 25 hours.
pub fn st_johns()
    ensures day { (off : ℤ → ℤ)
        → AreSetAt off (pos 1_130_639_460) (neg_ℤ (pos 9_000)) (neg_ℤ (pos 12_600))
        → AreStepBounds off (BeginsStep ClockStep.Day) (pos 1_130_641_320)
        (pos 1_130_639_400) (pos 1_130_729_400) }
    ensures only { (off : ℤ → ℤ) (begin end : ℤ)
        → AreSetAt off (pos 1_130_639_460) (neg_ℤ (pos 9_000)) (neg_ℤ (pos 12_600))
        → AreStepBounds off (BeginsStep ClockStep.Day) (pos 1_130_641_320) begin end
        → (begin ≡ pos 1_130_639_400) × (end ≡ pos 1_130_729_400) }
{}

/// In Toronto clocks went from 23:30 on 1919-03-30 on to 00:30, at 04:30:00 UTC of the next day. That day
/// began then, and has 23 hours and a half.
pub fn toronto()
    ensures { (off : ℤ → ℤ)
        → AreSetAt off (neg_ℤ (pos 1_601_753_400)) (neg_ℤ (pos 18_000)) (neg_ℤ (pos 14_400))
        → AreStepBounds off (BeginsStep ClockStep.Day) (neg_ℤ (pos 1_601_753_400))
        (neg_ℤ (pos 1_601_753_400)) (neg_ℤ (pos 1_601_668_800)) }
{}
