//! Theorems of the steps of the local clock: each function is empty, its contract is proved; never
//! called.
ghost use Rattle.std.specs.Prelude.{◌≡◌, ◌↔◌, ◌<ℤ◌, ◌≤ℤ◌, ◌+ℤ◌, ◌-ℤ◌, pos, ℤ};
ghost use Rattle.{
  naive_base.specs.{Range.{IsInRange, IsWide}, Reading.{Reading}},
  naive_plans.specs.{ClockSteps.{BeginsStep}, Plans.{IsLastUntil, IsNextAfter}},
  zoned_plans.specs.{Fires.{IsLastFire, IsNextFire}, StepBounds.{AreStepBounds}},
  zoned_time.specs.{Days.{midnight, IsFirstInstantFrom, IsFirstToReach, IsInDay}, Zone.{IsReachedAt}},
};

use crate::StepBounds;
use naive_plans::ClockStep;
use zoned_time::TimeZone;

/// Steps divide time: all seconds from the beginning of a step to before its end lie in that step, and
/// a second lies in one step only. The step at the end of another one begins there, so that their
/// lengths add up.
pub fn steps_partition()
    ensures whole { (off : ℤ → ℤ) (step : ClockStep) (t v begin end : ℤ)
        → AreStepBounds off (BeginsStep step) t begin end → begin ≤ℤ v → v <ℤ end
        → AreStepBounds off (BeginsStep step) v begin end }
    ensures once { (off : ℤ → ℤ) (step : ClockStep) (t a b c d : ℤ)
        → AreStepBounds off (BeginsStep step) t a b → AreStepBounds off (BeginsStep step) t c d
        → (a ≡ c) × (b ≡ d) }
    ensures lengths_add { (off : ℤ → ℤ) (step : ClockStep) (t a b c d : ℤ)
        → AreStepBounds off (BeginsStep step) t a b → AreStepBounds off (BeginsStep step) b c d
        → (c ≡ b) × ((b -ℤ a) +ℤ (d -ℤ c) ≡ d -ℤ a) }
{}

/// A step begins when clocks reach its first local time: the step that an instant lies in is that of the
/// last local time that clocks have shown.
pub fn steps_reached<Tz: TimeZone>()
    ensures begin { (zone : Tz) (step : ClockStep) (t l m u : ℤ) → IsInRange t
        → IsReachedAt (Tz.law zone).off t l → IsLastUntil (BeginsStep step) l m → IsWide m
        → IsFirstToReach (Tz.law zone).off m u
        → IsLastFire (Tz.law zone).off (BeginsStep step) t u }
    ensures end { (zone : Tz) (step : ClockStep) (t l m u : ℤ) → IsInRange t
        → IsReachedAt (Tz.law zone).off t l → IsNextAfter (BeginsStep step) l m → IsWide m
        → IsFirstToReach (Tz.law zone).off m u
        → IsNextFire (Tz.law zone).off (BeginsStep step) t u }
{}

/// The step of a day is the day that an instant lies in.
pub fn days_are_steps()
    ensures { (off : ℤ → ℤ) (day : ℤ) (r a b : Reading) → IsInDay off day r
        → IsFirstInstantFrom off (midnight day) a
        → IsFirstInstantFrom off (midnight (day +ℤ pos 1)) b
        → AreStepBounds off (BeginsStep ClockStep.Day) r.s a.s b.s }
{}

/// A clone of a step's bounds has clones of its ends, and fails only if one of these does.
pub fn bounds_of_steps<T: Clone>()
    ensures cloned { (x y : StepBounds T) → ⟦<StepBounds<T> as Clone>⟧.is_clone x y
        ↔ (T.Clone.is_clone x.begin y.begin × T.Clone.is_clone x.end y.end) }
    ensures infallible { (x : StepBounds T) → T.Clone.is_infallible x.begin
        → T.Clone.is_infallible x.end → ⟦<StepBounds<T> as Clone>⟧.is_infallible x }
{}
