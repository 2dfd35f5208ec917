//! Choices on clocks that are set forward by an hour at 1970-01-01 00:00:00 UTC, and on clocks that
//! are set back by an hour then: 00:30 is shown never, or twice.
#![tactic(auto, using(crate::proofs::SetClocks::set_clocks))]

ghost use Rattle.std.specs.Prelude.{◌≡◌, neg_ℤ, pos, ℤ};
ghost use Rattle.{
  naive_base.specs.Range.{first_reading, first_second, last_second},
  offset_core.specs.ResolveNumbers.{resolve_error_number},
  tests_pins.specs.Choices.{back, earliest, forward, half_past, latest, refuse, set_back, set_forward, shift},
  zoned_time.specs.{Choice.{IsBeforeGap, IsResolved, IsTaken, IsUnresolved}, Zoned.{Zoned}},
};

use offset_core::ResolveError;

/// Before the gap clocks were at 0, and by no other offset 00:30 is taken.
pub fn gaps()
    ensures before { (k : ℤ) → IsBeforeGap set_forward (pos 1_800) k → k ≡ pos 0 }
    ensures is_before { IsBeforeGap set_forward (pos 1_800) (pos 0) }
    ensures shifted { (k : ℤ) → IsTaken set_forward (pos 1_800) shift k → k ≡ pos 0 }
    ensures is_shifted { IsTaken set_forward (pos 1_800) shift (pos 0) }
    ensures refused { (k : ℤ) → ¬ (IsTaken set_forward (pos 1_800) refuse k) }
    ensures why { (e : ResolveError) → IsUnresolved set_forward (pos 1_800) refuse e → e ≡ ResolveError.Gap }
    ensures is_why { IsUnresolved set_forward (pos 1_800) refuse ResolveError.Gap }
    ensures instant { (d : Zoned ℤ) → IsResolved forward half_past shift d
        → d ≡ record { utc = half_past; offset = pos 3_600 } }
    ensures is_instant { IsResolved forward half_past shift
        (record { utc = half_past; offset = pos 3_600 }) }
{}

/// In the fold 00:30 is shown first by the offset of an hour, and last by 0.
pub fn folds()
    ensures first { (k : ℤ) → IsTaken set_back (pos 1_800) earliest k → k ≡ pos 3_600 }
    ensures is_first { IsTaken set_back (pos 1_800) earliest (pos 3_600) }
    ensures last { (k : ℤ) → IsTaken set_back (pos 1_800) latest k → k ≡ pos 0 }
    ensures is_last { IsTaken set_back (pos 1_800) latest (pos 0) }
    ensures refused { (k : ℤ) → ¬ (IsTaken set_back (pos 1_800) refuse k) }
    ensures why { (e : ResolveError) → IsUnresolved set_back (pos 1_800) refuse e → e ≡ ResolveError.Fold }
    ensures is_why { IsUnresolved set_back (pos 1_800) refuse ResolveError.Fold }
    ensures instant { (d : Zoned ℤ) → IsResolved back half_past earliest d
        → d ≡ record {
          utc = record { s = neg_ℤ (pos 1_800); f = half_past.f };
          offset = pos 3_600;
        } }
    ensures is_instant { IsResolved back half_past earliest (record {
      utc = record { s = neg_ℤ (pos 1_800); f = half_past.f };
      offset = pos 3_600;
    }) }
{}

/// On clocks an hour ahead of UTC the first local date-time of the range has no instant in range, and the
/// last second has one.
pub fn range()
    ensures below { IsUnresolved set_back first_second refuse ResolveError.OutOfRange }
    ensures no_instant { (d : Zoned ℤ) → ¬ (IsResolved back first_reading refuse d) }
    ensures within { (e : ResolveError) → ¬ (IsUnresolved set_forward last_second refuse e) }
{}

/// The numbers of the reasons.
pub fn numbers()
    ensures gap { resolve_error_number ResolveError.Gap ≡ 21 }
    ensures fold { resolve_error_number ResolveError.Fold ≡ 22 }
    ensures out_of_range { resolve_error_number ResolveError.OutOfRange ≡ 23 }
{}
