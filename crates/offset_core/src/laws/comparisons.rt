//! Theorems: the contract of each function is proved, and none is called. Each is empty, except one
//! that names a constant.
ghost use Rattle.std.specs.{Int.{int_div_euclid, int_rem_euclid}, Ordering.{int_cmp}};
ghost use Rattle.std.specs.Prelude.{◌≡◌, ◌↔◌, ◌++◌, neg_ℤ, pos, unsigned_abs, IsTrue};
ghost use Rattle.{
  offset_core.specs.{FixedOffset.{seconds_of}, TimeDelta.{nanos_of}, LocalResult.{fed_of, AreAlike, HoldsOfEach}},
  offset_core.specs.Nanoseconds.{nanos_per_second},
};
ghost use Rattle.std.specs.Hash as fed;
ghost use Rattle.offset_core.specs.Around as around;

use crate::{
    Around, Choice, FixedOffset, FoldChoice, GapChoice, LocalResult, OutOfRangeError, ResolveError,
    TimeDelta,
};
use std::hash::Hash;

/// Offsets are equal if and only if their seconds are; a hash looks at the seconds, and a clone is
/// the offset.
#[tactic(auto, using(crate::proofs::FixedOffsets::one_offset))]
pub fn fixed_offsets()
    ensures equal { (a b : FixedOffset) → IsTrue (⟦<FixedOffset as PartialEq>⟧.eq a b)
        ↔ (seconds_of a ≡ seconds_of b) }
    ensures same { (a b : FixedOffset) → seconds_of a ≡ seconds_of b → a ≡ b }
    ensures hashed { (a : FixedOffset) → ⟦<FixedOffset as Hash>⟧.hash_input a
        ≡ fed.i32 (seconds_of a) }
    ensures cloned { (a b : FixedOffset) → ⟦<FixedOffset as Clone>⟧.is_clone a b ↔ (a ≡ b) }
    ensures infallible { (a : FixedOffset) → ⟦<FixedOffset as Clone>⟧.is_infallible a }
{}

/// Lengths of time are equal if and only if their nanoseconds are, and compare by these; a hash looks
/// at the seconds, rounded down, and the nanoseconds after these, and a clone is the length.
#[tactic(auto, using(crate::proofs::TimeDeltas::one_delta, crate::proofs::TimeDeltas::order_of_parts))]
pub fn time_deltas()
    ensures equal { (a b : TimeDelta) → IsTrue (⟦<TimeDelta as PartialEq>⟧.eq a b)
        ↔ (nanos_of a ≡ nanos_of b) }
    ensures same { (a b : TimeDelta) → nanos_of a ≡ nanos_of b → a ≡ b }
    ensures order { (a b : TimeDelta) → ⟦<TimeDelta as Ord>⟧.cmp a b
        ≡ int_cmp (nanos_of a) (nanos_of b) }
    ensures part_ordered { (a b : TimeDelta) → ⟦<TimeDelta as PartialOrd>⟧.partial_cmp a b
        ≡ Some (⟦<TimeDelta as Ord>⟧.cmp a b) }
    ensures hashed { (a : TimeDelta) → ⟦<TimeDelta as Hash>⟧.hash_input a
        ≡ fed.i64 (int_div_euclid (nanos_of a) nanos_per_second)
        ++ fed.u32 (unsigned_abs (int_rem_euclid (nanos_of a) nanos_per_second)) }
    ensures cloned { (a b : TimeDelta) → ⟦<TimeDelta as Clone>⟧.is_clone a b ↔ (a ≡ b) }
    ensures infallible { (a : TimeDelta) → ⟦<TimeDelta as Clone>⟧.is_infallible a }
{}

/// The longest and the least length of time.
pub fn ends_of_time_deltas() -> (TimeDelta, TimeDelta)
    ensures longest { nanos_of result.0 ≡ pos 9_223_372_036_854_775_807_000_000 }
    ensures least { nanos_of result.1 ≡ neg_ℤ (pos 9_223_372_036_854_775_807_000_000) }
{
    (TimeDelta::MAX, TimeDelta::MIN)
}

/// Errors of lengths that another type can't hold are equal, and a clone is the error.
pub fn out_of_range()
    ensures equal { (a b : OutOfRangeError) → IsTrue (⟦<OutOfRangeError as PartialEq>⟧.eq a b) }
    ensures cloned { (a b : OutOfRangeError) → ⟦<OutOfRangeError as Clone>⟧.is_clone a b ↔ (a ≡ b) }
    ensures infallible { (a : OutOfRangeError) → ⟦<OutOfRangeError as Clone>⟧.is_infallible a }
{}

/// Answers of a lookup are equal if and only if they are of one kind and their values are equal,
/// and a clone is of one kind with clones of the values. A hash looks at the kind and at each value.
pub fn local_results<T: PartialEq + Clone + Hash>()
    ensures equal { (x y : LocalResult T)
        → IsTrue (⟦<LocalResult<T> as PartialEq>⟧.eq x y) ↔ AreAlike
        (λ a b. IsTrue (T.PartialEq.eq a b)) x y }
    ensures cloned { (x y : LocalResult T) → ⟦<LocalResult<T> as Clone>⟧.is_clone x y
        ↔ AreAlike T.Clone.is_clone x y }
    ensures infallible { (x : LocalResult T) → HoldsOfEach T.Clone.is_infallible x
        → ⟦<LocalResult<T> as Clone>⟧.is_infallible x }
    ensures hashed { (x : LocalResult T) → ⟦<LocalResult<T> as Hash>⟧.hash_input x
        ≡ fed_of T.Hash.hash_input x }
{}

/// Choices are equal if and only if they are the same, and a clone is the choice.
pub fn choices()
    ensures gaps { (a b : GapChoice) → IsTrue (⟦<GapChoice as PartialEq>⟧.eq a b) ↔ (a ≡ b) }
    ensures folds { (a b : FoldChoice) → IsTrue (⟦<FoldChoice as PartialEq>⟧.eq a b) ↔ (a ≡ b) }
    ensures both { (a b : Choice) → IsTrue (⟦<Choice as PartialEq>⟧.eq a b) ↔ (a ≡ b) }
    ensures gap_clone { (a b : GapChoice) → ⟦<GapChoice as Clone>⟧.is_clone a b ↔ (a ≡ b) }
    ensures fold_clone { (a b : FoldChoice) → ⟦<FoldChoice as Clone>⟧.is_clone a b ↔ (a ≡ b) }
    ensures clone { (a b : Choice) → ⟦<Choice as Clone>⟧.is_clone a b ↔ (a ≡ b) }
    ensures gap_infallible { (a : GapChoice) → ⟦<GapChoice as Clone>⟧.is_infallible a }
    ensures fold_infallible { (a : FoldChoice) → ⟦<FoldChoice as Clone>⟧.is_infallible a }
    ensures infallible { (a : Choice) → ⟦<Choice as Clone>⟧.is_infallible a }
{}

/// Reasons why a choice takes nothing are equal if and only if they are the same, and a clone is the reason.
pub fn resolve_errors()
    ensures equal { (a b : ResolveError) → IsTrue (⟦<ResolveError as PartialEq>⟧.eq a b) ↔ (a ≡ b) }
    ensures cloned { (a b : ResolveError) → ⟦<ResolveError as Clone>⟧.is_clone a b ↔ (a ≡ b) }
    ensures infallible { (a : ResolveError) → ⟦<ResolveError as Clone>⟧.is_infallible a }
{}

/// What zones give around local times is equal if and only if it is of one kind and the values, or
/// the gaps, are equal; a clone is of one kind with clones of these, and fails only if one of these does.
pub fn arounds<T: PartialEq + Clone, G: PartialEq + Clone>()
    ensures equal { (x y : Around T G) → IsTrue (⟦<Around<T, G> as PartialEq>⟧.eq x y)
        ↔ around.AreAlikeAround (λ a b. IsTrue (T.PartialEq.eq a b)) (λ a b. IsTrue (G.PartialEq.eq a b)) x y }
    ensures cloned { (x y : Around T G) → ⟦<Around<T, G> as Clone>⟧.is_clone x y
        ↔ around.AreAlikeAround T.Clone.is_clone G.Clone.is_clone x y }
    ensures infallible { (x : Around T G)
        → around.HoldsOfEachAround T.Clone.is_infallible G.Clone.is_infallible x
        → ⟦<Around<T, G> as Clone>⟧.is_infallible x }
{}
