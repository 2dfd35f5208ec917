//! Theorems: each function is empty, its contract is proved; never called.
ghost use Rattle.std.specs.Prelude.{◌≡◌, ◌+ℤ◌, ◌*ℤ◌, int_div, int_rem, neg_ℤ, pos, Option, ℕ, ℤ};
ghost use Rattle.{
  offset_core.specs.{FixedOffset.{printed_offset, IsOffsetOf}, TimeDelta.{nanos_of, IsDeltaOfParts}},
  offset_core.specs.{LocalResult.{earliest_of, latest_of, single_of}, Nanoseconds.{nanos_per_second}},
  offset_core.specs.WallAnswer.{IsNeverShown, IsShownBetween, IsShownOnce, IsWallAnswer},
};

use crate::{FixedOffset, LocalResult, TimeDelta};

pub mod comparisons;

/// Where `single` gives a value, `earliest` and `latest` give it too.
pub fn single_at_both_ends<T>()
    ensures earliest { (values : LocalResult T) (value : T) → single_of values ≡ Some value
        → earliest_of values ≡ Some value }
    ensures latest { (values : LocalResult T) (value : T) → single_of values ≡ Some value
        → latest_of values ≡ Some value }
{}

/// `east_opt(secs)` and `west_opt(-secs)` are the same, if both arguments exist.
pub fn east_is_west_of_negative()
    ensures { (secs : ℤ) (east west : Option FixedOffset) → IsOffsetOf secs east
        → IsOffsetOf (neg_ℤ (neg_ℤ secs)) west → east ≡ west }
{}

/// `num_seconds` and `subsec_nanos` of `new(secs, nanos)` make the total that these two make.
pub fn parts_make_total()
    ensures { (secs : ℤ) (nanos : ℕ) (delta : TimeDelta) → IsDeltaOfParts secs nanos (Some delta)
        → int_div (nanos_of delta) nanos_per_second *ℤ nanos_per_second +ℤ int_rem (nanos_of delta)
        nanos_per_second
        ≡ secs *ℤ nanos_per_second +ℤ pos nanos }
{}

/// Any relation between seconds and values, read as: at this second a wall clock shows the time
/// that is asked for, and this is its value there.
pub trait Showing<T> {
    ghost shows: { ℤ → T → Type 0 };

    /// A second has at most one value.
    ghost one_value: { (u : ℤ) (a b : T) → shows u a → shows u b → a ≡ b };
}

/// At most one answer of a lookup by wall clock is right.
pub fn one_wall_answer<T, C: Showing<T>>()
    ensures { (x y : LocalResult T) → IsWallAnswer C.shows x → IsWallAnswer C.shows y → x ≡ y }
{}

/// The three cases of an answer exclude each other: never shown, shown once, shown several times.
pub fn wall_answers_exclude<T, C: Showing<T>>()
    ensures never_or_once { (a : T) → IsNeverShown C.shows → IsShownOnce C.shows a → ⊥ }
    ensures never_or_between { (a b : T) → IsNeverShown C.shows → IsShownBetween C.shows a b → ⊥ }
    ensures once_or_between { (c a b : T) → IsShownOnce C.shows c → IsShownBetween C.shows a b → ⊥ }
{}

/// Two offsets print alike only if they are equal.
#[tactic(auto, using(crate::proofs::Printed::printed_offset_once))]
pub fn one_printed_offset()
    ensures { (a b : FixedOffset) → printed_offset a ≡ printed_offset b → a ≡ b }
{}
