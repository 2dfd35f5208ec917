//! Hints at the places of items that come in order of time.
//!
//! The time from the first item on is cut into stretches of equal length, one for each item or for
//! two of them, or in a long list for up to 16, and of each stretch a hint says which item is the
//! last one before it. The latest item at a second of a stretch is then the one of its hint, or one
//! of the few up to that of the next hint.

ghost use Rattle.std.specs.Prelude.{◌≡◌, ◌<◌, ◌≤◌, ◌+◌, ◌/◌, ◌^◌, ◌≤ℤ◌, ◌-ℤ◌, length, map, pos, slice_index, suc, ⊤, List};
ghost use Rattle.std.specs.Prelude.{MatchOption, MatchResult, ℕ, ℤ};
ghost use Rattle.{
  tz_search.specs.Steps.Hints.{stretch_of, AreHints, AreMarked, AreNonDecreasing, AreRaised, AreStepsUntil, IsHinted, RiseFromZero},
  tz_search.specs.{Search.{item_time, AreOrdered}, Steps.Search.{AreEnds}},
};

use crate::timeline::Ends;
use crate::timeline::timed::Timed;
use std::alloc::{AllocError, Global};
use std::cmp::max;

// A longer list has a stretch for 8 to 16 items, so that its hints take little memory.
const LONG: usize = 65_536;

// The place of the last item before each stretch, or of the first item if none comes before it.
// There are no hints if they would leave more than half of the items between two of them, or if
// there are fewer than five items.
#[derive(Drop)]
pub(crate) struct Hints {
    places: Vec<u32>,
    // A stretch has two to this power seconds.
    shift: u32,
}

// Neighbouring items, one at least, of which one is the latest.
#[derive(Clone, Copy)]
pub(crate) struct Near {
    pub(crate) first: usize,
    pub(crate) count: usize,
}

impl Hints {
    // No hints, which take no memory.
    pub(crate) fn none(alloc: Global) -> Hints
        ensures { (times : List ℤ) → AreHints times result }
    {
        Hints {
            places: Vec::new(alloc),
            shift: 0,
        }
    }

    // Hints at those items, which have those ends. It is not inlined, so that its loops have the registers.
    #[inline(never)]
    #[tactic(auto, using(crate::proofs::SearchSteps::raised_rising))]
    pub(super) fn new<T: Timed>(alloc: Global, items: &[T], ends: Ends) -> Result<Hints, AllocError>
        requires ordered { AreOrdered (map T.time items.now) }
        requires ends { AreEnds (map T.time items.now) ends }
        ensures { MatchResult result (λ h. AreHints (map T.time items.now) h) (λ _. ⊤) }
    {
        let count = items.len();
        if count < 5 || count > 0xffff_ffff {
            return Ok(Hints::none(alloc));
        }
        let span = seconds_between(ends.first, ends.last);
        let shift = shift_for(span, most_stretches(count));
        let mut places = vec![in alloc; 0; (span >> shift) as usize + 2]?;
        let numbers: &mut [u32] = &mut places;
        mark(numbers, items, ends.first, shift);
        raise(numbers);
        let most = most_between(numbers);
        if 2 * (most as usize + 1) > count {
            return Ok(Hints::none(alloc));
        }
        Ok(Hints { places, shift })
    }

    // The items among which the latest one is that many seconds after the first item, if there is
    // a hint.
    #[inline(always)]
    pub(crate) fn near(&self, seconds: u64) -> Option<Near>
        requires shift { self.now.shift < 64 }
        requires rising { AreNonDecreasing self.now.places.items }
        ensures { MatchOption result ⊤
            (λ near. IsHinted self.now.places.items (seconds / 2 ^ self.now.shift) near) }
    {
        let stretch = (seconds >> self.shift) as usize;
        let first = *self.places.get(stretch)? as usize;
        let last = *self.places.get(stretch + 1)? as usize;
        Some(Near {
            first,
            count: last + 1 - first,
        })
    }
}

// How many seconds the second one comes after the first.
#[inline(always)]
pub(crate) fn seconds_between(first: i64, second: i64) -> u64
    requires { first ≤ℤ second }
    ensures { pos result ≡ second -ℤ first }
{
    (second as i128 - first as i128) as u64
}

// How many stretches there are at most, without two more, for that many items.
fn most_stretches(count: usize) -> u64
    ensures { result ≤ count }
{
    if count > LONG {
        return count as u64 / 8;
    }
    count as u64
}

// The least power of two by which the span has at most `most` stretches.
fn shift_for(span: u64, most: u64) -> u32
    ensures shift { result < 64 }
    ensures stretches { span / 2 ^ result ≤ most + 1 }
{
    // A smaller power leaves more binary digits than `most` has.
    let first = most.leading_zeros().saturating_sub(span.leading_zeros());
    for shift in first..63 {
        if span >> shift <= most {
            return shift;
        }
    }
    63
}

// Notes the place of each item after its stretch, over zeros. If several items lie in one stretch,
// the last of them stays.
fn mark<T: Timed>(places: &mut [u32], items: &[T], first: i64, shift: u32)
    requires shift { shift < 64 }
    requires ordered { AreOrdered (map T.time items.now) }
    requires first { (k : ℕ) → k < length items.now → first ≤ℤ item_time (map T.time items.now) k }
    requires room { (k : ℕ) → k < length items.now → suc (stretch_of first
        (item_time (map T.time items.now) k) shift) < length places.old }
    requires none { (b : ℕ) → slice_index places.old b ≡ 0 }
    requires few { length items.now < 2 ^ 32 }
    ensures marked { AreMarked (map T.time items.now) first shift (length items.now) places.new }
    ensures length { length places.new ≡ length places.old }
{
    for (place, item) in items.iter().enumerate() {
        let stretch = seconds_between(first, item.second()) >> shift;
        places[stretch as usize + 1] = place as u32;
    }
}

// Raises each number to the greatest up to it. None is less than an earlier one, unless it is 0.
fn raise(numbers: &mut [u32])
    requires { RiseFromZero numbers.old }
    ensures { AreRaised numbers.old numbers.new }
{
    let mut greatest = 0;
    for i in 0..numbers.len() {
        if numbers[i] != 0 {
            greatest = numbers[i];
        }
        numbers[i] = greatest;
    }
}

// The most by which a number is greater than the one before it. It is a loop of its own, for which
// the compiler takes several numbers at once.
#[tactic(auto, using(crate::proofs::SearchSteps::steps_more))]
fn most_between(numbers: &[u32]) -> u32
    requires { AreNonDecreasing numbers.now }
    ensures { AreStepsUntil numbers.now result (length numbers.now) }
{
    let mut most = 0;
    for i in 1..numbers.len() {
        most = max(most, numbers[i] - numbers[i - 1]);
    }
    most
}
