//! Sums of lengths of time.
ghost use Rattle.std.specs.{Iterator.{Drains, HoldsAlong, IsFinite}, Prelude.{◌≡◌, ◌++◌, ◌∷◌, [], List}};
ghost use Rattle.offset_core.specs.{Nanoseconds.{FitsTimeDelta}, TimeDelta.{nanos_of, sum_behind, sum_of, IsCheckedSum}};

use crate::TimeDelta;
use std::iter::Sum;

/// The sum of lengths of time. Each sum on the way must be in range.
impl Sum<TimeDelta> for TimeDelta {
    ghost can_sum = { λ deltas. FitsTimeDelta (sum_of deltas) };

    ghost sum_gives = { λ deltas sum. nanos_of sum ≡ sum_of deltas };

    fn sum<I: Iterator<Item = TimeDelta>>(iter: I) -> TimeDelta {
        sum_all(iter)
    }
}

/// The sum of borrowed lengths of time. Each sum on the way must be in range.
impl<'a> Sum<&'a TimeDelta> for TimeDelta {
    ghost can_sum = { λ deltas. FitsTimeDelta (sum_behind deltas) };

    ghost sum_gives = { λ deltas sum. nanos_of sum ≡ sum_behind deltas };

    fn sum<I: Iterator<Item = &'a TimeDelta>>(iter: I) -> TimeDelta {
        sum_all_of(iter)
    }
}

impl TimeDelta {
    /// Returns the sum of lengths, added one by one, or `None` if a sum on the way is out of range.
    ///
    /// ```
    /// let total = TimeDelta::checked_sum(lengths.iter().copied())?; // 39 hours
    /// ```
    pub fn checked_sum<I: Iterator<Item = TimeDelta>>(iter: I) -> Option<TimeDelta>
        requires can { I.can_next iter }
        requires finite { IsFinite (I.remaining iter) }
        ensures { (deltas : List TimeDelta) × Drains I.next_gives iter deltas
            × IsCheckedSum deltas result }
    {
        let mut total = Some(TimeDelta::zero());
        for delta in iter {
            total = added(total, delta);
        }
        total
    }
}

// The sum of a total and a length, if there is a total and the sum is in range.
#[tactic(auto, using(crate::proofs::TimeDeltas::sums_join, crate::proofs::TimeDeltas::sums_split))]
fn added(total: Option<TimeDelta>, delta: TimeDelta) -> Option<TimeDelta>
    ensures { (deltas : List TimeDelta) → IsCheckedSum deltas total
        → IsCheckedSum (deltas ++ (delta ∷ [])) result }
{
    total?.checked_add(&delta)
}

fn sum_all_of<'a, I: Iterator<Item = &'a TimeDelta>>(iter: I) -> TimeDelta
    requires can { I.can_next iter }
    requires finite { IsFinite (I.remaining iter) }
    requires fits { HoldsAlong I.next_gives iter
        (λ deltas. FitsTimeDelta (sum_behind deltas)) }
    ensures { (deltas : _) × Drains I.next_gives iter deltas
        × (nanos_of result ≡ sum_behind deltas) }
{
    let mut total = TimeDelta::zero();
    for delta in iter {
        total = total + *delta;
    }
    total
}

fn sum_all<I: Iterator<Item = TimeDelta>>(iter: I) -> TimeDelta
    requires can { I.can_next iter }
    requires finite { IsFinite (I.remaining iter) }
    requires fits { HoldsAlong I.next_gives iter (λ deltas. FitsTimeDelta (sum_of deltas)) }
    ensures { (deltas : List TimeDelta) × Drains I.next_gives iter deltas
        × (nanos_of result ≡ sum_of deltas) }
{
    let mut total = TimeDelta::zero();
    for delta in iter {
        total = total + delta;
    }
    total
}
