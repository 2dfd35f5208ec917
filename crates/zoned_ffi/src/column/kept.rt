//! What a column keeps of the stretches that its times lie in.

ghost use Rattle.std.specs.Prelude.{◌≡◌, ◌↔◌, ◌-ℤ◌, ◌<◌, ◌≤ℤ◌, neg_ℤ, pos, ⊤, IfSome, IsTrue, MatchOption};
ghost use Rattle.zoned_ffi.specs.{Steps.KeptTimes.{Ends, IsIn, IsKept, IsKeptOf, IsWritten, LieWithin}, Units.{IsOffsetStretch}};

use crate::choice::{Choice, Missing};
use crate::column::{Question, Way};
use crate::fields::{END, FIRST};
use crate::unit::{GREATEST, LEAST, Unit};
use tz_info::{OffsetStretch, TimeZone};

/// The times of one stretch, in their unit, and what is added to them to give the answers.
#[derive(Clone, Copy)]
pub struct Kept {
    /// The first of them.
    pub low: i64,
    /// How many they are.
    pub length: u64,
    /// What is added.
    pub add: i64,
}

impl Kept {
    /// No times.
    pub fn none(question: Question) -> Kept
        ensures { IsKept question.entry result }
    {
        let _ = question;
        Kept {
            low: i64::MAX,
            length: 0,
            add: 0,
        }
    }

    /// Whether it has no times.
    pub fn is_empty(self) -> bool {
        self.length == 0
    }

    /// The first time after them.
    pub fn end(self) -> i64 {
        self.low.wrapping_add_unsigned(self.length)
    }

    /// Whether the time is one of them.
    #[inline(always)]
    pub fn has(self, time: i64) -> bool
        requires { Ends self }
        ensures { IsTrue result ↔ IsIn self time }
    {
        self.distance_to(time) < self.length
    }

    /// How far the time comes after the first of them. A time before that is farther than all of them, so one
    /// comparison decides whether a time is one of them.
    #[inline(always)]
    pub fn distance_to(self, time: i64) -> u64
        requires { Ends self }
        ensures { (result < self.length) ↔ IsIn self time }
    {
        time.wrapping_sub(self.low).cast_unsigned()
    }

    /// The answer to the time if it is one of them.
    #[tactic(auto, using(crate::proofs::Casts::passed_on))]
    #[inline(always)]
    pub fn answer_to(self, question: Question, time: i64) -> Option<i64>
        requires { IsKept question self }
        ensures { MatchOption result ⊤ (IsWritten question.entry time) }
    {
        let _ = question;
        if self.has(time) {
            Some(time + self.add)
        } else {
            None
        }
    }

    // The times from `from` on and before `until` that can be counted, also with `add` more.
    #[tactic(auto, using(crate::proofs::Words::casts))]
    fn between(from: i128, until: i128, add: i64) -> Kept
        requires { (neg_ℤ (pos 4_611_686_018_427_387_904) ≤ℤ add)
            × (add ≤ℤ pos 4_611_686_018_427_387_904) }
        ensures { LieWithin from until add result }
    {
        let first = LEAST.max(LEAST - add as i128);
        let last = GREATEST.min(GREATEST - add as i128);
        let low = from.max(first);
        let high = until.min(last);
        if high <= low {
            return Kept {
                low: 0,
                length: 0,
                add,
            };
        }
        Kept::from_until(low as i64, high as i64, add)
    }

    // The times from `low` on and before `high`.
    fn from_until(low: i64, high: i64, add: i64) -> Kept
        ensures begin { (result.low ≡ low) × (result.add ≡ add) }
        ensures end { low ≤ℤ high → pos result.length ≡ high -ℤ low }
    {
        Kept {
            low,
            length: high.wrapping_sub(low).cast_unsigned(),
            add,
        }
    }
}

/// A stretch of seconds, from `from` on and before `until`.
#[derive(Clone, Copy)]
pub struct Found {
    /// The first of them.
    pub from: i64,
    /// The first after them.
    pub until: i64,
    /// What is kept of it.
    pub kept: Kept,
}

/// What is kept of the stretch that the time lies in, if it lies far enough from both ends.
pub fn kept_around(question: Question, time: i64) -> Kept
    ensures { IsKept question.entry result }
{
    match found_around(question, time) {
        Some(found) => found.kept,
        None => Kept::none(question),
    }
}

/// The stretch that the time lies in; of a local time near its beginning the one before, since the greatest
/// offset of the zone counts.
#[inline(always)]
pub fn found_around(question: Question, time: i64) -> Option<Found>
    ensures { IfSome result (λ f. IsKept question.entry f.kept) }
{
    let offset = match question.way {
        Way::ToLocal | Way::ToWholeSeconds(_) => 0,
        Way::ToInstants(_, _) => question.zone.greatest_offset(),
    };
    found_at(
        question,
        question
            .unit
            .second_of(time)
            .wrapping_sub(i64::from(offset)),
    )
}

/// The stretch that the second lies in.
pub fn found_at(question: Question, second: i64) -> Option<Found>
    ensures { IfSome result (λ f. IsKept question.entry f.kept) }
{
    let Question { zone, unit, way } = question;
    let stretch = zone.offset_stretch_at(second)?;
    let from = stretch.from;
    let until = stretch.until;
    let kept = match way {
        Way::ToLocal => instants_in(zone, unit, stretch),
        Way::ToInstants(choice, missing) => { local_times_in(zone, unit, choice, missing, stretch) }
        Way::ToWholeSeconds(_) => none_in(question, stretch),
    };
    Some(Found { from, until, kept })
}

// What is found for instants of one stretch isn't as far from each of them: none of it is kept.
fn none_in(question: Question, stretch: OffsetStretch) -> Kept
    ensures { IsKept question.entry result }
{
    let OffsetStretch {
        from: _,
        until: _,
        offset: _,
    } = stretch;
    Kept::none(question)
}

// The instants of the stretch.
fn instants_in(zone: &TimeZone, unit: Unit, stretch: OffsetStretch) -> Kept
    requires { IsOffsetStretch zone.now stretch }
    ensures { IsKeptOf zone.now unit Way.ToLocal result }
{
    let _ = zone;
    let OffsetStretch {
        from,
        until,
        offset,
    } = stretch;
    Kept::between(
        unit.counts_at(from),
        unit.counts_at(until),
        unit.counts_of(offset),
    )
}

// The local times that are so far inside the stretch that, whatever the offset, no second outside it
// shows them.
fn local_times_in(
    zone: &TimeZone,
    unit: Unit,
    choice: Choice,
    missing: Missing,
    stretch: OffsetStretch,
) -> Kept
    requires { IsOffsetStretch zone.now stretch }
    ensures { IsKeptOf zone.now unit (Way.ToInstants choice missing) result }
{
    let _ = (choice, missing);
    let OffsetStretch {
        from,
        until,
        offset,
    } = stretch;
    let least = unit.counts_of(zone.least_offset()) as i128;
    let greatest = unit.counts_of(zone.greatest_offset()) as i128;
    let first = unit.counts_at(from) + greatest;
    let end = unit.counts_at(until) + least;
    Kept::between(
        first.max(unit.counts_at(FIRST)),
        end.min(unit.counts_at(END)),
        less(unit.counts_of(offset)),
    )
}

/// The count with the other sign.
pub fn less(counts: i64) -> i64
    requires { (neg_ℤ (pos 4_611_686_018_427_387_904) ≤ℤ counts)
        × (counts ≤ℤ pos 4_611_686_018_427_387_904) }
    ensures { result ≡ neg_ℤ counts }
{
    -counts
}
