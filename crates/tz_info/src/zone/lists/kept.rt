//! Transitions as a zone keeps them: twelve bytes each.

ghost use Rattle.std.specs.Prelude.{◌≡◌, ◌<◌, ◌≤◌, length, MatchResult};

use std::alloc::{AllocError, Global};
use std::fmt;
use std::marker::Model;
use tz_base::Transition;
use tz_search::{Probes, Timed};

// A transition, its time in two halves: a number of eight bytes would be followed by four more, so
// that the next one begins at a multiple of eight.
#[derive(Drop)]
pub(crate) struct Kept {
    low: u32,
    high: u32,
    type_index: u32,
}

impl Model for Kept {
    ghost use Rattle.std.specs.{Int.{cast_signed, w64}, Prelude.{◌+◌, ◌*◌}};
    ghost use Rattle.tz_base.specs.declared.transition.Transition.{Transition};

    ghost Value = { Transition };

    ghost view = { λ k. record {
      unix_leap_time = cast_signed w64 (k.high * 4_294_967_296 + k.low);
      type_index = k.type_index;
    } };
}

impl Kept {
    // The transition at that leap time to the type of that index.
    #[inline(always)]
    pub(crate) fn of(unix_leap_time: i64, type_index: u32) -> Kept
        ensures { result ≡ record { unix_leap_time = unix_leap_time; type_index = type_index } }
    {
        let time = unix_leap_time.cast_unsigned();
        Kept {
            low: (time % 4_294_967_296) as u32,
            high: (time / 4_294_967_296) as u32,
            type_index,
        }
    }

    // The transition, if its type's index is small enough.
    pub(in crate::zone) fn new(transition: Transition) -> Result<Kept, AllocError>
        ensures { MatchResult result (λ k. k ≡ transition)
            (λ _. 4_294_967_296 ≤ transition.type_index) }
    {
        if transition.type_index > 0xffff_ffff {
            return Err(AllocError);
        }
        Ok(Kept::of(transition.unix_leap_time, transition.type_index as u32))
    }

    // The transition to the same type at another time.
    pub(in crate::zone) fn at(&self, unix_leap_time: i64) -> Kept
        ensures { result ≡ record self.now { unix_leap_time = unix_leap_time } }
    {
        Kept::of(unix_leap_time, self.type_index)
    }

    // Which of the zone's types is in force from the transition on.
    #[inline(always)]
    pub(in crate::zone) fn type_index(&self) -> usize
        ensures { result ≡ self.now.type_index }
    {
        self.type_index as usize
    }
}

// A transition, in one form or another.
pub(crate) trait AsTransition {
    ghost use Rattle.tz_base.specs.declared.transition.Transition.{Transition};

    // what it says
    ghost transition: { Self → Transition };

    fn transition(&self) -> Transition
        ensures { result ≡ transition self.now };
}

impl AsTransition for Transition {
    ghost transition = { λ t. t };

    fn transition(&self) -> Transition {
        *self
    }
}

// All of them as they are kept.
pub(in crate::zone) fn all_kept(
    alloc: Global,
    transitions: &[Transition],
) -> Result<Vec<Kept>, AllocError>
    ensures { MatchResult result (λ kept. kept.items ≡ transitions.now)
        (λ _. 0 < length transitions.now) }
{
    if transitions.is_empty() {
        return Ok(Vec::new(alloc));
    }
    let mut all = Vec::with_capacity(alloc, transitions.len())?;
    for transition in transitions {
        let entry = Kept::new(*transition)?;
        all.push_reserved(entry);
    }
    Ok(all)
}

impl AsTransition for Kept {
    ghost transition = { λ k. k };

    #[inline(always)]
    fn transition(&self) -> Transition {
        Transition {
            unix_leap_time: self.second(),
            type_index: self.type_index(),
        }
    }
}

impl Timed for Kept {
    ghost use Rattle.tz_search.specs.RisingCounts.{reads_more, reads_more_on, reads_more_none, reads_more_probed};

    ghost time = { λ k. k.unix_leap_time };

    ghost counted = { reads_more };

    ghost probed = { λ c. c.reads };

    ghost counts_up = { reads_more_on };

    ghost counts_none = { reads_more_none };

    ghost counts_probed = { reads_more_probed };

    #[inline(always)]
    fn second(&self) -> i64 {
        (self.high as u64 * 4_294_967_296 + self.low as u64).cast_signed()
    }

    #[inline(always)]
    fn count_probe(probes: &mut Probes) {
        probes.count_read();
    }
}

impl fmt::Debug for Kept {
    fn fmt<W: fmt::Write>(&self, f: &mut fmt::Formatter<W>) -> fmt::Result {
        self.transition().fmt(f)
    }
}

impl PartialEq for Kept {
    ghost use Rattle.std.specs.Cmp.{partial_equiv_from_equiv};
    ghost use Rattle.tz_base.specs.contracts.transition.TransitionEq.TheImpl.Laws.{laws-law};

    ghost eq = { ⟦<Transition as PartialEq>⟧.eq };

    ghost laws = { partial_equiv_from_equiv laws-law };

    fn eq(&self, other: &Kept) -> bool {
        self.transition() == other.transition()
    }
}
