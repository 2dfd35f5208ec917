//! The transitions of a zone. Each call that reads one of them counts a probe.

ghost use Rattle.std.specs.Prelude.{◌≡◌, ◌<◌, ◌≤◌, ◌+◌, [], length, option_map, slice_index_or, take, MatchResult};
ghost use Rattle.{
  tz_info.specs.Transitions.{passed, AreRising},
  tz_info.specs.Steps.Entries.{IsEntryAt},
  tz_search.specs.{Counts.{RoseWithin}, RisingCounts.{HasRoomFor}, Digits.{digits}, Search.{IsLastOf}},
};

use crate::zone::lists::kept::{AsTransition, Kept};
use std::alloc::Global;
use std::fmt;
use std::marker::Model;
use tz_base::{Error, Transition};
use tz_search::{Passed, Probes, Timed, Timeline};

// A transition: the indexes of the types before it and from it on, and when it comes.
#[derive(Clone, Copy)]
pub(in crate::zone) struct Entry {
    pub(in crate::zone) before: usize,
    pub(in crate::zone) after: usize,
    pub(in crate::zone) at: i64,
}

// Transitions whose times rise.
#[derive(Drop)]
pub(in crate::zone) struct Table {
    entries: Timeline<Kept>,
}

impl Model for Table {
    ghost use Rattle.std.specs.Prelude.{List};
    ghost use Rattle.tz_info.specs.Transitions.{AreRising};
    ghost use Rattle.tz_base.specs.declared.transition.Transition.{Transition};

    ghost Value = { List Transition };

    ghost view = { λ t. t.entries };

    ghost invariant = { λ t. AreRising t.entries };
}

// Of only the transitions: what else is kept follows from them.
impl fmt::Debug for Table {
    fn fmt<W: fmt::Write>(&self, f: &mut fmt::Formatter<W>) -> fmt::Result {
        f.debug_struct("Table")
            .field("entries", &self.entries)
            .finish()
    }
}

impl PartialEq for Table {
    ghost use Rattle.std.proofs.lemmas.Cmp.{lists_equiv};
    ghost use Rattle.std.specs.{Cmp.{partial_equiv_from_equiv}, Cmp.Lexicographic.{pointwise}};
    ghost use Rattle.tz_base.specs.contracts.transition.TransitionEq.TheImpl.Laws.{laws-law};

    ghost eq = { pointwise ⟦<Transition as PartialEq>⟧.eq };

    ghost laws = { partial_equiv_from_equiv (lists_equiv laws-law) };

    fn eq(&self, other: &Table) -> bool {
        self.entries == other.entries
    }
}

impl Table {
    // The table of those transitions.
    #[tactic(auto, using(crate::proofs::Prefixes::in_order))]
    pub(in crate::zone) fn new(alloc: Global, entries: Vec<Kept>) -> Result<Table, Error>
        requires { AreRising entries.items }
        ensures { MatchResult result (λ t. t ≡ entries.items) (λ e. e ≡ Error.OutOfMemory) }
    {
        let entries = Timeline::new(alloc, entries)?;
        Ok(Table { entries })
    }

    // The same for transitions as they are listed, without hints: lookups search a zone's entries.
    #[tactic(auto, using(crate::proofs::Prefixes::in_order))]
    pub(in crate::zone) fn listed(alloc: Global, entries: Vec<Kept>) -> Table
        requires { AreRising entries.items }
        ensures { result ≡ entries.items }
    {
        let entries = Timeline::without_hints(alloc, entries);
        Table { entries }
    }

    // No transitions, which take no memory.
    pub(in crate::zone) fn none(alloc: Global) -> Table
        ensures { result ≡ [] }
    {
        Table {
            entries: Timeline::none(alloc),
        }
    }

    // How many transitions there are.
    #[inline(always)]
    pub(in crate::zone) fn len(&self) -> usize
        ensures count { result ≡ length self.now }
        ensures rising { AreRising self.now }
    {
        self.entries.len()
    }

    // The transition at that place.
    #[inline(always)]
    pub(in crate::zone) fn read(&self, place: usize, probes: &mut Probes) -> Transition
        requires place { place < length self.now }
        requires room { HasRoomFor 1 probes.old.reads }
        ensures item { result ≡ slice_index_or self.now place result }
        ensures count { probes.new ≡ record probes.old { reads = probes.old.reads + 1 } }
    {
        self.entries.read(place, probes).transition()
    }

    // The transition at that place, and the index of the type before it: 0 before all of them. One probe.
    #[inline(always)]
    #[tactic(auto, using(crate::proofs::SegmentLaws::index_next, crate::proofs::SegmentLaws::begin_next))]
    pub(in crate::zone) fn entry(&self, place: usize, probes: &mut Probes) -> Entry
        requires place { place < length self.now }
        requires room { HasRoomFor 1 probes.old.reads }
        ensures entry { IsEntryAt self.now place result }
        ensures count { probes.new ≡ record probes.old { reads = probes.old.reads + 1 } }
    {
        let (before, entry) = self.entries.read_pair(place, probes);
        let before = match before {
            Some(before) => before.type_index(),
            None => 0,
        };
        Entry {
            before,
            after: entry.type_index(),
            at: entry.second(),
        }
    }

    // How many transitions come at or before the leap time, and the last of them.
    #[inline(always)]
    pub(in crate::zone) fn passed(&self, leap_time: i64, probes: &mut Probes) -> Passed<'_, Kept>
        requires { HasRoomFor (digits (length self.now)) probes.old.reads }
        ensures within { result.count ≤ length self.now }
        ensures passed { passed self.now leap_time ≡ take result.count self.now }
        ensures latest { IsLastOf self.now result.count (option_map (λ r. r.now) result.latest) }
        ensures cost { RoseWithin probes.old probes.new (digits (length self.now)) 0 }
        ensures looked { 0 < length self.now → probes.old.reads < probes.new.reads }
    {
        self.entries.passed(leap_time, probes)
    }
}
