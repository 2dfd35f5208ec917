//! The list of clock changes for lookups, which counts each probe.

ghost use Rattle.std.specs.Prelude.{◌≡◌, ◌↔◌, ◌<◌, ◌≤◌, ◌+◌, ◌-◌, ◌^◌, ◌<ℤ◌, ◌≤ℤ◌, [], length, neg_ℤ, option_map, pos, IfSome, IsTrue};
ghost use Rattle.std.specs.Prelude.{MatchOption, MatchResult};
ghost use Rattle.{
  tz_info.specs.HeldChanges.{change_held},
  tz_info.specs.Steps.Entries.{entry_time, most_looks, IsBetween, IsCome, IsEntryAt, IsEntryChange},
  tz_info.specs.Steps.{Segments.{index_of}, Pieces.{IsJump, IsPlaced}, WallPieces.{top_of, IsBegun}},
  tz_info.specs.Transitions.{passed, AreRising, NameTypes},
  tz_search.specs.{Counts.{HasRoom, RoseWithin}, RisingCounts.{HasRoomFor}, Digits.{digits}},
};

use crate::change::HeldChange;
use crate::rule::TransitionRule;
use crate::zone::lists::kept::Kept;
use crate::zone::lists::table::{Entry, Table};
use crate::zone::made::change_list::ChangeList;
use crate::zone::made::shown::Shown;
use std::alloc::Global;
use std::marker::Model;
use tz_base::{Error, LocalTimeType, Transition};
use tz_search::Probes;

// The transitions by Unix time, without those that change nothing, and the transitions as listed, if the
// entries were made from them.
#[derive(Drop)]
pub(in crate::zone) struct ChangeTable {
    entries: Table,
    all: usize,
    listed: Option<Table>,
}

// What has come at a second: the index of the type in force, where some transition has not come, and
// whether all have.
#[derive(Clone, Copy)]
pub(in crate::zone) struct Come {
    pub(in crate::zone) index: usize,
    pub(in crate::zone) are_all: bool,
}

// The seconds from one entry on, or from the least second of 64 bits, and before the next entry, and
// the index of the type in force there.
#[derive(Clone, Copy)]
pub(in crate::zone) struct Between {
    pub(in crate::zone) from: i64,
    pub(in crate::zone) until: i64,
    pub(in crate::zone) index: usize,
    // Whether clocks change at both ends.
    pub(in crate::zone) is_span: bool,
}

impl Model for ChangeTable {
    ghost use Rattle.std.specs.Prelude.{unwrap_or};
    ghost use Rattle.tz_info.specs.Steps.Entries.{Entries};

    ghost Value = { Entries };

    ghost view = { λ t. record {
      items = t.entries;
      all = t.all;
      transitions = unwrap_or t.listed t.entries;
    } };
}

impl ChangeTable {
    // The table of that list.
    pub(in crate::zone) fn new(alloc: Global, list: ChangeList) -> Result<ChangeTable, Error>
        requires rising { AreRising list.items }
        requires listed { AreRising list.transitions }
        ensures { MatchResult result (λ t. t ≡ list) (λ e. e ≡ Error.OutOfMemory) }
    {
        let ChangeList { items, all, listed } = list;
        let entries = Table::new(alloc, items)?;
        let Some(listed) = listed else {
            return Ok(ChangeTable {
                entries,
                all,
                listed: None,
            });
        };
        let listed = Some(Table::listed(alloc, listed));
        Ok(ChangeTable {
            entries,
            all,
            listed,
        })
    }

    // The transitions as listed.
    #[inline(always)]
    pub(in crate::zone) fn listed(&self) -> &Table
        ensures { result.now ≡ self.now.transitions }
    {
        match &self.listed {
            Some(listed) => listed,
            None => &self.entries,
        }
    }

    // Whether there is no transition.
    #[inline(always)]
    pub(in crate::zone) fn is_empty(&self) -> bool
        ensures { IsTrue result ↔ (self.now.all ≡ 0) }
    {
        self.all == 0
    }

    // What has come at the second. If there are no entries, one probe is counted.
    #[inline(always)]
    #[tactic(auto, using(crate::proofs::EntryChanges::few_digits))]
    pub(in crate::zone) fn come(&self, second: i64, probes: &mut Probes) -> Come
        requires { HasRoomFor (2 ^ 64) probes.old.reads }
        ensures come { IsCome self.now second result }
        ensures cost { RoseWithin probes.old probes.new (most_looks (length self.now.items)) 0 }
        ensures looked { probes.old.reads < probes.new.reads }
    {
        if self.entries.len() == 0 {
            probes.count_read();
            return Come {
                index: 0,
                are_all: self.all == 0,
            };
        }
        let passed = self.entries.passed(second, probes);
        Come {
            index: index_of_latest(passed.latest),
            are_all: passed.count == self.all,
        }
    }

    // How many entries have come at the second.
    #[inline(always)]
    #[tactic(auto, using(crate::proofs::EntryChanges::few_digits))]
    pub(in crate::zone) fn count(&self, second: i64, probes: &mut Probes) -> usize
        requires { HasRoom probes.old }
        ensures count { result ≡ length (passed self.now.items second) }
        ensures within { result ≤ length self.now.items }
        ensures cost { RoseWithin probes.old probes.new (digits (length self.now.items)) 0 }
        ensures room { HasRoomFor 2 probes.new.reads }
    {
        if self.entries.len() == 0 {
            return 0;
        }
        self.entries.passed(second, probes).count
    }

    // The same, without a search if `near` of them have. Then `near` is the answer.
    #[inline(always)]
    pub(in crate::zone) fn count_near(&self, second: i64, near: &mut usize) -> usize
        ensures count { result ≡ length (passed self.now.items second) }
        ensures within { result ≤ length self.now.items }
    {
        if !self.have_come(*near, second) {
            *near = self.count(second, &mut Probes::new());
        }
        *near
    }

    // Whether the first `count` entries have come at the second, and no others.
    #[inline(always)]
    fn have_come(&self, count: usize, second: i64) -> bool
        ensures { IsTrue result → (count ≤ length self.now.items)
            × (count ≡ length (passed self.now.items second)) }
    {
        if count > self.entries.len() {
            return false;
        }
        self.is_since(count, second) & self.is_until(count, second)
    }

    // Whether the last one of the first `count` entries has come at the second, if there is one.
    #[inline(always)]
    fn is_since(&self, count: usize, second: i64) -> bool
        requires { count ≤ length self.now.items }
        ensures { IsTrue result → 0 < count → entry_time self.now.items (count - 1) ≤ℤ second }
    {
        count == 0 || self.second(count - 1) <= second
    }

    // Whether the entry after those has not come, if there is one.
    #[inline(always)]
    fn is_until(&self, count: usize, second: i64) -> bool
        requires { count ≤ length self.now.items }
        ensures { IsTrue result → count < length self.now.items
            → second <ℤ entry_time self.now.items count }
    {
        count == self.len() || second < self.second(count)
    }

    // How many there are.
    #[inline(always)]
    pub(in crate::zone) fn len(&self) -> usize
        ensures { result ≡ length self.now.items }
    {
        self.entries.len()
    }

    // The rule, if it gives the types of the segment at that place: else the table does.
    pub(in crate::zone) fn rule_at<'a>(
        &self,
        place: usize,
        rule: &'a Option<TransitionRule>,
    ) -> Option<&'a TransitionRule>
        requires { place ≤ length self.now.items }
        ensures { MatchOption result (place < top_of rule.now self.now)
            (λ r. (rule.now ≡ Some r.now) × (top_of rule.now self.now ≤ place)) }
    {
        match rule {
            Some(rule) if place >= self.all => Some(rule),
            _ => None,
        }
    }

    // The second from which the rule is asked: one that 64 bits don't hold, if it never is.
    #[tactic(auto, using(crate::proofs::Fits::fits, crate::proofs::Words::ints, crate::proofs::EntryChanges::begins))]
    pub(in crate::zone) fn rule_begin(&self) -> i128
        requires rising { AreRising self.now.items }
        requires more { length self.now.items ≤ self.now.all }
        ensures begun { IsBegun self.now result }
        ensures never { 0 < self.now.all → length self.now.items ≡ 0
            → pos 9_223_372_036_854_775_807 ≤ℤ result }
        ensures bound { neg_ℤ (pos 9_223_372_036_854_775_808) ≤ℤ result }
    {
        if self.all == 0 {
            return i64::MIN as i128;
        }
        if self.all > self.len() {
            return i64::MAX as i128 + 1;
        }
        self.second(self.all - 1) as i128
    }

    // The change at which the segment at a jump's place begins. One probe is counted.
    pub(in crate::zone) fn jump<'a>(
        &self,
        types: &'a [LocalTimeType],
        shown: Shown,
        probes: &mut Probes,
    ) -> Option<HeldChange<'a>>
        requires some { 0 < length types.now }
        requires named { NameTypes (length types.now) self.now.items }
        requires placed { IsPlaced (length self.now.items) shown }
        requires room { HasRoomFor 1 probes.old.reads }
        ensures jump { IsJump types.now self.now.items shown (option_map change_held result) }
        ensures cost { RoseWithin probes.old probes.new 1 0 }
    {
        let Shown::Skipped(place) = shown else {
            return None;
        };
        let entry = self.entry(types, place - 1, probes);
        Some(HeldChange {
            before: &types[entry.before],
            after: &types[entry.after],
            at: entry.at,
        })
    }

    // The entry at that place. One probe is counted.
    #[inline(always)]
    #[tactic(auto, using(crate::proofs::SegmentLaws::index_next, crate::proofs::Prefixes::index_within))]
    pub(in crate::zone) fn entry(
        &self,
        types: &[LocalTimeType],
        place: usize,
        probes: &mut Probes,
    ) -> Entry
        requires place { place < length self.now.items }
        requires some { 0 < length types.now }
        requires named { NameTypes (length types.now) self.now.items }
        requires room { HasRoomFor 1 probes.old.reads }
        ensures entry { IsEntryAt self.now.items place result }
        ensures before { result.before < length types.now }
        ensures after { result.after < length types.now }
        ensures cost { RoseWithin probes.old probes.new 1 0 }
    {
        self.entries.entry(place, probes)
    }

    // Whether the transitions of the entry at that place are the last ones.
    #[inline(always)]
    pub(in crate::zone) fn is_last(&self, place: usize) -> bool
        requires { place < length self.now.items }
        ensures { IsTrue result ↔ (self.now.all ≤ place + 1) }
    {
        self.all.saturating_sub(1) <= place
    }

    // When the entry at that place comes.
    #[inline(always)]
    #[tactic(auto, using(crate::proofs::Words::get_or_default))]
    pub(in crate::zone) fn second(&self, place: usize) -> i64
        requires { place < length self.now.items }
        ensures { result ≡ entry_time self.now.items place }
    {
        self.entries.read(place, &mut Probes::new()).unix_leap_time
    }

    // The index of the type in force after the first `count` entries, and before the next.
    #[inline(always)]
    fn index_after(&self, types: &[LocalTimeType], count: usize) -> usize
        requires count { count ≤ length self.now.items }
        requires some { 0 < length types.now }
        requires named { NameTypes (length types.now) self.now.items }
        ensures index { result ≡ index_of self.now.items count }
        ensures below { result < length types.now }
    {
        if count == 0 {
            return 0;
        }
        self.index_at(types, count - 1)
    }

    // The index that the entry at that place names.
    #[inline(always)]
    #[tactic(auto, using(crate::proofs::SegmentLaws::index_next))]
    fn index_at(&self, types: &[LocalTimeType], place: usize) -> usize
        requires place { place < length self.now.items }
        requires named { NameTypes (length types.now) self.now.items }
        ensures index { result ≡ index_of self.now.items (place + 1) }
        ensures below { result < length types.now }
    {
        self.entries.read(place, &mut Probes::new()).type_index
    }

    // The change that comes with the entry at that place, which is not that of the last transition:
    // none if it comes at the least second.
    #[inline(always)]
    pub(in crate::zone) fn change_at<'a>(
        &self,
        types: &'a [LocalTimeType],
        place: usize,
    ) -> Option<HeldChange<'a>>
        requires place { place < length self.now.items }
        requires some { 0 < length types.now }
        requires named { NameTypes (length types.now) self.now.items }
        ensures { IsEntryChange types.now self.now.items place (option_map change_held result) }
    {
        let at = self.second(place);
        if at == i64::MIN {
            return None;
        }
        Some(HeldChange {
            before: &types[self.index_after(types, place)],
            after: &types[self.index_at(types, place)],
            at,
        })
    }

    // The seconds between two entries that have the second, if one comes after it. If `near` entries have
    // come by then, it is found without a search.
    #[inline(always)]
    #[tactic(auto, using(crate::proofs::Words::ints, crate::proofs::EntryChanges::begin_at, crate::proofs::Fits::fits))]
    pub(in crate::zone) fn between(
        &self,
        types: &[LocalTimeType],
        second: i64,
        near: &mut usize,
    ) -> Option<Between>
        requires some { 0 < length types.now }
        requires named { NameTypes (length types.now) self.now.items }
        ensures between { IfSome result (IsBetween self.now second) }
        ensures below { IfSome result (λ b. b.index < length types.now) }
    {
        let place = self.count_near(second, near);
        if place == self.len() {
            return None;
        }
        let until = self.second(place);
        let index = self.index_after(types, place);
        if place == 0 {
            return Some(Between {
                from: i64::MIN,
                until,
                index,
                is_span: false,
            });
        }
        let from = self.second(place - 1);
        Some(Between {
            from,
            until,
            index,
            is_span: from > i64::MIN && !self.is_last(place),
        })
    }

    // The table of a zone without transitions, which takes no memory.
    pub(in crate::zone) fn none(alloc: Global) -> ChangeTable
        ensures { result ≡ record { items = []; all = 0; transitions = [] } }
    {
        ChangeTable {
            entries: Table::none(alloc),
            all: 0,
            listed: None,
        }
    }
}

// The type index of the latest entry, or 0 for `None`.
#[inline(always)]
fn index_of_latest(latest: Option<&Kept>) -> usize
    ensures { MatchOption (option_map (λ r. r.now) latest.entry) (result ≡ 0)
        (λ t. result ≡ t.type_index) }
{
    match latest {
        Some(latest) => latest.type_index(),
        None => 0,
    }
}
