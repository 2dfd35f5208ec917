//! A zone's transitions as one list of clock changes by Unix time, and how it is made.

ghost use Rattle.std.specs.List.{slice_get};
ghost use Rattle.std.specs.Prelude.{⊤, IsTrue, MatchOption, MatchResult, ◌≡◌, ◌↔◌, ◌<◌, ◌≤◌, ◌+◌, ◌-◌, [], length, option_map, pos};
ghost use Rattle.std.specs.Prelude.{vec_capacity, vec_len};
ghost use Rattle.{
  tz_info.specs.Steps.Entries.{as_listed, last_index, AreBefore, AreEntries, EndsAt, IsAdded, IsStartIn, NeverComes},
  tz_info.specs.Steps.{Pieces.{zone_in, zone_of}, WallPieces.{top_of, IsBegunNear}},
  tz_info.specs.{Transitions.{AreRising, NameTypes}, Zones.{IsValid}},
};

use crate::change::is_same_type;
use crate::rule::TransitionRule;
use crate::zone::lists::kept::Kept;
use crate::zone::lists::leap_seconds::LeapSeconds;
use crate::zone::lists::starts::first_second;
use crate::zone::made::segments::ZoneLists;
use std::alloc::{AllocError, Global};
use std::marker::Model;
use tz_base::{Error, LocalTimeType};
use tz_search::Timed;

// The transitions by Unix time, without those that change nothing. The last one is kept in any case,
// since the rule begins there.
#[derive(Drop)]
pub(in crate::zone) struct ChangeList {
    pub(in crate::zone) items: Vec<Kept>,
    // How many entries have come once all transitions have: more than there are, if never.
    pub(super) all: usize,
    // The transitions as listed, if the entries were made from them.
    pub(super) listed: Option<Vec<Kept>>,
}

impl Model for ChangeList {
    ghost use Rattle.std.specs.Prelude.{option_map, unwrap_or};
    ghost use Rattle.tz_info.specs.Steps.Entries.{Entries};

    ghost Value = { Entries };

    ghost view = { λ l. record {
      items = l.items.items;
      all = l.all;
      transitions = unwrap_or (option_map (λ v. v.items) l.listed) l.items.items;
    } };
}

impl ChangeList {
    // The list of the zone of those lists, which keeps its transitions as well.
    pub(in crate::zone) fn new(
        alloc: Global,
        transitions: Vec<Kept>,
        types: &[LocalTimeType],
        leaps: &LeapSeconds,
        rule: &Option<TransitionRule>,
    ) -> Result<ChangeList, Error>
        requires { IsValid (zone_of transitions.items types.now leaps.now rule.now) }
        ensures { MatchResult result (AreEntries (zone_of transitions.items types.now leaps.now rule.now))
            (λ e. e ≡ Error.OutOfMemory) }
    {
        let lists = ZoneLists {
            transitions: &transitions,
            types,
            leaps,
            rule,
        };
        let (items, all) = entries_of(alloc, lists)?;
        Ok(ChangeList {
            items,
            all,
            listed: Some(transitions),
        })
    }

    // The transitions as listed, as if each of them were an entry: an empty list takes no memory.
    pub(in crate::zone) fn as_listed(transitions: Vec<Kept>) -> ChangeList
        ensures { result ≡ as_listed transitions.items }
    {
        let all = transitions.len();
        ChangeList {
            items: transitions,
            all,
            listed: None,
        }
    }

    // The transitions as listed.
    pub(in crate::zone) fn transitions(&self) -> &[Kept]
        ensures { result.now ≡ self.now.transitions }
    {
        match &self.listed {
            Some(transitions) => transitions,
            None => &self.items,
        }
    }

    // The entries.
    #[inline(always)]
    pub(in crate::zone) fn items(&self) -> &[Kept]
        ensures { result.now ≡ self.now.items }
    {
        &self.items
    }

    // How many segments between entries are the table's, and not the rule's.
    pub(super) fn segment_count(&self, rule: &Option<TransitionRule>) -> usize
        ensures { result ≡ top_of rule.now self.now }
    {
        match rule {
            Some(_) => self.all,
            None => self.items.len() + 1,
        }
    }

    // The second from which the rule is asked, of those of 64 bits: the last one, if it never is.
    #[tactic(auto, using(crate::proofs::EntryChanges::begins))]
    pub(in crate::zone) fn rule_from(&self) -> i64
        requires rising { AreRising self.now.items }
        requires more { length self.now.items ≤ self.now.all }
        ensures begun { IsBegunNear self.now result }
        ensures never { 0 < self.now.all → length self.now.items ≡ 0
            → result ≡ pos 9_223_372_036_854_775_807 }
    {
        if self.all == 0 {
            return i64::MIN;
        }
        if self.all > self.items.len() {
            return i64::MAX;
        }
        self.items[self.all - 1].second()
    }
}

// The entries of the zone of those lists, and how many of them have come once all transitions have. It is
// not inlined, so that its loop has the registers.
#[inline(never)]
fn entries_of(alloc: Global, lists: ZoneLists) -> Result<(Vec<Kept>, usize), AllocError>
    requires { IsValid (zone_in lists) }
    ensures { MatchResult result (λ made. AreEntries (zone_in lists.entry) (record {
      items = made.0.items;
      all = made.1;
      transitions = lists.entry.transitions.now;
    })) (λ _. ⊤) }
{
    let count = lists.transitions.len();
    let mut entries = Vec::with_capacity(alloc, count)?;
    let mut near = 0;
    for place in 0..count {
        let transition = &lists.transitions[place];
        let Some(start) = start_in(lists.leaps, transition.second(), &mut near) else {
            let all = entries.len() + 1;
            return Ok((entries, all));
        };
        drop_at(&mut entries, start);
        add(
            &mut entries,
            lists.types,
            transition.at(start),
            place + 1 == count,
        );
    }
    let all = entries.len();
    Ok((entries, all))
}

// The first second at which the leap time has come, if one of 64 bits has a leap time then. It is found
// without a search if `near` leap seconds have come by then. Then as many as have come are near.
fn start_in(leaps: &LeapSeconds, time: i64, near: &mut usize) -> Option<i64>
    ensures { MatchOption result (NeverComes leaps.now time) (IsStartIn leaps.now time) }
{
    let entries = leaps.entries();
    if entries.is_empty() {
        return Some(time);
    }
    let start = first_second(entries, time, near);
    if start > i64::MAX as i128 {
        return None;
    }
    let second = start as i64;
    if leaps.has_leap_time(second) {
        Some(second)
    } else {
        None
    }
}

// Drops the last entry, if it comes at that second.
fn drop_at(entries: &mut Vec<Kept>, second: i64)
    ensures before { AreBefore entries.old.items second entries.new.items }
    ensures capacity { vec_capacity entries.new ≡ vec_capacity entries.old }
    ensures len { vec_len entries.new ≤ vec_len entries.old }
{
    if ends_at(entries, second) {
        let _ = entries.pop();
    }
}

// Whether the last entry comes at that second.
fn ends_at(entries: &[Kept], second: i64) -> bool
    ensures { IsTrue result ↔ EndsAt entries.now second }
{
    match entries.last() {
        Some(last) => last.second() == second,
        None => false,
    }
}

// Adds the entry, if it is the last one or changes the type in force after the others.
fn add(entries: &mut Vec<Kept>, types: &[LocalTimeType], entry: Kept, is_last: bool)
    requires some { 0 < length types.now }
    requires named { NameTypes (length types.now) entries.old.items }
    requires index { entry.type_index < length types.now }
    requires room { vec_len entries.old < vec_capacity entries.old }
    ensures added { IsAdded types.now entries.old.items entry is_last entries.new.items }
    ensures capacity { vec_capacity entries.new ≡ vec_capacity entries.old }
    ensures len { vec_len entries.new ≤ vec_len entries.old + 1 }
{
    if is_last || !is_in_force(entries, types, entry.type_index()) {
        entries.push_reserved(entry);
    }
}

// Whether the type of that index is in force after the entries.
fn is_in_force(entries: &[Kept], types: &[LocalTimeType], index: usize) -> bool
    requires some { 0 < length types.now }
    requires named { NameTypes (length types.now) entries.now }
    requires index { index < length types.now }
    ensures { IsTrue result
        ↔ (slice_get types.now index ≡ slice_get types.now (last_index entries.now)) }
{
    is_same_type(&types[index], &types[latest_index(entries, types)])
}

// The type index of the last entry, or 0 if the list is empty.
#[tactic(auto, using(crate::proofs::SegmentLaws::index_next, crate::proofs::Prefixes::index_within, crate::proofs::Words::take_all))]
fn latest_index(entries: &[Kept], types: &[LocalTimeType]) -> usize
    requires some { 0 < length types.now }
    requires named { NameTypes (length types.now) entries.now }
    ensures index { result ≡ last_index entries.now }
    ensures below { result < length types.now }
{
    match entries.last() {
        Some(last) => last.type_index(),
        None => 0,
    }
}
