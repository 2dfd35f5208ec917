//! When clocks change: the next change of the type in force, and the previous one.
//!
//! Before the last transition only an entry of the change table can change the type, and each does.
//! After it only the rule can. What the last transition itself changes is asked.

ghost use Rattle.std.specs.Prelude.{◌≡◌, ◌≢◌, ◌<◌, ◌≤◌, ◌<ℤ◌, ◌≤ℤ◌, length, neg_ℤ, option_map, pos, MatchOption};
ghost use Rattle.{
  tz_info.specs.{Changes.{IsFirst, IsLast, IsNearest}, HeldChanges.{change_held}, Rules.{Alternate as AlternateRule}},
  tz_info.specs.Steps.Changes.{count_ahead, place_ahead, IsAhead, IsAheadChange, IsBegin, IsChangeAt, IsChangeByRule},
  tz_info.specs.Steps.{Changes.{IsChangeWith, IsInTable}, Entries.{AreEntries}},
  tz_info.specs.Zones.{HasType, IsValid, TypeAt},
};

use crate::change::{HeldChange, change_between, change_copied, held};
use crate::rule::{AlternateTime, TransitionRule};
use crate::zone::TimeZone;
use crate::zone::made::change_table::ChangeTable;
use tz_base::{Change, LocalTimeType};
use tz_search::Probes;

impl TimeZone {
    /// Returns the first clock change after that second, or `None` if none comes at a later second
    /// of 64 bits.
    ///
    /// Transitions that change nothing don't count; changes made by the rule after the last transition
    /// do. It takes no memory, and steps over a run of transitions that change nothing at once.
    ///
    /// ```
    /// let zone = TimeZone::from_posix_tz(alloc, "EST5EDT,M3.2.0,M11.1.0")?;
    /// let change = zone.next_change(1_609_459_200)?;    // from 2021-01-01 00:00:00 UTC on
    /// let at = change.at;                               // 1615705200: 14 March, 02:00 EST
    /// let name = change.after.name();                   // Some("EDT")
    /// ```
    pub fn next_change(&self, after: i64) -> Option<Change>
        ensures { IsFirst (TypeAt self.now) (λ u. after <ℤ u) result }
    {
        change_copied(self.next_held_change(after))
    }

    /// As [`TimeZone::next_change`], with references to the zone's types.
    #[inline(always)]
    pub fn next_held_change(&self, after: i64) -> Option<HeldChange<'_>>
        ensures { IsFirst (TypeAt self.now) (λ u. after <ℤ u) (option_map change_held result) }
    {
        self.next_change_near(after, &mut usize::MAX)
    }

    // The same, without a search of the table if `near` of its entries have come by that second. Then as
    // many as have come are near.
    #[inline(always)]
    pub(super) fn next_change_near(&self, after: i64, near: &mut usize) -> Option<HeldChange<'_>>
        ensures { IsFirst (TypeAt self.now) (λ u. after <ℤ u) (option_map change_held result) }
    {
        let _ = &self.changes;
        if self.last_span.has_begun(after) {
            return None;
        }
        match self.nearest_in_table(after, true, near) {
            Some(change) => Some(change),
            None => self.change_by_rule(after, true),
        }
    }

    // The nearest change ahead of the second in that direction, of those that come with an entry: that of
    // the first entry ahead or of the second one.
    #[inline(always)]
    fn nearest_in_table(
        &self,
        second: i64,
        forward: bool,
        near: &mut usize,
    ) -> Option<HeldChange<'_>>
        ensures { IsNearest forward (TypeAt self.now) (IsInTable self.now (IsAhead forward second))
            (option_map change_held result) }
    {
        let changes = self.change_table();
        let left = count_ahead(changes.len(), changes.count_near(second, near), forward);
        match self.change_ahead(changes, left, forward) {
            Some(change) => Some(change),
            None => self.change_ahead(changes, left.saturating_sub(1), forward),
        }
    }

    // The change that comes with the nearest entry ahead, if `left` of them are.
    #[inline(always)]
    fn change_ahead<'a>(
        &'a self,
        changes: &'a ChangeTable,
        left: usize,
        forward: bool,
    ) -> Option<HeldChange<'a>>
        requires list { AreEntries self.now changes.now }
        requires left { left ≤ length changes.now.items }
        ensures { IsAheadChange self.now changes.now forward left (option_map change_held result) }
    {
        if left == 0 {
            return None;
        }
        self.change_with(changes, place_ahead(changes.len(), left, forward))
    }

    // The change that comes with the entry at that place, if one does. That of the last transition is asked.
    #[inline(always)]
    #[tactic(auto, using(crate::proofs::Words::ints, crate::proofs::EntryChanges::with_entry))]
    fn change_with<'a>(&'a self, changes: &'a ChangeTable, place: usize) -> Option<HeldChange<'a>>
        requires list { AreEntries self.now changes.now }
        requires place { place < length changes.now.items }
        ensures { IsChangeWith self.now changes.now place (option_map change_held result) }
    {
        if changes.is_last(place) {
            return self.change_at(changes.second(place));
        }
        changes.change_at(self.local_time_types(), place)
    }

    // The zone's change table.
    #[inline(always)]
    pub(super) fn change_table(&self) -> &ChangeTable
        ensures list { AreEntries self.now result.now }
        ensures valid { IsValid self.now }
    {
        &self.changes
    }

    // The nearest change ahead of the second in that direction, of those that come after all
    // transitions.
    fn change_by_rule(&self, second: i64, forward: bool) -> Option<HeldChange<'_>>
        ensures { IsNearest forward (TypeAt self.now) (IsChangeByRule self.now (IsAhead forward second))
            (option_map change_held result) }
    {
        let _ = &self.changes;
        let turns = self.turns()?;
        let begin = self.rule_begin();
        if begin > i64::MAX as i128 {
            return None;
        }
        turns.nearest_change(begin as i64, second, forward, &mut Probes::new())
    }

    /// The last change of the clocks at that second or before it, or `None` if none comes at such a
    /// second of 64 bits.
    ///
    /// ```
    /// let zone = TimeZone::from_posix_tz(alloc, "EST5EDT,M3.2.0,M11.1.0")?;
    /// let change = zone.previous_change(1_609_459_200)?; // up to 2021-01-01 00:00:00 UTC
    /// let at = change.at;                                // 1604210400: 1 November, 02:00 EDT
    /// ```
    pub fn previous_change(&self, before_or_at: i64) -> Option<Change>
        ensures { IsLast (TypeAt self.now) (λ u. u ≤ℤ before_or_at) result }
    {
        change_copied(self.previous_held_change(before_or_at))
    }

    /// As [`TimeZone::previous_change`], with references to the zone's types.
    #[inline(always)]
    pub fn previous_held_change(&self, before_or_at: i64) -> Option<HeldChange<'_>>
        ensures { IsLast (TypeAt self.now) (λ u. u ≤ℤ before_or_at)
            (option_map change_held result) }
    {
        self.previous_change_near(before_or_at, &mut usize::MAX)
    }

    // The same, with `near` as `next_change_near` takes it.
    #[inline(always)]
    pub(super) fn previous_change_near(
        &self,
        before_or_at: i64,
        near: &mut usize,
    ) -> Option<HeldChange<'_>>
        ensures { IsLast (TypeAt self.now) (λ u. u ≤ℤ before_or_at)
            (option_map change_held result) }
    {
        if self.last_span.has_begun(before_or_at) {
            return held(&self.last_span.begin);
        }
        match self.change_by_rule(before_or_at, false) {
            Some(change) => Some(change),
            None => self.nearest_in_table(before_or_at, false, near),
        }
    }

    // The rule, if it has two types.
    pub(in crate::zone) fn turns(&self) -> Option<&AlternateTime>
        ensures { MatchOption result ((a : AlternateRule) → self.now.rule ≢ Some (TransitionRule.Alternate a))
            (λ a. self.now.rule ≡ Some (TransitionRule.Alternate a.now)) }
    {
        match &self.last_rule {
            Some(TransitionRule::Alternate(turns)) => Some(turns),
            _ => None,
        }
    }

    pub(in crate::zone) fn listed(&self, index: usize) -> &LocalTimeType
        requires { index < length self.now.types }
        ensures { HasType self.now index result.now }
    {
        &self.local_types[index]
    }

    // The change at that second, if there is one.
    fn change_at(&self, second: i64) -> Option<HeldChange<'_>>
        ensures { IsChangeAt (TypeAt self.now) second (option_map change_held result) }
    {
        let second_before = second.checked_sub(1)?;
        let Ok(before) = self.find_local_time_type(second_before) else {
            return None;
        };
        let Ok(after) = self.find_local_time_type(second) else {
            return None;
        };
        change_between(second, before, after)
    }

    // The first second at which all transitions have come, or the first one of 64 bits if there is
    // no transition.
    pub(in crate::zone) fn rule_begin(&self) -> i128
        ensures begin { IsBegin self.now result }
        ensures valid { IsValid self.now }
        ensures bound { neg_ℤ (pos 9_223_372_036_854_775_808) ≤ℤ result }
    {
        self.change_table().rule_begin()
    }
}

// How many of the entries are ahead in that direction, if `count` of them have come.
#[inline(always)]
fn count_ahead(len: usize, count: usize, forward: bool) -> usize
    requires { count ≤ len }
    ensures { result ≡ count_ahead forward len count }
{
    if forward { len - count } else { count }
}

// The place of the nearest entry ahead, if `left` of them are.
#[inline(always)]
fn place_ahead(len: usize, left: usize, forward: bool) -> usize
    requires some { 0 < left }
    requires within { left ≤ len }
    ensures { result ≡ place_ahead forward len left }
{
    if forward { len - left } else { left - 1 }
}
