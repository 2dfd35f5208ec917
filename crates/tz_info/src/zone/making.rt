//! How a zone is made: its lists are checked, and what lookups need is prepared from them.

ghost use Rattle.std.specs.Prelude.{◌≡◌, ◌⊎◌, ◌<◌, [], length, pos, IfSome, MatchResult};
ghost use Rattle.{
  tz_base.specs.{Errors.{IsOutOfMemory}, LocalTypes.{IsUtOffset}},
  tz_info.specs.Steps.{Entries.{AreEntries}, LastSpans.{IsLastSpan}, Pieces.{zone_of}, WallPieces.{IsIndex}},
  tz_info.specs.Zones.{plain_zone, zone_of_rule, zone_of_type, IsValid, ListFault, Zone},
};

use crate::change::change_copied;
use crate::rule::TransitionRule;
use crate::zone::ask::all_changes::second_before;
use crate::zone::ask::runs::start_by;
use crate::zone::ask::typed::second_after;
use crate::zone::lists::kept::{Kept, all_kept};
use crate::zone::lists::leap_seconds::LeapSeconds;
use crate::zone::lists::starts::cut_at;
use crate::zone::lists::valid::check;
use crate::zone::made::change_list::ChangeList;
use crate::zone::made::change_table::ChangeTable;
use crate::zone::made::extremes::extremes_of;
use crate::zone::made::index::Index;
use crate::zone::made::last_span::LastSpan;
use crate::zone::made::segments::ZoneLists;
use crate::zone::time_zone::TimeZone;
use std::alloc::Global;
use tz_base::{Error, Expected, LeapSecond, LocalTimeType, Span, Transition};

impl TimeZone {
    /// Returns the zone of those transitions, types, leap seconds and rule.
    ///
    /// It needs at least one type. Each transition must refer to a listed type, and their times must
    /// rise. The first leap second must come in 1970 or later with the correction 1 or -1, each other one
    /// at least 28 days, less a second, after the one before, with a correction that is one more or one
    /// less. If there are a rule and a transition, the rule's type at the last transition's Unix time
    /// must be that transition's type.
    ///
    /// # Errors
    ///
    /// [`Error::TimeZone`] if the lists are otherwise, with what was expected of the first one with
    /// a fault: the types, the type indexes, then the times of the transitions, the leap seconds,
    /// the rule. [`Error::OutOfMemory`] if there is no memory for the zone's index and hints, or if there
    /// are 1,073,741,824 transitions or types, or more: the index numbers no more of them. A zone without
    /// transitions has no index, and takes no memory but that of its lists.
    pub fn new(
        alloc: Global,
        transitions: Vec<Transition>,
        types: Vec<LocalTimeType>,
        leaps: Vec<LeapSecond>,
        rule: Option<TransitionRule>,
    ) -> Result<TimeZone, Error>
        ensures { let lists : Zone = record {
          transitions = transitions.items;
          types = types.items;
          leaps = leaps.items;
          rule = rule;
        } in
            MatchResult result (λ z. IsValid lists × (z ≡ lists))
            (λ e. (ListFault lists e × ¬ (IsValid lists))
            ⊎ ((e ≡ Error.OutOfMemory) × IsValid lists × (0 < length lists.transitions))) }
    {
        check(&transitions, &types, &leaps, &rule)?;
        let kept = all_kept(alloc, &transitions)?;
        TimeZone::of_valid(alloc, kept, types, leaps, rule)
    }

    // The zone of lists that make a valid one.
    pub(crate) fn of_valid(
        alloc: Global,
        transitions: Vec<Kept>,
        types: Vec<LocalTimeType>,
        leaps: Vec<LeapSecond>,
        rule: Option<TransitionRule>,
    ) -> Result<TimeZone, Error>
        requires { IsValid (zone_of transitions.items types.items leaps.items rule) }
        ensures { MatchResult result (λ z. z ≡ zone_of transitions.items types.items leaps.items rule)
            (λ e. (e ≡ Error.OutOfMemory) × (0 < length transitions.items)) }
    {
        let leaps = LeapSeconds::new(leaps);
        if transitions.is_empty() {
            return Ok(TimeZone::without_transitions(types, leaps, rule));
        }
        let (list, index) = list_and_index(alloc, transitions, &types, &leaps, &rule)?;
        let changes = ChangeTable::new(alloc, list)?;
        let extremes = extremes_of(&types, &rule);
        let mut zone = TimeZone {
            changes,
            local_types: types,
            leap_seconds: leaps,
            last_rule: rule,
            extremes,
            index,
            last_span: LastSpan::none(),
        };
        zone.keep_last_span();
        Ok(zone)
    }

    /// The zone of UTC: one type, that of [`LocalTimeType::utc`], at every instant.
    ///
    /// # Errors
    ///
    /// [`Error::OutOfMemory`] if there is no memory for it.
    pub fn utc(alloc: Global) -> Result<TimeZone, Error>
        ensures { MatchResult result (λ z. z ≡ plain_zone (pos 0)) (λ e. IsOutOfMemory e) }
    {
        TimeZone::of_type(alloc, LocalTimeType::utc())
    }

    /// The zone of one type at every instant: that offset, in seconds east of UTC, without a name.
    ///
    /// # Errors
    ///
    /// [`Error::LocalTimeType`] if the offset is `i32::MIN`; [`Error::OutOfMemory`] if there is no
    /// memory for the zone.
    pub fn fixed(alloc: Global, ut_offset: i32) -> Result<TimeZone, Error>
        ensures { MatchResult result
            (λ z. IsUtOffset ut_offset × (z ≡ plain_zone ut_offset))
            (λ e. ((e ≡ Error.LocalTimeType Expected.OffsetAboveI32Min) × ¬ (IsUtOffset ut_offset))
            ⊎ (IsOutOfMemory e × IsUtOffset ut_offset)) }
    {
        TimeZone::of_type(alloc, LocalTimeType::with_offset(ut_offset)?)
    }

    // The zone of those types, of which there is one at least, and of that rule.
    #[inline(always)]
    pub(crate) fn with_rule(types: Vec<LocalTimeType>, rule: Option<TransitionRule>) -> TimeZone
        requires { 0 < length types.items }
        ensures { result ≡ zone_of_rule types.items rule }
    {
        let leaps = LeapSeconds::none(*types.allocator());
        TimeZone::without_transitions(types, leaps, rule)
    }

    // The zone of those lists and without transitions. It is inlined, so that the zone is made in place.
    #[inline(always)]
    fn without_transitions(
        types: Vec<LocalTimeType>,
        leaps: LeapSeconds,
        rule: Option<TransitionRule>,
    ) -> TimeZone
        requires { IsValid (zone_of [] types.items leaps rule) }
        ensures { result ≡ zone_of [] types.items leaps rule }
    {
        let alloc = *types.allocator();
        let list = ChangeList::as_listed(Vec::new(alloc));
        let lists = ZoneLists {
            transitions: list.transitions(),
            types: &types,
            leaps: &leaps,
            rule: &rule,
        };
        let index = Index::without_pieces(alloc, lists, &list);
        let extremes = extremes_of(&types, &rule);
        let mut zone = TimeZone {
            changes: ChangeTable::none(alloc),
            local_types: types,
            leap_seconds: leaps,
            last_rule: rule,
            extremes,
            index,
            last_span: LastSpan::none(),
        };
        zone.keep_last_span();
        zone
    }

    // The zone of one type at every instant.
    fn of_type(alloc: Global, local: LocalTimeType) -> Result<TimeZone, Error>
        ensures { MatchResult result (λ z. z ≡ zone_of_type local) (λ e. IsOutOfMemory e) }
    {
        let types = vec![in alloc; local]?;
        Ok(TimeZone::with_rule(types, None))
    }

    // Keeps the last span, if there is one.
    pub(super) fn keep_last_span(&mut self)
        ensures { self.new ≡ self.old }
    {
        match self.find_last_span() {
            Some(last_span) => self.last_span = last_span,
            None => {}
        }
    }

    // The span of the last second that has a type, unless the zone has a rule that changes the clocks.
    fn find_last_span(&self) -> Option<LastSpan>
        ensures { IfSome result (IsLastSpan self.now) }
    {
        let _ = (self.extremes.least, self.extremes.greatest);
        if self.goes_on_to_change() {
            return None;
        }
        let last = self.last_typed();
        let Ok(local_time_type) = self.find_local_time_type(last) else {
            return None;
        };
        let begin = self.previous_held_change(last);
        let from = self.span_begin(begin);
        let after = second_before(start_by(from, i64::MIN));
        Some(LastSpan {
            after,
            last,
            local_after: cut_at(after, i64::from(self.extremes.greatest)),
            span: Span {
                local_time_type: *local_time_type,
                from,
                until: second_after(last),
            },
            begin: change_copied(begin),
        })
    }

    // Whether the zone has a rule that changes the clocks. Only the time that questions take depends
    // on it.
    fn goes_on_to_change(&self) -> bool {
        match self.turns() {
            Some(turns) => !turns.never_changes(),
            None => false,
        }
    }
}

// The clock changes of the zone of those lists, and its index.
fn list_and_index(
    alloc: Global,
    transitions: Vec<Kept>,
    types: &[LocalTimeType],
    leaps: &LeapSeconds,
    rule: &Option<TransitionRule>,
) -> Result<(ChangeList, Index), Error>
    requires valid { IsValid (zone_of transitions.items types.now leaps.now rule.now) }
    requires some { 0 < length transitions.items }
    ensures { let zone = zone_of transitions.items types.now leaps.now rule.now in
        MatchResult result (λ made. AreEntries zone made.0 × IsIndex zone made.0 made.1)
        (λ e. e ≡ Error.OutOfMemory) }
{
    let list = ChangeList::as_listed(transitions);
    let lists = ZoneLists {
        transitions: list.items(),
        types,
        leaps,
        rule,
    };
    if let Some(index) = Index::of_transitions(alloc, lists, &list)? {
        return Ok((list, index));
    }
    let list = ChangeList::new(alloc, list.items, types, leaps, rule)?;
    let lists = ZoneLists {
        transitions: list.transitions(),
        types,
        leaps,
        rule,
    };
    let index = Index::new(alloc, lists, &list)?;
    Ok((list, index))
}
