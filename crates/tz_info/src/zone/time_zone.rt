//! A time zone: transitions, the types of its local time, leap seconds, and the rule that goes on
//! after them.

ghost use Rattle.tz_info.specs.Zones.{IsValid, IsRuleOrNone};

use crate::rule::TransitionRule;
use crate::zone::lists::leap_seconds::LeapSeconds;
use crate::zone::made::change_table::ChangeTable;
use crate::zone::made::extremes::Extremes;
use crate::zone::made::index::Index;
use crate::zone::made::last_span::LastSpan;
use std::fmt;
use std::marker::Model;
use tz_base::{LeapSecond, LocalTimeType, Transition};

/// A time zone: which type of local time is in force at each instant.
///
/// ```
/// let types = vec![in alloc; LocalTimeType::utc(), LocalTimeType::with_offset(3600)?]?;
/// let transitions = vec![in alloc; Transition::new(0, 1)]?;
/// let zone = TimeZone::new(alloc, transitions, types, Vec::new(alloc), None)?;
/// let before = zone.find_local_time_type(-1)?.offset();    // 0
/// let after = zone.find_local_time_type(0)?.offset();      // 3600
/// ```
#[derive(Drop)]
pub struct TimeZone {
    // The transitions, and the clock changes by Unix time.
    pub(super) changes: ChangeTable,
    pub(super) local_types: Vec<LocalTimeType>,
    pub(super) leap_seconds: LeapSeconds,
    pub(super) last_rule: Option<TransitionRule>,
    // The least and the greatest offset of the types and of the rule.
    pub(super) extremes: Extremes,
    // The pieces of the wall-clock axis.
    pub(super) index: Index,
    // The span after the last change.
    pub(super) last_span: LastSpan,
}

impl Model for TimeZone {
    ghost use Rattle.tz_info.specs.{Steps.Prepared.{IsPrepared}, Zones.{Zone}};

    ghost Value = { Zone };

    ghost view = { λ z. record {
      transitions = z.changes.transitions;
      types = z.local_types.items;
      leaps = z.leap_seconds;
      rule = z.last_rule;
    } };

    ghost invariant = { λ z. IsPrepared (record {
      transitions = z.changes.transitions;
      types = z.local_types.items;
      leaps = z.leap_seconds;
      rule = z.last_rule;
    }) z.extremes z.index z.changes z.last_span };
}

// Of the lists alone: the rest follows from them.
impl fmt::Debug for TimeZone {
    fn fmt<W: fmt::Write>(&self, f: &mut fmt::Formatter<W>) -> fmt::Result {
        f.debug_struct("TimeZone")
            .field("table", self.changes.listed())
            .field("local_types", &self.local_types)
            .field("leap_seconds", &self.leap_seconds.entries())
            .field("last_rule", &self.last_rule)
            .finish()
    }
}

impl PartialEq for TimeZone {
    ghost use Rattle.std.specs.Cmp.{partial_equiv_from_equiv};
    ghost use Rattle.tz_base.specs.contracts.local_time_type.LocalTimeTypeEq.TheImpl.Laws.{laws-law as types};
    ghost use Rattle.tz_info.specs.{ZoneEquality.{zone_eq}, Steps.Equivalences.{zone_eq_equiv}};
    ghost use Rattle.tz_base.specs.contracts.transition.TransitionEq.TheImpl.Laws.{laws-law as transitions};
    ghost use Rattle.tz_base.specs.contracts.leap_second.LeapSecondEq.TheImpl.Laws.{laws-law as leaps};
    ghost use Rattle.tz_info.specs.contracts.rule.transition_rule.TransitionRuleEq.TheImpl.Laws.{laws-law as rules};

    ghost eq = { zone_eq ⟦<Transition as PartialEq>⟧.eq ⟦<LocalTimeType as PartialEq>⟧.eq
        ⟦<LeapSecond as PartialEq>⟧.eq ⟦<TransitionRule as PartialEq>⟧.eq };

    ghost laws = { partial_equiv_from_equiv (zone_eq_equiv transitions types leaps rules) };

    fn eq(&self, other: &TimeZone) -> bool {
        self.changes.listed() == other.changes.listed()
            && self.local_types == other.local_types
            && self.leap_seconds.entries() == other.leap_seconds.entries()
            && self.last_rule == other.last_rule
    }
}

impl Eq for TimeZone {
    ghost use Rattle.tz_base.specs.contracts.local_time_type.LocalTimeTypeEq.TheImpl.Laws.{laws-law as types};
    ghost use Rattle.tz_info.specs.Steps.Equivalences.{zone_eq_equiv};
    ghost use Rattle.tz_base.specs.contracts.transition.TransitionEq.TheImpl.Laws.{laws-law as transitions};
    ghost use Rattle.tz_base.specs.contracts.leap_second.LeapSecondEq.TheImpl.Laws.{laws-law as leaps};
    ghost use Rattle.tz_info.specs.contracts.rule.transition_rule.TransitionRuleEq.TheImpl.Laws.{laws-law as rules};

    ghost laws = { zone_eq_equiv transitions types leaps rules };
}

impl TimeZone {
    /// A law: each zone is a valid one, and the numbers of its rule are in their limits. The call
    /// does nothing.
    #[inline(always)]
    pub fn valid_law(&self)
        ensures valid { IsValid self.now }
        ensures rule { IsRuleOrNone self.now.rule }
    {
        let _ = &self.changes;
    }
}
