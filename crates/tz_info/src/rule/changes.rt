//! When a rule's types give way to each other.

ghost use Rattle.std.specs.Prelude.{◌≡◌, ◌↔◌, ◌≤◌, ◌<ℤ◌, ◌-ℤ◌, not, option_map, pos, IsTrue, MatchOption};
ghost use Rattle.{
  tz_info.specs.Changes.{HasNoChange, IsNearest},
  tz_info.specs.Steps.{Changes.{year_at, IsAhead, IsNearRuleTime}, Beside.{change_found, IsNearestMomentOf}},
  tz_info.specs.Steps.AskedYears.{IsAskedYear, IsYearNear},
  tz_info.specs.HeldChanges.{change_held},
  tz_info.specs.Moments.{type_when, AlternateAt, IsRuleTime, IsRuleYear, IsYearOf},
  tz_search.specs.{Counts.{RoseWithin}, RisingCounts.{HasRoomFor}},
};

use crate::change::HeldChange;
use crate::rule::alternate::AlternateTime;
use crate::rule::asked::AskedYear;
use crate::rule::moments::Moment;
use crate::rule::season::{FIRST_RULE_TIME, LAST_RULE_TIME};
use crate::rule::years::stretch_ahead;
use tz_search::Probes;

// The first and the last of the years that a rule answers in.
const FIRST_RULE_YEAR: i64 = -2_147_483_646;

const LAST_RULE_YEAR: i64 = 2_147_483_645;

impl AlternateTime {
    // The nearest change ahead of the second in that direction, of those that come after `begin`.
    #[inline(always)]
    pub(crate) fn nearest_change(
        &self,
        begin: i64,
        second: i64,
        forward: bool,
        probes: &mut Probes,
    ) -> Option<HeldChange<'_>>
        requires { HasRoomFor 2 probes.old.rule_questions }
        ensures cost { RoseWithin probes.old probes.new 0 2 }
        ensures nearest { IsNearest forward (AlternateAt self.now)
            (λ u. (begin <ℤ u) × IsAhead forward second u) (option_map change_held result) }
    {
        let ahead = stretch_ahead(begin, second, forward);
        if ahead.is_empty() {
            return None;
        }
        let near = ahead.near_end(forward);
        self.change_if(ahead.moment_within(self.nearest_moment(near, forward, probes)))
    }

    // The nearest moment. It is asked about the second's year, and about one other year.
    pub(super) fn nearest_moment(
        &self,
        second: i64,
        forward: bool,
        probes: &mut Probes,
    ) -> Option<Moment>
        requires { HasRoomFor 2 probes.old.rule_questions }
        ensures nearest { IsNearestMomentOf forward self.now (IsAhead forward second) result }
        ensures cost { RoseWithin probes.old probes.new 0 2 }
    {
        let asked = self.ask_year_at(rule_time_near(second), probes);
        self.moment_from(asked, second, forward, probes)
    }

    // The nearest moment, if the year of the rule's second nearest to that one was asked about.
    #[inline(always)]
    pub(super) fn moment_from(
        &self,
        asked: AskedYear,
        second: i64,
        forward: bool,
        probes: &mut Probes,
    ) -> Option<Moment>
        requires asked { IsAskedYear self.now asked }
        requires near { IsYearNear second asked.year }
        requires room { HasRoomFor 1 probes.old.rule_questions }
        ensures nearest { IsNearestMomentOf forward self.now (IsAhead forward second) result }
        ensures cost { RoseWithin probes.old probes.new 0 1 }
    {
        let stretch = stretch_ahead(i64::MIN, second, forward);
        match self.nearest_in(asked, stretch, forward) {
            Some(moment) => Some(moment),
            None => self.moment_beyond(asked.year(), second, forward, probes),
        }
    }

    // The nearest moment, if the year itself has none that is ahead of the second.
    #[inline(never)]
    fn moment_beyond(
        &self,
        first: i32,
        second: i64,
        forward: bool,
        probes: &mut Probes,
    ) -> Option<Moment>
        requires near { IsYearNear second first }
        requires none { HasNoChange (AlternateAt self.now)
            (λ u. IsAhead forward second u × IsYearOf (u -ℤ pos 1) first) }
        requires room { HasRoomFor 1 probes.old.rule_questions }
        ensures nearest { IsNearestMomentOf forward self.now (IsAhead forward second) result }
        ensures cost { RoseWithin probes.old probes.new 0 1 }
    {
        if self.never_changes() {
            return None;
        }
        probes.count_question();
        self.nearest_beyond(first, second, forward)
    }

    // The same, year by year. Every 400 years the rule does the same, so that no more years are looked at:
    // one in nearly all rules, and 40 in the rarest that are known.
    #[tactic(auto, using(crate::proofs::Fits::in_range))]
    fn nearest_beyond(&self, first: i32, second: i64, forward: bool) -> Option<Moment>
        requires near { IsYearNear second first }
        requires none { HasNoChange (AlternateAt self.now)
            (λ u. IsAhead forward second u × IsYearOf (u -ℤ pos 1) first) }
        ensures { IsNearestMomentOf forward self.now (IsAhead forward second) result }
    {
        let _ = &self.std_type;
        let stretch = stretch_ahead(i64::MIN, second, forward);
        for step in 1..401u32 {
            let year = year_at(first, step, forward);
            if !is_rule_year(year) {
                return None;
            }
            let moments = self.moments_of(year as i32);
            if let Some(moment) = self.nearest_in(moments, stretch, forward) {
                return Some(moment);
            }
        }
        None
    }

    #[inline(always)]
    pub(super) fn change_if(&self, found: Option<Moment>) -> Option<HeldChange<'_>>
        ensures { option_map change_held result ≡ change_found self.now found }
    {
        Some(self.change_of(found?))
    }

    #[inline(always)]
    pub(crate) fn change_of(&self, moment: Moment) -> HeldChange<'_>
        ensures at { result.at ≡ moment.at }
        ensures before { result.before.now ≡ type_when self.now (not moment.to_dst) }
        ensures after { result.after.now ≡ type_when self.now moment.to_dst }
    {
        HeldChange {
            at: moment.at,
            before: self.type_when(!moment.to_dst),
            after: self.type_when(moment.to_dst),
        }
    }
}

// The second of the rule's years that is nearest to that one.
fn rule_time_near(second: i64) -> i64
    ensures time { IsRuleTime result }
    ensures near { IsNearRuleTime second result }
{
    if second < FIRST_RULE_TIME {
        FIRST_RULE_TIME
    } else if second > LAST_RULE_TIME {
        LAST_RULE_TIME
    } else {
        second
    }
}

// The year that comes `step` years after the first one, or before it.
fn year_at(first: i32, step: u32, forward: bool) -> i64
    requires first { IsRuleYear first }
    requires step { step ≤ 401 }
    ensures { result ≡ year_at forward first step }
{
    if forward {
        first as i64 + step as i64
    } else {
        first as i64 - step as i64
    }
}

// Whether a rule answers in the year.
fn is_rule_year(year: i64) -> bool
    ensures { IsTrue result ↔ IsRuleYear year }
{
    FIRST_RULE_YEAR <= year && year <= LAST_RULE_YEAR
}
