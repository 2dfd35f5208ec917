//! What the clocks of a rule show from a second on: the last local time up to another second, and the
//! first second at or after a local time.

ghost use Rattle.std.specs.Prelude.{◌≤ℤ◌, option_map, pos};
ghost use Rattle.{
  naive_base.specs.Range.{IsWide},
  tz_info.specs.{Changes.{IsNearest}, HeldChanges.{change_held}},
  tz_info.specs.{Moments.{AlternateAt, IsRuleTime}, RuleTypes.{RuleAt}, Rules.{IsAlternateRule}},
  tz_info.specs.Steps.{Changes.{IsAhead}, Since.{IsFirstSince, IsReachedSince}},
  tz_search.specs.{Counts.{RoseWithin}, RisingCounts.{HasRoomFor}},
};

use crate::answers::{second_showing, shown_at};
use crate::change::{HeldChange, HeldSecond};
use crate::rule::alternate::AlternateTime;
use crate::rule::transition_rule::TransitionRule;
use tz_base::LocalTimeType;
use tz_search::Probes;

impl TransitionRule {
    // The last local time that a clock shows from one second to another one.
    pub(crate) fn reached_since(&self, begin: i64, second: i64, probes: &mut Probes) -> i64
        requires wide { IsWide second }
        requires order { begin ≤ℤ second }
        requires room { HasRoomFor 2 probes.old.rule_questions }
        ensures reached { IsReachedSince (RuleAt self.now) begin second result }
        ensures cost { RoseWithin probes.old probes.new 0 2 }
    {
        match self {
            TransitionRule::Fixed(only) => shown_at(second, only),
            TransitionRule::Alternate(alternate) => alternate.reached_since(begin, second, probes),
        }
    }

    // The first second from `begin` on at which a clock shows that local time or a later one.
    pub(crate) fn first_since(&self, begin: i64, local: i64, probes: &mut Probes) -> HeldSecond<'_>
        requires local { IsWide local }
        requires near { begin ≤ℤ pos 10_000_000_000_000 }
        requires room { HasRoomFor 2 probes.old.rule_questions }
        ensures first { IsFirstSince (RuleAt self.now) begin local
            result.at result.local_time_type.now }
        ensures cost { RoseWithin probes.old probes.new 0 2 }
    {
        match self {
            TransitionRule::Fixed(only) => HeldSecond {
                at: begin.max(second_showing(local, only.offset())),
                local_time_type: only,
            },
            TransitionRule::Alternate(alternate) => alternate.first_since(begin, local, probes),
        }
    }
}

impl AlternateTime {
    // The last local time: a clock shows it at the second, or did just before the last change.
    fn reached_since(&self, begin: i64, second: i64, probes: &mut Probes) -> i64
        requires wide { IsWide second }
        requires order { begin ≤ℤ second }
        requires room { HasRoomFor 2 probes.old.rule_questions }
        ensures reached { IsReachedSince (RuleAt (TransitionRule.Alternate self.now)) begin second result }
        ensures cost { RoseWithin probes.old probes.new 0 2 }
    {
        let (local_type, previous) = self.type_and_change(second, false, probes);
        let now = shown_at(second, local_type);
        match previous {
            Some(change) if begin < change.at => now.max(shown_at(change.at - 1, change.before)),
            _ => now,
        }
    }

    // The first second: that at which the clock that is ahead shows the local time, if it is in force then. Else
    // the next change, or the second at which the other clock shows it, if that comes first.
    fn first_since(&self, begin: i64, local: i64, probes: &mut Probes) -> HeldSecond<'_>
        requires local { IsWide local }
        requires near { begin ≤ℤ pos 10_000_000_000_000 }
        requires room { HasRoomFor 2 probes.old.rule_questions }
        ensures first { IsFirstSince (RuleAt (TransitionRule.Alternate self.now)) begin local
            result.at result.local_time_type.now }
        ensures cost { RoseWithin probes.old probes.new 0 2 }
    {
        let greatest = self.std().offset().max(self.dst().offset());
        let low = begin.max(second_showing(local, greatest));
        let (local_time_type, next) = self.type_and_change(low, true, probes);
        let shown = low.max(second_showing(local, local_time_type.offset()));
        match next {
            Some(change) if change.at <= shown => HeldSecond {
                at: change.at,
                local_time_type: change.after,
            },
            _ => HeldSecond {
                at: shown,
                local_time_type,
            },
        }
    }

    // The type in force at the second, and the nearest change ahead of it in that direction. The rule is
    // asked about the second's year, and about one other year.
    fn type_and_change(
        &self,
        second: i64,
        forward: bool,
        probes: &mut Probes,
    ) -> (&LocalTimeType, Option<HeldChange<'_>>)
        requires time { IsRuleTime second }
        requires room { HasRoomFor 2 probes.old.rule_questions }
        ensures rule { IsAlternateRule self.now }
        ensures in_force { AlternateAt self.now second result.0.now }
        ensures nearest { IsNearest forward (AlternateAt self.now) (IsAhead forward second)
            (option_map change_held result.1) }
        ensures cost { RoseWithin probes.old probes.new 0 2 }
    {
        let asked = self.ask_year_at(second, probes);
        let is_dst = self.is_dst_in_year(asked, second);
        let moment = self.moment_from(asked, second, forward, probes);
        (self.type_when(is_dst), self.change_if(moment))
    }
}
