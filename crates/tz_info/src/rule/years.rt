//! When a rule's types give way to each other, year by year.
//!
//! They do so at moments of the rule, and at a turn of the year if the one moment comes first in
//! the old year, and the other one in the new. Every 400 years they do so alike.

ghost use Rattle.std.specs.Prelude.{◌≡◌, ◌≢◌, ◌↔◌, ◌≤ℤ◌, length, IfSome, IsTrue, MatchOption};
ghost use Rattle.{
  tz_info.specs.{Changes.{IsChange}, Moments.{type_when, AlternateAt, IsRuleTime, IsRuleYear, IsYearOf}},
  tz_info.specs.Rules.{Alternate, IsAlternateRule},
  tz_info.specs.Steps.Beside.{change_found, IsMomentAt, IsNearestMomentOf},
  tz_info.specs.Steps.Changes.{moments_near, near_end, new_year, IsEarlierOf, IsIdle, IsInStretch, IsLaterOf, IsOfYear},
  tz_info.specs.Steps.Changes.{IsOneOf, IsStretchAhead},
};

use crate::change::is_same_type;
use crate::rule::alternate::AlternateTime;
use crate::rule::moments::{Moment, nearer};
use crate::rule::season::{FIRST_RULE_TIME, LAST_RULE_TIME, day_of};
use gregorian::{year_of, year_start};

// Seconds one after another: those after `after`, up to `last`.
#[derive(Clone, Copy)]
pub(super) struct Stretch {
    pub(super) after: i64,
    pub(super) last: i64,
}

impl Stretch {
    pub(super) fn has(self, second: i64) -> bool
        ensures { IsTrue result ↔ IsInStretch self.after self.last second }
    {
        self.after < second && second <= self.last
    }

    pub(super) fn is_empty(self) -> bool
        ensures { IsTrue result ↔ (self.last ≤ℤ self.after) }
    {
        self.last <= self.after
    }

    // The moment that was found, if it lies in the stretch.
    pub(super) fn moment_within(self, found: Option<Moment>) -> Option<Moment>
        ensures { (a : Alternate) → MatchOption (change_found a result)
            (IfSome (change_found a found) (λ c. ¬ (IsInStretch self.after self.last c.at)))
            (λ c. IsInStretch self.after self.last c.at × (change_found a found ≡ Some c)) }
    {
        let moment = found?;
        if self.has(moment.at) {
            Some(moment)
        } else {
            None
        }
    }

    // The end of the stretch at which it begins in that direction.
    pub(super) fn near_end(self, forward: bool) -> i64
        ensures { result ≡ near_end forward self.after self.last }
    {
        if forward { self.after } else { self.last }
    }
}

impl AlternateTime {
    // The nearest moment of a year, by its moments and those of its neighbours.
    #[inline(never)]
    pub(super) fn nearest_by_three(
        &self,
        year: i32,
        stretch: Stretch,
        forward: bool,
    ) -> Option<Moment>
        requires { IsRuleYear year }
        ensures { IsNearestMomentOf forward self.now (IsOfYear stretch.after stretch.last year)
            result }
    {
        if self.never_changes() {
            return None;
        }
        let after = later_of(stretch.after, first_second_of(year));
        let last = earlier_of(stretch.last, first_second_of(year + 1));
        let moments = self.moments_near(year);
        self.nearest_of(&moments, Stretch { after, last }, forward)
    }

    // The same of those at one of the seconds.
    fn nearest_of(&self, seconds: &[i64], stretch: Stretch, forward: bool) -> Option<Moment>
        ensures { IsNearestMomentOf forward self.now
            (IsOneOf seconds.now (length seconds.now) stretch.after stretch.last) result }
    {
        let mut found = None;
        for second in seconds {
            found = nearer(found, self.moment_in(*second, stretch), forward);
        }
        found
    }

    // The moment at that second, if clocks change then and it lies in the stretch.
    fn moment_in(&self, second: i64, stretch: Stretch) -> Option<Moment>
        ensures { MatchOption (change_found self.now result)
            (IsIdle (AlternateAt self.now) stretch.after stretch.last second)
            (λ c. IsChange (AlternateAt self.now) c × (c.at ≡ second)
            × IsInStretch stretch.after stretch.last second) }
    {
        if stretch.has(second) {
            self.moment_at(second)
        } else {
            None
        }
    }

    // The seconds after the year's first one, up to the next year's, at which types may change,
    // and some near them.
    fn moments_near(&self, year: i32) -> [i64; 7]
        requires { IsRuleYear year }
        ensures moments { result ≡ moments_near self.now year }
        ensures rule { IsAlternateRule self.now }
    {
        let before = self.turns(year - 1);
        let here = self.turns(year);
        let after = self.turns(year + 1);
        [
            before.start,
            before.end,
            here.start,
            here.end,
            after.start,
            after.end,
            first_second_of(year + 1),
        ]
    }

    // The moment at that second, if clocks change then.
    fn moment_at(&self, second: i64) -> Option<Moment>
        ensures { IsMomentAt self.now second result }
    {
        if second <= FIRST_RULE_TIME {
            return None;
        }
        if second > LAST_RULE_TIME {
            return None;
        }
        let before = self.is_dst_at(second - 1);
        let after = self.is_dst_at(second);
        self.moment_between(second, before, after)
    }

    // The moment at that second, before and after which it is daylight saving time or not, if the
    // types then differ.
    #[inline(always)]
    pub(super) fn moment_between(&self, at: i64, before: bool, after: bool) -> Option<Moment>
        ensures { MatchOption (change_found self.now result)
            (type_when self.now before ≡ type_when self.now after)
            (λ c. (type_when self.now before ≢ type_when self.now after) × (c ≡ record {
              at = at;
              before = type_when self.now before;
              after = type_when self.now after;
            })) }
    {
        if before == after || is_same_type(self.std(), self.dst()) {
            return None;
        }
        Some(Moment { at, to_dst: after })
    }

    // Whether it is daylight saving time at the second.
    #[tactic(auto, using(crate::proofs::Fits::fits))]
    pub(super) fn is_dst_at(&self, second: i64) -> bool
        requires { IsRuleTime second }
        ensures { AlternateAt self.now second (type_when self.now result) }
    {
        self.is_dst_in(self.season(second), second)
    }
}

// All seconds after `begin` that are ahead of the second in that direction.
pub(super) fn stretch_ahead(begin: i64, second: i64, forward: bool) -> Stretch
    ensures { IsStretchAhead forward begin second result.after result.last }
{
    if forward {
        Stretch {
            after: later_of(begin, second),
            last: i64::MAX,
        }
    } else {
        Stretch {
            after: begin,
            last: second,
        }
    }
}

fn first_second_of(year: i32) -> i64
    ensures { result ≡ new_year year }
{
    86_400 * year_start(year)
}

// The year of a second that a rule answers at.
pub(super) fn rule_year_of(second: i64) -> i32
    requires { IsRuleTime second }
    ensures year { IsYearOf second result }
    ensures bound { IsRuleYear result }
{
    year_of(day_of(second))
}

pub(super) fn later_of(one: i64, other: i64) -> i64
    ensures { IsLaterOf one other result }
{
    if other < one { one } else { other }
}

pub(super) fn earlier_of(one: i64, other: i64) -> i64
    ensures { IsEarlierOf one other result }
{
    if one < other { one } else { other }
}
