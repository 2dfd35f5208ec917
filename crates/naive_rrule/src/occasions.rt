//! The times that a rule's parts let through, in whole seconds, and the next of them.
ghost use Rattle.std.specs.Prelude.{◌≡◌, ◌↔◌, ◌<◌, ◌≤◌, ◌*◌, ◌<ℤ◌, ◌≤ℤ◌, ◌+ℤ◌, ◌*ℤ◌, neg_ℤ, pos, IsTrue, MatchOption, ℕ, ℤ};
ghost use Rattle.{
  gregorian.specs.Year.{floor_div, floor_mod},
  naive_base.specs.{NaiveDateTime.{reading}, Range.{IsInRange}},
  naive_plans.specs.DayPlans.{HasNoSecondFrom, IsFirstSecondFrom},
  naive_rrule.specs.RecurrenceRules.{HasHour, HasMinute, HasSecond, IsOccasion, IsOccasionOn, IsOnDate},
  naive_rrule.specs.Steps.OccasionSteps.{IsStartOfNext, IsTimeOn, HasNoneBetween, IsCounted, IsFirstBetween, IsSkipped},
  naive_rrule.specs.Steps.RuleSteps.{least_period, own_period, IsPeriod, IsRuleDay, IsRuleSecond, IsStarted},
};

use crate::RecurrenceRule;
use crate::rule_periods::{last_period, period_after};
use crate::seconds::{before_end, seconds_of, starts_before};
use naive_base::NaiveDateTime;
use naive_plans::days::{SECONDS_PER_DAY, day_of, month_length, second_at, second_of};

// The second before 10000-01-01.
pub(crate) const LAST_SECOND: i64 = 253_402_300_799;

// A day after all of them.
const LAST_DAY: i64 = 4_000_000;

/// A rule from its start, without `BYSETPOS` and without an end.
#[derive(Clone, Copy, Debug)]
pub(crate) struct Occasions<'a> {
    pub(crate) rule: RecurrenceRule<'a>,
    pub(crate) start: i64,
    pub(crate) ghost started: { IsStarted rule.interval start },
}

// The day after the next `days` days.
fn days_later(day: i64, days: u32) -> i64
    requires day { IsRuleDay day }
    requires days { days < 31 }
    ensures { result ≡ day +ℤ pos days +ℤ pos 1 }
{
    day + days as i64 + 1
}

// The later one of two days, of the second one no more than the last day.
fn later_day(next: i64, start: i64) -> i64
    requires { next ≤ℤ pos 4_000_000 }
    ensures later { next ≤ℤ result }
    ensures bound { result ≤ℤ pos 4_000_000 }
    ensures most { (d : ℤ) → next ≤ℤ d → start ≤ℤ d → result ≤ℤ d }
{
    if start <= next {
        return next;
    }
    if start > LAST_DAY {
        return LAST_DAY;
    }
    start
}

impl<'a> Occasions<'a> {
    // The period that its start lies in.
    #[tactic(auto, using(crate::proofs::Periods::period_low, naive_base::proofs::Named::number_below))]
    pub(crate) fn first_period(&self) -> i64
        ensures value { result ≡ own_period self.now.rule self.now.start }
        ensures bound { IsPeriod result }
        ensures least { least_period self.now.rule.frequency ≤ℤ result }
    {
        self.rule.period_at(self.start)
    }

    // A second up to which, from that one on, no period counts; `None` if its own one does.
    #[tactic(auto, using(crate::proofs::OccasionWalk::periods))]
    fn start_of_next(&self, second: i64) -> Option<i64>
        requires second { IsRuleSecond second }
        requires from_start { self.now.start ≤ℤ second }
        ensures { MatchOption result (IsCounted self.now.rule self.now.start second)
            (λ next. IsStartOfNext self.now.rule self.now.start second next) }
    {
        let period = self.rule.period_at(second);
        let last = last_period(self.rule.interval, self.first_period(), period);
        if last == period {
            return None;
        }
        Some(
            self.rule
                .start_of(period_after(last, self.rule.interval as u64)),
        )
    }

    // The day after it, or, if it does not have the month, the first one of the next month.
    fn next_day(&self, day: i64) -> i64
        requires { IsRuleDay day }
        ensures later { day <ℤ result }
        ensures near { result ≤ℤ (day +ℤ pos 31) }
        ensures none { (d : ℤ) → IsOnDate self.now.rule (floor_div self.now.start 86_400) d
            → day <ℤ d → result ≤ℤ d }
    {
        let date = gregorian::date_of(day);
        let first = gregorian::date_of(day_of(self.start));
        if self.rule.has_month(date.month, first.month) {
            return day + 1;
        }
        days_later(day, month_length(date) - date.day)
    }

    // The next day that may have a time: none has one between them.
    fn day_after(&self, day: i64) -> i64
        requires day { (neg_ℤ (pos 800_000) ≤ℤ day) × (day ≤ℤ pos 3_999_900) }
        requires from_start { self.now.start ≤ℤ (day *ℤ pos 86_400 +ℤ pos 86_400) }
        ensures later { day <ℤ result }
        ensures bound { result ≤ℤ pos 4_000_100 }
        ensures none { (d : ℤ) (second : ℕ) → IsOccasionOn self.now.rule self.now.start d second
            → second < 86_400 → day <ℤ d → result ≤ℤ d }
    {
        let next = self.next_day(day);
        match self.start_of_next(seconds_of(next)) {
            None => next,
            Some(start) => later_day(next, day_of(start)),
        }
    }

    pub(crate) fn has_date(&self, day: i64) -> bool
        requires { IsRuleDay day }
        ensures { IsTrue result ↔ IsOnDate self.now.rule (floor_div self.now.start 86_400) day }
    {
        self.rule.has_date(day, day_of(self.start))
    }

    pub(crate) fn has_hour(&self, second: u32) -> bool
        ensures { IsTrue result ↔ HasHour self.now.rule (floor_mod self.now.start 86_400) second }
    {
        self.rule.has_hour(second, second_of(self.start))
    }

    pub(crate) fn has_minute(&self, second: u32) -> bool
        ensures { IsTrue result ↔ HasMinute self.now.rule (floor_mod self.now.start 86_400) second }
    {
        self.rule.has_minute(second, second_of(self.start))
    }

    pub(crate) fn has_second(&self, second: u32) -> bool
        ensures { IsTrue result ↔ HasSecond self.now.rule (floor_mod self.now.start 86_400) second }
    {
        self.rule.has_second(second, second_of(self.start))
    }

    // The first second of the day, from that one on, that it has as far as hours, minutes, seconds and
    // periods matter.
    fn first_time(&self, day: i64, from: u32) -> Option<u32>
        requires day { IsRuleDay day }
        requires from { from ≤ 86_400 }
        requires from_start { self.now.start ≤ℤ (day *ℤ pos 86_400 +ℤ pos from) }
        ensures { MatchOption result
            (HasNoSecondFrom (IsTimeOn self.now.rule self.now.start day) from)
            (λ s. IsFirstSecondFrom (IsTimeOn self.now.rule self.now.start day) from s) }
    {
        let mut second = from;
        'seconds: while second < 86_400 {
            let Some(next) = self.skipped(day, second) else {
                return Some(second);
            };
            second = next;
        }
        None
    }

    // A later second before which the day has none from that one on; `None` if it has that one.
    fn skipped(&self, day: i64, second: u32) -> Option<u32>
        requires day { IsRuleDay day }
        requires second { second < 86_400 }
        requires from_start { self.now.start ≤ℤ (day *ℤ pos 86_400 +ℤ pos second) }
        ensures { MatchOption result (IsTimeOn self.now.rule self.now.start day second)
            (λ next. IsSkipped (IsTimeOn self.now.rule self.now.start day) second next) }
    {
        if !self.has_hour(second) {
            return Some((second / 3600 + 1) * 3600);
        }
        if let Some(start) = self.start_of_next(second_at(day, second)) {
            return Some(later_in_day(second, start, seconds_of(day)));
        }
        if !self.has_minute(second) {
            return Some((second / 60 + 1) * 60);
        }
        if !self.has_second(second) {
            return Some(second + 1);
        }
        None
    }

    // The first second of the day from that one on that it has.
    fn first_on(&self, day: i64, from: u32) -> Option<u32>
        requires day { IsRuleDay day }
        requires from { from ≤ 86_400 }
        requires from_start { self.now.start ≤ℤ (day *ℤ pos 86_400 +ℤ pos from) }
        ensures { MatchOption result
            (HasNoSecondFrom (IsOccasionOn self.now.rule self.now.start day) from)
            (λ s. IsFirstSecondFrom (IsOccasionOn self.now.rule self.now.start day) from s) }
    {
        if !self.has_date(day) {
            return None;
        }
        self.first_time(day, from)
    }

    // The first time from a second on and before another one.
    pub(crate) fn first_between(&self, from: i64, end: i64) -> Option<i64>
        requires from { IsRuleSecond from }
        requires end { end ≤ℤ pos 345_500_000_000 }
        requires from_start { self.now.start ≤ℤ from }
        ensures { MatchOption result (HasNoneBetween (IsOccasion self.now.rule self.now.start) from end)
            (λ l. IsFirstBetween (IsOccasion self.now.rule self.now.start) from end l) }
    {
        let mut day = day_of(from);
        let mut second = second_of(from);
        'days: while starts_before(day, end) {
            if let Some(found) = self.first_on(day, second) {
                return before_end(second_at(day, found), end);
            }
            second = 0;
            day = self.day_after(day);
        }
        None
    }
}

// The local time at a second.
pub(crate) fn local_at(second: i64) -> NaiveDateTime
    requires { IsInRange second }
    ensures { (reading result).s ≡ second }
{
    match NaiveDateTime::from_timestamp_opt(second, 0) {
        Some(local) => local,
        None => unreachable!(),
    }
}

// The second of the day at a start, but later than a second and up to the day's end.
fn later_in_day(second: u32, start: i64, midnight: i64) -> u32
    requires second { second < 86_400 }
    requires start { (neg_ℤ (pos 1_000_000_000_000_000_000) ≤ℤ start)
        × (start ≤ℤ pos 1_000_000_000_000_000_000) }
    requires midnight { (neg_ℤ (pos 1_000_000_000_000) ≤ℤ midnight)
        × (midnight ≤ℤ pos 1_000_000_000_000) }
    ensures later { (second < result) × (result ≤ 86_400) }
    ensures start { (k : ℕ) → k < 86_400 → second < k → start ≤ℤ (midnight +ℤ pos k) → result ≤ k }
{
    let at = start - midnight;
    if at <= second as i64 {
        return second + 1;
    }
    if at > SECONDS_PER_DAY {
        return 86_400;
    }
    at as u32
}
