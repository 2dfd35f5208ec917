//! The last time of a rule up to a second, in whole seconds.
ghost use Rattle.std.specs.Prelude.{◌≡◌, ◌<◌, ◌≤◌, ◌*◌, ◌<ℤ◌, ◌≤ℤ◌, ◌+ℤ◌, ◌-ℤ◌, neg_ℤ, pos, MatchOption, ℕ, ℤ};
ghost use Rattle.{
  gregorian.specs.Year.{floor_div},
  naive_plans.specs.{DayPlans.{HasNoSecondUntil, IsLastSecondUntil}, Plans.{HasNoneUntil, IsLastUntil}},
  naive_rrule.specs.RecurrenceRules.{IsOccasion, IsOccasionOn, IsOnDate},
  naive_rrule.specs.Steps.OccasionSteps.{IsTimeOn, IsCounted, IsEndOfLast, IsSkippedBack},
  naive_rrule.specs.Steps.RuleSteps.{IsRuleDay, IsRuleSecond},
};

use crate::occasions::Occasions;
use crate::rule_periods::{last_period, period_after};
use crate::seconds::{ends_after, is_from, second_before, seconds_of};
use naive_plans::days::{SECONDS_PER_DAY, day_of, second_at, second_of};

impl<'a> Occasions<'a> {
    // The last time up to a second, which may be one before the start, in its period.
    pub(crate) fn last_until(&self, until: i64) -> Option<i64>
        requires { IsRuleSecond until }
        ensures { let set = IsOccasion self.now.rule self.now.start in
            MatchOption result (HasNoneUntil set until) (λ l. IsLastUntil set until l) }
    {
        let earliest = self.second_before_all();
        let mut day = day_of(until);
        let mut second = second_of(until);
        'days: while ends_after(day, earliest) {
            if let Some(found) = self.last_on(day, second) {
                return Some(second_at(day, found));
            }
            second = 86_399;
            day = self.day_before(day);
        }
        None
    }

    // The last second of the day up to that one that it has.
    fn last_on(&self, day: i64, until: u32) -> Option<u32>
        requires day { IsRuleDay day }
        requires until { until < 86_400 }
        ensures { MatchOption result
            (HasNoSecondUntil (IsOccasionOn self.now.rule self.now.start day) until)
            (λ s. IsLastSecondUntil (IsOccasionOn self.now.rule self.now.start day) until s) }
    {
        if !self.has_date(day) {
            return None;
        }
        self.last_time(day, until)
    }

    // The last second of the day up to that one that it has as far as hours, minutes, seconds and
    // periods matter.
    #[tactic(auto, using(crate::proofs::OccasionsBack::seconds_back))]
    fn last_time(&self, day: i64, until: u32) -> Option<u32>
        requires day { IsRuleDay day }
        requires until { until < 86_400 }
        ensures { MatchOption result
            (HasNoSecondUntil (IsTimeOn self.now.rule self.now.start day) until)
            (λ s. IsLastSecondUntil (IsTimeOn self.now.rule self.now.start day) until s) }
    {
        let mut left = until + 1;
        'seconds: while left > 0 {
            let Some(end) = self.skipped_back(day, left - 1) else {
                return Some(left - 1);
            };
            left = end;
        }
        None
    }

    // An earlier second of the day: from that one on it has none up to the given one. `None` if it has
    // the given one.
    fn skipped_back(&self, day: i64, second: u32) -> Option<u32>
        requires day { IsRuleDay day }
        requires second { second < 86_400 }
        ensures { MatchOption result (IsTimeOn self.now.rule self.now.start day second)
            (λ end. IsSkippedBack (IsTimeOn self.now.rule self.now.start day) second end) }
    {
        if !self.has_hour(second) {
            return Some(second / 3600 * 3600);
        }
        if let Some(end) = self.end_of_last(second_at(day, second)) {
            return Some(earlier_in_day(second, end, seconds_of(day)));
        }
        if !self.has_minute(second) {
            return Some(second / 60 * 60);
        }
        if !self.has_second(second) {
            return Some(second);
        }
        None
    }

    // The last day before it that may have a time: none has one between them.
    fn day_before(&self, day: i64) -> i64
        requires { (neg_ℤ (pos 799_900) ≤ℤ day) × (day ≤ℤ pos 4_000_000) }
        ensures earlier { result <ℤ day }
        ensures bound { neg_ℤ (pos 800_000) ≤ℤ result }
        ensures none { (d : ℤ) (second : ℕ) → IsOccasionOn self.now.rule self.now.start d second
            → second < 86_400 → d <ℤ day → d ≤ℤ result }
    {
        let last = self.previous_day(day);
        match self.end_of_last(second_at(last, 86_399)) {
            None => last,
            Some(end) => last.min(day_of(second_before(end))),
        }
    }

    // The day before it, or, if it does not have the month, the last one of the month before.
    fn previous_day(&self, day: i64) -> i64
        requires { IsRuleDay day }
        ensures earlier { result <ℤ day }
        ensures near { (day -ℤ pos 31) ≤ℤ result }
        ensures none { (d : ℤ) → IsOnDate self.now.rule (floor_div self.now.start 86_400) d
            → d <ℤ day → d ≤ℤ result }
    {
        let date = gregorian::date_of(day);
        let first = gregorian::date_of(day_of(self.start));
        if self.rule.has_month(date.month, first.month) {
            return day - 1;
        }
        days_earlier(day, date.day)
    }

    // A second from which on, up to that one, no period counts; `None` if its own one does.
    #[tactic(auto, using(crate::proofs::OccasionWalk::periods))]
    fn end_of_last(&self, second: i64) -> Option<i64>
        requires { IsRuleSecond second }
        ensures { MatchOption result (IsCounted self.now.rule self.now.start second)
            (λ end. IsEndOfLast self.now.rule self.now.start second end) }
    {
        let first = self.first_period();
        let period = self.rule.period_at(second);
        if !is_from(period, first) {
            return Some(self.second_before_all());
        }
        let last = last_period(self.rule.interval, first, period);
        if last == period {
            return None;
        }
        Some(self.rule.start_of(period_after(last, 1)))
    }

    // A second before all times.
    fn second_before_all(&self) -> i64
        ensures { result ≡ self.now.start -ℤ pos 31_708_800 }
    {
        self.start - 367 * SECONDS_PER_DAY
    }
}

// The day that is `days` days earlier.
fn days_earlier(day: i64, days: u32) -> i64
    requires day { IsRuleDay day }
    requires days { days ≤ 31 }
    ensures { result ≡ day -ℤ pos days }
{
    day - days as i64
}

// The second of the day at an end, but no later than a second.
fn earlier_in_day(second: u32, end: i64, midnight: i64) -> u32
    requires second { second < 86_400 }
    requires end { (neg_ℤ (pos 1_000_000_000_000_000_000) ≤ℤ end)
        × (end ≤ℤ pos 1_000_000_000_000_000_000) }
    requires midnight { (neg_ℤ (pos 1_000_000_000_000) ≤ℤ midnight)
        × (midnight ≤ℤ pos 1_000_000_000_000) }
    ensures earlier { result ≤ second }
    ensures end { (k : ℕ) → k < second → (midnight +ℤ pos k) <ℤ end → k < result }
{
    let at = end - midnight;
    if at >= second as i64 {
        return second;
    }
    if at < 0 {
        return 0;
    }
    at as u32
}
