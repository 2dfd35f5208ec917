//! `BYSETPOS`: places among the times that a rule's other parts let through in one of its periods.
ghost use Rattle.std.specs.Prelude.{◌≡◌, ◌↔◌, ◌⊎◌, ◌<◌, ◌≤◌, ◌+◌, ◌<ℤ◌, ◌≤ℤ◌, ◌+ℤ◌, ◌-ℤ◌, neg_ℤ, pos, Contains, IsTrue, MatchOption, ℕ, ℤ};
ghost use Rattle.{
  gregorian.specs.Year.{floor_mod},
  naive_rrule.specs.RecurrenceRules.{IsOccasion},
  naive_rrule.specs.Steps.RuleSteps.{own_period, IsRuleSecond},
  naive_rrule.specs.Steps.PositionSteps.{HasNoneLeft, HasNoneUpTo},
  naive_plans.specs.Steps.Members.{IsFirstAfter, IsLastUpTo},
  naive_rrule.specs.Steps.PositionSteps.{HasSecondAt, IsBeyond, IsChain, IsLength},
  naive_rrule.specs.RecurrenceSets.{HasAfter, HasBefore, IsAtPosition, IsInPeriod, IsListedNth, IsNth},
};

use crate::Frequency;
use crate::occasions::Occasions;
use crate::seconds::{is_same, second_after, second_before};

// No period is that long: 367 days.
const LONGER_THAN_A_PERIOD: i64 = 31_708_800;

impl<'a> Occasions<'a> {
    // Whether `BYSETPOS` lets one of its times through.
    pub(crate) fn is_at_position(&self, time: i64) -> bool
        requires one { IsOccasion self.now.rule self.now.start time }
        requires from_start { self.now.start ≤ℤ time }
        requires in_years { time <ℤ pos 253_402_300_800 }
        ensures { IsTrue result ↔ IsAtPosition self.now.rule self.now.start time }
    {
        if self.rule.by_set_position.is_empty() {
            return true;
        }
        self.is_listed_nth(&time)
    }

    // Whether a time is an nth one of its period that `BYSETPOS` lists.
    fn is_listed_nth(&self, time: &i64) -> bool
        requires one { IsOccasion self.now.rule self.now.start time.now }
        requires from_start { self.now.start ≤ℤ time.now }
        requires in_years { time.now <ℤ pos 253_402_300_800 }
        ensures { IsTrue result ↔ IsListedNth self.now.rule self.now.start time.now }
    {
        for position in self.rule.by_set_position {
            if self.is_nth(time, position) {
                return true;
            }
        }
        false
    }

    // Whether a time is the nth one of its period.
    fn is_nth(&self, time: &i64, nth: &i32) -> bool
        requires one { IsOccasion self.now.rule self.now.start time.now }
        requires from_start { self.now.start ≤ℤ time.now }
        requires in_years { time.now <ℤ pos 253_402_300_800 }
        ensures { let period = own_period self.now.rule time.now in
            IsTrue result ↔ IsNth (IsInPeriod self.now.rule self.now.start period) nth.now time.now }
    {
        if is_from_front(nth) {
            return self.has_before(*time, before_nth(nth));
        }
        if is_from_end(nth) {
            return self.has_after(*time, after_nth(nth));
        }
        false
    }

    // Whether exactly `count` times of its period come before a time.
    #[tactic(auto, using(crate::proofs::NthTimes::as_far))]
    fn has_before(&self, time: i64, count: u32) -> bool
        requires one { IsOccasion self.now.rule self.now.start time }
        requires in_years { time <ℤ pos 253_402_300_800 }
        ensures { let period = own_period self.now.rule time in
            IsTrue result ↔ HasBefore (IsInPeriod self.now.rule self.now.start period) count time }
    {
        let mut first = time;
        let mut left = count;
        'times: while left > 0 {
            match self.time_before(first) {
                None => {
                    return false;
                }
                Some(before) => first = before,
            }
            left -= 1;
        }
        self.time_before(first).is_none()
    }

    // Whether exactly `count` times of its period come after a time.
    #[tactic(auto, using(crate::proofs::NthTimes::as_far))]
    fn has_after(&self, time: i64, count: u32) -> bool
        requires one { IsOccasion self.now.rule self.now.start time }
        requires from_start { self.now.start ≤ℤ time }
        requires in_years { time <ℤ pos 253_402_300_800 }
        ensures { let period = own_period self.now.rule time in
            IsTrue result ↔ HasAfter (IsInPeriod self.now.rule self.now.start period) count time }
    {
        let mut last = time;
        let mut left = count;
        'times: while left > 0 {
            match self.time_after(last) {
                None => {
                    return false;
                }
                Some(after) => last = after,
            }
            left -= 1;
        }
        self.time_after(last).is_none()
    }

    // The last time of its period before a time.
    fn time_before(&self, time: i64) -> Option<i64>
        requires one { IsOccasion self.now.rule self.now.start time }
        requires in_years { time <ℤ pos 253_402_300_800 }
        ensures { let set = IsInPeriod self.now.rule self.now.start (own_period self.now.rule time) in
            MatchOption result (HasNoneUpTo set (time -ℤ pos 1)) (λ l. IsLastUpTo set (time -ℤ pos 1) l) }
    {
        match self.last_until(second_before(time)) {
            None => None,
            Some(before) => self.in_period_of(before, time),
        }
    }

    // The first time of its period after a time.
    fn time_after(&self, time: i64) -> Option<i64>
        requires one { IsOccasion self.now.rule self.now.start time }
        requires from_start { self.now.start ≤ℤ time }
        requires in_years { time <ℤ pos 253_440_000_000 }
        ensures { let set = IsInPeriod self.now.rule self.now.start (own_period self.now.rule time) in
            MatchOption result (HasNoneLeft set time) (λ l. IsFirstAfter set time l) }
    {
        match self.first_between(second_after(time), year_after(time)) {
            None => None,
            Some(after) => self.in_period_of(after, time),
        }
    }

    // A second, if it lies in the period of a time.
    fn in_period_of(&self, second: i64, time: i64) -> Option<i64>
        requires second { IsRuleSecond second }
        requires time { IsRuleSecond time }
        ensures { MatchOption result (own_period self.now.rule second ≡ own_period self.now.rule time → ⊥)
            (λ l. (l ≡ second) × (own_period self.now.rule second ≡ own_period self.now.rule time)) }
    {
        if is_same(self.rule.period_at(second), self.rule.period_at(time)) {
            return Some(second);
        }
        None
    }

    // Whether its days, hours, minutes or seconds never have as many times as each position of `BYSETPOS` needs.
    // It doesn't count the times of weeks, months and years.
    pub(crate) fn has_no_position(&self) -> bool
        ensures { IsTrue result → (l : ℤ) → IsOccasion self.now.rule self.now.start l
            → IsAtPosition self.now.rule self.now.start l → ⊥ }
    {
        if self.rule.by_set_position.is_empty() {
            return false;
        }
        match self.rule.frequency {
            Frequency::Daily => self.is_too_short(86_400),
            Frequency::Hourly => self.is_too_short(3600),
            Frequency::Minutely => self.is_too_short(60),
            Frequency::Secondly => self.is_too_short(1),
            _ => false,
        }
    }

    // Whether a period of `length` seconds has fewer times than each position needs.
    fn is_too_short(&self, length: u32) -> bool
        requires { IsLength self.now.rule length }
        ensures { IsTrue result → (p l n : ℤ) → Contains self.now.rule.by_set_position.now n
            → IsNth (IsInPeriod self.now.rule self.now.start p) n l → ⊥ }
    {
        are_beyond(self.rule.by_set_position, self.times_in(length))
    }

    // The most times that the rule can have in a period of `length` seconds.
    fn times_in(&self, length: u32) -> u32
        requires { IsLength self.now.rule length }
        ensures few { (p from to : ℤ) (n : ℕ)
            → IsChain (IsInPeriod self.now.rule self.now.start p) from n to → n < result }
        ensures bound { result ≤ 86_400 }
    {
        let mut counted: u32 = 0;
        for second in 0..length {
            if self.has_second_at(second, length) {
                counted += 1;
            }
        }
        counted
    }

    // Whether the rule's parts for hours, minutes and seconds let a second of a period of `length` seconds
    // through.
    fn has_second_at(&self, second: u32, length: u32) -> bool
        requires { IsLength self.now.rule length }
        ensures { IsTrue result ↔ HasSecondAt self.now.rule (floor_mod self.now.start 86_400) length second }
    {
        if length > 3600 && !self.has_hour(second) {
            return false;
        }
        if length > 60 && !self.has_minute(second) {
            return false;
        }
        length <= 1 || self.has_second(second)
    }
}

// Whether each position needs more than `count` times.
fn are_beyond(positions: &[i32], count: u32) -> bool
    requires { count ≤ 86_400 }
    ensures { IsTrue result → (n : ℤ) → Contains positions.now n → IsBeyond count n }
{
    for position in positions {
        if !is_beyond(*position, count as i32) {
            return false;
        }
    }
    true
}

fn is_beyond(position: i32, count: i32) -> bool
    requires { (pos 0 ≤ℤ count) × (count ≤ℤ pos 86_400) }
    ensures { IsTrue result ↔ ((position <ℤ neg_ℤ count) ⊎ (count <ℤ position)) }
{
    position < -count || position > count
}

fn is_from_front(nth: &i32) -> bool
    ensures { IsTrue result ↔ (pos 1 ≤ℤ nth.now) }
{
    *nth >= 1
}

fn is_from_end(nth: &i32) -> bool
    ensures { IsTrue result ↔ (nth.now ≤ℤ neg_ℤ (pos 1)) }
{
    *nth <= -1
}

// How many come before the nth one.
fn before_nth(nth: &i32) -> u32
    requires { pos 1 ≤ℤ nth.now }
    ensures { nth.now ≡ pos (result + 1) }
{
    (*nth - 1) as u32
}

// How many come after the nth one from the end.
fn after_nth(nth: &i32) -> u32
    requires { nth.now ≤ℤ neg_ℤ (pos 1) }
    ensures { nth.now ≡ neg_ℤ (pos (result + 1)) }
{
    (-1 - *nth) as u32
}

// A second by which the period of a time has ended.
fn year_after(time: i64) -> i64
    requires { (neg_ℤ (pos 10_000_000_000_000) ≤ℤ time) × (time ≤ℤ pos 10_000_000_000_000) }
    ensures { result ≡ time +ℤ pos 31_708_800 }
{
    time + LONGER_THAN_A_PERIOD
}
