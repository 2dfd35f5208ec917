//! Recurrences of RFC 5545.
ghost use Rattle.std.specs.Prelude.{◌≡◌, ◌≢◌, ◌↔◌, ◌<◌, ◌<ℤ◌, ◌≤ℤ◌, ◌-ℤ◌, neg_ℤ, pos, All, IsTrue, MatchOption, MatchResult, ℤ};
ghost use Rattle.{
  naive_base.specs.{NaiveDateTime.{reading}, Range.{IsWide}},
  naive_plans.specs.Plans.{HasNoneUntil, IsLastUntil},
  naive_rrule.specs.RecurrenceSets.{HasTimesOf, IsPlannedUpTo, IsRuleTime, IsWithinCount, IsWithinEnd},
  naive_rrule.specs.Steps.{OccasionSteps.{HasNoneBetween, IsFirstBetween}, RuleSteps.{IsBounded}},
  naive_rrule.specs.Steps.RecurrenceSteps.{HasNoneLater, IsFirstLater, IsLastSecond},
};
ghost use Rattle.naive_rrule.specs.AllowedRules as allowed;

use crate::occasions::{LAST_SECOND, Occasions, local_at};
use crate::seconds::{is_from, later_or_start, second_after, second_before};
use crate::{Frequency, NthWeekday, RecurrenceRule};
use naive_base::NaiveDateTime;
use naive_plans::{Plan, ReversiblePlan};
use thiserror::Error;

// 0000-01-01 00:00:00
const FIRST_SECOND: i64 = -62_167_219_200;

/// The end of a recurrence.
#[derive(Clone, Copy, Debug)]
pub enum RecurrenceEnd {
    /// The end of the year 9999, the last one that RFC 5545 can write.
    Never,
    /// `COUNT`: after that many local times.
    Count(u32),
    /// `UNTIL`: at this local time, which may be one of the recurrence's.
    Until(NaiveDateTime),
}

/// Why RFC 5545 forbids a rule, its start or its end.
#[derive(Clone, Copy, PartialEq, Eq, Debug, Error)]
pub enum RecurrenceError {
    /// The start is not in the years 0 to 9999.
    #[error("the start is not in the years 0 to 9999")]
    Start,
    /// `INTERVAL` is 0.
    #[error("INTERVAL is 0")]
    Interval,
    /// `COUNT` is 0.
    #[error("COUNT is 0")]
    Count,
    /// A part has a number that it may not have.
    #[error("a part has a number that it may not have")]
    Number,
    /// `BYWEEKNO` without `FREQ=YEARLY`.
    #[error("BYWEEKNO needs FREQ=YEARLY")]
    WeekNumber,
    /// `BYYEARDAY` with `FREQ=MONTHLY`, `WEEKLY` or `DAILY`.
    #[error("BYYEARDAY is not allowed with this FREQ")]
    YearDay,
    /// `BYMONTHDAY` with `FREQ=WEEKLY`.
    #[error("BYMONTHDAY is not allowed with FREQ=WEEKLY")]
    MonthDay,
    /// A numbered weekday with neither `FREQ=MONTHLY` nor `FREQ=YEARLY`, or with `BYWEEKNO`.
    #[error("a numbered weekday is not allowed here")]
    NthWeekday,
    /// `BYSETPOS` without another `BY` part.
    #[error("BYSETPOS needs another BY part")]
    SetPosition,
}

/// The local times of a rule of RFC 5545 from its start (`DTSTART`) on, in whole seconds.
///
/// The start is one of them only if the rule has it. A `Recurrence` knows no time zone, and its start and
/// its `UNTIL` are local times.
///
/// ```
/// // from 2024-01-01 09:00:00 on: the last Friday of each month
/// let fridays = [NthWeekday::nth(-1, Weekday::Fri)];
/// let rule = RecurrenceRule { by_weekday: &fridays, ..RecurrenceRule::new(Frequency::Monthly) };
/// let plan = Recurrence::new(rule, start, RecurrenceEnd::Never)?;
/// let first = plan.next_after(&start); // Some(2024-01-26 09:00:00)
/// ```
#[derive(Clone, Copy, Debug)]
pub struct Recurrence<'a> {
    occasions: Occasions<'a>,
    // the second of its last time, or the second before its start if it has none
    last: i64,
    pub ghost bounded: { IsBounded last },
}

impl<'a> Recurrence<'a> {
    /// Returns the local times of a rule from a start on and up to an end.
    ///
    /// It searches for the last of them, with `COUNT` through all of them. So later searches stop there,
    /// and those of a rule without a local time return `None` at once. A search looks at each date from
    /// one local time to the next, and at up to 3.7 million dates if no local time follows. With
    /// `BYSETPOS` it tries each local time that the other parts let through: for each place n that is
    /// listed it searches up to n times for others of the period. Days and shorter periods that are too
    /// short for all places are found at once; longer ones are walked through.
    ///
    /// # Errors
    ///
    /// A [`RecurrenceError`] names something that section 3.3.10 of RFC 5545 forbids.
    pub fn new(
        rule: RecurrenceRule<'a>,
        start: NaiveDateTime,
        end: RecurrenceEnd,
    ) -> Result<Recurrence<'a>, RecurrenceError>
        ensures { let first = (reading start).s in MatchResult result
            (λ made. allowed.IsAllowed rule.entry first end
            × HasTimesOf made.occasions.rule made.occasions.start made.last rule.entry first end)
            (allowed.IsFault rule.entry first end) }
    {
        check(&rule, &start, &end)?;
        let occasions = Occasions {
            rule,
            start: start.secs_since_epoch(),
        };
        let last = last_within(&occasions, &end);
        Ok(Recurrence { occasions, last })
    }

    // The first of its times after a second.
    fn first_after(&self, after: i64) -> Option<i64>
        requires { IsWide after }
        ensures { let r = self.now.occasions.rule in let start = self.now.occasions.start in
            MatchOption result (HasNoneLater (IsRuleTime r start) after self.now.last)
            (λ l. IsFirstLater (IsRuleTime r start) after self.now.last l) }
    {
        let from = later_or_start(after, self.occasions.start);
        let end = second_after(self.last);
        if !is_before(from, end) {
            return None;
        }
        first_between(&self.occasions, from, end)
    }
}

// The last of its times up to an end, or the second before its start if it has none.
fn last_within(of: &Occasions<'_>, end: &RecurrenceEnd) -> i64
    ensures same { (l : ℤ) → IsRuleTime of.now.rule of.now.start l
        → (l ≤ℤ result) ↔ IsWithinEnd of.now.rule of.now.start end.now l }
    ensures bound { IsBounded result }
{
    if of.has_no_time() {
        return before_start(of);
    }
    if of.has_no_position() {
        return before_start(of);
    }
    shortened(of, last_second(of, end))
}

// The last second up to which an end lets times through.
fn last_second(of: &Occasions<'_>, end: &RecurrenceEnd) -> i64
    ensures { IsLastSecond of.now.rule of.now.start end.now result }
{
    match end {
        RecurrenceEnd::Never => LAST_SECOND,
        RecurrenceEnd::Until(until) => until_second(until),
        RecurrenceEnd::Count(count) => last_of(of, *count),
    }
}

fn until_second(until: &NaiveDateTime) -> i64
    ensures same { (l : ℤ) → l <ℤ pos 253_402_300_800 → (l ≤ℤ result) ↔ (l ≤ℤ (reading until.now).s) }
    ensures bound { (neg_ℤ (pos 10_000_000_000_000) ≤ℤ result)
        × (result <ℤ pos 253_402_300_800) }
{
    let second = until.secs_since_epoch();
    if second > LAST_SECOND {
        return LAST_SECOND;
    }
    second
}

// The last of the first `count` times.
#[tactic(auto, using(crate::proofs::Counted::none_counted))]
fn last_of(of: &Occasions<'_>, count: u32) -> i64
    ensures last { (l : ℤ) → IsRuleTime of.now.rule of.now.start l
        → (l ≤ℤ result) ↔ IsWithinCount of.now.rule of.now.start count l }
    ensures bound { (neg_ℤ (pos 10_000_000_000_000) ≤ℤ result)
        × (result <ℤ pos 253_402_300_800) }
{
    let mut last = before_start(of);
    let mut counted: u32 = 0;
    'times: while counted < count {
        match first_between(of, second_after(last), LAST_SECOND + 1) {
            None => {
                return last;
            }
            Some(next) => last = next,
        }
        counted += 1;
    }
    last
}

// The last time up to `last`, or the second before the start if no time is that early.
fn shortened(of: &Occasions<'_>, last: i64) -> i64
    requires { (neg_ℤ (pos 10_000_000_000_000) ≤ℤ last) × (last <ℤ pos 253_402_300_800) }
    ensures same { (l : ℤ) → IsRuleTime of.now.rule of.now.start l → (l ≤ℤ result) ↔ (l ≤ℤ last) }
    ensures bound { IsBounded result }
{
    match last_to(of, last) {
        None => before_start(of),
        Some(time) => time,
    }
}

// The last time up to a second.
fn last_to(of: &Occasions<'_>, until: i64) -> Option<i64>
    requires { until <ℤ pos 253_402_300_800 }
    ensures { let set = IsRuleTime of.now.rule of.now.start in
        MatchOption result (HasNoneUntil set until) (λ l. IsLastUntil set until l) }
{
    let mut to = until;
    'times: while is_from(to, of.start) {
        let Some(last) = of.last_until(to) else {
            return None;
        };
        if !is_from(last, of.start) {
            return None;
        }
        if of.is_at_position(last) {
            return Some(last);
        }
        to = second_before(last);
    }
    None
}

// The second before the start.
fn before_start(of: &Occasions<'_>) -> i64
    ensures value { result ≡ of.now.start -ℤ pos 1 }
    ensures bound { IsBounded result }
{
    of.start - 1
}

// The first time from a second on and before another one.
fn first_between(of: &Occasions<'_>, from: i64, end: i64) -> Option<i64>
    requires from { of.now.start ≤ℤ from }
    requires order { from ≤ℤ end }
    requires end { end ≤ℤ pos 253_402_300_800 }
    ensures { MatchOption result (HasNoneBetween (IsRuleTime of.now.rule of.now.start) from end)
        (λ l. IsFirstBetween (IsRuleTime of.now.rule of.now.start) from end l) }
{
    let mut left = from;
    'times: loop {
        let Some(time) = of.first_between(left, end) else {
            return None;
        };
        if of.is_at_position(time) {
            return Some(time);
        }
        left = second_after(time);
    }
}

impl<'a> Plan for Recurrence<'a> {
    ghost planned = { λ p. IsPlannedUpTo p.occasions.rule p.occasions.start p.last };

    fn next_after(&self, local: &NaiveDateTime) -> Option<NaiveDateTime> {
        match self.first_after(local.secs_since_epoch()) {
            None => None,
            Some(second) => Some(local_at(second)),
        }
    }
}

impl<'a> ReversiblePlan for Recurrence<'a> {
    fn last_until(&self, local: &NaiveDateTime) -> Option<NaiveDateTime> {
        match last_to(
            &self.occasions,
            earlier_second(local.secs_since_epoch(), self.last),
        ) {
            None => None,
            Some(second) => Some(local_at(second)),
        }
    }
}

// The earlier one of two seconds.
fn earlier_second(second: i64, last: i64) -> i64
    ensures not_after { (result ≤ℤ second) × (result ≤ℤ last) }
    ensures most { (m : ℤ) → m ≤ℤ second → m ≤ℤ last → m ≤ℤ result }
{
    if second < last {
        return second;
    }
    last
}

fn is_before(second: i64, end: i64) -> bool
    ensures { IsTrue result ↔ (second <ℤ end) }
{
    second < end
}

// Whether RFC 5545 allows the rule with that start and that end.
fn check(
    rule: &RecurrenceRule<'_>,
    start: &NaiveDateTime,
    end: &RecurrenceEnd,
) -> Result<(), RecurrenceError>
    ensures { let first = (reading start.now).s in MatchResult result
        (λ _. allowed.IsAllowed rule.now first end.now)
        (allowed.IsFault rule.now first end.now) }
{
    if !is_in_years(start) {
        return Err(RecurrenceError::Start);
    }
    if rule.interval == 0 {
        return Err(RecurrenceError::Interval);
    }
    if !allows_end(end) {
        return Err(RecurrenceError::Count);
    }
    if !has_allowed_numbers(rule) {
        return Err(RecurrenceError::Number);
    }
    if !allows_week_numbers(rule) {
        return Err(RecurrenceError::WeekNumber);
    }
    if !allows_year_days(rule) {
        return Err(RecurrenceError::YearDay);
    }
    if !allows_month_days(rule) {
        return Err(RecurrenceError::MonthDay);
    }
    if !allows_nth(rule) {
        return Err(RecurrenceError::NthWeekday);
    }
    if !allows_positions(rule) {
        return Err(RecurrenceError::SetPosition);
    }
    Ok(())
}

fn is_in_years(start: &NaiveDateTime) -> bool
    ensures { IsTrue result ↔ allowed.IsInYears (reading start.now).s }
{
    let second = start.secs_since_epoch();
    second >= FIRST_SECOND && second <= LAST_SECOND
}

fn allows_end(end: &RecurrenceEnd) -> bool
    ensures { IsTrue result ↔ allowed.AllowsEnd end.now }
{
    match end {
        RecurrenceEnd::Count(count) => *count > 0,
        _ => true,
    }
}

fn allows_week_numbers(rule: &RecurrenceRule<'_>) -> bool
    ensures { IsTrue result ↔ allowed.AllowsWeekNumbers rule.now }
{
    match rule.frequency {
        Frequency::Yearly => true,
        _ => rule.by_week_number.is_empty(),
    }
}

fn allows_year_days(rule: &RecurrenceRule<'_>) -> bool
    ensures { IsTrue result ↔ allowed.AllowsYearDays rule.now }
{
    match rule.frequency {
        Frequency::Monthly | Frequency::Weekly | Frequency::Daily => rule.by_year_day.is_empty(),
        _ => true,
    }
}

fn allows_month_days(rule: &RecurrenceRule<'_>) -> bool
    ensures { IsTrue result ↔ allowed.AllowsMonthDays rule.now }
{
    match rule.frequency {
        Frequency::Weekly => rule.by_month_day.is_empty(),
        _ => true,
    }
}

fn allows_nth(rule: &RecurrenceRule<'_>) -> bool
    ensures { IsTrue result ↔ allowed.AllowsNth rule.now }
{
    match rule.frequency {
        Frequency::Monthly => true,
        Frequency::Yearly => rule.by_week_number.is_empty() || has_no_nth(rule.by_weekday),
        _ => has_no_nth(rule.by_weekday),
    }
}

fn allows_positions(rule: &RecurrenceRule<'_>) -> bool
    ensures { IsTrue result ↔ allowed.AllowsPositions rule.now }
{
    rule.by_set_position.is_empty() || !has_no_part(rule)
}

fn has_no_part(rule: &RecurrenceRule<'_>) -> bool
    ensures { IsTrue result ↔ allowed.HasNoPart rule.now }
{
    rule.by_month.is_empty()
        && rule.by_week_number.is_empty()
        && rule.by_year_day.is_empty()
        && rule.by_month_day.is_empty()
        && rule.by_weekday.is_empty()
        && rule.by_hour.is_empty()
        && rule.by_minute.is_empty()
        && rule.by_second.is_empty()
}

fn has_no_nth(list: &[NthWeekday]) -> bool
    ensures { IsTrue result ↔ All (λ e. e.nth ≡ pos 0) list.now }
{
    for entry in list {
        if entry.nth != 0 {
            return false;
        }
    }
    true
}

fn has_allowed_numbers(rule: &RecurrenceRule<'_>) -> bool
    ensures { IsTrue result ↔ allowed.HasAllowedNumbers rule.now }
{
    are_within(rule.by_month, 1, 12)
        && are_places(rule.by_week_number, 53)
        && are_places(rule.by_year_day, 366)
        && are_places(rule.by_month_day, 31)
        && are_weekdays(rule.by_weekday)
        && are_within(rule.by_hour, 0, 23)
        && are_within(rule.by_minute, 0, 59)
        && are_within(rule.by_second, 0, 60)
        && are_places(rule.by_set_position, 366)
}

fn are_within(list: &[u32], least: u32, most: u32) -> bool
    ensures { IsTrue result ↔ allowed.AreWithin list.now least most }
{
    for number in list {
        if *number < least || *number > most {
            return false;
        }
    }
    true
}

fn are_places(list: &[i32], most: u32) -> bool
    requires { most < 1000 }
    ensures { IsTrue result ↔ allowed.ArePlaces list.now most }
{
    for number in list {
        if !is_place(*number, most as i32) {
            return false;
        }
    }
    true
}

fn is_place(number: i32, most: i32) -> bool
    requires { (pos 0 ≤ℤ most) × (most <ℤ pos 1000) }
    ensures { IsTrue result ↔ ((number ≢ pos 0) × (neg_ℤ most ≤ℤ number) × (number ≤ℤ most)) }
{
    number != 0 && number >= -most && number <= most
}

fn are_weekdays(list: &[NthWeekday]) -> bool
    ensures { IsTrue result ↔ allowed.AreWeekdays list.now }
{
    for entry in list {
        if entry.nth < -53 || entry.nth > 53 {
            return false;
        }
    }
    true
}
