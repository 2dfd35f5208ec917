//! Plans that list seconds of the day for each date.
ghost use Rattle.std.specs.Prelude.{◌≡◌, ◌<◌, ◌≤◌, ◌+ℤ◌, ◌-ℤ◌, pos, IsTrue, MatchOption, ℕ, ℤ};
ghost use Rattle.{
  naive_base.specs.{NaiveDate.{day_of}, NaiveDateTime.{reading}, Reading.{reading_at}, Range.{IsWideDay}},
  naive_plans.specs.DayPlans.{second_before, HasNoSecondFrom, HasNoSecondUntil, IsFirstSecondFrom, IsLastSecondUntil},
  naive_plans.specs.DayPlans.{IsPlannedOnItsDay},
  naive_plans.specs.Plans.{HasNoneAfter, HasNoneUntil, IsLastUntil, IsNextAfter},
};

use naive_base::{NaiveDate, NaiveDateTime, NaiveTime};
use offset_core::FixedOffset;

/// A plan that is given date by date: on each date it has some seconds of the day.
///
/// With [`next_local_time`] it is a [`Plan`](crate::Plan).
pub trait DayPlan {
    // its seconds of the day on each day
    ghost planned_on: { Self → ℤ → ℕ → Type 0 };

    /// Returns the first second of the day, from 0 to 86,399, that the plan has on a date and that isn't
    /// before the given one, if it has one.
    fn first_second_from(&self, date: NaiveDate, second: u32) -> Option<u32>
        ensures { MatchOption result (HasNoSecondFrom (planned_on self.now (day_of date)) second)
            (λ s. IsFirstSecondFrom (planned_on self.now (day_of date)) second s) };

    /// Returns `true` only if the plan has no local time at all.
    ///
    /// A plan without local times may return `false`, but each search then walks to an end of the range,
    /// over up to 191 million dates.
    fn is_known_empty(&self) -> bool
        ensures { IsTrue result → (day : ℤ) (second : ℕ) → second < 86_400
            → planned_on self.now day second → ⊥ };
}

/// A plan that is given date by date and can also be searched backward.
///
/// With [`last_local_time`] it is a [`ReversiblePlan`](crate::ReversiblePlan).
pub trait ReversibleDayPlan: DayPlan {
    /// Returns the last second of the day, from 0 to 86,399, that the plan has on a date and that isn't
    /// after the given one, if it has one.
    fn last_second_until(&self, date: NaiveDate, second: u32) -> Option<u32>
        ensures { MatchOption result (HasNoSecondUntil (Self.planned_on self.now (day_of date)) second)
            (λ s. IsLastSecondUntil (Self.planned_on self.now (day_of date)) second s) };
}

/// Returns the first local time of a plan after the given one; `None` if a [`NaiveDateTime`] can show no
/// such local time. It is the body of `Plan::next_after` for a [`DayPlan`].
///
/// It walks from one date to the next until the plan has a second of the day.
pub fn next_local_time<D: DayPlan>(plan: &D, local: &NaiveDateTime) -> Option<NaiveDateTime>
    ensures { let planned = IsPlannedOnItsDay (D.planned_on plan.now) in
        let s = (reading local.now).s in
        MatchOption result (HasNoneAfter planned s) (λ l. IsNextAfter planned s (reading l).s) }
{
    if plan.is_known_empty() {
        return None;
    }
    let second = local.time().num_seconds_from_midnight() + 1;
    first_local_from(plan, local.date(), second)
}

/// Returns the last local time of a plan that isn't after the given one; `None` if a [`NaiveDateTime`] can
/// show no such local time. It is the body of `ReversiblePlan::last_until` for a [`ReversibleDayPlan`].
pub fn last_local_time<D: ReversibleDayPlan>(
    plan: &D,
    local: &NaiveDateTime,
) -> Option<NaiveDateTime>
    ensures { let planned = IsPlannedOnItsDay (D.planned_on plan.now) in
        let s = (reading local.now).s in
        MatchOption result (HasNoneUntil planned s) (λ l. IsLastUntil planned s (reading l).s) }
{
    if plan.is_known_empty() {
        return None;
    }
    last_local_until(plan, local.date(), local.time().num_seconds_from_midnight())
}

// The first local time from a second of a date on.
fn first_local_from<D: DayPlan>(plan: &D, start: NaiveDate, second: u32) -> Option<NaiveDateTime>
    requires { second ≤ 86_400 }
    ensures { let planned = IsPlannedOnItsDay (D.planned_on plan.now) in
        let before = second_before (day_of start) second in
        MatchOption result (HasNoneAfter planned before)
        (λ l. IsNextAfter planned before (reading l).s) }
{
    let mut date = start;
    let mut from = second;
    'dates: loop {
        if let Some(found) = plan.first_second_from(date, from) {
            return Some(at_second(date, found));
        }
        date = date_after(date)?;
        from = 0;
    }
}

// The last local time at or before a second of a date.
fn last_local_until<D: ReversibleDayPlan>(
    plan: &D,
    start: NaiveDate,
    second: u32,
) -> Option<NaiveDateTime>
    requires { second < 86_400 }
    ensures { let planned = IsPlannedOnItsDay (D.planned_on plan.now) in
        let last = (reading_at (day_of start) second 0).s in
        MatchOption result (HasNoneUntil planned last)
        (λ l. IsLastUntil planned last (reading l).s) }
{
    let mut date = start;
    let mut until = second;
    'dates: loop {
        if let Some(found) = plan.last_second_until(date, until) {
            return Some(at_second(date, found));
        }
        date = date_before(date)?;
        until = 86_399;
    }
}

// The local time at a second of a date.
pub(crate) fn at_second(date: NaiveDate, second: u32) -> NaiveDateTime
    requires { second < 86_400 }
    ensures { reading result ≡ reading_at (day_of date) second 0 }
{
    match NaiveTime::from_num_seconds_from_midnight_opt(second, 0) {
        Some(time) => date.and_time(time),
        None => unreachable!(),
    }
}

// The next date, which may be the buffer day after the range.
pub(crate) fn date_after(date: NaiveDate) -> Option<NaiveDate>
    ensures { MatchOption result (IsWideDay (day_of date +ℤ pos 1) → ⊥)
        (λ next. day_of next ≡ (day_of date +ℤ pos 1)) }
{
    let start = date.and_time(NaiveTime::MIN);
    if !start.is_in_range() {
        return date.succ_opt();
    }
    let half_a_day = FixedOffset::east(43_200);
    let noon = start.overflowing_add_offset(half_a_day);
    Some(noon.overflowing_add_offset(half_a_day).date())
}

// The date before, which may be the buffer day before the range.
pub(crate) fn date_before(date: NaiveDate) -> Option<NaiveDate>
    ensures { MatchOption result (IsWideDay (day_of date -ℤ pos 1) → ⊥)
        (λ last. day_of last ≡ (day_of date -ℤ pos 1)) }
{
    let start = date.and_time(NaiveTime::MIN);
    if !start.is_in_range() {
        return date.pred_opt();
    }
    let half_a_day = FixedOffset::west(43_200);
    let noon = start.overflowing_add_offset(half_a_day);
    if !noon.is_in_range() {
        return Some(noon.date());
    }
    Some(noon.overflowing_add_offset(half_a_day).date())
}
