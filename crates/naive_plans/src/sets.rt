//! Lists of local times, and plans made of others.
ghost use Rattle.std.specs.Prelude.{◌≡◌, ◌↔◌, ◌-ℤ◌, pos, IsTrue, MatchOption};
ghost use Rattle.{
  naive_base.specs.{NaiveDateTime.{reading}, Range.{IsWide}},
  naive_plans.specs.Plans.{HasNoneAfter, HasNoneUntil, IsLastUntil, IsNextAfter},
  naive_plans.specs.PlanSets.{HasLocalTime, IsInBoth, IsInEither, IsInFirstOnly},
  naive_plans.specs.Steps.Sets.{IsEarlierOf, IsKept, IsLaterOf, IsSelected},
};

use crate::day_plan::{at_second, date_before};
use crate::{Plan, ReversiblePlan};
use naive_base::NaiveDateTime;

/// The local times of a list, in any order. Fractions of a second are ignored.
///
/// ```
/// let stored = [first, second];
/// let next = LocalTimes { list: &stored }.next_after(&first)? == second; // true
/// ```
#[derive(Clone, Copy, Debug)]
pub struct LocalTimes<'a> {
    pub list: &'a [NaiveDateTime],
}

/// The local times that at least one of two plans has.
#[derive(Clone, Copy, Debug)]
pub struct Union<A, B> {
    pub first: A,
    pub second: B,
}

/// The local times that both of two plans have.
///
/// A search goes through the local times of the first plan, up to one that the second plan has too.
#[derive(Clone, Copy, Debug)]
pub struct Intersection<A, B> {
    pub first: A,
    pub second: B,
}

/// The local times of a plan without those of another one, such as a list of holidays.
///
/// A search goes through the local times of the first plan, up to one that the second plan doesn't have.
#[derive(Clone, Copy, Debug)]
pub struct Except<A, B> {
    pub plan: A,
    pub without: B,
}

impl<'a> Plan for LocalTimes<'a> {
    ghost planned = { λ d. HasLocalTime d.list.now };

    #[tactic(auto, using(crate::proofs::TimeLists::first_done))]
    fn next_after(&self, local: &NaiveDateTime) -> Option<NaiveDateTime> {
        let mut first = None;
        for date in self.list {
            first = if date.secs_since_epoch() > local.secs_since_epoch() {
                earlier(first, Some(*date))
            } else {
                first
            };
        }
        first
    }
}

impl<'a> ReversiblePlan for LocalTimes<'a> {
    #[tactic(auto, using(crate::proofs::TimeLists::last_done))]
    fn last_until(&self, local: &NaiveDateTime) -> Option<NaiveDateTime> {
        let until = local.secs_since_epoch();
        let mut last = None;
        for date in self.list {
            last = if date.secs_since_epoch() <= until {
                later(last, Some(*date))
            } else {
                last
            };
        }
        last
    }
}

impl<A: Plan, B: Plan> Plan for Union<A, B> {
    ghost planned = { λ u. IsInEither (A.planned u.first) (B.planned u.second) };

    fn next_after(&self, local: &NaiveDateTime) -> Option<NaiveDateTime> {
        earlier(self.first.next_after(local), self.second.next_after(local))
    }
}

impl<A: ReversiblePlan, B: ReversiblePlan> ReversiblePlan for Union<A, B> {
    fn last_until(&self, local: &NaiveDateTime) -> Option<NaiveDateTime> {
        later(self.first.last_until(local), self.second.last_until(local))
    }
}

// The earlier one, if there are two.
fn earlier(a: Option<NaiveDateTime>, b: Option<NaiveDateTime>) -> Option<NaiveDateTime>
    ensures { IsEarlierOf a b result }
{
    let Some(first) = a else { return b };
    let Some(second) = b else { return a };
    if second.secs_since_epoch() < first.secs_since_epoch() {
        return b;
    }
    a
}

// The later one, if there are two.
fn later(a: Option<NaiveDateTime>, b: Option<NaiveDateTime>) -> Option<NaiveDateTime>
    ensures { IsLaterOf a b result }
{
    let Some(first) = a else { return b };
    let Some(second) = b else { return a };
    if second.secs_since_epoch() > first.secs_since_epoch() {
        return b;
    }
    a
}

impl<A: Plan, B: ReversiblePlan> Plan for Intersection<A, B> {
    ghost planned = { λ i. IsInBoth (A.planned i.first) (B.planned i.second) };

    fn next_after(&self, local: &NaiveDateTime) -> Option<NaiveDateTime> {
        next_selected(&self.first, true, &self.second, local)
    }
}

impl<A: ReversiblePlan, B: ReversiblePlan> ReversiblePlan for Intersection<A, B> {
    fn last_until(&self, local: &NaiveDateTime) -> Option<NaiveDateTime> {
        last_selected(&self.first, true, &self.second, local)
    }
}

impl<A: Plan, B: ReversiblePlan> Plan for Except<A, B> {
    ghost planned = { λ e. IsInFirstOnly (A.planned e.plan) (B.planned e.without) };

    fn next_after(&self, local: &NaiveDateTime) -> Option<NaiveDateTime> {
        next_selected(&self.plan, false, &self.without, local)
    }
}

impl<A: ReversiblePlan, B: ReversiblePlan> ReversiblePlan for Except<A, B> {
    fn last_until(&self, local: &NaiveDateTime) -> Option<NaiveDateTime> {
        last_selected(&self.plan, false, &self.without, local)
    }
}

// The first local time of a plan after one that another plan has, or with `false` doesn't have.
#[tactic(auto, using(crate::proofs::Selected::kept_later))]
fn next_selected<A: Plan, B: ReversiblePlan>(
    plan: &A,
    wanted: bool,
    other: &B,
    local: &NaiveDateTime,
) -> Option<NaiveDateTime>
    ensures { let set = IsSelected (A.planned plan.now) wanted (B.planned other.now) in
        let s = (reading local.now).s in
        MatchOption result (HasNoneAfter set s) (λ l. IsNextAfter set s (reading l).s) }
{
    let mut after = *local;
    'times: loop {
        let next = plan.next_after(&after)?;
        if is_kept(wanted, other, &next) {
            return Some(next);
        }
        after = next;
    }
}

// The last one that isn't after a local time.
fn last_selected<A: ReversiblePlan, B: ReversiblePlan>(
    plan: &A,
    wanted: bool,
    other: &B,
    local: &NaiveDateTime,
) -> Option<NaiveDateTime>
    ensures { let set = IsSelected (A.planned plan.now) wanted (B.planned other.now) in
        let s = (reading local.now).s in
        MatchOption result (HasNoneUntil set s) (λ l. IsLastUntil set s (reading l).s) }
{
    let mut until = *local;
    'times: loop {
        let last = plan.last_until(&until)?;
        if is_kept(wanted, other, &last) {
            return Some(last);
        }
        until = local_before(&last)?;
    }
}

// Whether a plan has the second of a local time, or with `false` whether it doesn't.
fn is_kept<P: ReversiblePlan>(wanted: bool, plan: &P, local: &NaiveDateTime) -> bool
    ensures { IsTrue result ↔ IsKept wanted (P.planned plan.now) (reading local.now).s }
{
    has(plan, local) == wanted
}

// Whether a plan has the second of a local time.
fn has<P: ReversiblePlan>(plan: &P, local: &NaiveDateTime) -> bool
    ensures { IsTrue result ↔ P.planned plan.now (reading local.now).s }
{
    match plan.last_until(local) {
        None => false,
        Some(last) => last.secs_since_epoch() == local.secs_since_epoch(),
    }
}

// The local time a second earlier; `None` if a `NaiveDateTime` can show no such local time.
fn local_before(local: &NaiveDateTime) -> Option<NaiveDateTime>
    ensures { MatchOption result (IsWide ((reading local.now).s -ℤ pos 1) → ⊥)
        (λ l. (reading l).s ≡ ((reading local.now).s -ℤ pos 1)) }
{
    let date = local.date();
    let second = local.time().num_seconds_from_midnight();
    if second == 0 {
        return Some(at_second(date_before(date)?, 86_399));
    }
    Some(at_second(date, second - 1))
}
