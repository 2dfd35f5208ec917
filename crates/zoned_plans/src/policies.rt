//! When plans fire under a policy for local times in gaps and in folds.
ghost use Rattle.std.specs.Prelude.{◌≡◌, ◌↔◌, ◌≤ℤ◌, ◌+ℤ◌, ◌-ℤ◌, pos, IsTrue, MatchOption};
ghost use Rattle.{
  naive_base.specs.Range.{IsInRange},
  offset_core.specs.Offset.{IsWithinDay},
  zoned_plans.specs.{Nearest.{IsZonedNextOf, NoneAfter, NoneBetween}, Policies.{IsFireBy, IsShownFire}},
  zoned_plans.specs.Steps.Shown.{AreAllQuiet, AreQuiet, IsEither, IsFirstPlannedIn, IsFirstShown, NonePlannedIn},
  zoned_time.specs.DateTime.{zoned},
};

use crate::ZonePlans;
use crate::instants::{instant_at, utc_at};
use naive_plans::Plan;
use offset_core::FixedOffset;
use zoned_time::{DateTime, Offset, TimeZone, Utc, ZoneDays};

/// Whether a plan fires if clocks are set forward over one of its local times.
#[derive(Clone, Copy, Debug, PartialEq, Eq)]
pub enum GapFires {
    /// Once, at the end of the gap.
    AtEnd,
    /// Not at all.
    Never,
}

/// How often a plan fires at a local time that clocks show more than once.
#[derive(Clone, Copy, Debug, PartialEq, Eq)]
pub enum FoldFires {
    /// When they show it first.
    FirstPass,
    /// Each time that they show it.
    EachPass,
}

/// What a plan does with local times in gaps and in folds, for [`ZonePlans::next_fire_by`].
#[derive(Clone, Copy, Debug, PartialEq, Eq)]
pub struct FirePolicy {
    pub gap: GapFires,
    pub fold: FoldFires,
}

// The policy of `ZonePlans::next_fire`.
pub(crate) const USUAL_POLICY: FirePolicy = FirePolicy {
    gap: GapFires::AtEnd,
    fold: FoldFires::FirstPass,
};

// The first instant after another one at which a plan fires under a policy.
pub(crate) fn next_by_policy<Tz: ZoneDays, P: Plan>(
    zone: &Tz,
    plan: &P,
    policy: FirePolicy,
    after: &DateTime<Utc>,
) -> Option<DateTime<Tz>>
    ensures { let law = Tz.law zone.now in
        let fire = IsFireBy policy law.off (P.planned plan.now) in
        let t = (zoned after.now).utc.s in
        MatchOption result (NoneAfter fire t) (λ d. IsZonedNextOf law fire t (zoned d)) }
{
    match policy.fold {
        FoldFires::FirstPass => match policy.gap {
            GapFires::AtEnd => zone.next_fire(plan, after),
            GapFires::Never => next_first_shown(zone, plan, after),
        },
        FoldFires::EachPass => match policy.gap {
            GapFires::AtEnd => next_of_both(zone, plan, after),
            GapFires::Never => next_shown(zone, plan, after),
        },
    }
}

// The first instant after one and at or before another one at which a plan fires under a policy.
pub(crate) fn fire_between<Tz: ZoneDays, P: Plan>(
    zone: &Tz,
    plan: &P,
    policy: FirePolicy,
    after: &DateTime<Utc>,
    until: &DateTime<Utc>,
) -> Option<DateTime<Tz>>
    ensures { let law = Tz.law zone.now in
        let fire = IsFireBy policy law.off (P.planned plan.now) in
        let t = (zoned after.now).utc.s in let end = (zoned until.now).utc.s in
        MatchOption result (NoneBetween fire t end)
        (λ d. IsZonedNextOf law fire t (zoned d) × ((zoned d).utc.s ≤ℤ end)) }
{
    let next = next_by_policy(zone, plan, policy, after)?;
    if next.timestamp() > until.timestamp() {
        return None;
    }
    Some(next)
}

// The first fire after an instant at which clocks show a local time of the plan.
fn next_first_shown<Tz: ZoneDays, P: Plan>(
    zone: &Tz,
    plan: &P,
    after: &DateTime<Utc>,
) -> Option<DateTime<Tz>>
    ensures { let law = Tz.law zone.now in
        let fire = IsFirstShown law.off (P.planned plan.now) in
        let t = (zoned after.now).utc.s in
        MatchOption result (NoneAfter fire t) (λ d. IsZonedNextOf law fire t (zoned d)) }
{
    let mut from = *after;
    'fires: loop {
        let fire = zone.next_fire(plan, &from)?;
        if shows_planned(plan, &fire) {
            return Some(fire);
        }
        from = fire.to_utc();
    }
}

// Whether clocks show a local time of the plan at an instant.
fn shows_planned<Tz: TimeZone, P: Plan>(plan: &P, instant: &DateTime<Tz>) -> bool
    requires { IsInRange ((zoned instant.now).utc.s -ℤ pos 1) }
    ensures { let d = zoned instant.now in
        IsTrue result ↔ P.planned plan.now (d.utc.s +ℤ Tz.Offset.seconds d.offset) }
{
    let Some(before) = utc_at(instant.timestamp() - 1) else {
        unreachable!()
    };
    let local = before
        .naive_utc()
        .overflowing_add_offset(instant.offset().fix());
    match plan.next_after(&local) {
        Some(next) => next.secs_since_epoch() <= instant.naive_local().secs_since_epoch(),
        None => false,
    }
}

// The first instant after another one that is a fire, or at which clocks show a local time of the plan.
fn next_of_both<Tz: ZoneDays, P: Plan>(
    zone: &Tz,
    plan: &P,
    after: &DateTime<Utc>,
) -> Option<DateTime<Tz>>
    ensures { let law = Tz.law zone.now in
        let fire = IsEither law.off (P.planned plan.now) in
        let t = (zoned after.now).utc.s in
        MatchOption result (NoneAfter fire t) (λ d. IsZonedNextOf law fire t (zoned d)) }
{
    let first = zone.next_fire(plan, after);
    let shown = next_shown(zone, plan, after);
    let Some(fire) = first else {
        return shown;
    };
    let Some(pass) = shown else {
        return Some(fire);
    };
    if pass.timestamp() < fire.timestamp() {
        Some(pass)
    } else {
        Some(fire)
    }
}

// The first instant after another one at which clocks show a local time of the plan.
fn next_shown<Tz: ZoneDays, P: Plan>(
    zone: &Tz,
    plan: &P,
    after: &DateTime<Utc>,
) -> Option<DateTime<Tz>>
    ensures { let law = Tz.law zone.now in
        let fire = IsShownFire law.off (P.planned plan.now) in
        let t = (zoned after.now).utc.s in
        MatchOption result (NoneAfter fire t) (λ d. IsZonedNextOf law fire t (zoned d)) }
{
    let mut from = *after;
    'stretches: loop {
        let quiet = last_quiet(plan, &from)?;
        let second = quiet
            .naive_utc()
            .overflowing_add_offset(FixedOffset::east(1));
        let stretch = zone.offset_stretch_at(&second);
        if let Some(found) = first_planned_in(plan, &quiet, stretch.until, stretch.offset) {
            return instant_at(zone, found);
        }
        from = utc_at(stretch.until - 1)?;
    }
}

// A second up to which clocks show no local time of the plan after the given one, whatever their offset:
// they are less than a day away from UTC.
fn last_quiet<P: Plan>(plan: &P, from: &DateTime<Utc>) -> Option<DateTime<Utc>>
    ensures { let t = (zoned from.now).utc.s in
        MatchOption result (AreAllQuiet (P.planned plan.now) t)
        (λ d. AreQuiet (P.planned plan.now) t (zoned d).utc.s) }
{
    let half_a_day = FixedOffset::west(43_200);
    let middle = from.naive_utc().overflowing_add_offset(half_a_day);
    if !middle.is_in_range() {
        return Some(*from);
    }
    let next = plan.next_after(&middle.overflowing_add_offset(half_a_day))?;
    let second = next.secs_since_epoch() - 86_400;
    if second <= from.timestamp() {
        return Some(*from);
    }
    utc_at(second)
}

// The first second after the given one and before another one at which a clock at that offset shows a local
// time of the plan.
fn first_planned_in<P: Plan>(
    plan: &P,
    after: &DateTime<Utc>,
    until: i64,
    offset: i32,
) -> Option<i64>
    requires { IsWithinDay offset }
    ensures { let t = (zoned after.now).utc.s in
        MatchOption result (NonePlannedIn (P.planned plan.now) t until offset)
        (IsFirstPlannedIn (P.planned plan.now) t until offset) }
{
    let local = after
        .naive_utc()
        .overflowing_add_offset(FixedOffset::east(offset));
    let next = plan.next_after(&local)?;
    let second = next.secs_since_epoch() - offset as i64;
    if second < until { Some(second) } else { None }
}
