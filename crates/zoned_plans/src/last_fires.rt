//! When plans fired last under a policy for local times in gaps and in folds.
ghost use Rattle.std.specs.Prelude.{◌≡◌, ◌↔◌, ◌+ℤ◌, ◌-ℤ◌, pos, IsTrue, MatchOption};
ghost use Rattle.{
  naive_base.specs.Range.{IsInRange},
  offset_core.specs.Offset.{IsWithinDay},
  zoned_plans.specs.{Fires.{second_before}, Nearest.{IsZonedLastOf, NoneUntil}, Policies.{IsFireBy, IsShownFire}},
  zoned_plans.specs.Steps.Shown.{AreAllQuietUntil, AreQuietUntil, IsEither, IsFirstShown, IsLastPlannedIn},
  zoned_plans.specs.Steps.Shown.{NoneUntilPlannedIn},
  zoned_time.specs.DateTime.{zoned},
};

use crate::instants::{instant_at, last_second_before, utc_at, utc_before};
use crate::{FirePolicy, FoldFires, GapFires, ZonePlans};
use naive_plans::ReversiblePlan;
use offset_core::FixedOffset;
use zoned_time::{DateTime, TimeZone, Utc, ZoneDays};

// The last instant at or before another one at which a plan fires under a policy.
pub(crate) fn last_by_policy<Tz: ZoneDays, P: ReversiblePlan>(
    zone: &Tz,
    plan: &P,
    policy: FirePolicy,
    until: &DateTime<Utc>,
) -> Option<DateTime<Tz>>
    ensures { let law = Tz.law zone.now in
        let fire = IsFireBy policy law.off (P.planned plan.now) in
        let t = (zoned until.now).utc.s in
        MatchOption result (NoneUntil fire t) (λ d. IsZonedLastOf law fire t (zoned d)) }
{
    match policy.fold {
        FoldFires::FirstPass => match policy.gap {
            GapFires::AtEnd => zone.last_fire(plan, until),
            GapFires::Never => last_first_shown(zone, plan, until),
        },
        FoldFires::EachPass => match policy.gap {
            GapFires::AtEnd => last_of_both(zone, plan, until),
            GapFires::Never => last_shown(zone, plan, until),
        },
    }
}

// The last instant before another one at which a plan fires under a policy.
pub(crate) fn previous_by_policy<Zone: ZoneDays, P: ReversiblePlan, Tz: TimeZone>(
    zone: &Zone,
    plan: &P,
    policy: FirePolicy,
    before: &DateTime<Tz>,
) -> Option<DateTime<Zone>>
    ensures { let law = Zone.law zone.now in
        let fire = IsFireBy policy law.off (P.planned plan.now) in
        let t = second_before (zoned before.now).utc in
        MatchOption result (NoneUntil fire t) (λ d. IsZonedLastOf law fire t (zoned d)) }
{
    let until = utc_at(last_second_before(before))?;
    last_by_policy(zone, plan, policy, &until)
}

// The last fire at or before an instant at which clocks show a local time of the plan.
fn last_first_shown<Tz: ZoneDays, P: ReversiblePlan>(
    zone: &Tz,
    plan: &P,
    until: &DateTime<Utc>,
) -> Option<DateTime<Tz>>
    ensures { let law = Tz.law zone.now in
        let fire = IsFirstShown law.off (P.planned plan.now) in
        let t = (zoned until.now).utc.s in
        MatchOption result (NoneUntil fire t) (λ d. IsZonedLastOf law fire t (zoned d)) }
{
    let mut from = *until;
    'fires: loop {
        let fire = zone.last_fire(plan, &from)?;
        if is_at_planned(plan, &fire) {
            return Some(fire);
        }
        from = utc_before(fire.timestamp())?;
    }
}

// Whether clocks show a local time of the plan at an instant.
fn is_at_planned<Tz: TimeZone, P: ReversiblePlan>(plan: &P, instant: &DateTime<Tz>) -> bool
    ensures { let d = zoned instant.now in
        IsTrue result ↔ P.planned plan.now (d.utc.s +ℤ Tz.Offset.seconds d.offset) }
{
    let local = instant.naive_local();
    match plan.last_until(&local) {
        Some(last) => local.secs_since_epoch() <= last.secs_since_epoch(),
        None => false,
    }
}

// The last instant at or before another one that is a fire, or at which clocks show a local time of the plan.
fn last_of_both<Tz: ZoneDays, P: ReversiblePlan>(
    zone: &Tz,
    plan: &P,
    until: &DateTime<Utc>,
) -> Option<DateTime<Tz>>
    ensures { let law = Tz.law zone.now in
        let fire = IsEither law.off (P.planned plan.now) in
        let t = (zoned until.now).utc.s in
        MatchOption result (NoneUntil fire t) (λ d. IsZonedLastOf law fire t (zoned d)) }
{
    let last = zone.last_fire(plan, until);
    let shown = last_shown(zone, plan, until);
    let Some(fire) = last else {
        return shown;
    };
    let Some(pass) = shown else {
        return Some(fire);
    };
    if fire.timestamp() < pass.timestamp() {
        Some(pass)
    } else {
        Some(fire)
    }
}

// The last instant at or before another one at which clocks show a local time of the plan.
fn last_shown<Tz: ZoneDays, P: ReversiblePlan>(
    zone: &Tz,
    plan: &P,
    until: &DateTime<Utc>,
) -> Option<DateTime<Tz>>
    ensures { let law = Tz.law zone.now in
        let fire = IsShownFire law.off (P.planned plan.now) in
        let t = (zoned until.now).utc.s in
        MatchOption result (NoneUntil fire t) (λ d. IsZonedLastOf law fire t (zoned d)) }
{
    let mut from = *until;
    'stretches: loop {
        let last = first_quiet(plan, &from)?;
        let stretch = zone.offset_stretch_at(&last.naive_utc());
        if let Some(found) = last_planned_in(plan, &last, stretch.from, stretch.offset) {
            return instant_at(zone, found);
        }
        from = utc_before(stretch.from)?;
    }
}

// A second after which clocks show no local time of the plan up to the given one, whatever their offset:
// they are less than a day away from UTC.
fn first_quiet<P: ReversiblePlan>(plan: &P, from: &DateTime<Utc>) -> Option<DateTime<Utc>>
    ensures { let t = (zoned from.now).utc.s in
        MatchOption result (AreAllQuietUntil (P.planned plan.now) t)
        (λ d. AreQuietUntil (P.planned plan.now) t (zoned d).utc.s) }
{
    let half_a_day = FixedOffset::east(43_200);
    let middle = from.naive_utc().overflowing_add_offset(half_a_day);
    if !middle.is_in_range() {
        return Some(*from);
    }
    let last = plan.last_until(&middle.overflowing_add_offset(half_a_day))?;
    let second = last.secs_since_epoch() + 86_400;
    if second >= from.timestamp() {
        return Some(*from);
    }
    utc_at(second)
}

// The last second up to the given one and not before another one at which a clock at that offset shows a
// local time of the plan.
fn last_planned_in<P: ReversiblePlan>(
    plan: &P,
    until: &DateTime<Utc>,
    from: i64,
    offset: i32,
) -> Option<i64>
    requires { IsWithinDay offset }
    ensures { let t = (zoned until.now).utc.s in
        MatchOption result (NoneUntilPlannedIn (P.planned plan.now) t from offset)
        (IsLastPlannedIn (P.planned plan.now) t from offset) }
{
    let local = until
        .naive_utc()
        .overflowing_add_offset(FixedOffset::east(offset));
    let last = plan.last_until(&local)?;
    let second = last.secs_since_epoch() - offset as i64;
    if second < from { None } else { Some(second) }
}
