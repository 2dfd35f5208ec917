//! The instants at which a plan fires, one after another.
ghost use Rattle.std.specs.{Iterator.{at_most}, Prelude.{◌≡◌}};
ghost use Rattle.{
  zoned_plans.specs.Fires.{fires_between, fires_by_between, left_of, seconds_left, GivesFire},
  zoned_plans.specs.Policies.{IsFireBy},
  zoned_time.specs.DateTime.{zoned},
};

use crate::FirePolicy;
use crate::policies::{USUAL_POLICY, fire_between};
use naive_plans::Plan;
use std::iter::FusedIterator;
use zoned_time::{DateTime, Utc, ZoneDays};

/// The instants at which a plan fires in a zone, one after another. Made by [`ZonePlans::fires`](crate::ZonePlans::fires) and
/// [`ZonePlans::fires_by`](crate::ZonePlans::fires_by).
#[derive(Clone, Drop)]
pub struct Fires<Tz, P> {
    zone: Tz,
    plan: P,
    policy: FirePolicy,
    after: DateTime<Utc>,
    until: DateTime<Utc>,
}

impl<Tz: ZoneDays, P: Plan + Drop> Fires<Tz, P> {
    pub(crate) fn new(zone: Tz, plan: P, after: DateTime<Utc>, until: DateTime<Utc>) -> Fires<Tz, P>
        ensures { left_of result
            ≡ fires_between zone plan (zoned after).utc.s (zoned until).utc.s }
    {
        Fires::by_policy(zone, plan, USUAL_POLICY, after, until)
    }

    pub(crate) fn by_policy(
        zone: Tz,
        plan: P,
        policy: FirePolicy,
        after: DateTime<Utc>,
        until: DateTime<Utc>,
    ) -> Fires<Tz, P>
        ensures { left_of result
            ≡ fires_by_between zone plan policy (zoned after).utc.s (zoned until).utc.s }
    {
        Fires {
            zone,
            plan,
            policy,
            after,
            until,
        }
    }
}

impl<Tz: ZoneDays, P: Plan + Drop> Iterator for Fires<Tz, P> {
    type Item = DateTime<Tz>;

    ghost next_gives = { λ s r t. let law = Tz.law (left_of s).zone in
        GivesFire law (IsFireBy (left_of s).policy law.off (P.planned (left_of s).plan))
        (λ d. zoned d) (left_of s) r (left_of t) };

    ghost remaining = { λ s. at_most (seconds_left (left_of s)) };

    fn next(&mut self) -> Option<DateTime<Tz>> {
        let next = fire_between(
            &self.zone,
            &self.plan,
            self.policy,
            &self.after,
            &self.until,
        )?;
        self.after = next.to_utc();
        Some(next)
    }
}

impl<Tz: ZoneDays, P: Plan + Drop> FusedIterator for Fires<Tz, P> {}
