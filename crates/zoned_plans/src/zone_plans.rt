//! When plans fire in a zone, and where steps of its clocks begin and end.
ghost use Rattle.std.specs.Prelude.{◌≡◌, ◌↔◌, IsTrue, MatchOption};
ghost use Rattle.{
  naive_base.specs.Stamp.{of_secs},
  naive_plans.specs.ClockSteps.{BeginsStep},
  zoned_plans.specs.{Fires.{IsFire}, Policies.{IsFireBy}},
  zoned_plans.specs.Nearest.{IsZonedLastOf, IsZonedNextOf, NoneAfter, NoneUntil},
  zoned_time.specs.{DateTime.{zoned}, Zoned.{IsAt}},
};
ghost use Rattle.zoned_plans.specs.Fires as fire_times;
ghost use Rattle.zoned_plans.specs.StepBounds as bounds;

use crate::instants::{last_second_before, utc_at};
use crate::last_fires::{last_by_policy, previous_by_policy};
use crate::policies::next_by_policy;
use crate::{FirePolicy, Fires};
use naive_plans::{ClockStep, Plan, ReversiblePlan};
use zoned_time::{DateTime, TimeZone, ZoneDays};

/// The begin of a step of the local clock, and its end, which is the begin of the next step.
#[derive(Clone, Copy, Debug)]
pub struct StepBounds<T> {
    /// The first instant of the step.
    pub begin: T,
    /// The first instant after it.
    pub end: T,
}

/// When plans fire in a zone, and where steps of its local clock begin and end: in each zone whose days
/// can be found.
pub trait ZonePlans: ZoneDays {
    /// Returns the first instant at which a plan fires after the given one, of any zone; `None` if no such
    /// instant is in the range of [`DateTime`].
    ///
    /// A plan fires at each whole second at which clocks first show one of its local times or a later
    /// one. So local times in a gap fire once, at its end, and one in a fold fires on the first pass only.
    ///
    /// ```
    /// let next = new_york.next_fire(&daily, &noon)?; // 2021-03-14 03:00:00 -04:00, of 02:30 each day
    /// ```
    final fn next_fire<P: Plan, Tz: TimeZone>(
        &self,
        plan: &P,
        after: &DateTime<Tz>,
    ) -> Option<DateTime<Self>>
        ensures { let law = Self.law self.now in
            let s = (zoned after.now).utc.s in
            MatchOption result (fire_times.NoneFiresAfter law.off (P.planned plan.now) s)
            (λ d. fire_times.IsZonedNextFire law (P.planned plan.now) s (zoned d)) }
    {
        let local = plan.next_after(&self.reached(after))?;
        self.whole_second_at_or_after(&local)
    }

    /// Returns the first instant at which a plan fires that isn't before the given one, of any zone; `None`
    /// if no such instant is in the range of [`DateTime`].
    ///
    /// ```
    /// let first = new_york.first_fire(&daily, &last)?; // 2021-03-13 02:30:00 -05:00, of 02:30 each day
    /// ```
    final fn first_fire<P: ReversiblePlan, Tz: TimeZone>(
        &self,
        plan: &P,
        from: &DateTime<Tz>,
    ) -> Option<DateTime<Self>>
        ensures { let law = Self.law self.now in
            let s = fire_times.second_before (zoned from.now).utc in
            MatchOption result (fire_times.NoneFiresAfter law.off (P.planned plan.now) s)
            (λ d. fire_times.IsZonedNextFire law (P.planned plan.now) s (zoned d)) }
    {
        if let Some(now) = fire_at(self, plan, from) {
            return Some(now);
        }
        self.next_fire(plan, from)
    }

    /// Returns the last instant at which a plan fires that isn't after the given one, of any zone; `None`
    /// if no such instant is in the range of [`DateTime`].
    ///
    /// ```
    /// let last = new_york.last_fire(&daily, &noon)?; // 2021-03-13 02:30:00 -05:00, of 02:30 each day
    /// ```
    final fn last_fire<P: ReversiblePlan, Tz: TimeZone>(
        &self,
        plan: &P,
        until: &DateTime<Tz>,
    ) -> Option<DateTime<Self>>
        ensures { let law = Self.law self.now in
            let s = (zoned until.now).utc.s in
            MatchOption result (fire_times.NoneFiresUntil law.off (P.planned plan.now) s)
            (λ d. fire_times.IsZonedLastFire law (P.planned plan.now) s (zoned d)) }
    {
        let local = plan.last_until(&self.reached(until))?;
        self.whole_second_at_or_after(&local)
    }

    /// Returns the last instant at which a plan fires before the given one, of any zone; `None` if no such
    /// instant is in the range of [`DateTime`].
    ///
    /// ```
    /// let previous = new_york.previous_fire(&daily, &last)?; // 2021-03-12 02:30:00 -05:00
    /// ```
    final fn previous_fire<P: ReversiblePlan, Tz: TimeZone>(
        &self,
        plan: &P,
        before: &DateTime<Tz>,
    ) -> Option<DateTime<Self>>
        ensures { let law = Self.law self.now in
            let s = fire_times.second_before (zoned before.now).utc in
            MatchOption result (fire_times.NoneFiresUntil law.off (P.planned plan.now) s)
            (λ d. fire_times.IsZonedLastFire law (P.planned plan.now) s (zoned d)) }
    {
        let until = utc_at(last_second_before(before))?;
        self.last_fire(plan, &until)
    }

    /// Returns an iterator over the instants at which a plan fires, after one instant and at or before
    /// another one, of any zones. It skips none and returns none twice.
    ///
    /// From a job's last run to now these are the runs that it missed.
    ///
    /// ```
    /// let missed = new_york.fires(daily, &last_run, &now).count(); // 3, from 2021-03-13 02:30:00 to 2021-03-16 02:30:00
    /// ```
    final fn fires<P: Plan + Drop, Tz: TimeZone, Tz2: TimeZone>(
        &self,
        plan: P,
        after: &DateTime<Tz>,
        until: &DateTime<Tz2>,
    ) -> Fires<Self, P>
        ensures { let t = (zoned after.now).utc.s in let end = (zoned until.now).utc.s in
            fire_times.left_of result ≡ fire_times.fires_between self.now plan t end }
    {
        Fires::new(*self, plan, after.to_utc(), until.to_utc())
    }

    /// Returns the first instant after the given one, of any zone, at which a plan fires under a policy for
    /// its local times in gaps and folds; `None` if no such instant is in the range of [`DateTime`].
    ///
    /// [`ZonePlans::next_fire`] has the policy of [`GapFires::AtEnd`] and [`FoldFires::FirstPass`]. If clocks
    /// show a local time of the plan at the end of a gap, the plan fires then, whatever else is in the gap.
    ///
    /// ```
    /// let policy = FirePolicy { gap: GapFires::Never, fold: FoldFires::EachPass };
    /// let next = new_york.next_fire_by(&daily, policy, &noon)?; // 2021-03-15 02:30:00 -04:00, of 02:30 each day
    /// ```
    final fn next_fire_by<P: Plan, Tz: TimeZone>(
        &self,
        plan: &P,
        policy: FirePolicy,
        after: &DateTime<Tz>,
    ) -> Option<DateTime<Self>>
        ensures { let law = Self.law self.now in
            let fire = IsFireBy policy law.off (P.planned plan.now) in
            let s = (zoned after.now).utc.s in
            MatchOption result (NoneAfter fire s) (λ d. IsZonedNextOf law fire s (zoned d)) }
    {
        next_by_policy(self, plan, policy, &after.to_utc())
    }

    /// Returns the last instant at which a plan fires under a policy for its local times in gaps and folds,
    /// and that isn't after the given one, of any zone; `None` if no such instant is in the range of
    /// [`DateTime`].
    ///
    /// ```
    /// let policy = FirePolicy { gap: GapFires::Never, fold: FoldFires::EachPass };
    /// let last = new_york.last_fire_by(&daily, policy, &noon)?; // 2021-03-13 02:30:00 -05:00, of 02:30 each day
    /// ```
    final fn last_fire_by<P: ReversiblePlan, Tz: TimeZone>(
        &self,
        plan: &P,
        policy: FirePolicy,
        until: &DateTime<Tz>,
    ) -> Option<DateTime<Self>>
        ensures { let law = Self.law self.now in
            let fire = IsFireBy policy law.off (P.planned plan.now) in
            let s = (zoned until.now).utc.s in
            MatchOption result (NoneUntil fire s) (λ d. IsZonedLastOf law fire s (zoned d)) }
    {
        last_by_policy(self, plan, policy, &until.to_utc())
    }

    /// Returns the last instant before the given one, of any zone, at which a plan fires under a policy for
    /// its local times in gaps and folds; `None` if no such instant is in the range of [`DateTime`].
    ///
    /// ```
    /// let policy = FirePolicy { gap: GapFires::Never, fold: FoldFires::EachPass };
    /// let previous = new_york.previous_fire_by(&daily, policy, &last)?; // 2021-03-12 02:30:00 -05:00
    /// ```
    final fn previous_fire_by<P: ReversiblePlan, Tz: TimeZone>(
        &self,
        plan: &P,
        policy: FirePolicy,
        before: &DateTime<Tz>,
    ) -> Option<DateTime<Self>>
        ensures { let law = Self.law self.now in
            let fire = IsFireBy policy law.off (P.planned plan.now) in
            let s = fire_times.second_before (zoned before.now).utc in
            MatchOption result (NoneUntil fire s) (λ d. IsZonedLastOf law fire s (zoned d)) }
    {
        previous_by_policy(self, plan, policy, before)
    }

    /// Returns an iterator over the instants at which a plan fires under a policy for its local times in
    /// gaps and folds, after one instant and at or before another one, of any zones. It skips none and
    /// returns none twice.
    ///
    /// ```
    /// let policy = FirePolicy { gap: GapFires::Never, fold: FoldFires::EachPass };
    /// let missed = new_york.fires_by(daily, policy, &last_run, &now).count(); // 2, without that of 2021-03-14
    /// ```
    final fn fires_by<P: Plan + Drop, Tz: TimeZone, Tz2: TimeZone>(
        &self,
        plan: P,
        policy: FirePolicy,
        after: &DateTime<Tz>,
        until: &DateTime<Tz2>,
    ) -> Fires<Self, P>
        ensures { let t = (zoned after.now).utc.s in let end = (zoned until.now).utc.s in
            fire_times.left_of result ≡ fire_times.fires_by_between self.now plan policy t end }
    {
        Fires::by_policy(*self, plan, policy, after.to_utc(), until.to_utc())
    }

    /// Returns the first instant of the step of the local clock that an instant of any zone lies in, such
    /// as its day, week or hour; `None` if it is out of the range of [`DateTime`].
    ///
    /// A step begins at the first instant at which clocks show its first local time or a later one, and
    /// lasts to before the next step begins. So each instant lies in one step. A step doesn't begin again
    /// if clocks are set back: until they have caught up, instants lie in the step in which that happened.
    /// So the hour of 01:00 has 120 minutes in New York on 2021-11-07, and 90 in Lord Howe on 2021-04-04,
    /// when clocks went from 02:00 back to 01:30.
    ///
    /// ```
    /// let second_pass = Utc.with_ymd_and_hms(2021, 11, 7, 6, 30, 0).single()?; // at 01:30:00 -05:00
    /// let hour = new_york.floor(&second_pass, ClockStep::HOUR)?; // 2021-11-07 01:00:00 -04:00
    /// ```
    final fn floor<Tz: TimeZone>(
        &self,
        instant: &DateTime<Tz>,
        step: ClockStep,
    ) -> Option<DateTime<Self>>
        ensures { let law = Self.law self.now in
            let s = (zoned instant.now).utc.s in
            MatchOption result (fire_times.NoneFiresUntil law.off (BeginsStep step) s)
            (λ d. fire_times.IsZonedLastFire law (BeginsStep step) s (zoned d)) }
    {
        self.last_fire(&step, instant)
    }

    /// Returns the first instant that isn't before the given one, of any zone, and at which a step of the
    /// local clock begins; `None` if no such instant is in the range of [`DateTime`].
    ///
    /// ```
    /// let second_pass = Utc.with_ymd_and_hms(2021, 11, 7, 6, 30, 0).single()?; // at 01:30:00 -05:00
    /// let next = new_york.ceil(&second_pass, ClockStep::HOUR)?; // 2021-11-07 02:00:00 -05:00
    /// ```
    final fn ceil<Tz: TimeZone>(
        &self,
        instant: &DateTime<Tz>,
        step: ClockStep,
    ) -> Option<DateTime<Self>>
        ensures { let law = Self.law self.now in
            let s = fire_times.second_before (zoned instant.now).utc in
            MatchOption result (fire_times.NoneFiresAfter law.off (BeginsStep step) s)
            (λ d. fire_times.IsZonedNextFire law (BeginsStep step) s (zoned d)) }
    {
        self.first_fire(&step, instant)
    }

    /// Returns the begin and the end of the step of the local clock that contains an instant of any zone;
    /// `None` if one of the two is out of the range of [`DateTime`].
    ///
    /// ```
    /// let second_pass = Utc.with_ymd_and_hms(2021, 11, 7, 6, 30, 0).single()?; // at 01:30:00 -05:00
    /// let hour = new_york.step_at(&second_pass, ClockStep::HOUR)?;
    /// let length = hour.end.signed_duration_since(&hour.begin).num_minutes(); // 120
    /// ```
    final fn step_at<Tz: TimeZone>(
        &self,
        instant: &DateTime<Tz>,
        step: ClockStep,
    ) -> Option<StepBounds<DateTime<Self>>>
        ensures { let law = Self.law self.now in
            let s = (zoned instant.now).utc.s in
            MatchOption result (bounds.IsStepOutOfRange law.off (BeginsStep step) s)
            (λ d. bounds.AreInstantsOfStep law (BeginsStep step) s (zoned d.begin) (zoned d.end)) }
    {
        let begin = self.last_fire(&step, instant)?;
        let end = self.next_fire(&step, instant)?;
        Some(StepBounds { begin, end })
    }
}

impl<Tz: ZoneDays> ZonePlans for Tz {}

// The instant itself, if a plan fires at it.
fn fire_at<Zone: ZoneDays, P: ReversiblePlan, Tz: TimeZone>(
    zone: &Zone,
    plan: &P,
    instant: &DateTime<Tz>,
) -> Option<DateTime<Zone>>
    ensures { let law = Zone.law zone.now in let r = (zoned instant.now).utc in
        MatchOption result (IsFire law.off (P.planned plan.now) r.s → r.f ≡ 0 → ⊥)
        (λ d. IsFire law.off (P.planned plan.now) r.s × (r.f ≡ 0)
        × IsAt law (of_secs r.s 0) (zoned d)) }
{
    let last = zone.last_fire(plan, instant)?;
    if !is_whole_second_of(&last, instant) {
        return None;
    }
    Some(last)
}

// Whether both are in the same second, and the second instant has no fraction.
fn is_whole_second_of<Zone: TimeZone, Tz: TimeZone>(
    second: &DateTime<Zone>,
    instant: &DateTime<Tz>,
) -> bool
    ensures { let r = (zoned instant.now).utc in
        IsTrue result ↔ (((zoned second.now).utc.s ≡ r.s) × (r.f ≡ 0)) }
{
    second.timestamp() == instant.timestamp() && instant.timestamp_subsec_nanos() == 0
}
