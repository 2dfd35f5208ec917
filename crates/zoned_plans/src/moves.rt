//! The runs of a plan that move if a zone's rules change.
ghost use Rattle.std.specs.{Iterator.{at_most}, Prelude.{◌≡◌, ◌↔◌, ◌<ℤ◌, ◌≤ℤ◌, IsTrue, MatchOption}};
ghost use Rattle.{
  zoned_plans.specs.Fires.{IsZonedNextFire, NoneFiresBetween},
  zoned_plans.specs.Moves.{NoneMovesBetween, moves_between, moves_of, seconds_left, utc_of_move, GivesMove, IsNextMove},
  zoned_time.specs.{DateTime.{zoned}, Stamps.{in_utc}},
};

use crate::policies::{USUAL_POLICY, fire_between};
use naive_plans::Plan;
use std::iter::FusedIterator;
use zoned_time::{DateTime, TimeZone, Utc, ZoneDays};

/// A run of a plan that only one of two zones has: an instant of that zone.
#[derive(Clone, Copy, Debug, PartialEq, Eq)]
pub enum Move<Old, New> {
    /// The old zone has it, and the new one doesn't.
    Removed(Old),
    /// The new zone has it, and the old one doesn't.
    Added(New),
}

impl<Old: TimeZone, New: TimeZone> Move<DateTime<Old>, DateTime<New>> {
    /// Returns the instant of the run in UTC.
    pub fn to_utc(&self) -> DateTime<Utc>
        ensures { zoned result ≡ in_utc (utc_of_move (λ d. zoned d) (λ d. zoned d) self.now) }
    {
        match self {
            Move::Removed(run) => run.to_utc(),
            Move::Added(run) => run.to_utc(),
        }
    }
}

/// The runs of a plan that only one of two zones has, one after another. Made by [`moved`].
#[derive(Clone, Drop)]
pub struct Moves<Old, New, P> {
    old: Old,
    new: New,
    plan: P,
    after: DateTime<Utc>,
    until: DateTime<Utc>,
}

/// Returns an iterator over the runs of a plan after one instant and at or before another one that an old
/// zone has and a new one doesn't, or the reverse, in order. So a scheduler finds what an update of the tz
/// database moves.
///
/// Local times that are stored are a plan too, [`LocalTimes`](naive_plans::LocalTimes).
///
/// ```
/// let moves = moved(&old, &new, daily, &last_run, &now).count(); // 0, by an equal zone
/// ```
pub fn moved<Old: ZoneDays, New: ZoneDays, P: Plan + Drop, Tz: TimeZone, Tz2: TimeZone>(
    old: &Old,
    new: &New,
    plan: P,
    after: &DateTime<Tz>,
    until: &DateTime<Tz2>,
) -> Moves<Old, New, P>
    ensures { let t = (zoned after.now).utc.s in let end = (zoned until.now).utc.s in
        moves_of result ≡ moves_between old.now new.now plan t end }
{
    Moves {
        old: *old,
        new: *new,
        plan,
        after: after.to_utc(),
        until: until.to_utc(),
    }
}

impl<Old: ZoneDays, New: ZoneDays, P: Plan + Drop> Iterator for Moves<Old, New, P> {
    type Item = Move<DateTime<Old>, DateTime<New>>;

    ghost next_gives = { λ s r t. GivesMove (Old.law (moves_of s).old) (New.law (moves_of s).new)
        (P.planned (moves_of s).plan) (λ d. zoned d) (λ d. zoned d) (moves_of s) r (moves_of t) };

    ghost remaining = { λ s. at_most (seconds_left (moves_of s)) };

    fn next(&mut self) -> Option<Move<DateTime<Old>, DateTime<New>>> {
        let next = next_move(&self.old, &self.new, &self.plan, &self.after, &self.until)?;
        self.after = next.to_utc();
        Some(next)
    }
}

impl<Old: ZoneDays, New: ZoneDays, P: Plan + Drop> FusedIterator for Moves<Old, New, P> {}

// The first run after one instant and at or before another one that only one of two zones has.
fn next_move<Old: ZoneDays, New: ZoneDays, P: Plan>(
    old: &Old,
    new: &New,
    plan: &P,
    after: &DateTime<Utc>,
    until: &DateTime<Utc>,
) -> Option<Move<DateTime<Old>, DateTime<New>>>
    ensures { let a = Old.law old.now in let b = New.law new.now in
        let t = (zoned after.now).utc.s in let end = (zoned until.now).utc.s in
        MatchOption result (NoneMovesBetween a.off b.off (P.planned plan.now) t end)
        (IsNextMove a b (P.planned plan.now) (λ d. zoned d) (λ d. zoned d) t end) }
{
    let mut from = *after;
    'runs: loop {
        let in_old = fire_until(old, plan, &from, until);
        let in_new = fire_until(new, plan, &from, until);
        let Some(run) = in_old else {
            return Some(Move::Added(in_new?));
        };
        let Some(other) = in_new else {
            return Some(Move::Removed(run));
        };
        if is_before(&run, &other) {
            return Some(Move::Removed(run));
        }
        if is_before(&other, &run) {
            return Some(Move::Added(other));
        }
        from = run.to_utc();
    }
}

// Whether an instant's second comes before another one's.
fn is_before<Tz: TimeZone, Tz2: TimeZone>(a: &DateTime<Tz>, b: &DateTime<Tz2>) -> bool
    ensures { IsTrue result ↔ ((zoned a.now).utc.s <ℤ (zoned b.now).utc.s) }
{
    a.timestamp() < b.timestamp()
}

// The first instant after one and at or before another one at which a plan fires.
fn fire_until<Tz: ZoneDays, P: Plan>(
    zone: &Tz,
    plan: &P,
    after: &DateTime<Utc>,
    until: &DateTime<Utc>,
) -> Option<DateTime<Tz>>
    ensures { let law = Tz.law zone.now in let planned = P.planned plan.now in
        let t = (zoned after.now).utc.s in let end = (zoned until.now).utc.s in
        MatchOption result (NoneFiresBetween law.off planned t end)
        (λ d. IsZonedNextFire law planned t (zoned d) × ((zoned d).utc.s ≤ℤ end)) }
{
    fire_between(zone, plan, USUAL_POLICY, after, until)
}
