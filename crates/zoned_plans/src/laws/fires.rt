//! Theorems of plans and their fires: each function is empty, its contract is proved; never called.
ghost use Rattle.std.specs.Prelude.{◌↔◌, ◌<ℤ◌, ◌≤ℤ◌, ◌∷◌, [], All, Contains, List, ℤ};
ghost use Rattle.{
  zoned_plans.specs.Fires.{left_of, usual_policy, AreFires, IsFire, RiseFrom},
  zoned_plans.specs.Policies.{AreFiresBy, AreLeft, IsFireBy},
  zoned_time.specs.DateTime.{zoned},
};

use crate::{FirePolicy, Fires};
use naive_plans::Plan;
use zoned_time::{TimeZone, ZoneDays};

/// The fires of a plan after a second and at or before another one, as [`Fires`](crate::Fires) returns
/// them, each the next one after the one before it: each of them is a fire between the two, none is
/// skipped, and none comes twice.
pub fn all_fires<P: Plan, Tz: TimeZone>()
    ensures fires { (zone : Tz) (plan : P) (t until : ℤ) (us : List ℤ)
        → AreFires (Tz.law zone).off (P.planned plan) t until us
        → All (λ u. IsFire (Tz.law zone).off (P.planned plan) u × (t <ℤ u) × (u ≤ℤ until)) us }
    ensures none_skipped { (zone : Tz) (plan : P) (t until : ℤ) (us : List ℤ)
        → AreFires (Tz.law zone).off (P.planned plan) t until us
        → (v : ℤ) → IsFire (Tz.law zone).off (P.planned plan) v → t <ℤ v → v ≤ℤ until
        → Contains us v }
    ensures none_doubled { (zone : Tz) (plan : P) (t until : ℤ) (us : List ℤ)
        → AreFires (Tz.law zone).off (P.planned plan) t until us → RiseFrom t us }
{}

/// The same under a policy. Those under the policy of the gap's end and the first pass are the plan's
/// fires.
pub fn all_fires_by<P: Plan, Tz: TimeZone>()
    ensures fires { (zone : Tz) (plan : P) (policy : FirePolicy) (t until : ℤ) (us : List ℤ)
        → let fire = IsFireBy policy (Tz.law zone).off (P.planned plan) in
        AreFiresBy policy (Tz.law zone).off (P.planned plan) t until us
        → All (λ u. fire u × (t <ℤ u) × (u ≤ℤ until)) us
        × ((v : ℤ) → fire v → t <ℤ v → v ≤ℤ until → Contains us v) × RiseFrom t us }
    ensures usual { (zone : Tz) (plan : P) (t until : ℤ) (us : List ℤ)
        → AreFiresBy usual_policy (Tz.law zone).off (P.planned plan) t until us
        ↔ AreFires (Tz.law zone).off (P.planned plan) t until us }
{}

/// What the steps of [`Fires`] return is all that it has left: nothing at its end; else the fire of the
/// step, and then all that is left after it.
pub fn steps<Tz: ZoneDays, P: Plan + Drop>(before: &Fires<Tz, P>, after: &Fires<Tz, P>)
    ensures last { ⟦<Fires<Tz, P> as Iterator>⟧.next_gives before.now None after.now
        → AreLeft Tz.law P.planned (left_of before.now) [] }
    ensures more { (us : List ℤ) (d : _) → ⟦<Fires<Tz, P> as Iterator>⟧.next_gives before.now (Some d)
        after.now
        → AreLeft Tz.law P.planned (left_of after.now) us
        → AreLeft Tz.law P.planned (left_of before.now) ((zoned d).utc.s ∷ us) }
{}
