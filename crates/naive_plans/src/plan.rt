//! Sets of local times, searched forward and backward.
ghost use Rattle.{
  naive_base.specs.NaiveDateTime.{reading},
  naive_plans.specs.Plans.{HasNoneAfter, HasNoneUntil, IsLastUntil, IsNextAfter},
  std.specs.Prelude.{ℤ, MatchOption},
};

use naive_base::NaiveDateTime;

/// A set of local times in whole seconds, such as 02:30 on each weekday.
///
/// A plan knows no time zone. In a zone it fires at the first instant at which clocks show one of its
/// local times or a later one: `ZonePlans::next_fire` and `ZonePlans::previous_fire` of `zoned_plans` find
/// those instants.
pub trait Plan {
    // its local times, as seconds
    ghost planned: { Self → ℤ → Type 0 };

    /// Returns the first local time of the plan after the given one; `None` if a [`NaiveDateTime`] can show
    /// no such local time.
    fn next_after(&self, local: &NaiveDateTime) -> Option<NaiveDateTime>
        ensures { let s = (reading local.now).s in
            MatchOption result (HasNoneAfter (planned self.now) s)
            (λ l. IsNextAfter (planned self.now) s (reading l).s) };
}

/// A plan that can also be searched backward.
pub trait ReversiblePlan: Plan {
    /// Returns the last local time of the plan that isn't after the given one; `None` if a
    /// [`NaiveDateTime`] can show no such local time.
    fn last_until(&self, local: &NaiveDateTime) -> Option<NaiveDateTime>
        ensures { let s = (reading local.now).s in
            MatchOption result (HasNoneUntil (Self.planned self.now) s)
            (λ l. IsLastUntil (Self.planned self.now) s (reading l).s) };
}
