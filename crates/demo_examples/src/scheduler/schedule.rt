//! When a job runs.
ghost use Rattle.std.specs.Prelude.{◌≡◌, ◌⊎◌, ◌≤◌, ⊤, MatchOption};
ghost use Rattle.{
  demo_examples.specs.Fires.{planned_by, IsPlannedOn},
  zoned.specs.{DateTime.{zoned}, Fires.{IsZonedNextFire, NoneFiresAfter}},
};

use crate::scheduler::RunDays;
use zoned::{
    DateTime, DayPlan, NaiveDate, NaiveDateTime, NaiveTime, Plan, ZoneDays, ZonePlans,
    next_local_time,
};

/// Times of day, in any order, on some days. Fractions of a second are ignored.
#[derive(Debug, PartialEq, Eq, Hash, Drop)]
pub struct Schedule {
    pub days: RunDays,
    pub times: Vec<NaiveTime>,
}

impl Schedule {
    /// Returns the first instant after another one at which it runs: none is skipped. `None` if it
    /// never runs again in the range of [`DateTime`].
    ///
    /// ```
    /// let schedule = Schedule { days: RunDays::Workdays, times }; // at 09:00 and 17:30
    /// let next = schedule.next_fire(&new_york, &friday_evening); // Some(2021-11-08 09:00:00 -05:00)
    /// ```
    pub fn next_fire<Tz: ZoneDays>(&self, zone: &Tz, after: &DateTime<Tz>) -> Option<DateTime<Tz>>
        ensures { let law = Tz.law zone.now in let now = (zoned after.now).utc.s in
            MatchOption result (NoneFiresAfter law.off (planned_by self.now) now)
            (λ d. IsZonedNextFire law (planned_by self.now) now (zoned d)) }
    {
        zone.next_fire(self, after)
    }
}

impl Plan for Schedule {
    ghost planned = { planned_by };

    fn next_after(&self, local: &NaiveDateTime) -> Option<NaiveDateTime> {
        next_local_time(self, local)
    }
}

impl DayPlan for Schedule {
    ghost planned_on = { IsPlannedOn };

    fn first_second_from(&self, date: NaiveDate, second: u32) -> Option<u32> {
        if !self.days.runs_on(date) {
            return None;
        }
        let mut first = None;
        for time in &self.times {
            first = earlier(first, time.num_seconds_from_midnight(), second);
        }
        first
    }

    fn is_known_empty(&self) -> bool {
        self.times.is_empty() || self.days.has_no_day()
    }
}

// The earlier of a second of the day, if there is one, and another one, if that is not before a third.
fn earlier(first: Option<u32>, start: u32, second: u32) -> Option<u32>
    ensures one { (result ≡ first) ⊎ ((result ≡ Some start) × (second ≤ start)) }
    ensures tried { second ≤ start → MatchOption result ⊥ (λ s. s ≤ start) }
    ensures not_later { MatchOption first ⊤ (λ s. MatchOption result ⊥ (λ r. r ≤ s)) }
{
    if start < second {
        return first;
    }
    match first {
        None => Some(start),
        Some(other) => Some(other.min(start)),
    }
}
