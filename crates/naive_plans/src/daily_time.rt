//! One local time on each day from a first one on.
ghost use Rattle.std.specs.Prelude.{◌≡◌};
ghost use Rattle.{
  naive_base.specs.{NaiveDate.{day_of}, NaiveDateTime.{reading}, NaiveTime.{second_of}, Reading.{reading_at}},
  naive_plans.specs.{DailyTimes.{IsDailyFrom}, DayPlans.{IsPlannedOnItsDay}},
};

use crate::{DayPlan, Plan, ReversibleDayPlan, ReversiblePlan, last_local_time, next_local_time};
use naive_base::{NaiveDate, NaiveDateTime, NaiveTime, Timelike};

/// One local time on each day from a first day on. Fractions of a second are ignored.
///
/// It is what a daily series of `zoned_series` says without its zone and its policy. In a zone a plan
/// fires at no instant twice.
///
/// ```
/// let half_past_two = NaiveTime::from_hms_opt(2, 30, 0)?;
/// let daily = DailyTime { first: sunday_noon.date(), time: half_past_two };
/// let next = daily.next_after(&sunday_noon)?; // 2021-03-15 02:30:00
/// ```
#[derive(Clone, Copy, Debug)]
pub struct DailyTime {
    /// The first day.
    pub first: NaiveDate,
    /// The time of day.
    pub time: NaiveTime,
}

impl Plan for DailyTime {
    ghost planned = { λ d. IsPlannedOnItsDay (IsDailyFrom (day_of d.first) (second_of d.time)) };

    fn next_after(&self, local: &NaiveDateTime) -> Option<NaiveDateTime> {
        let first = first_local(self.first, self.time);
        if local.secs_since_epoch() < first.secs_since_epoch() {
            return Some(first);
        }
        next_local_time(self, local)
    }
}

impl ReversiblePlan for DailyTime {
    fn last_until(&self, local: &NaiveDateTime) -> Option<NaiveDateTime> {
        let first = first_local(self.first, self.time);
        if local.secs_since_epoch() < first.secs_since_epoch() {
            return None;
        }
        last_local_time(self, local)
    }
}

impl DayPlan for DailyTime {
    ghost planned_on = { λ d. IsDailyFrom (day_of d.first) (second_of d.time) };

    fn first_second_from(&self, date: NaiveDate, second: u32) -> Option<u32> {
        let planned = self.time.num_seconds_from_midnight();
        if date < self.first || planned < second {
            return None;
        }
        Some(planned)
    }

    fn is_known_empty(&self) -> bool {
        false
    }
}

impl ReversibleDayPlan for DailyTime {
    fn last_second_until(&self, date: NaiveDate, second: u32) -> Option<u32> {
        let planned = self.time.num_seconds_from_midnight();
        if date < self.first || second < planned {
            return None;
        }
        Some(planned)
    }
}

// The first local time, in whole seconds.
fn first_local(first: NaiveDate, time: NaiveTime) -> NaiveDateTime
    ensures { reading result ≡ reading_at (day_of first) (second_of time) 0 }
{
    match time.with_nanosecond(0) {
        Some(whole) => first.and_time(whole),
        None => unreachable!(),
    }
}
