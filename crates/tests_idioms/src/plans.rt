//! When plans fire in a kept zone, and the days that its instants lie in.

use std::alloc::{AllocError, Global};
use zoned::{Cron, DateTime, KeptZone, NaiveDate, NaiveDateTime, Plan, Utc, ZoneDays, ZonePlans};

/// Each hour and minute that is listed, on each day.
pub fn daily(hours: [bool; 24], minutes: [bool; 60]) -> Cron {
    Cron {
        minutes,
        hours,
        days: [true; 32],
        months: [true; 13],
        weekdays: [true; 7],
        either: false,
    }
}

pub fn next_run(zone: &KeptZone, plan: &Cron, now: &DateTime<Utc>) -> Option<DateTime<KeptZone>> {
    zone.next_fire(plan, now)
}

pub fn last_run(zone: &KeptZone, plan: &Cron, now: &DateTime<Utc>) -> Option<DateTime<KeptZone>> {
    zone.last_fire(plan, now)
}

pub fn next_local(plan: &Cron, local: &NaiveDateTime) -> Option<NaiveDateTime> {
    plan.next_after(local)
}

/// The runs that were missed from an instant to another one.
pub fn missed(
    alloc: Global,
    zone: &KeptZone,
    plan: Cron,
    from: &DateTime<KeptZone>,
    to: &DateTime<KeptZone>,
) -> Result<Vec<DateTime<KeptZone>>, AllocError> {
    zone.fires(plan, from, to).collect(alloc)
}

pub fn day_of(zone: &KeptZone, instant: &DateTime<Utc>) -> NaiveDate {
    zone.date_of(instant)
}

pub fn is_caught_up(instant: &DateTime<KeptZone>, zone: &KeptZone) -> bool {
    zone.reached(instant) <= instant.naive_local()
}
