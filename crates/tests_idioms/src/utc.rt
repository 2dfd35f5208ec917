//! What differs over UTC: copies in place are covered, and guards over an instant aren't.

use zoned::{DailySeries, DateTime, Days, SeriesError, TimeZone, Utc};

pub fn twice(instant: &DateTime<Utc>) -> (DateTime<Utc>, DateTime<Utc>) {
    (*instant, *instant)
}

/// Instants a day apart.
#[derive(Clone, Copy)]
pub struct Daily {
    pub next: DateTime<Utc>,
}

impl Daily {
    pub fn advance(&mut self) -> Option<DateTime<Utc>> {
        let instant = self.next;
        self.next = instant.checked_add_days(Days::new(1))?;
        Some(instant)
    }
}

/// Without a guard, which isn't covered over a zone of no size.
pub fn latest_so_far(best: Option<DateTime<Utc>>, instant: DateTime<Utc>) -> Option<DateTime<Utc>> {
    match best {
        Some(best) => Some(best.max(instant)),
        None => Some(instant),
    }
}

/// The earlier of the instants at which the clocks of two zones show noon of a day. The zones are a
/// pair: an array of zones of no size isn't taken apart.
pub fn first_noon(zones: (Utc, Utc), year: i32, month: u32, day: u32) -> Option<DateTime<Utc>> {
    let (one, other) = zones;
    let noons = [
        one.with_ymd_and_hms(year, month, day, 12, 0, 0).single()?,
        other.with_ymd_and_hms(year, month, day, 12, 0, 0).single()?,
    ];
    noons.iter().min().copied()
}

/// A series backwards.
pub fn last_of_days(
    series: &DailySeries<Utc>,
    days: u32,
) -> Result<Option<DateTime<Utc>>, SeriesError> {
    match series.days(days).rev().next() {
        Some(instant) => Ok(Some(instant?)),
        None => Ok(None),
    }
}
