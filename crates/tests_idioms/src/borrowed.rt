//! What differs over a borrowed zone: loops in place of closures that capture an instant or ask the
//! zone, and functions of their own for single calls, since a function of several such calls takes long
//! to prove. Copies are as over a kept zone ([`crate::copies`]).

use crate::copy_of;
use std::alloc::{AllocError, Global};
use zoned::{DailySeries, DateTime, Days, SeriesError, TimeZone, TimeZoneRef, Timelike};

pub fn any_after<'a>(
    instants: &[DateTime<TimeZoneRef<'a>>],
    than: &DateTime<TimeZoneRef<'a>>,
) -> bool {
    for instant in instants {
        if instant > than {
            return true;
        }
    }
    false
}

pub fn all_within<'a>(
    instants: &[DateTime<TimeZoneRef<'a>>],
    start: &DateTime<TimeZoneRef<'a>>,
    end: &DateTime<TimeZoneRef<'a>>,
) -> bool {
    for instant in instants {
        if instant < start || end <= instant {
            return false;
        }
    }
    true
}

pub fn hours(
    alloc: Global,
    instants: &[DateTime<TimeZoneRef<'_>>],
) -> Result<Vec<u32>, AllocError> {
    let mut hours = Vec::new(alloc);
    for instant in instants {
        hours.push(hour(instant))?;
    }
    Ok(hours)
}

fn hour(instant: &DateTime<TimeZoneRef<'_>>) -> u32 {
    instant.hour()
}

fn minute(instant: &DateTime<TimeZoneRef<'_>>) -> u32 {
    instant.minute()
}

pub fn hour_and_minute(instant: &DateTime<TimeZoneRef<'_>>) -> (u32, u32) {
    (hour(instant), minute(instant))
}

fn noon<'a>(
    zone: &TimeZoneRef<'a>,
    year: i32,
    month: u32,
    day: u32,
) -> Option<DateTime<TimeZoneRef<'a>>> {
    zone.with_ymd_and_hms(year, month, day, 12, 0, 0).single()
}

/// The earlier of the instants at which the clocks of two zones show noon of a day.
pub fn first_noon<'a>(
    zones: [TimeZoneRef<'a>; 2],
    year: i32,
    month: u32,
    day: u32,
) -> Option<DateTime<TimeZoneRef<'a>>> {
    let [one, other] = zones;
    let noons = [
        noon(&one, year, month, day)?,
        noon(&other, year, month, day)?,
    ];
    noons.iter().min().copied()
}

fn next_day<'a>(instant: &DateTime<TimeZoneRef<'a>>) -> Option<DateTime<TimeZoneRef<'a>>> {
    instant.checked_add_days(Days::new(1))
}

/// A zone, and an instant of it.
#[derive(Clone, Copy)]
pub struct Alarm<'a> {
    pub zone: TimeZoneRef<'a>,
    pub instant: DateTime<TimeZoneRef<'a>>,
}

impl<'a> Alarm<'a> {
    pub fn at(zone: TimeZoneRef<'a>, second: i64) -> Option<Alarm<'a>> {
        let instant = zone.timestamp_opt(second, 0).single()?;
        Some(Alarm { zone, instant })
    }

    pub fn is_due(&self, now: &DateTime<TimeZoneRef<'a>>) -> bool {
        self.instant <= *now
    }

    pub fn a_day_later(self) -> Option<Alarm<'a>> {
        let instant = next_day(&self.instant)?;
        Some(Alarm {
            zone: self.zone,
            instant,
        })
    }
}

/// Instants a day apart.
#[derive(Clone, Copy)]
pub struct Daily<'a> {
    pub next: DateTime<TimeZoneRef<'a>>,
}

impl<'a> Daily<'a> {
    pub fn advance(&mut self) -> Option<DateTime<TimeZoneRef<'a>>> {
        let instant = copy_of(&self.next);
        self.next = next_day(&instant)?;
        Some(instant)
    }
}

/// A series from its end.
fn last_item<'a>(
    series: &DailySeries<TimeZoneRef<'a>>,
    days: u32,
) -> Option<Result<DateTime<TimeZoneRef<'a>>, SeriesError>> {
    series.days(days).next_back()
}

/// That, and `?` on an item.
pub fn last_of_days<'a>(
    series: &DailySeries<TimeZoneRef<'a>>,
    days: u32,
) -> Result<Option<DateTime<TimeZoneRef<'a>>>, SeriesError> {
    match last_item(series, days) {
        Some(instant) => Ok(Some(instant?)),
        None => Ok(None),
    }
}
