//! Instants of a kept zone, one after another.

use std::alloc::{AllocError, Global};
use zoned::{
    DailySeries, DateTime, KeptZone, LocalResult, NaiveDate, NaiveDateTime, SeriesError, TimeZone,
};

/// A series in a `for`.
pub fn seconds_of_days(
    alloc: Global,
    series: &DailySeries<KeptZone>,
    days: u32,
) -> Result<Vec<i64>, AllocError> {
    let mut seconds = Vec::new(alloc);
    for instant in series.days(days) {
        if let Ok(instant) = instant {
            seconds.push(instant.timestamp())?;
        }
    }
    Ok(seconds)
}

/// A series from its end, and `?` on an item.
pub fn last_of_days(
    series: &DailySeries<KeptZone>,
    days: u32,
) -> Result<Option<DateTime<KeptZone>>, SeriesError> {
    match series.days(days).next_back() {
        Some(instant) => Ok(Some(instant?)),
        None => Ok(None),
    }
}

pub fn seconds(alloc: Global, instants: &[DateTime<KeptZone>]) -> Result<Vec<i64>, AllocError> {
    instants
        .iter()
        .map(|instant| instant.timestamp())
        .collect(alloc)
}

pub fn how_many_before(instants: &[DateTime<KeptZone>], second: i64) -> usize {
    instants
        .iter()
        .filter(|instant| instant.timestamp() < second)
        .count()
}

pub fn any_on(instants: &[DateTime<KeptZone>], day: &NaiveDate) -> bool {
    instants.iter().any(|instant| instant.date_naive() == *day)
}

pub fn all_on(instants: &[DateTime<KeptZone>], day: &NaiveDate) -> bool {
    instants.iter().all(|instant| instant.date_naive() == *day)
}

pub fn first_place_on(instants: &[DateTime<KeptZone>], day: &NaiveDate) -> Option<usize> {
    instants
        .iter()
        .position(|instant| instant.date_naive() == *day)
}

pub fn how_many_in_order(starts: &[DateTime<KeptZone>], ends: &[DateTime<KeptZone>]) -> u32 {
    let mut count = 0u32;
    for (start, end) in starts.iter().zip(ends) {
        if start < end {
            count = count.saturating_add(1);
        }
    }
    count
}

pub fn same(
    alloc: Global,
    instants: &[DateTime<KeptZone>],
) -> Result<Vec<DateTime<KeptZone>>, AllocError> {
    instants.iter().copied().collect(alloc)
}

/// An `Option` of an instant in a loop.
pub fn latest_by_loop(instants: &[DateTime<KeptZone>]) -> Option<DateTime<KeptZone>> {
    let mut latest = None;
    for instant in instants.iter().copied() {
        latest = match latest {
            Some(best) if instant < best => Some(best),
            _ => Some(instant),
        };
    }
    latest
}

/// A closure over the instants of a lookup.
pub fn seconds_shown(zone: &KeptZone, local: &NaiveDateTime) -> LocalResult<i64> {
    zone.from_local_datetime(local)
        .map(|instant| instant.timestamp())
}
