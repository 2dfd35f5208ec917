//! What a log says as a whole.

use std::alloc::{AllocError, Global};
use std::collections::BTreeMap;
use zoned::{DateTime, KeptZone, NaiveDate, TimeDelta, Timelike};

/// Returns the instants of two logs, the earliest first; their zones may differ.
///
/// # Errors
///
/// Running out of memory.
pub fn in_order(
    alloc: Global,
    one: &[DateTime<KeptZone>],
    other: &[DateTime<KeptZone>],
) -> Result<Vec<DateTime<KeptZone>>, AllocError> {
    let mut all = Vec::new(alloc);
    for instant in one.iter().copied() {
        all.push(instant)?;
    }
    for instant in other.iter().copied() {
        all.push(instant)?;
    }
    all.sort()?;
    Ok(all)
}

/// Returns how many lines there are in each hour that clocks show.
pub fn by_hour(instants: &[DateTime<KeptZone>]) -> [u64; 24] {
    let mut counts = [0u64; 24];
    for instant in instants {
        let hour = instant.hour() as usize;
        counts[hour] = counts[hour].saturating_add(1);
    }
    counts
}

/// Returns how many lines there are on each date that clocks show.
///
/// # Errors
///
/// Running out of memory.
pub fn by_day(
    alloc: Global,
    instants: &[DateTime<KeptZone>],
) -> Result<BTreeMap<NaiveDate, u64>, AllocError> {
    let mut counts = BTreeMap::new(alloc);
    for instant in instants {
        let day = instant.date_naive();
        let count: u64 = counts.get(&day).copied().unwrap_or(0);
        counts.insert(day, count.saturating_add(1))?;
    }
    Ok(counts)
}

/// Returns the longest time between two lines, or `None` if there aren't two.
pub fn longest_silence(instants: &[DateTime<KeptZone>]) -> Option<TimeDelta> {
    instants
        .windows(2)
        .map(|pair| pair[1].signed_duration_since(&pair[0]))
        .max()
}
