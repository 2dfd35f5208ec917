//! The changes of a chart, of which few are kept where many lie at one place.

use crate::period::Period;
use crate::picture::scale::across;
use std::alloc::{AllocError, Global};
use tz_info::{Change, TimeZone};

// How many changes at one place are too many.
const CROWD: usize = 5;

/// Returns the zone's clock changes in the period for a chart, in order: at most four at each place.
/// Of more the first and the last are kept, and between them one change to the least offset there and
/// one to the greatest.
///
/// # Errors
///
/// There is no memory for them.
pub(super) fn thinned(
    alloc: Global,
    zone: &TimeZone,
    period: Period,
) -> Result<Vec<Change>, AllocError> {
    let mut kept = Vec::new(alloc);
    for change in zone.changes(period.from(), period.until()) {
        keep(&mut kept, change, period)?;
    }
    Ok(kept)
}

// Adds a change. If there are too many at its place, one of them goes.
fn keep(kept: &mut Vec<Change>, change: Change, period: Period) -> Result<(), AllocError> {
    kept.push(change)?;
    let Some(place) = kept.len().checked_sub(CROWD) else {
        return Ok(());
    };
    let Some(first) = kept.get(place).copied() else {
        return Ok(());
    };
    if across(period, first.at) != across(period, change.at) {
        return Ok(());
    }
    let (mut least, mut greatest) = (first.after, first.after);
    for _ in 1..CROWD {
        if let Some(other) = kept.pop() {
            if other.after.offset() < least.offset() {
                least = other.after;
            }
            if greatest.offset() < other.after.offset() {
                greatest = other.after;
            }
        }
    }
    kept.push(Change {
        at: change.at,
        before: first.after,
        after: least,
    })?;
    kept.push(Change {
        at: change.at,
        before: least,
        after: greatest,
    })?;
    Ok(kept.push(change)?)
}
