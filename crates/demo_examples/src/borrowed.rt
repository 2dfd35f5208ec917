//! Instants of a borrowed zone.

use std::alloc::{AllocError, Global};
use zoned::{DateTime, FixedOffset, LocalResult, NaiveDateTime, TimeZone, TimeZoneRef};

/// What an instant prints.
pub fn line(alloc: Global, instant: &DateTime<TimeZoneRef<'_>>) -> Result<String, AllocError> {
    format!(in alloc; "{instant}")
}

/// An instant that prints alike, and borrows nothing.
pub fn keep(instant: &DateTime<TimeZoneRef<'_>>) -> DateTime<FixedOffset> {
    instant.fixed_offset()
}

/// The instants, the earliest first.
pub fn earliest_first<'a>(
    mut instants: Vec<DateTime<TimeZoneRef<'a>>>,
) -> Result<Vec<DateTime<TimeZoneRef<'a>>>, AllocError> {
    instants.sort()?;
    Ok(instants)
}

/// The instants at which the clocks of a zone show a local time, as ones that borrow nothing.
pub fn by_clock(
    zone: &TimeZoneRef<'_>,
    local: &NaiveDateTime,
) -> LocalResult<DateTime<FixedOffset>> {
    zone.from_local_datetime(local)
        .map(|instant| instant.fixed_offset())
}
