//! What a choice for gaps and folds takes.

use crate::shown::unix_and_offset;
use naive_base::NaiveDateTime;
use offset_core::{Choice, FoldChoice, GapChoice};
use zoned_series::SeriesError;
use zoned_time::{DateTime, TimeZone};

/// The Unix time and the offset of the selected instant, or the number of the error.
pub fn taken<Tz: TimeZone>(
    zone: &Tz,
    local: &NaiveDateTime,
    gap: GapChoice,
    fold: FoldChoice,
) -> Result<(i64, i32), u8> {
    match zone.resolve(local, Choice { gap, fold }) {
        Ok(instant) => Ok(unix_and_offset(&instant)),
        Err(e) => Err(e.number()),
    }
}

/// The Unix time of an item, or the number of the error.
pub fn item<Tz: TimeZone>(item: Result<DateTime<Tz>, SeriesError>) -> Result<i64, u8> {
    match item {
        Ok(instant) => Ok(instant.timestamp()),
        Err(e) => Err(e.number()),
    }
}
