//! What an instant shows, as two numbers.

use zoned_time::{DateTime, Offset, TimeZone};

/// Its Unix time and its offset.
pub fn unix_and_offset<Tz: TimeZone>(instant: &DateTime<Tz>) -> (i64, i32) {
    (
        instant.timestamp(),
        instant.offset().fix().local_minus_utc(),
    )
}

pub fn unix_and_offset_if_any<Tz: TimeZone>(instant: Option<DateTime<Tz>>) -> Option<(i64, i32)> {
    match instant {
        Some(instant) => Some(unix_and_offset(&instant)),
        None => None,
    }
}
