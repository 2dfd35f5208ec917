//! Lengths of time between instants of a kept zone.

use std::alloc::{AllocError, Global};
use zoned::{DateTime, KeptZone, TimeDelta};

pub fn until(start: DateTime<KeptZone>, end: DateTime<KeptZone>) -> TimeDelta {
    end - start
}

pub fn half_past(instant: &DateTime<KeptZone>) -> Option<DateTime<KeptZone>> {
    instant.checked_add_signed(TimeDelta::hours(1) + TimeDelta::minutes(30))
}

pub fn three_laps(start: &DateTime<KeptZone>) -> Option<DateTime<KeptZone>> {
    start.checked_add_signed(TimeDelta::minutes(20) * 3)
}

pub fn without_pause(
    start: &DateTime<KeptZone>,
    end: &DateTime<KeptZone>,
    pause: TimeDelta,
) -> Option<TimeDelta> {
    end.signed_duration_since(start).checked_sub(&pause)
}

pub fn since(start: Option<DateTime<KeptZone>>, end: DateTime<KeptZone>) -> TimeDelta {
    match start {
        Some(start) => end - start,
        None => TimeDelta::default(),
    }
}

pub fn as_late_as_can_be(instant: &DateTime<KeptZone>) -> Option<DateTime<KeptZone>> {
    instant.checked_add_signed(TimeDelta::MAX)
}

pub fn millis_between(start: &DateTime<KeptZone>, end: &DateTime<KeptZone>) -> i32 {
    end.signed_duration_since(start).subsec_millis()
}

pub fn took(
    alloc: Global,
    start: &DateTime<KeptZone>,
    end: &DateTime<KeptZone>,
) -> Result<String, AllocError> {
    let length = end.signed_duration_since(start);
    format!(in alloc; "took {length}")
}
