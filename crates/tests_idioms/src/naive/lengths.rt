//! Lengths of time.

use std::alloc::{AllocError, Global};
use std::time::Duration;
use zoned::{OutOfRangeError, TimeDelta};

pub fn hour_and_a_half() -> TimeDelta {
    TimeDelta::hours(1) + TimeDelta::minutes(30)
}

pub fn three_times() -> TimeDelta {
    TimeDelta::minutes(20) * 3
}

pub fn halved(delta: TimeDelta) -> TimeDelta {
    delta / 2
}

pub fn without(delta: TimeDelta, pause: TimeDelta) -> Option<TimeDelta> {
    delta.checked_sub(&pause)
}

pub fn nothing() -> TimeDelta {
    TimeDelta::default()
}

pub fn longer(one: TimeDelta, other: TimeDelta) -> TimeDelta {
    one.max(other)
}

pub fn total(deltas: &[TimeDelta]) -> Option<TimeDelta> {
    let mut total = TimeDelta::zero();
    for delta in deltas {
        total = total.checked_add(delta)?;
    }
    Some(total)
}

pub fn millis_past_the_second(delta: TimeDelta) -> i32 {
    delta.subsec_millis()
}

pub fn as_duration(delta: TimeDelta) -> Result<Duration, OutOfRangeError> {
    delta.to_std()
}

pub fn shown(alloc: Global, delta: TimeDelta) -> Result<String, AllocError> {
    format!(in alloc; "took {delta}")
}
