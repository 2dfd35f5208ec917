//! Instants moved by operators, and instants that have the offset of another.

use crate::shown::{unix_and_offset, unix_and_offset_if_any};
use naive_base::{Days, Months};
use offset_core::TimeDelta;
use std::time::Duration;
use zoned_time::{DateTime, TimeZone};

/// The instant moved by the operators, if the checked call returns a value.
pub fn by_operators<Tz: TimeZone>(instant: DateTime<Tz>, by: TimeDelta) -> Option<[(i64, i32); 2]> {
    if instant.checked_add_signed(by).is_none() {
        return None;
    }
    let mut moved = instant;
    moved += by;
    Some([unix_and_offset(&(instant + by)), unix_and_offset(&moved)])
}

pub fn back_by_operators<Tz: TimeZone>(
    instant: DateTime<Tz>,
    by: TimeDelta,
) -> Option<[(i64, i32); 2]> {
    if instant.checked_sub_signed(by).is_none() {
        return None;
    }
    let mut moved = instant;
    moved -= by;
    Some([unix_and_offset(&(instant - by)), unix_and_offset(&moved)])
}

/// By a duration of the standard library, if it is in range.
pub fn by_duration<Tz: TimeZone>(instant: DateTime<Tz>, by: Duration) -> Option<(i64, i32)> {
    let length = TimeDelta::from_std(by)?;
    if instant.checked_add_signed(length).is_none() {
        return None;
    }
    Some(unix_and_offset(&(instant + by)))
}

pub fn moved_by_nothing<Tz: TimeZone>(instant: &DateTime<Tz>) -> Option<(i64, i32)> {
    unix_and_offset_if_any(instant.checked_add_signed(TimeDelta::zero()))
}

/// Months and days by operators, if the checked calls return a value.
pub fn months_later<Tz: TimeZone>(instant: DateTime<Tz>, months: Months) -> Option<i64> {
    let _later = instant.checked_add_months(months)?;
    Some((instant + months).timestamp())
}

pub fn days_earlier_by_operator<Tz: TimeZone>(instant: DateTime<Tz>, days: Days) -> Option<i64> {
    let _earlier = instant.checked_sub_days(days)?;
    Some((instant - days).timestamp())
}

/// The instant of the first with the offset of the second.
pub fn disagreeing<Tz: TimeZone>(instant: &DateTime<Tz>, other: &DateTime<Tz>) -> DateTime<Tz> {
    DateTime::from_naive_utc_and_offset(instant.naive_utc(), *other.offset())
}
