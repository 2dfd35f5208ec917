//! Instants of UTC and of fixed offsets, and those of a zone's TZ string as such.

use crate::{MyError, by_clock};
use std::alloc::Global;
use zoned::{
    DateTime, FixedOffset, LocalResult, NaiveDate, NaiveDateTime, NaiveZoned, TimeZone,
    TimeZoneRef, Utc, WallClock, tz_info,
};

// New York's clocks since 2007: set forward at 02:00 on the second Sunday of March, and back at 02:00
// on the first of November.
const NEW_YORK: &str = "EST5EDT,M3.2.0,M11.1.0";

/// The first instant of 2020.
pub fn new_year() -> DateTime<Utc> {
    Utc.with_ymd_and_hms(2020, 1, 1, 0, 0, 0).unwrap()
}

/// The same by clocks five hours behind UTC.
pub fn new_year_in_the_west() -> DateTime<FixedOffset> {
    FixedOffset::west(18_000)
        .with_ymd_and_hms(2020, 1, 1, 0, 0, 0)
        .unwrap()
}

/// An instant by clocks an hour ahead of UTC.
pub fn an_hour_ahead(instant: &DateTime<Utc>) -> DateTime<FixedOffset> {
    instant.with_timezone(&FixedOffset::east(3_600))
}

/// Noon of a date in UTC.
pub fn noon(year: i32, month: u32, day: u32) -> Option<DateTime<Utc>> {
    let noon = NaiveDate::from_ymd_opt(year, month, day)?.and_hms_opt(12, 0, 0)?;
    Some(noon.and_utc())
}

/// Whether one instant comes before another one, of another zone type.
pub fn is_before(one: &DateTime<FixedOffset>, other: &DateTime<Utc>) -> bool {
    one.to_utc() < *other
}

/// The instants at which New York's clocks show a local time.
pub fn shown_in_new_york(
    alloc: Global,
    local: &NaiveDateTime,
) -> Result<LocalResult<DateTime<FixedOffset>>, MyError> {
    let parsed = tz_info::TimeZone::from_posix_tz(alloc, NEW_YORK)?;
    shown_in(&parsed, local)
}

/// The one instant at which they show it, by one call. A gap and a fold are errors. A `match` takes the
/// `Result` apart: `?` isn't covered there.
pub fn only_in_new_york(
    alloc: Global,
    local: &NaiveDateTime,
) -> Result<DateTime<FixedOffset>, MyError> {
    let mut probes = tz_info::Probes::new();
    match WallClock::from_posix_tz(alloc, NEW_YORK, local, &mut probes) {
        Ok(clock) => match clock.instants {
            Some(LocalResult::Single(only)) => Ok(only),
            Some(_) => Err(MyError::NoSuchTime),
            None => Err(MyError::WideZone),
        },
        Err(refused) => Err(MyError::Zone(refused)),
    }
}

fn shown_in(
    parsed: &tz_info::TimeZone,
    local: &NaiveDateTime,
) -> Result<LocalResult<DateTime<FixedOffset>>, MyError> {
    let zone = TimeZoneRef::new(parsed).ok_or(MyError::WideZone)?;
    Ok(by_clock(&zone, local))
}
