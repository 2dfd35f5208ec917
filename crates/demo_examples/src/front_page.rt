//! The examples of the library's front page.

use crate::{MyError, line};
use std::alloc::{AllocError, Global};
use std::fmt;
use zoned::{
    Choice, DailySeries, DateTime, KeptZone, LocalResult, NaiveDate, NaiveDateTime, NaiveTime,
    TimeZone, TimeZoneRef, Utc, ZoneChange, ZoneDays, tz_info,
};

/// What a clock shows on a day, at a time of that day.
pub fn reading(date: (i32, u32, u32), hour: u32, minute: u32) -> Result<NaiveDateTime, MyError> {
    NaiveDate::from_ymd_opt(date.0, date.1, date.2)
        .ok_or(MyError::NoSuchTime)?
        .and_hms_opt(hour, minute, 0)
        .ok_or(MyError::NoSuchTime)
}

/// The Unix times of the instants at which the clocks of a zone show a time.
pub fn shown(
    alloc: Global,
    bytes: &[u8],
    date: (i32, u32, u32),
    hour: u32,
    minute: u32,
) -> Result<LocalResult<i64>, MyError> {
    let parsed = tz_info::TimeZone::from_tz_data(alloc, bytes)?;
    let new_york = TimeZoneRef::new(&parsed).ok_or(MyError::WideZone)?;
    let instants = new_york.with_ymd_and_hms(date.0, date.1, date.2, hour, minute, 0);
    Ok(instants.map(|instant| instant.timestamp()))
}

/// What the instant prints that a policy selects for a local time.
pub fn outcome(
    alloc: Global,
    bytes: &[u8],
    local: NaiveDateTime,
    choice: Choice,
) -> Result<String, MyError> {
    let parsed = tz_info::TimeZone::from_tz_data(alloc, bytes)?;
    outcome_in(alloc, &parsed, local, choice)
}

// That of a parsed zone: there is no `?` at a place at which the zone would be dropped, which takes
// long to prove.
fn outcome_in(
    alloc: Global,
    parsed: &tz_info::TimeZone,
    local: NaiveDateTime,
    choice: Choice,
) -> Result<String, MyError> {
    let new_york = TimeZoneRef::new(parsed).ok_or(MyError::WideZone)?;
    let instant = new_york.resolve(&local, choice)?;
    Ok(line(alloc, &instant)?)
}

/// What a meeting at a time of each day prints, a line a day.
pub fn daily(
    alloc: Global,
    bytes: &[u8],
    first: NaiveDate,
    time: NaiveTime,
    choice: Choice,
    days: u32,
) -> Result<Vec<String>, MyError> {
    let parsed = tz_info::TimeZone::from_tz_data(alloc, bytes)?;
    daily_in(alloc, &parsed, first, time, choice, days)
}

fn daily_in(
    alloc: Global,
    parsed: &tz_info::TimeZone,
    first: NaiveDate,
    time: NaiveTime,
    choice: Choice,
    days: u32,
) -> Result<Vec<String>, MyError> {
    let new_york = TimeZoneRef::new(parsed).ok_or(MyError::WideZone)?;
    lines_of(
        alloc,
        &DailySeries::new(new_york, first, time, choice),
        days,
    )
}

fn lines_of<Tz: TimeZone>(
    alloc: Global,
    series: &DailySeries<Tz>,
    days: u32,
) -> Result<Vec<String>, MyError>
where
    Tz::Offset: fmt::Display,
{
    let mut lines = Vec::new(alloc);
    for instant in series.days(days) {
        let instant = instant?;
        lines.push(format!(in alloc; "{instant}")?)?;
    }
    Ok(lines)
}

/// The Unix times at which a day starts, and at which clocks have reached a time of that day.
pub fn day_starts(
    alloc: Global,
    bytes: &[u8],
    date: (i32, u32, u32),
    hour: u32,
    minute: u32,
) -> Result<(Option<i64>, Option<i64>), MyError> {
    let parsed = tz_info::TimeZone::from_tz_data(alloc, bytes)?;
    day_starts_in(&parsed, date, hour, minute)
}

fn day_starts_in(
    parsed: &tz_info::TimeZone,
    date: (i32, u32, u32),
    hour: u32,
    minute: u32,
) -> Result<(Option<i64>, Option<i64>), MyError> {
    let new_york = TimeZoneRef::new(parsed).ok_or(MyError::WideZone)?;
    let day = NaiveDate::from_ymd_opt(date.0, date.1, date.2).ok_or(MyError::NoSuchTime)?;
    let start = new_york.start_of_day(day);
    let local = day.and_hms_opt(hour, minute, 0).ok_or(MyError::NoSuchTime)?;
    let first = new_york.first_at_or_after(&local);
    Ok((second_of(start), second_of(first)))
}

fn second_of<Tz: TimeZone>(instant: Option<DateTime<Tz>>) -> Option<i64> {
    Some(instant?.timestamp())
}

/// What the two instants of the next change of a zone's clocks print; `None` if they never
/// change again.
pub fn next_change(
    alloc: Global,
    bytes: &[u8],
    after: &DateTime<Utc>,
) -> Result<Option<(String, String)>, MyError> {
    let parsed = tz_info::TimeZone::from_tz_data(alloc, bytes)?;
    next_change_in(alloc, &parsed, after)
}

fn next_change_in(
    alloc: Global,
    parsed: &tz_info::TimeZone,
    after: &DateTime<Utc>,
) -> Result<Option<(String, String)>, MyError> {
    let new_york = TimeZoneRef::new(parsed).ok_or(MyError::WideZone)?;
    match new_york.next_change(after) {
        Some(change) => Ok(Some(lines_of_change(alloc, &change)?)),
        None => Ok(None),
    }
}

fn lines_of_change(alloc: Global, change: &ZoneChange<'_>) -> Result<(String, String), AllocError> {
    let before = line(alloc, &change.before)?;
    let at = line(alloc, &change.at)?;
    Ok((before, at))
}

/// A zone that is kept, and an instant of it.
#[derive(Clone, Copy)]
pub struct Alarm {
    pub zone: KeptZone,
    pub next: DateTime<KeptZone>,
}

/// An alarm at what the clocks of a zone show.
pub fn alarm_at(
    alloc: Global,
    bytes: &[u8],
    local: NaiveDateTime,
    choice: Choice,
) -> Result<Alarm, MyError> {
    let new_york = KeptZone::open(alloc, bytes)?;
    let next = new_york.resolve(&local, choice)?;
    Ok(Alarm {
        zone: new_york,
        next,
    })
}
