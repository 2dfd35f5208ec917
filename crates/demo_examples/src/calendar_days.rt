//! Days, weeks, months and years of a zone.

use crate::MyError;
use std::alloc::Global;
use zoned::{DateTime, NaiveDate, TimeZoneRef, Utc, Weekday, ZoneDays, tz_info};

/// What is asked about a date.
#[derive(Clone, Copy, Debug, PartialEq, Eq)]
pub enum Question {
    /// When its day starts.
    Day,
    /// The last instant of its day.
    EndOfDay,
    /// When its week starts, on a Monday.
    Week,
    /// When its month starts.
    Month,
    /// When its year starts.
    Year,
}

/// The answer, as it prints.
pub fn day_answer(
    alloc: Global,
    bytes: &[u8],
    date: (i32, u32, u32),
    question: Question,
) -> Result<String, MyError> {
    let parsed = tz_info::TimeZone::from_tz_data(alloc, bytes)?;
    day_answer_in(alloc, &parsed, date, question)
}

fn day_answer_in(
    alloc: Global,
    parsed: &tz_info::TimeZone,
    date: (i32, u32, u32),
    question: Question,
) -> Result<String, MyError> {
    let zone = TimeZoneRef::new(parsed).ok_or(MyError::WideZone)?;
    let day = NaiveDate::from_ymd_opt(date.0, date.1, date.2).ok_or(MyError::NoSuchTime)?;
    let instant = match question {
        Question::Day => zone.start_of_day(day),
        Question::EndOfDay => zone.end_of_day(day),
        Question::Week => zone.start_of_week(day, Weekday::Mon),
        Question::Month => zone.start_of_month(day),
        Question::Year => zone.start_of_year(day),
    };
    let instant = instant.ok_or(MyError::NoSuchTime)?;
    Ok(format!(in alloc; "{instant}")?)
}

/// How many seconds a day lasts.
pub fn seconds_of_day(alloc: Global, bytes: &[u8], date: (i32, u32, u32)) -> Result<i64, MyError> {
    let parsed = tz_info::TimeZone::from_tz_data(alloc, bytes)?;
    seconds_of_day_in(&parsed, date)
}

fn seconds_of_day_in(parsed: &tz_info::TimeZone, date: (i32, u32, u32)) -> Result<i64, MyError> {
    let zone = TimeZoneRef::new(parsed).ok_or(MyError::WideZone)?;
    let day = NaiveDate::from_ymd_opt(date.0, date.1, date.2).ok_or(MyError::NoSuchTime)?;
    let length = zone.length_of_day(day).ok_or(MyError::NoSuchTime)?;
    Ok(length.num_seconds())
}

/// When the day of an instant starts.
pub fn same_day(instant: &DateTime<Utc>) -> Option<DateTime<Utc>> {
    instant.start_of_day()
}
