//! Times as they are typed: `2026`, `2026-11-01`, `2026-11-01T09:00`, `2026-11-01T09:00:30Z`,
//! `2026-11-01T09:00+01:00`, `@1793523600`.

use naive_base::{Datelike, NaiveDate, NaiveDateTime, NaiveTime};
use zonedump_lib::Bound;

// How many bytes an offset has, as `+01:00`.
const OFFSET: usize = 6;

/// A time as it is typed.
#[derive(Clone, Copy)]
pub enum Typed {
    /// A date and a time of day, with no zone.
    Plain(NaiveDateTime),
    /// A Unix time: the text ends in `Z` or in an offset, or has the seconds after `@`.
    Instant(i64),
}

/// Returns the time that a text means. `None` if it has not one of the forms, or if the calendar or
/// the clock has no such date or time.
pub fn read_time(text: &str) -> Option<Typed> {
    if let Some(seconds) = text.strip_prefix('@') {
        return Some(Typed::Instant(seconds.parse::<i64>().ok()?));
    }
    if let Some(utc) = text.strip_suffix('Z') {
        return Some(Typed::Instant(date_time_of(utc)?.secs_since_epoch()));
    }
    if let Some(second) = second_of(text) {
        return Some(Typed::Instant(second));
    }
    Some(Typed::Plain(date_time_of(text)?))
}

// The second of a time with its offset from UTC, as `2026-11-01T09:00+01:00`.
fn second_of(text: &str) -> Option<i64> {
    let (local, offset) = text.split_at_checked(text.len().checked_sub(OFFSET)?)?;
    let second = date_time_of(local)?.secs_since_epoch();
    if let Some(clock) = offset.strip_prefix('+') {
        return Some(second.saturating_sub(seconds_of(clock)?));
    }
    Some(second.saturating_add(seconds_of(offset.strip_prefix('-')?)?))
}

// The seconds of an offset, `01:00`.
fn seconds_of(clock: &str) -> Option<i64> {
    Some(time_of(clock)?.num_seconds_from_midnight() as i64)
}

/// Returns the year or the date that a text means. `None` if it is neither, or not in the years 1 to
/// 9999.
pub fn read_bound(text: &str) -> Option<Bound> {
    let Some(date) = date_of(text) else {
        return Some(Bound::Year(year_of(text)?));
    };
    if date.year() > 0 {
        Some(Bound::Date(date))
    } else {
        None
    }
}

// A year from 1 to 9999.
fn year_of(text: &str) -> Option<u16> {
    let year = text.parse::<u16>().ok()?;
    (0 < year && year < 10_000).then_some(year)
}

fn date_time_of(text: &str) -> Option<NaiveDateTime> {
    if let Some((date, time)) = text.split_once('T') {
        return Some(NaiveDateTime::new(date_of(date)?, time_of(time)?));
    }
    if let Some((date, time)) = text.split_once(' ') {
        return Some(NaiveDateTime::new(date_of(date)?, time_of(time)?));
    }
    date_of(text)?.and_hms_opt(0, 0, 0)
}

// `2026-11-01`
fn date_of(text: &str) -> Option<NaiveDate> {
    let (year, rest) = text.split_once('-')?;
    let (month, day) = rest.split_once('-')?;
    let year = number(year, 4)?;
    let month = number(month, 2)?;
    let day = number(day, 2)?;
    NaiveDate::from_ymd_opt(year as i32, month as u32, day as u32)
}

// `09:00` or `09:00:30`
fn time_of(text: &str) -> Option<NaiveTime> {
    let (hour, rest) = text.split_once(':')?;
    let (minute, second) = rest.split_once(':').unwrap_or((rest, "00"));
    let hour = number(hour, 2)?;
    let minute = number(minute, 2)?;
    let second = number(second, 2)?;
    NaiveTime::from_hms_opt(hour as u32, minute as u32, second as u32)
}

// A number of that many digits.
fn number(text: &str, digits: usize) -> Option<u16> {
    if text.len() != digits || !text.bytes().all(|byte| byte.is_ascii_digit()) {
        return None;
    }
    text.parse::<u16>().ok()
}
