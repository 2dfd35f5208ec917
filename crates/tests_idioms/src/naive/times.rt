//! Times of day and local date-times.

use zoned::{Days, NaiveDate, NaiveDateTime, NaiveTime, TimeDelta};

pub fn at_noon(date: NaiveDate) -> Option<NaiveDateTime> {
    Some(NaiveDateTime::new(date, NaiveTime::from_hms_opt(12, 0, 0)?))
}

pub fn since(start: NaiveDateTime, now: NaiveDateTime) -> TimeDelta {
    now - start
}

pub fn worked(start: NaiveTime, end: NaiveTime) -> TimeDelta {
    end - start
}

pub fn snoozed(alarm: NaiveTime) -> NaiveTime {
    alarm + TimeDelta::minutes(9)
}

pub fn before_lunch(time: NaiveTime) -> NaiveTime {
    time - TimeDelta::hours(12)
}

pub fn past_midnight(time: NaiveTime, delta: TimeDelta) -> (NaiveTime, i64) {
    let (time, seconds) = time.overflowing_add_signed(delta);
    (time, seconds / 86_400)
}

pub fn hours_from_midnight(time: NaiveTime) -> i64 {
    time.signed_duration_since(NaiveTime::MIN).num_hours()
}

pub fn end_of_shift() -> Option<NaiveDateTime> {
    let start = NaiveDate::from_ymd_opt(2024, 1, 31)?.and_hms_opt(22, 0, 0)?;
    Some(start + TimeDelta::hours(8))
}

pub fn end_of_long_shift(start: NaiveDateTime) -> Option<NaiveDateTime> {
    start.checked_add_signed(TimeDelta::hours(12))
}

pub fn next_morning() -> Option<NaiveDateTime> {
    let start = NaiveDate::from_ymd_opt(2024, 2, 28)?.and_hms_opt(7, 30, 0)?;
    Some(start + Days::new(1))
}
