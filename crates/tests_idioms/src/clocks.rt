//! What the clocks of a kept zone show, in gaps and folds and at other times of the day.

use std::alloc::{AllocError, Global};
use zoned::{
    DateTime, FixedOffset, KeptZone, LocalResult, Months, NaiveDate, NaiveDateTime, NaiveTime,
    NaiveZoned, TimeDelta, TimeZone, Timelike, Utc, ZoneDays,
};

pub fn new_year(zone: &KeptZone, year: i32) -> LocalResult<DateTime<KeptZone>> {
    zone.with_ymd_and_hms(year, 1, 1, 0, 0, 0)
}

pub fn last_pass(zone: &KeptZone, local: &NaiveDateTime) -> Option<DateTime<KeptZone>> {
    zone.from_local_datetime(local).latest()
}

pub fn at_time(
    zone: &KeptZone,
    date: NaiveDate,
    time: NaiveTime,
) -> LocalResult<DateTime<KeptZone>> {
    zone.from_local_datetime(&date.and_time(time))
}

pub fn by_utc(instant: &DateTime<KeptZone>) -> DateTime<Utc> {
    instant.naive_utc().and_utc()
}

pub fn hour_nine(instant: &DateTime<KeptZone>) -> Option<DateTime<KeptZone>> {
    instant.with_hour(9)
}

pub fn day_starts(instant: &DateTime<KeptZone>) -> Option<DateTime<KeptZone>> {
    instant.start_of_day()
}

pub fn gap_end(zone: &KeptZone, local: &NaiveDateTime) -> Option<DateTime<KeptZone>> {
    zone.first_at_or_after(local)
}

pub fn renewal(instant: &DateTime<KeptZone>) -> Option<DateTime<KeptZone>> {
    instant.checked_add_months(Months::new(12))
}

pub fn noon(zone: &KeptZone, date: NaiveDate) -> Option<DateTime<KeptZone>> {
    let noon = NaiveDateTime::new(date, NaiveTime::from_hms_opt(12, 0, 0)?);
    zone.from_local_datetime(&noon).single()
}

pub fn end_of_shift(zone: &KeptZone) -> Option<DateTime<KeptZone>> {
    let start = NaiveDate::from_ymd_opt(2024, 1, 31)?.and_hms_opt(22, 0, 0)?;
    zone.from_local_datetime(&(start + TimeDelta::hours(8)))
        .single()
}

pub fn shown_between(start: &DateTime<KeptZone>, end: &DateTime<KeptZone>) -> TimeDelta {
    end.naive_local() - start.naive_local()
}

pub fn snoozed(instant: &DateTime<KeptZone>) -> (NaiveTime, i64) {
    instant.time().overflowing_add_signed(TimeDelta::minutes(9))
}

pub fn is_same(instant: &DateTime<KeptZone>, elsewhere: &DateTime<FixedOffset>) -> bool {
    instant.same_instant(elsewhere)
}

pub fn rfc3339(alloc: Global, instant: &DateTime<KeptZone>) -> Result<String, AllocError> {
    format!(in alloc; "{:?}", instant.fixed_offset())
}

/// A zone and an instant of it, printed, compared and hashed.
#[derive(Clone, Copy, Debug, PartialEq, Eq, Hash)]
pub struct Alarm {
    pub zone: KeptZone,
    pub at: DateTime<KeptZone>,
}

pub fn is_same_alarm(one: &Alarm, other: &Alarm) -> bool {
    one == other
}
