//! Instants of a kept zone, and what is made of them.

use crate::IdiomError;
use zoned::{
    Choice, DateTime, Datelike, Days, DurationRound, KeptZone, NaiveDate, NaiveDateTime, Offset,
    TimeDelta, TimeZone, Timelike, Utc,
};

pub fn at_second(zone: &KeptZone, second: i64) -> Option<DateTime<KeptZone>> {
    zone.timestamp_opt(second, 0).single()
}

/// A chain of `?`.
pub fn at_noon(
    zone: &KeptZone,
    year: i32,
    month: u32,
    day: u32,
    choice: Choice,
) -> Result<DateTime<KeptZone>, IdiomError> {
    let noon = NaiveDate::from_ymd_opt(year, month, day)
        .ok_or(IdiomError::NoSuchTime)?
        .and_hms_opt(12, 0, 0)
        .ok_or(IdiomError::NoSuchTime)?;
    Ok(zone.resolve(&noon, choice)?)
}

pub fn there(instant: &DateTime<Utc>, zone: &KeptZone) -> DateTime<KeptZone> {
    instant.with_timezone(zone)
}

/// What a lookup gives is asked at once.
pub fn seconds_ahead(zone: &KeptZone, utc: &NaiveDateTime) -> i32 {
    zone.offset_from_utc_datetime(utc).fix().local_minus_utc()
}

pub fn by_utc(instant: &DateTime<KeptZone>) -> DateTime<Utc> {
    instant.to_utc()
}

pub fn time_between(one: DateTime<KeptZone>, other: DateTime<KeptZone>) -> TimeDelta {
    one - other
}

pub fn hours_since(one: &DateTime<KeptZone>, other: &DateTime<KeptZone>) -> i64 {
    one.signed_duration_since(other).num_seconds() / 3_600
}

pub fn an_hour_later(instant: &DateTime<KeptZone>) -> Option<DateTime<KeptZone>> {
    instant.checked_add_signed(TimeDelta::hours(1))
}

pub fn next_day(instant: &DateTime<KeptZone>) -> Option<DateTime<KeptZone>> {
    instant.checked_add_days(Days::new(1))
}

pub fn in_five_minutes(instant: DateTime<KeptZone>) -> Result<DateTime<KeptZone>, IdiomError> {
    Ok(instant.duration_trunc(TimeDelta::minutes(5))?)
}

pub fn year(instant: &DateTime<KeptZone>) -> i32 {
    instant.date_naive().year()
}

pub fn hour_and_minute(instant: &DateTime<KeptZone>) -> (u32, u32) {
    (instant.hour(), instant.minute())
}

/// The earlier of the instants at which the clocks of two zones show noon of a day.
pub fn first_noon(
    zones: [KeptZone; 2],
    year: i32,
    month: u32,
    day: u32,
) -> Option<DateTime<KeptZone>> {
    let [one, other] = zones;
    let noons = [
        one.with_ymd_and_hms(year, month, day, 12, 0, 0).single()?,
        other.with_ymd_and_hms(year, month, day, 12, 0, 0).single()?,
    ];
    noons.iter().min().copied()
}

/// A zone, and an instant of it.
#[derive(Clone, Copy)]
pub struct Alarm {
    pub zone: KeptZone,
    pub instant: DateTime<KeptZone>,
}

impl Alarm {
    pub fn at(zone: KeptZone, second: i64) -> Option<Alarm> {
        let instant = zone.timestamp_opt(second, 0).single()?;
        Some(Alarm { zone, instant })
    }

    pub fn is_due(&self, now: &DateTime<KeptZone>) -> bool {
        self.instant <= *now
    }

    pub fn a_day_later(self) -> Option<Alarm> {
        let instant = self.instant.checked_add_days(Days::new(1))?;
        Some(Alarm {
            zone: self.zone,
            instant,
        })
    }
}
