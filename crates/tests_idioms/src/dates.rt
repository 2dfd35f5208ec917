//! The dates that the clocks of a kept zone show, and those around them.

use std::alloc::{AllocError, Global};
use zoned::{
    DateTime, Datelike, KeptZone, Month, NaiveDate, OutOfRange, Weekday, ZoneDays, gregorian,
};

pub fn next_date(instant: &DateTime<KeptZone>) -> Option<NaiveDate> {
    instant.date_naive().succ_opt()
}

pub fn previous_date(instant: &DateTime<KeptZone>) -> Option<NaiveDate> {
    instant.date_naive().pred_opt()
}

pub fn monday_before(instant: &DateTime<KeptZone>) -> Option<NaiveDate> {
    instant.date_naive().week(Weekday::Mon).checked_first_day()
}

pub fn nights(arrival: &DateTime<KeptZone>, departure: &DateTime<KeptZone>) -> i64 {
    (departure.date_naive() - arrival.date_naive()).num_days()
}

pub fn dates_since(instant: &DateTime<KeptZone>, first: NaiveDate) -> i64 {
    let length = instant.date_naive().signed_duration_since(first);
    length.num_days()
}

pub fn by_iso_week(zone: &KeptZone, year: i32, week: u32) -> Option<DateTime<KeptZone>> {
    zone.start_of_day(NaiveDate::from_isoywd_opt(year, week, Weekday::Mon)?)
}

pub fn by_day_of_year(zone: &KeptZone, year: i32, day: u32) -> Option<DateTime<KeptZone>> {
    zone.start_of_day(NaiveDate::from_yo_opt(year, day)?)
}

pub fn is_in_leap_year(instant: &DateTime<KeptZone>) -> bool {
    instant.date_naive().leap_year()
}

pub fn days_in_month(instant: &DateTime<KeptZone>) -> u32 {
    gregorian::days_in_month(instant.year(), instant.month())
}

pub fn is_first_date(instant: &DateTime<KeptZone>) -> bool {
    instant.date_naive() == NaiveDate::MIN
}

pub fn is_last_date(instant: &DateTime<KeptZone>) -> bool {
    instant.date_naive() == NaiveDate::MAX
}

pub fn title(alloc: Global, instant: &DateTime<KeptZone>) -> Result<String, AllocError> {
    format!(in alloc; "{}, {}", instant.weekday(), instant.date_naive())
}

pub fn is_on(instant: &DateTime<KeptZone>, weekday: u8) -> Result<bool, OutOfRange> {
    Ok(instant.weekday() == Weekday::try_from(weekday)?)
}

pub fn month_name(instant: &DateTime<KeptZone>) -> Option<&'static str> {
    let month = u8::try_from(instant.month()).ok()?;
    Some(Month::try_from(month).ok()?.name())
}
