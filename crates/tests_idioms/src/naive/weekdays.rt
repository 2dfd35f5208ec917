//! Days of the week, ISO weeks and months by name.

use std::alloc::{AllocError, Global};
use zoned::{Datelike, Month, NaiveDate, OutOfRange, Weekday};

pub fn next_weekday(weekday: Weekday) -> Weekday {
    weekday.succ()
}

pub fn days_to_friday(date: NaiveDate) -> u32 {
    Weekday::Fri.days_since(date.weekday())
}

pub fn from_number(number: u8) -> Result<Weekday, OutOfRange> {
    Weekday::try_from(number)
}

pub fn short_title(alloc: Global, date: NaiveDate) -> Result<String, AllocError> {
    format!(in alloc; "{}, {date}", date.weekday())
}

pub fn number_of_iso() -> Option<NaiveDate> {
    NaiveDate::from_isoywd_opt(2020, 53, Weekday::Fri)
}

pub fn month_days(year: i32, month: u8) -> Result<Option<u8>, OutOfRange> {
    Ok(Month::try_from(month)?.num_days(year))
}

pub fn month_title(month: Month) -> &'static str {
    month.name()
}
