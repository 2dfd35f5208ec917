//! Dates: the days around them, weeks, and dates by other names.

use std::alloc::{AllocError, Global};
use zoned::{Days, Month, NaiveDate, NaiveDateTime, TimeDelta, Weekday};

pub fn next_day(date: NaiveDate) -> Option<NaiveDate> {
    date.succ_opt()
}

pub fn previous_day(date: NaiveDate) -> NaiveDate {
    date.pred_opt().unwrap_or(NaiveDate::MIN)
}

pub fn leap_day() -> Option<NaiveDate> {
    let last = NaiveDate::from_ymd_opt(2024, 2, 28)?;
    Some(last.succ_opt().unwrap())
}

pub fn has_leap_day(date: NaiveDate) -> bool {
    date.leap_year()
}

pub fn due() -> Option<NaiveDate> {
    let issued = NaiveDate::from_ymd_opt(2024, 1, 31)?;
    Some(issued + Days::new(45))
}

pub fn six_weeks_on() -> Option<NaiveDate> {
    let start = NaiveDate::from_ymd_opt(2024, 1, 31)?;
    Some(start + TimeDelta::weeks(6))
}

pub fn six_weeks_later(date: NaiveDate) -> Option<NaiveDate> {
    date.checked_add_signed(TimeDelta::weeks(6))
}

pub fn days_until(from: NaiveDate, to: NaiveDate) -> i64 {
    (to - from).num_days()
}

pub fn week_from(alloc: Global, first: NaiveDate) -> Result<Vec<NaiveDate>, AllocError> {
    first.iter_days().take(7).collect(alloc)
}

pub fn weeks_from(alloc: Global, first: NaiveDate) -> Result<Vec<NaiveDate>, AllocError> {
    let mut weeks = Vec::new(alloc);
    for date in first.iter_weeks().take(4) {
        weeks.push(date)?;
    }
    Ok(weeks)
}

pub fn first_sunday() -> Option<NaiveDate> {
    let date = NaiveDate::from_ymd_opt(2022, 4, 18)?;
    Some(date.week(Weekday::Sun).first_day())
}

pub fn last_thursday(date: NaiveDate) -> Option<NaiveDate> {
    date.week(Weekday::Fri).checked_last_day()
}

pub fn thanksgiving(year: i32) -> Option<NaiveDate> {
    NaiveDate::from_weekday_of_month_opt(year, 11, Weekday::Thu, 4)
}

pub fn thanksgiving_of_2024() -> NaiveDate {
    NaiveDate::from_weekday_of_month_opt(2024, 11, Weekday::Thu, 4).unwrap()
}

pub fn year_day() -> NaiveDate {
    NaiveDate::from_yo_opt(2015, 100).unwrap()
}

pub fn month_end(year: i32, month: Month) -> Option<NaiveDate> {
    let days = month.num_days(year)?;
    NaiveDate::from_ymd_opt(year, month.number_from_month(), days as u32)
}

/// When something takes place.
#[derive(Clone, Copy)]
pub enum When {
    AllDay { first: NaiveDate, days: u32 },
    At(NaiveDateTime),
}

/// With a guard in place of a literal, `days: 1`, which isn't covered in a pattern with a date.
pub fn single_day(when: When) -> Option<NaiveDate> {
    match when {
        When::AllDay { first, days } if days == 1 => Some(first),
        _ => None,
    }
}

/// In place of a guard, `Some(next) if next <= until`, which isn't covered over a date.
pub fn is_due(next: Option<NaiveDate>, until: NaiveDate) -> bool {
    next.is_some_and(|next| next <= until)
}

/// The same by a reference, over which the guard is covered.
pub fn due_by_guard(next: Option<NaiveDate>, until: NaiveDate) -> Option<NaiveDate> {
    match &next {
        Some(next) if *next <= until => Some(*next),
        _ => None,
    }
}

/// The same by an `if` in the arm.
pub fn due_by_if(next: Option<NaiveDate>, until: NaiveDate) -> Option<NaiveDate> {
    match next {
        Some(next) => { if next <= until { Some(next) } else { None } }
        None => None,
    }
}

/// The same by `let .. else`.
pub fn due_date(next: Option<NaiveDate>, until: NaiveDate) -> Option<NaiveDate> {
    let Some(next) = next else {
        return None;
    };
    if next <= until { Some(next) } else { None }
}
