//! Months and years by the calendar.

use crate::MyError;
use std::alloc::Global;
use zoned::{Datelike, Days, Month, NaiveDate, NaiveWeek, Weekday};

/// Returns the weeks that show a month, each from Monday to Sunday.
///
/// # Errors
///
/// [`MyError::NoSuchTime`] for a month that the calendar doesn't have; running out of memory.
pub fn month_grid(alloc: Global, year: i32, month: u32) -> Result<Vec<NaiveWeek>, MyError> {
    let first = NaiveDate::from_ymd_opt(year, month, 1).ok_or(MyError::NoSuchTime)?;
    let mut weeks = Vec::new(alloc);
    for date in first.iter_weeks() {
        let week = date.week(Weekday::Mon);
        let Some(monday) = week.checked_first_day() else {
            break;
        };
        if monday > first && monday.month() != month {
            break;
        }
        weeks.push(week)?;
    }
    Ok(weeks)
}

/// Returns Thanksgiving of the United States, the fourth Thursday of November. `None` if the year is
/// out of range.
pub fn thanksgiving(year: i32) -> Option<NaiveDate> {
    NaiveDate::from_weekday_of_month_opt(year, 11, Weekday::Thu, 4)
}

/// Returns the last of a weekday in a month. `None` if the year is out of range.
pub fn last_weekday(year: i32, month: Month, weekday: Weekday) -> Option<NaiveDate> {
    let days = month.num_days(year)?;
    let last = NaiveDate::from_ymd_opt(year, month.number_from_month(), u32::from(days))?;
    let back = last.weekday().days_since(weekday);
    last.checked_sub_days(Days::new(u64::from(back)))
}

/// Returns how many whole years someone is on a date; `None` before their birth.
pub fn age_on(date: NaiveDate, birth: NaiveDate) -> Option<u32> {
    date.years_since(birth)
}

/// Returns the next birthday from a date on: one of 29 February is on 1 March of common years. `None`
/// if it is out of range.
pub fn next_birthday(birth: NaiveDate, from: NaiveDate) -> Option<NaiveDate> {
    let this_year = birthday_in(birth, from.year())?;
    if this_year >= from {
        Some(this_year)
    } else {
        birthday_in(birth, from.year().checked_add(1)?)
    }
}

fn birthday_in(birth: NaiveDate, year: i32) -> Option<NaiveDate> {
    match birth.with_year(year) {
        Some(date) => Some(date),
        None => NaiveDate::from_ymd_opt(year, 3, 1),
    }
}
