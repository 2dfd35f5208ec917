//! Fields as clients use them: one is an index, or is taken from a number, with no proof.

use naive_base::{Datelike, IsoWeek, Timelike, Weekday};

const MONTHS: [&str; 12] = [
    "Jan", "Feb", "Mar", "Apr", "May", "Jun", "Jul", "Aug", "Sep", "Oct", "Nov", "Dec",
];

const MONDAY_FIRST: [&str; 7] = ["Mo", "Tu", "We", "Th", "Fr", "Sa", "Su"];

const SUNDAY_FIRST: [&str; 7] = ["Su", "Mo", "Tu", "We", "Th", "Fr", "Sa"];

pub fn month_by_month0<D: Datelike>(date: &D) -> &'static str {
    MONTHS[date.month0() as usize]
}

pub fn month_by_month<D: Datelike>(date: &D) -> &'static str {
    MONTHS[date.month() as usize - 1]
}

pub fn last_by_day<D: Datelike>(date: &D) -> (u32, u32) {
    (date.day() - 1, 31 - date.day())
}

pub fn mark_by_day0<D: Datelike>(date: &D) -> [bool; 31] {
    let mut days = [false; 31];
    days[date.day0() as usize] = true;
    days
}

pub fn around_by_ordinal<D: Datelike>(date: &D) -> (u32, u32) {
    (date.ordinal() - 1, 366 - date.ordinal())
}

pub fn mark_by_ordinal0<D: Datelike>(date: &D) -> [bool; 366] {
    let mut days = [false; 366];
    days[date.ordinal0() as usize] = true;
    days
}

pub fn until_midnight<T: Timelike>(time: &T) -> (u32, u32, u32) {
    (23 - time.hour(), 59 - time.minute(), 59 - time.second())
}

pub fn until_the_leap_seconds_end<T: Timelike>(time: &T) -> u32 {
    1_999_999_999 - time.nanosecond()
}

pub fn names_by_days(weekday: Weekday) -> (&'static str, &'static str) {
    (
        MONDAY_FIRST[weekday.num_days_from_monday() as usize],
        SUNDAY_FIRST[weekday.num_days_from_sunday() as usize],
    )
}

pub fn names_by_number(weekday: Weekday) -> (&'static str, &'static str) {
    (
        MONDAY_FIRST[weekday.number_from_monday() as usize - 1],
        SUNDAY_FIRST[weekday.number_from_sunday() as usize - 1],
    )
}

pub fn mark_by_week(week: IsoWeek) -> ([bool; 53], u32) {
    let mut weeks = [false; 53];
    weeks[week.week0() as usize] = true;
    (weeks, week.week() - 1)
}
