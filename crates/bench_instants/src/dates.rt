//! The answers about dates and local date-times, which need no time zone.
//!
//! A date is stored otherwise in each library, so none of its numbers is an answer that costs all of
//! them the same. The latest of the dates is: it takes a comparison of each. Here days and seconds are
//! compared, which is what this library stores.

use crate::place::Place;
use crate::values::{NONE, OfWeek, OfYear, Typed};
use naive_base::{Datelike, Months, NaiveDate, NaiveDateTime, Timelike};

/// The sum of the digits of each date, as 20200102.
pub fn date_fields<P: Place>(dates: &[NaiveDate]) -> i64 {
    let mut sum = 0i64;
    for date in dates {
        sum = sum.wrapping_add(digits::<NaiveDate, P>(date));
    }
    sum
}

/// The sum of the days of the week, counted from Monday, which is 0.
pub fn weekdays<P: Place>(dates: &[NaiveDate]) -> i64 {
    let mut sum = 0i64;
    for date in dates {
        sum = sum.wrapping_add(i64::from(date.weekday().num_days_from_monday()));
    }
    sum
}

/// The sum of the days of the year.
pub fn ordinals<P: Place>(dates: &[NaiveDate]) -> i64 {
    let mut sum = 0i64;
    for date in dates {
        sum = sum.wrapping_add(i64::from(date.ordinal()));
    }
    sum
}

/// The sum of the digits of each ISO week, as 202001.
pub fn iso_weeks<P: Place>(dates: &[NaiveDate]) -> i64 {
    let mut sum = 0i64;
    for date in dates {
        let week = date.iso_week();
        let digits = i64::from(week.year())
            .wrapping_mul(100)
            .wrapping_add(i64::from(week.week()));
        sum = sum.wrapping_add(digits);
    }
    sum
}

/// The latest of the dates a month later, counted in days.
pub fn dates_months_later<P: Place>(dates: &[NaiveDate]) -> i64 {
    let mut latest = NONE;
    for date in dates {
        latest = latest.max(day_of::<P>(date.checked_add_months(Months::new(1))));
    }
    latest
}

/// The latest of the dates with June for their months. `NONE` if none has that day.
pub fn in_june<P: Place>(dates: &[NaiveDate]) -> i64 {
    let mut latest = NONE;
    for date in dates {
        latest = latest.max(day_of::<P>(date.with_month(6)));
    }
    latest
}

/// The latest of the dates of a year, a month and a day.
pub fn of_month<P: Place>(typed: &[Typed]) -> i64 {
    let mut latest = NONE;
    for each in typed {
        let date = NaiveDate::from_ymd_opt(each.year, each.month, each.day);
        latest = latest.max(day_of::<P>(date));
    }
    latest
}

/// The latest of the dates of a year and its day.
pub fn of_year<P: Place>(ordinals: &[OfYear]) -> i64 {
    let mut latest = NONE;
    for each in ordinals {
        latest = latest.max(day_of::<P>(NaiveDate::from_yo_opt(each.year, each.ordinal)));
    }
    latest
}

/// The latest of the dates of an ISO week and its day.
pub fn of_week<P: Place>(weeks: &[OfWeek]) -> i64 {
    let mut latest = NONE;
    for each in weeks {
        let date = NaiveDate::from_isoywd_opt(each.year, each.week, each.weekday);
        latest = latest.max(day_of::<P>(date));
    }
    latest
}

/// The sum of the digits of each local date-time, as 20200102030405.
pub fn local_fields<P: Place>(readings: &[NaiveDateTime]) -> i64 {
    let mut sum = 0i64;
    for reading in readings {
        let time = i64::from(reading.hour())
            .wrapping_mul(10_000)
            .wrapping_add(i64::from(reading.minute()).wrapping_mul(100))
            .wrapping_add(i64::from(reading.second()));
        let all = digits::<NaiveDateTime, P>(reading)
            .wrapping_mul(1_000_000)
            .wrapping_add(time);
        sum = sum.wrapping_add(all);
    }
    sum
}

/// The latest of the local date-times a month later, as a Unix time.
pub fn local_months_later<P: Place>(readings: &[NaiveDateTime]) -> i64 {
    let mut latest = NONE;
    for reading in readings {
        latest = latest.max(second_or_none::<P>(reading.checked_add_months(Months::new(1))));
    }
    latest
}

fn digits<D: Datelike, P: Place>(date: &D) -> i64 {
    i64::from(date.year())
        .wrapping_mul(10_000)
        .wrapping_add(i64::from(date.month()).wrapping_mul(100))
        .wrapping_add(i64::from(date.day()))
}

fn day_of<P: Place>(found: Option<NaiveDate>) -> i64 {
    match found {
        Some(date) => i64::from(date.num_days_from_ce()),
        None => NONE,
    }
}

fn second_or_none<P: Place>(found: Option<NaiveDateTime>) -> i64 {
    match found {
        Some(reading) => reading.secs_since_epoch(),
        None => NONE,
    }
}
