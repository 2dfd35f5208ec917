//! The proleptic Gregorian calendar by day numbers.
//!
//! A day number counts days from 1970-01-01, which is day 0. Years are astronomical: the year 0 is
//! a leap year and comes before the year 1. Nothing here runs over years or months: each call is a
//! few multiplications. Calls take the years of an `i32`, and the days from [`FIRST_DAY`] to
//! [`LAST_DAY`], which are theirs ([`is_day`]); the laws speak of all years.
//!
//! Inside, days and years are counted from a year far before every `i32`, so that all sums are of
//! unsigned numbers. A date is found by years that begin in March, in which the leap day is the last
//! day of the year.
//!
//! Proved: each year has 365 or 366 days; each day lies in exactly one year and one week, and has
//! exactly one date. Each call is exact. Only tested: the `{:?}` texts of `YearMonthDay` and `YearDay`.
#![tactic(auto)]

pub mod comparisons;
mod dates;
mod months;
mod weekdays;
mod weeks;
mod year_days;
mod years;

pub use dates::{YearMonthDay, date_of, dates_law, day_number, is_date, month_and_day};
pub use months::{days_before_month, days_in_month};
pub use weekdays::{weekday_of, weekdays_law};
pub use weeks::{thursday_of_week, weeks_law};
pub use year_days::{YearDay, year_day_of};
pub use years::{
    FIRST_DAY, LAST_DAY, day_of_year, days_in_year, is_day, is_leap_year, year_of, year_start,
    years_law,
};
