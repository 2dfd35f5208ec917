//! Dates, times of day and local date-times, without a time zone.
#![tactic(auto)]

mod convert;
mod date;
mod datelike;
mod datetime;
mod day_second;
mod iso_week;
pub mod laws;
mod month;
mod months_days;
mod out_of_range;
mod print;
mod range;
mod time;
mod timelike;
mod week;
mod weekday;

pub use date::{
    NaiveDate, NaiveDateDaysBack, NaiveDateDaysIterator, NaiveDateWeeksBack, NaiveDateWeeksIterator,
};
pub use datelike::Datelike;
pub use datetime::NaiveDateTime;
pub use iso_week::IsoWeek;
pub use month::Month;
pub use months_days::{Days, Months};
pub use out_of_range::OutOfRange;
pub use time::NaiveTime;
pub use timelike::Timelike;
pub use week::NaiveWeek;
pub use weekday::Weekday;
