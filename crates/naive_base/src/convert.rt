//! Dates from local date-times, and local date-times from dates.
ghost use Rattle.std.specs.Prelude.{◌≡◌};
ghost use Rattle.naive_base.specs.{NaiveDate.{day_of}, NaiveDateTime.{reading}, Reading.{day_at, reading_at}};

use crate::{NaiveDate, NaiveDateTime, NaiveTime};

/// The start of the day, at midnight.
///
/// ```
/// let midnight = NaiveDateTime::from(NaiveDate::from_ymd_opt(2021, 3, 14)?); // 2021-03-14T00:00:00
/// ```
impl From<NaiveDate> for NaiveDateTime {
    ghost from_gives = { λ date datetime. reading datetime ≡ reading_at (day_of date) 0 0 };

    fn from(date: NaiveDate) -> NaiveDateTime {
        date.and_time(NaiveTime::MIN)
    }
}

/// The day that the clock shows.
impl From<NaiveDateTime> for NaiveDate {
    ghost from_gives = { λ datetime date. day_of date ≡ day_at (reading datetime) };

    fn from(datetime: NaiveDateTime) -> NaiveDate {
        datetime.date()
    }
}
