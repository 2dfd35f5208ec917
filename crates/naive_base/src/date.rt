//! Dates.
ghost use Rattle.std.specs.Prelude.{◌≡◌, ◌↔◌, ◌+◌, ◌*◌, ◌+ℤ◌, ◌-ℤ◌, ◌*ℤ◌, pos, IfSome, IsTrue};
ghost use Rattle.{
  gregorian.specs.{Date.{day_number, IsDate}, DateOf.{day_of_month, month_of, year_of}, Year.{floor_div}},
  naive_base.specs.{Clock.{clock_second, IsClock}, Reading.{day_at, reading_at, second_at}},
};
ghost use Rattle.naive_base.specs.Range as range;

mod back;
mod days;
mod fields;
mod found;
mod moves;
mod operators;

use crate::day_second::day_and_second;
use crate::range::{FIRST_DAY_IN_RANGE, FIRST_YEAR, LAST_DAY_IN_RANGE, LAST_YEAR};
use crate::{NaiveDateTime, NaiveTime};
pub use back::{NaiveDateDaysBack, NaiveDateWeeksBack};
pub use days::{NaiveDateDaysIterator, NaiveDateWeeksIterator};
use gregorian::YearMonthDay;

/// A day of the proleptic Gregorian calendar, in the years -262143 to 262142.
///
/// The date of a [`NaiveDateTime`] on a buffer day is the one day before those years, or the one
/// after them. Dates compare and hash by their days. A date prints as `2012-03-04`, and a year
/// before 0 or after 9999 with its sign, such as `-0001-12-31` or `+12345-01-01`, whatever width,
/// fill or flags the formatter has. `{:?}` prints the same.
#[derive(Clone, Copy, PartialEq, Eq, PartialOrd, Ord, Hash)]
pub struct NaiveDate {
    day: i32,
    pub ghost in_range: { range.IsWideDay day },
}

// 1970-01-01, where 0001-01-01 is day 1.
const EPOCH_FROM_CE: i64 = 719_163;

fn day_in_range(year: i32, month: u32, day: u32) -> i32
    requires year { range.IsYearInRange year }
    requires date { IsDate year month day }
    ensures value { result ≡ day_number year month day }
    ensures bound { range.IsDayInRange result }
{
    gregorian::day_number(year, month, day) as i32
}

impl NaiveDate {
    ghost use Rattle.naive_base.specs.{NaiveDate.{day_of, IsDateOf, IsDateOfDay}, NaiveDateTime.{reading, IsReadingOn}};
    ghost use Rattle.naive_base.specs.NaiveTime.{fraction_of, second_of};

    /// The first date in range, 1 January of the year -262143.
    pub const MIN: NaiveDate = NaiveDate {
        day: FIRST_DAY_IN_RANGE,
    };

    /// The last date in range, 31 December of the year 262142.
    pub const MAX: NaiveDate = NaiveDate {
        day: LAST_DAY_IN_RANGE,
    };

    /// Returns the date of a year, a month from 1 and a day of the month from 1. `None` if the
    /// calendar has no such date, or the year is not one from -262143 to 262142.
    ///
    /// ```
    /// let leap_day = NaiveDate::from_ymd_opt(2024, 2, 29); // Some(2024-02-29)
    /// let none = NaiveDate::from_ymd_opt(2023, 2, 29); // None
    /// ```
    pub fn from_ymd_opt(year: i32, month: u32, day: u32) -> Option<NaiveDate>
        ensures value { IsDateOf year month day result }
        ensures in_range { IfSome result (λ d. range.IsDayInRange (day_of d)) }
        ensures inner { range.IsInnerYear year → IfSome result (λ d. range.IsInnerDay (day_of d)) }
    {
        if year < FIRST_YEAR || year > LAST_YEAR {
            return None;
        }
        if gregorian::is_date(year, month, day) {
            return Some(NaiveDate::of_ymd(year, month, day));
        }
        None
    }

    // The date with these fields, which the calendar has.
    pub(crate) fn of_ymd(year: i32, month: u32, day: u32) -> NaiveDate
        requires year { range.IsYearInRange year }
        requires date { IsDate year month day }
        ensures value { day_of result ≡ day_number year month day }
        ensures in_range { range.IsDayInRange (day_of result) }
    {
        NaiveDate {
            day: day_in_range(year, month, day),
        }
    }

    /// Returns the date by its number in the common era, in which 0001-01-01 is day 1 and
    /// 1970-01-01 is day 719163. `None` if the year is not one from -262143 to 262142.
    ///
    /// ```
    /// let epoch = NaiveDate::from_num_days_from_ce_opt(719_163); // Some(1970-01-01)
    /// ```
    pub fn from_num_days_from_ce_opt(days: i32) -> Option<NaiveDate>
        ensures { IsDateOfDay (days -ℤ pos 719_163) result }
    {
        NaiveDate::in_range(days as i64 - EPOCH_FROM_CE)
    }

    // The date of a day number, if it is in range.
    pub(crate) fn in_range(day: i64) -> Option<NaiveDate>
        ensures { IsDateOfDay day result }
    {
        if day < FIRST_DAY_IN_RANGE as i64 || day > LAST_DAY_IN_RANGE as i64 {
            return None;
        }
        Some(NaiveDate { day: day as i32 })
    }

    /// Returns the number of the date in the common era, in which 0001-01-01 is day 1.
    ///
    /// ```
    /// let number = NaiveDate::from_ymd_opt(2000, 1, 1)?.num_days_from_ce(); // 730120
    /// ```
    pub fn num_days_from_ce(&self) -> i32
        ensures { result ≡ day_of self.now +ℤ pos 719_163 }
    {
        self.day + EPOCH_FROM_CE as i32
    }

    /// Returns the local date-time of this day at that time of day.
    ///
    /// ```
    /// let date = NaiveDate::from_ymd_opt(2021, 3, 14)?;
    /// let noon = date.and_time(NaiveTime::from_hms_opt(12, 0, 0)?); // 2021-03-14T12:00:00
    /// ```
    pub fn and_time(&self, time: NaiveTime) -> NaiveDateTime
        ensures value { reading result ≡ reading_at (day_of self.now) (second_of time)
            (fraction_of time) }
        ensures day { day_at (reading result) ≡ day_of self.now }
        ensures second { second_at (reading result) ≡ second_of time }
    {
        NaiveDateTime::new(*self, time)
    }

    /// Returns the local date-time of this day at an hour from 0 to 23, a minute and a second from
    /// 0 to 59. `None` for any other.
    ///
    /// ```
    /// let date = NaiveDate::from_ymd_opt(2021, 3, 14)?;
    /// let noon = date.and_hms_opt(12, 0, 0); // Some(2021-03-14T12:00:00)
    /// let none = date.and_hms_opt(24, 0, 0); // None
    /// ```
    pub fn and_hms_opt(&self, hour: u32, min: u32, sec: u32) -> Option<NaiveDateTime>
        ensures value { IsReadingOn (day_of self.now) (IsClock hour min sec)
            (clock_second hour min sec) 0 result }
        ensures in_range { range.IsDayInRange (day_of self.now) → IfSome result
            (λ r. range.IsInRange (reading r).s) }
        ensures inner { range.IsInnerDay (day_of self.now) → IfSome result
            (λ r. range.IsInner (reading r).s) }
    {
        let time = NaiveTime::from_hms_opt(hour, min, sec)?;
        Some(self.and_time(time))
    }

    /// [`NaiveDate::and_hms_opt`] with milliseconds: below 1000, or, for a leap second after a
    /// second 59, below 2000. `None` for others.
    ///
    /// ```
    /// let date = NaiveDate::from_ymd_opt(2016, 12, 31)?;
    /// let leap_second = date.and_hms_milli_opt(23, 59, 59, 1_500); // Some(2016-12-31T23:59:60.500)
    /// ```
    pub fn and_hms_milli_opt(
        &self,
        hour: u32,
        min: u32,
        sec: u32,
        milli: u32,
    ) -> Option<NaiveDateTime>
        ensures value { IsReadingOn (day_of self.now) (IsClock hour min sec)
            (clock_second hour min sec) (milli * 1_000_000) result }
        ensures in_range { range.IsDayInRange (day_of self.now) → IfSome result
            (λ r. range.IsInRange (reading r).s) }
        ensures inner { range.IsInnerDay (day_of self.now) → IfSome result
            (λ r. range.IsInner (reading r).s) }
    {
        let time = NaiveTime::from_hms_milli_opt(hour, min, sec, milli)?;
        Some(self.and_time(time))
    }

    /// [`NaiveDate::and_hms_opt`] with microseconds: below 10^6, or, for a leap second after a
    /// second 59, below 2*10^6. `None` for others.
    ///
    /// ```
    /// let date = NaiveDate::from_ymd_opt(2021, 3, 14)?;
    /// let start = date.and_hms_micro_opt(8, 30, 0, 250); // Some(2021-03-14T08:30:00.000250)
    /// ```
    pub fn and_hms_micro_opt(
        &self,
        hour: u32,
        min: u32,
        sec: u32,
        micro: u32,
    ) -> Option<NaiveDateTime>
        ensures value { IsReadingOn (day_of self.now) (IsClock hour min sec)
            (clock_second hour min sec) (micro * 1_000) result }
        ensures in_range { range.IsDayInRange (day_of self.now) → IfSome result
            (λ r. range.IsInRange (reading r).s) }
        ensures inner { range.IsInnerDay (day_of self.now) → IfSome result
            (λ r. range.IsInner (reading r).s) }
    {
        let time = NaiveTime::from_hms_micro_opt(hour, min, sec, micro)?;
        Some(self.and_time(time))
    }

    /// [`NaiveDate::and_hms_opt`] with nanoseconds: below 10^9, or, for a leap second after a
    /// second 59, below 2*10^9. `None` for others.
    ///
    /// ```
    /// let date = NaiveDate::from_ymd_opt(2021, 3, 14)?;
    /// let start = date.and_hms_nano_opt(8, 30, 0, 7); // Some(2021-03-14T08:30:00.000000007)
    /// ```
    pub fn and_hms_nano_opt(
        &self,
        hour: u32,
        min: u32,
        sec: u32,
        nano: u32,
    ) -> Option<NaiveDateTime>
        ensures value { IsReadingOn (day_of self.now) (IsClock hour min sec)
            (clock_second hour min sec) nano result }
        ensures in_range { range.IsDayInRange (day_of self.now) → IfSome result
            (λ r. range.IsInRange (reading r).s) }
        ensures inner { range.IsInnerDay (day_of self.now) → IfSome result
            (λ r. range.IsInner (reading r).s) }
    {
        let time = NaiveTime::from_hms_nano_opt(hour, min, sec, nano)?;
        Some(self.and_time(time))
    }

    pub(crate) fn year_month_day(&self) -> YearMonthDay
        ensures year { result.year ≡ year_of (day_of self.now) }
        ensures month { result.month ≡ month_of (day_of self.now) }
        ensures day { result.day ≡ day_of_month (day_of self.now) }
        ensures date { IsDate result.year result.month result.day }
        ensures bound { range.IsWideYear result.year }
    {
        gregorian::date_of(self.number())
    }

    // The day number.
    pub(crate) fn number(&self) -> i64
        ensures value { result ≡ day_of self.now }
        ensures bound { range.IsWideDay result }
    {
        self.day as i64
    }

    // The day that a second since the epoch lies in.
    pub(crate) fn of_second(second: i64) -> NaiveDate
        requires { range.IsWide second }
        ensures { day_of result ≡ floor_div second 86_400 }
    {
        NaiveDate {
            day: day_and_second(second).0 as i32,
        }
    }

    pub(crate) fn of_day(day: i64) -> NaiveDate
        requires { range.IsWideDay day }
        ensures { day_of result ≡ day }
    {
        NaiveDate { day: day as i32 }
    }

    pub(crate) fn is_day(&self, day: i64) -> bool
        ensures { IsTrue result ↔ (day ≡ day_of self.now) }
    {
        self.day as i64 == day
    }

    // The seconds from the epoch to midnight.
    pub(crate) fn midnight(&self) -> i64
        ensures value { result ≡ day_of self.now *ℤ pos 86_400 }
        ensures bound { range.IsWide result }
    {
        self.day as i64 * 86_400
    }
}
