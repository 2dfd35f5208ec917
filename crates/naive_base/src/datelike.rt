//! Values that show a date.
ghost use Rattle.std.specs.Prelude.{◌≡◌, ◌<◌, ◌≤◌, ◌+◌, Option, ℤ};
ghost use Rattle.{
  gregorian.specs.{DateOf.{day_of_month, day_of_year, month_of, year_of}, Month.{days_in_month}, Year.{is_leap}},
  naive_base.specs.{Fields.{IsDateGiven, IsOrdinalGiven}, Weekday.{weekday_number, weekday_of}, IsoWeek.{IsWeekOf}},
  naive_base.specs.Range.{IsWideYear},
};

use crate::{IsoWeek, Weekday};

/// A value that shows a date.
///
/// A `with_*` call returns `None` if the calendar doesn't have the new date, or its year is not one
/// from -262143 to 262142, unless it is the date that the value shows already. All else that the
/// value shows stays. An instant is returned only if it is the only one that shows the new date.
///
/// ```
/// let date = NaiveDate::from_ymd_opt(2020, 2, 29)?;
/// let ymd = (date.year(), date.month(), date.day()); // (2020, 2, 29)
/// let from_0 = (date.month0(), date.day0()); // (1, 28)
/// let of_the_year = (date.ordinal(), date.ordinal0()); // (60, 59)
/// let weekday = date.weekday(); // Sat
/// let week = date.iso_week().week(); // 9
/// let in_march = date.with_month(3); // Some(2020-03-29)
/// let in_april = date.with_month0(3); // Some(2020-04-29)
/// let first = date.with_day(1); // Some(2020-02-01)
/// let second = date.with_day0(1); // Some(2020-02-02)
/// let new_year = date.with_ordinal(1); // Some(2020-01-01)
/// let day_after = date.with_ordinal0(1); // Some(2020-01-02)
/// let in_2024 = date.with_year(2024); // Some(2024-02-29)
/// let none = date.with_year(2021); // None
/// ```
pub trait Datelike: Sized {
    // the day that it shows
    ghost day_shown: { Self → ℤ };

    // the value that shows the day given, and all else as it was, if there is one; `None` if
    // none is given
    ghost IsOnDay: { Self → Option ℤ → Option Self → Type 0 };

    /// Returns the year; the year 0 is the one before the year 1.
    fn year(&self) -> i32
        ensures value { result ≡ year_of (day_shown self.now) }
        ensures bound { IsWideYear result };

    /// Returns the month, from 1 to 12.
    fn month(&self) -> u32
        ensures value { result ≡ month_of (day_shown self.now) }
        ensures bound { (1 ≤ result) × (result ≤ 12) };

    /// Returns the month, from 0 to 11.
    fn month0(&self) -> u32
        ensures value { result + 1 ≡ month_of (day_shown self.now) }
        ensures bound { result < 12 };

    /// Returns the day of the month, from 1 to 31.
    fn day(&self) -> u32
        ensures value { result ≡ day_of_month (day_shown self.now) }
        ensures bound { (1 ≤ result) × (result ≤ 31) }
        ensures in_month { let day = day_shown self.now in
            result ≤ days_in_month (is_leap (year_of day)) (month_of day) };

    /// Returns the day of the month, from 0 to 30.
    fn day0(&self) -> u32
        ensures value { result + 1 ≡ day_of_month (day_shown self.now) }
        ensures bound { result < 31 };

    /// Returns the day of the year, from 1 to 366.
    fn ordinal(&self) -> u32
        ensures value { result ≡ day_of_year (day_shown self.now) + 1 }
        ensures bound { (1 ≤ result) × (result ≤ 366) };

    /// Returns the day of the year, from 0 to 365.
    fn ordinal0(&self) -> u32
        ensures value { result ≡ day_of_year (day_shown self.now) }
        ensures bound { result < 366 };

    /// Returns the day of the week.
    fn weekday(&self) -> Weekday
        ensures { weekday_number result ≡ weekday_of (day_shown self.now) };

    /// Returns the week by the rule of ISO 8601.
    fn iso_week(&self) -> IsoWeek
        ensures { IsWeekOf (day_shown self.now) result };

    /// Returns the same in another year, or `None`.
    fn with_year(&self, year: i32) -> Option<Self>
        ensures { let day = day_shown self.now in
            IsDateGiven day_shown (IsOnDay self.now) day year (month_of day)
            (day_of_month day) result };

    /// Returns the same with another month, from 1, or `None`.
    fn with_month(&self, month: u32) -> Option<Self>
        ensures { let day = day_shown self.now in
            IsDateGiven day_shown (IsOnDay self.now) day (year_of day) month
            (day_of_month day) result };

    /// Returns the same with another month, from 0, or `None`.
    fn with_month0(&self, month0: u32) -> Option<Self>
        ensures { let day = day_shown self.now in
            IsDateGiven day_shown (IsOnDay self.now) day (year_of day) (month0 + 1)
            (day_of_month day) result };

    /// Returns the same with another day of the month, from 1, or `None`.
    fn with_day(&self, day: u32) -> Option<Self>
        ensures { let old = day_shown self.now in
            IsDateGiven day_shown (IsOnDay self.now) old (year_of old) (month_of old) day result };

    /// Returns the same with another day of the month, from 0, or `None`.
    fn with_day0(&self, day0: u32) -> Option<Self>
        ensures { let old = day_shown self.now in
            IsDateGiven day_shown (IsOnDay self.now) old (year_of old) (month_of old)
            (day0 + 1) result };

    /// Returns the same on another day of the year, from 1, or `None`.
    fn with_ordinal(&self, ordinal: u32) -> Option<Self>
        ensures { let day = day_shown self.now in
            IsOrdinalGiven day_shown (IsOnDay self.now) day (year_of day) ordinal result };

    /// Returns the same on another day of the year, from 0, or `None`.
    fn with_ordinal0(&self, ordinal0: u32) -> Option<Self>
        ensures { let day = day_shown self.now in
            IsOrdinalGiven day_shown (IsOnDay self.now) day (year_of day) (ordinal0 + 1) result };
}
