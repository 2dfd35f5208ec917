//! The fields of a local date-time, and local date-times with a field changed or moved by months
//! and days.
ghost use Rattle.{
  naive_base.specs.{Fields.{time_at, IsDaysLater, IsMonthsLater}, Months.{days_of, months_of}},
  naive_base.specs.NaiveDateTime.{day_shown_by, reading, IsReadingAtTime, IsReadingOnDay},
  std.specs.Prelude.{neg_ℤ, pos},
};

use crate::{Datelike, Days, IsoWeek, Months, NaiveDateTime, Timelike, Weekday};

impl Datelike for NaiveDateTime {
    ghost day_shown = { day_shown_by };

    ghost IsOnDay = { λ old. IsReadingOnDay (reading old) };

    fn year(&self) -> i32 {
        self.date().year()
    }

    fn month(&self) -> u32 {
        self.date().month()
    }

    fn month0(&self) -> u32 {
        self.date().month0()
    }

    fn day(&self) -> u32 {
        self.date().day()
    }

    fn day0(&self) -> u32 {
        self.date().day0()
    }

    fn ordinal(&self) -> u32 {
        self.date().ordinal()
    }

    fn ordinal0(&self) -> u32 {
        self.date().ordinal0()
    }

    fn weekday(&self) -> Weekday {
        self.date().weekday()
    }

    fn iso_week(&self) -> IsoWeek {
        self.date().iso_week()
    }

    fn with_year(&self, year: i32) -> Option<NaiveDateTime> {
        Some(self.date().with_year(year)?.and_time(self.time()))
    }

    fn with_month(&self, month: u32) -> Option<NaiveDateTime> {
        Some(self.date().with_month(month)?.and_time(self.time()))
    }

    fn with_month0(&self, month0: u32) -> Option<NaiveDateTime> {
        Some(self.date().with_month0(month0)?.and_time(self.time()))
    }

    fn with_day(&self, day: u32) -> Option<NaiveDateTime> {
        Some(self.date().with_day(day)?.and_time(self.time()))
    }

    fn with_day0(&self, day0: u32) -> Option<NaiveDateTime> {
        Some(self.date().with_day0(day0)?.and_time(self.time()))
    }

    fn with_ordinal(&self, ordinal: u32) -> Option<NaiveDateTime> {
        Some(self.date().with_ordinal(ordinal)?.and_time(self.time()))
    }

    fn with_ordinal0(&self, ordinal0: u32) -> Option<NaiveDateTime> {
        Some(self.date().with_ordinal0(ordinal0)?.and_time(self.time()))
    }
}

impl Timelike for NaiveDateTime {
    ghost time_shown = { λ r. time_at (reading r) };

    ghost IsAtTime = { λ old. IsReadingAtTime (reading old) };

    fn hour(&self) -> u32 {
        self.time().hour()
    }

    fn minute(&self) -> u32 {
        self.time().minute()
    }

    fn second(&self) -> u32 {
        self.time().second()
    }

    fn nanosecond(&self) -> u32 {
        self.frac
    }

    fn with_hour(&self, hour: u32) -> Option<NaiveDateTime> {
        Some(self.date().and_time(self.time().with_hour(hour)?))
    }

    fn with_minute(&self, min: u32) -> Option<NaiveDateTime> {
        Some(self.date().and_time(self.time().with_minute(min)?))
    }

    fn with_second(&self, sec: u32) -> Option<NaiveDateTime> {
        Some(self.date().and_time(self.time().with_second(sec)?))
    }

    fn with_nanosecond(&self, nano: u32) -> Option<NaiveDateTime> {
        Some(self.date().and_time(self.time().with_nanosecond(nano)?))
    }
}

impl NaiveDateTime {
    /// Returns the local date-time that many months later, at the same time of day: on the same day
    /// of the month, or on the month's last if it has fewer days. `None` if the year is not one
    /// from -262143 to 262142, unless nothing changes.
    ///
    /// ```
    /// let end = NaiveDate::from_ymd_opt(2021, 1, 31)?.and_hms_opt(12, 0, 0)?;
    /// let later = end.checked_add_months(Months::new(1)); // Some(2021-02-28T12:00:00)
    /// ```
    pub fn checked_add_months(self, months: Months) -> Option<NaiveDateTime>
        ensures { IsMonthsLater day_shown_by (IsReadingOnDay (reading self)) (day_shown_by self)
            (pos (months_of months)) result }
    {
        Some(
            self.date()
                .checked_add_months(months)?
                .and_time(self.time()),
        )
    }

    /// Returns the local date-time that many months earlier, or `None`, by the rule of
    /// [`NaiveDateTime::checked_add_months`].
    ///
    /// ```
    /// let end = NaiveDate::from_ymd_opt(2020, 3, 31)?.and_hms_opt(12, 0, 0)?;
    /// let earlier = end.checked_sub_months(Months::new(1)); // Some(2020-02-29T12:00:00)
    /// ```
    pub fn checked_sub_months(self, months: Months) -> Option<NaiveDateTime>
        ensures { IsMonthsLater day_shown_by (IsReadingOnDay (reading self)) (day_shown_by self)
            (neg_ℤ (pos (months_of months))) result }
    {
        Some(
            self.date()
                .checked_sub_months(months)?
                .and_time(self.time()),
        )
    }

    /// Returns the local date-time that many days later, at the same time of day. `None` if the
    /// year is not one from -262143 to 262142, unless nothing changes.
    ///
    /// ```
    /// let end = NaiveDate::from_ymd_opt(2021, 1, 31)?.and_hms_opt(12, 0, 0)?;
    /// let later = end.checked_add_days(Days::new(1)); // Some(2021-02-01T12:00:00)
    /// ```
    pub fn checked_add_days(self, days: Days) -> Option<NaiveDateTime>
        ensures { IsDaysLater day_shown_by (IsReadingOnDay (reading self)) (day_shown_by self)
            (pos (days_of days)) result }
    {
        Some(self.date().checked_add_days(days)?.and_time(self.time()))
    }

    /// Returns the local date-time that many days earlier, or `None`, by the rule of
    /// [`NaiveDateTime::checked_add_days`].
    ///
    /// ```
    /// let start = NaiveDate::from_ymd_opt(2021, 2, 1)?.and_hms_opt(12, 0, 0)?;
    /// let earlier = start.checked_sub_days(Days::new(1)); // Some(2021-01-31T12:00:00)
    /// ```
    pub fn checked_sub_days(self, days: Days) -> Option<NaiveDateTime>
        ensures { IsDaysLater day_shown_by (IsReadingOnDay (reading self)) (day_shown_by self)
            (neg_ℤ (pos (days_of days))) result }
    {
        Some(self.date().checked_sub_days(days)?.and_time(self.time()))
    }
}
