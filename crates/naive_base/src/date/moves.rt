//! Dates moved by months and by days.
ghost use Rattle.std.specs.Prelude.{◌≡◌, ◌≤◌, int_div, neg_ℤ, option_map, pos, SomeIff};
ghost use Rattle.{
  gregorian.specs.DateOf.{month_of, year_of},
  naive_base.specs.Fields.{month_after, IsDaysLater, IsMonthsLater, MayShowDay},
  naive_base.specs.Months.{days_of, month_number, month_of_number, months_of, year_of_number},
  naive_base.specs.{NaiveDate.{day_of, IsDateOn}, Range.{IsWideYear}, Steps.Moves.{IsInMonth, IsWithin}},
  offset_core.specs.{Nanoseconds.{nanos_per_day}, TimeDelta.{nanos_of}},
};

use crate::range::{FIRST_DAY_IN_RANGE, LAST_DAY_IN_RANGE};
use crate::{Days, Months, NaiveDate};
use offset_core::TimeDelta;

// Years before every month that is asked about, 2^32.
const YEARS_BEFORE: i64 = 4_294_967_296;

impl NaiveDate {
    /// Returns the date that many months later: on the same day of the month, or on the month's
    /// last if it has fewer days. `None` if the year is not one from -262143 to 262142, unless it
    /// is the date itself.
    ///
    /// ```
    /// let date = NaiveDate::from_ymd_opt(2021, 1, 31)?;
    /// let later = date.checked_add_months(Months::new(1)); // Some(2021-02-28)
    /// ```
    pub fn checked_add_months(self, months: Months) -> Option<NaiveDate>
        ensures { IsMonthsLater day_of IsDateOn (day_of self) (pos (months_of months)) result }
    {
        self.months_later(months.as_u32() as i64)
    }

    /// Returns the date that many months earlier, or `None`, by the rule of
    /// [`NaiveDate::checked_add_months`].
    ///
    /// ```
    /// let date = NaiveDate::from_ymd_opt(2020, 3, 31)?;
    /// let earlier = date.checked_sub_months(Months::new(1)); // Some(2020-02-29)
    /// ```
    pub fn checked_sub_months(self, months: Months) -> Option<NaiveDate>
        ensures { IsMonthsLater day_of IsDateOn (day_of self)
            (neg_ℤ (pos (months_of months))) result }
    {
        self.months_later(opposite(months.as_u32()))
    }

    /// Returns the date that many days later. `None` if the year is not one from -262143 to 262142,
    /// unless it is the date itself.
    ///
    /// ```
    /// let date = NaiveDate::from_ymd_opt(2022, 2, 20)?;
    /// let later = date.checked_add_days(Days::new(9)); // Some(2022-03-01)
    /// let none = NaiveDate::MAX.checked_add_days(Days::new(1)); // None
    /// ```
    pub fn checked_add_days(self, days: Days) -> Option<NaiveDate>
        ensures { IsDaysLater day_of IsDateOn (day_of self) (pos (days_of days)) result }
    {
        self.days_later(days.count() as i128)
    }

    /// Returns the date that many days earlier. `None` if the year is not one from -262143 to
    /// 262142, unless it is the date itself.
    ///
    /// ```
    /// let date = NaiveDate::from_ymd_opt(2020, 3, 1)?;
    /// let earlier = date.checked_sub_days(Days::new(1)); // Some(2020-02-29)
    /// ```
    pub fn checked_sub_days(self, days: Days) -> Option<NaiveDate>
        ensures { IsDaysLater day_of IsDateOn (day_of self) (neg_ℤ (pos (days_of days))) result }
    {
        self.days_later(-(days.count() as i128))
    }

    /// Returns the date as many days later as the length has whole days, or earlier for a negative
    /// length. `None` if the year is not one from -262143 to 262142, unless it is the date itself.
    ///
    /// ```
    /// let date = NaiveDate::from_ymd_opt(2020, 2, 28)?;
    /// let same = date.checked_add_signed(TimeDelta::hours(23)); // Some(2020-02-28)
    /// let later = date.checked_add_signed(TimeDelta::hours(47)); // Some(2020-02-29)
    /// ```
    pub fn checked_add_signed(self, rhs: TimeDelta) -> Option<NaiveDate>
        ensures { IsDaysLater day_of IsDateOn (day_of self)
            (int_div (nanos_of rhs) nanos_per_day) result }
    {
        self.days_later(rhs.num_days() as i128)
    }

    /// Returns the date as many days earlier as the length has whole days, or `None`, by the rule of
    /// [`NaiveDate::checked_add_signed`].
    ///
    /// ```
    /// let date = NaiveDate::from_ymd_opt(2020, 3, 1)?;
    /// let earlier = date.checked_sub_signed(TimeDelta::hours(49)); // Some(2020-02-28)
    /// ```
    pub fn checked_sub_signed(self, rhs: TimeDelta) -> Option<NaiveDate>
        ensures { IsDaysLater day_of IsDateOn (day_of self)
            (neg_ℤ (int_div (nanos_of rhs) nanos_per_day)) result }
    {
        self.days_later(-(rhs.num_days() as i128))
    }

    // The date that number of days later, if this date may change to it.
    pub(crate) fn days_later(self, days: i128) -> Option<NaiveDate>
        requires { IsWithin 20_000_000_000_000_000_000 days }
        ensures { IsDaysLater day_of IsDateOn (day_of self) days result }
    {
        self.on_day(self.day as i128 + days)
    }

    // That day, where this date may change to it.
    fn on_day(self, day: i128) -> Option<NaiveDate>
        ensures { SomeIff (option_map day_of result) (MayShowDay (day_of self) day) day }
    {
        if FIRST_DAY_IN_RANGE as i128 <= day && day <= LAST_DAY_IN_RANGE as i128 {
            return Some(NaiveDate { day: day as i32 });
        }
        if self.day as i128 == day {
            return Some(self);
        }
        None
    }

    fn months_later(self, by: i64) -> Option<NaiveDate>
        requires { IsWithin 4_294_967_296 by }
        ensures { let n = month_after (day_of self) by in
            IsInMonth (day_of self) (year_of_number n) (month_of_number n)
            (option_map day_of result) }
    {
        let (year, month) = self.month_after(by);
        self.in_month(year, month)
    }

    // The year and the month that many months later.
    pub(crate) fn month_after(self, by: i64) -> (i32, u32)
        requires { IsWithin 4_294_967_296 by }
        ensures year { result.0 ≡ year_of_number (month_after (day_of self) by) }
        ensures month { result.1 ≡ month_of_number (month_after (day_of self) by) }
    {
        year_and_month(self.number_after(by))
    }

    // The number of the month that many months later.
    fn number_after(self, by: i64) -> i64
        requires { IsWithin 4_294_967_296 by }
        ensures value { result ≡ month_after (day_of self) by }
        ensures bound { IsWithin 5_000_000_000 result }
    {
        self.month_number() + by
    }

    // The number of the month that it lies in.
    pub(crate) fn month_number(self) -> i64
        ensures value { result ≡ month_number (year_of (day_of self)) (month_of (day_of self)) }
        ensures bound { IsWithin 4_000_000 result }
    {
        let date = self.year_month_day();
        number_of_month(date.year, date.month)
    }

    // In that month on the same day, or on its last.
    fn in_month(self, year: i32, month: u32) -> Option<NaiveDate>
        ensures { IsInMonth (day_of self) year month (option_map day_of result) }
    {
        let day = self.year_month_day().day;
        self.changed(year, month, day.min(gregorian::days_in_month(year, month)))
    }
}

fn opposite(count: u32) -> i64
    ensures { result ≡ neg_ℤ (pos count) }
{
    -(count as i64)
}

// The months from January of the year 0.
fn number_of_month(year: i32, month: u32) -> i64
    requires year { IsWideYear year }
    requires month { (1 ≤ month) × (month ≤ 12) }
    ensures value { result ≡ month_number year month }
    ensures bound { IsWithin 4_000_000 result }
{
    year as i64 * 12 + (month as i64 - 1)
}

// The year and the month that number of months after January of the year 0.
fn year_and_month(number: i64) -> (i32, u32)
    requires { IsWithin 5_000_000_000 number }
    ensures year { result.0 ≡ year_of_number number }
    ensures month { result.1 ≡ month_of_number number }
{
    let since = (number + YEARS_BEFORE * 12) as u64;
    (
        ((since / 12) as i64 - YEARS_BEFORE) as i32,
        (since % 12) as u32 + 1,
    )
}
