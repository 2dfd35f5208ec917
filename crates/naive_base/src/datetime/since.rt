//! The months and the days that have passed between two local date-times.
ghost use Rattle.std.specs.Prelude.{◌≡◌, ◌↔◌, ◌⊎◌, ◌≤◌, ◌≤ℤ◌, ◌+ℤ◌, min, pos, unsigned_abs, IsTrue, MatchOption, SomeIff, ℕ};
ghost use Rattle.{
  gregorian.specs.{Date.{day_number}, DateOf.{day_of_month}, Month.{days_in_month}, Year.{is_leap, IsDay}},
  naive_base.specs.{NaiveDate.{day_of}, NaiveDateTime.{reading}, Range.{IsWide, IsWideDay}, Reading.{day_at, reading_at, second_at, IsEarlierTime}},
  naive_base.specs.Steps.Moves.{IsWithin},
  naive_base.specs.Since.{day_months_later, later_by, month_at, AreDaysCounted, AreMonthsCounted, month_at, HaveDaysPassed, HaveMonthsPassed, IsDaysSince, IsEarlierInMonth, IsGreatest, IsMonthsSince},
};

use crate::range::{FIRST_DAY_IN_RANGE, LAST_DAY_IN_RANGE};
use crate::{Datelike, NaiveDate, NaiveDateTime};

impl NaiveDateTime {
    /// Returns the whole months from another local date-time to this one, or `None` if this one is
    /// earlier.
    ///
    /// A month has passed on the same day of the month at the same time of day. From 31 January the
    /// first month has passed on 1 March.
    ///
    /// ```
    /// let start = NaiveDate::from_ymd_opt(2021, 1, 31)?.and_hms_opt(12, 0, 0)?;
    /// let none = NaiveDate::from_ymd_opt(2021, 2, 28)?.and_hms_opt(12, 0, 0)?.months_since(start); // Some(0)
    /// let one = NaiveDate::from_ymd_opt(2021, 3, 1)?.and_hms_opt(12, 0, 0)?.months_since(start); // Some(1)
    /// ```
    pub fn months_since(&self, base: NaiveDateTime) -> Option<u32>
        ensures { IsMonthsSince (reading self.now) (reading base) result }
    {
        unless_negative(self.whole_months(&base))
    }

    /// Returns the whole days from another local date-time to this one, or `None` if this one is
    /// earlier.
    ///
    /// ```
    /// let start = NaiveDate::from_ymd_opt(2021, 1, 31)?.and_hms_opt(12, 0, 0)?;
    /// let days = NaiveDate::from_ymd_opt(2021, 2, 28)?.and_hms_opt(11, 0, 0)?.days_since(start); // Some(27)
    /// ```
    pub fn days_since(&self, base: NaiveDateTime) -> Option<u32>
        ensures { IsDaysSince (reading self.now) (reading base) result }
    {
        unless_negative(self.whole_days(&base))
    }

    /// Returns the local date-time that many months and then that many days later, at the same time
    /// of day: after the months on the same day of the month, or on its last if it has fewer days.
    /// `None` if it is neither in range nor on a buffer day.
    ///
    /// ```
    /// let start = NaiveDate::from_ymd_opt(2021, 1, 31)?.and_hms_opt(12, 0, 0)?;
    /// let later = start.later_by(1, 3); // Some(2021-03-03T12:00:00)
    /// ```
    pub fn later_by(&self, months: u32, days: u32) -> Option<NaiveDateTime>
        ensures { let later = later_by (reading self.now) months days in
            MatchOption result (¬ (IsWide later.s)) (λ local. reading local ≡ later) }
    {
        self.on_wide_day(self.day_later_by(months, days))
    }

    /// Returns the whole months from another local date-time to this one, and then the whole days that
    /// are left, from that many months after the other one. Both are 0 if this one is earlier.
    ///
    /// ```
    /// let start = NaiveDate::from_ymd_opt(2021, 1, 31)?.and_hms_opt(12, 0, 0)?;
    /// let end = NaiveDate::from_ymd_opt(2021, 3, 1)?.and_hms_opt(12, 0, 0)?;
    /// let length = end.months_and_days_since(&start); // (1, 1)
    /// ```
    pub fn months_and_days_since(&self, base: &NaiveDateTime) -> (u32, u32)
        ensures months { AreMonthsCounted (reading self.now) (reading base.now) result.0 }
        ensures days { AreDaysCounted (reading self.now) (reading base.now) result.0 result.1 }
    {
        let months = self.months_or_none(base);
        match base.later_by(months, 0) {
            Some(start) => (months, self.days_or_none(start)),
            None => unreachable!(),
        }
    }

    fn months_or_none(&self, base: &NaiveDateTime) -> u32
        ensures { AreMonthsCounted (reading self.now) (reading base.now) result }
    {
        match self.months_since(*base) {
            Some(months) => months,
            None => 0,
        }
    }

    fn days_or_none(&self, start: NaiveDateTime) -> u32
        ensures { IsGreatest (λ d. (d ≡ 0) ⊎ HaveDaysPassed (reading self.now) (reading start) d) result }
    {
        match self.days_since(start) {
            Some(days) => days,
            None => 0,
        }
    }

    // This local date-time on another day.
    fn on_wide_day(&self, day: i64) -> Option<NaiveDateTime>
        ensures { let l = reading self.now in MatchOption result (¬ (IsWideDay day))
            (λ local. reading local ≡ reading_at day (second_at l) l.f) }
    {
        Some(NaiveDate::wide(day)?.and_time(self.time()))
    }

    // The number of the month that it lies in.
    fn month_number(&self) -> i64
        ensures value { result ≡ month_at (reading self.now) }
        ensures bound { IsWithin 4_000_000 result }
    {
        self.date().month_number()
    }

    // The day of that local date-time.
    fn day_later_by(&self, months: u32, days: u32) -> i64
        ensures value { result ≡ day_months_later (day_at (reading self.now)) months +ℤ pos days }
        ensures bound { IsWithin 1_000_000_000_000 result }
    {
        self.date().day_months_later(months) + days as i64
    }

    // The same, negative if this one is earlier.
    #[tactic(auto, using(crate::proofs::Since::passed))]
    fn whole_months(&self, base: &NaiveDateTime) -> i64
        ensures passed { (n : ℕ) → HaveMonthsPassed (reading self.now) (reading base.now) n ↔ (pos n ≤ℤ result) }
        ensures bound { result ≤ℤ pos 4_294_967_295 }
    {
        let months = self.month_number() - base.month_number();
        if is_earlier_in_month(self, base) {
            months - 1
        } else {
            months
        }
    }

    #[tactic(auto, using(crate::proofs::Since::passed))]
    fn whole_days(&self, base: &NaiveDateTime) -> i64
        ensures passed { (n : ℕ) → HaveDaysPassed (reading self.now) (reading base.now) n ↔ (pos n ≤ℤ result) }
        ensures bound { result ≤ℤ pos 4_294_967_295 }
    {
        let days = self.date().number() - base.date().number();
        if is_earlier_in_day(self, base) {
            days - 1
        } else {
            days
        }
    }
}

fn unless_negative(n: i64) -> Option<u32>
    requires { n ≤ℤ pos 4_294_967_295 }
    ensures { SomeIff result (pos 0 ≤ℤ n) (unsigned_abs n) }
{
    u32::try_from(n).ok()
}

fn is_earlier_in_month(local: &NaiveDateTime, base: &NaiveDateTime) -> bool
    ensures { IsTrue result ↔ IsEarlierInMonth (reading local.now) (reading base.now) }
{
    (local.day(), local.time()) < (base.day(), base.time())
}

fn is_earlier_in_day(local: &NaiveDateTime, base: &NaiveDateTime) -> bool
    ensures { let l = reading local.now in let m = reading base.now in
        IsTrue result ↔ IsEarlierTime (second_at l) l.f (second_at m) m.f }
{
    local.time() < base.time()
}

impl NaiveDate {
    // The day that many months later: on the same day of the month, or on its last.
    fn day_months_later(self, months: u32) -> i64
        ensures value { result ≡ day_months_later (day_of self) months }
        ensures bound { IsDay result }
    {
        let (year, month) = self.month_after(months as i64);
        self.day_in_month(year, month)
    }

    // The day in that month which has the number of this one, or is the month's last.
    fn day_in_month(self, year: i32, month: u32) -> i64
        requires { (1 ≤ month) × (month ≤ 12) }
        ensures value { result ≡ day_number year month
            (min (day_of_month (day_of self)) (days_in_month (is_leap year) month)) }
        ensures bound { IsDay result }
    {
        let day = self.year_month_day().day;
        gregorian::day_number(year, month, day.min(gregorian::days_in_month(year, month)))
    }

    // The date of a day in range or of a buffer day.
    fn wide(day: i64) -> Option<NaiveDate>
        ensures { MatchOption result (¬ (IsWideDay day)) (λ date. day_of date ≡ day) }
    {
        if day < FIRST_DAY_IN_RANGE as i64 - 1 || day > LAST_DAY_IN_RANGE as i64 + 1 {
            return None;
        }
        Some(NaiveDate::of_day(day))
    }
}
