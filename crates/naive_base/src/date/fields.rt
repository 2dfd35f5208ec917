//! A date's fields, and dates with a field changed.
ghost use Rattle.std.specs.Prelude.{◌≡◌, ◌↔◌, ◌≤◌, ◌-◌, ◌+ℤ◌, option_map, pos, IsTrue, SomeIff};
ghost use Rattle.{
  gregorian.specs.{Date.{day_number}, Year.{days_in_year, year_start}},
  naive_base.specs.{Fields.{MayShow, MayShowOrdinal}, NaiveDate.{day_of, IsDateOn}},
  naive_base.specs.Range.{IsDayInRange, IsInnerDay, IsInnerYear, IsYearInRange},
};

use crate::range::{FIRST_YEAR, LAST_YEAR};
use crate::{Datelike, IsoWeek, NaiveDate, Weekday};

fn is_year(year: i32) -> bool
    ensures { IsTrue result ↔ IsYearInRange year }
{
    FIRST_YEAR <= year && year <= LAST_YEAR
}

impl NaiveDate {
    // The date with these fields, where this one may change to it.
    pub(crate) fn changed(&self, year: i32, month: u32, day: u32) -> Option<NaiveDate>
        ensures { SomeIff (option_map day_of result) (MayShow (day_of self.now) year month day)
            (day_number year month day) }
    {
        if !gregorian::is_date(year, month, day) {
            return None;
        }
        if is_year(year) {
            return Some(NaiveDate::of_ymd(year, month, day));
        }
        if self.is_day(gregorian::day_number(year, month, day)) {
            return Some(*self);
        }
        None
    }

    // The n-th day of that year, where this date may change to it.
    fn on_ordinal(&self, year: i32, ordinal: u32) -> Option<NaiveDate>
        ensures { SomeIff (option_map day_of result) (MayShowOrdinal (day_of self.now) year ordinal)
            (year_start year +ℤ pos (ordinal - 1)) }
    {
        if ordinal == 0 || ordinal > gregorian::days_in_year(year) {
            return None;
        }
        if is_year(year) {
            return Some(NaiveDate::of_ordinal(year, ordinal));
        }
        if self.is_day(day_of_ordinal(year, ordinal)) {
            return Some(*self);
        }
        None
    }

    // The n-th day of a year in range, which has it.
    pub(crate) fn of_ordinal(year: i32, ordinal: u32) -> NaiveDate
        requires year { IsYearInRange year }
        requires ordinal { (1 ≤ ordinal) × (ordinal ≤ days_in_year year) }
        ensures value { day_of result ≡ year_start year +ℤ pos (ordinal - 1) }
        ensures in_range { IsDayInRange (day_of result) }
        ensures inner { IsInnerYear year → IsInnerDay (day_of result) }
    {
        NaiveDate::of_day(day_of_ordinal(year, ordinal))
    }
}

// The n-th day of a year.
fn day_of_ordinal(year: i32, ordinal: u32) -> i64
    requires { (1 ≤ ordinal) × (ordinal ≤ 366) }
    ensures { result ≡ year_start year +ℤ pos (ordinal - 1) }
{
    gregorian::year_start(year) + (ordinal as i64 - 1)
}

impl Datelike for NaiveDate {
    ghost day_shown = { day_of };

    ghost IsOnDay = { λ _. IsDateOn };

    fn year(&self) -> i32 {
        self.year_month_day().year
    }

    fn month(&self) -> u32 {
        self.year_month_day().month
    }

    fn month0(&self) -> u32 {
        self.year_month_day().month - 1
    }

    fn day(&self) -> u32 {
        self.year_month_day().day
    }

    fn day0(&self) -> u32 {
        self.year_month_day().day - 1
    }

    fn ordinal(&self) -> u32 {
        gregorian::day_of_year(self.number()) + 1
    }

    fn ordinal0(&self) -> u32 {
        gregorian::day_of_year(self.number())
    }

    fn weekday(&self) -> Weekday {
        Weekday::of_number(gregorian::weekday_of(self.number()))
    }

    fn iso_week(&self) -> IsoWeek {
        IsoWeek::of_day(self.number())
    }

    fn with_year(&self, year: i32) -> Option<NaiveDate> {
        let date = self.year_month_day();
        self.changed(year, date.month, date.day)
    }

    fn with_month(&self, month: u32) -> Option<NaiveDate> {
        let date = self.year_month_day();
        self.changed(date.year, month, date.day)
    }

    fn with_month0(&self, month0: u32) -> Option<NaiveDate> {
        self.with_month(month0.checked_add(1)?)
    }

    fn with_day(&self, day: u32) -> Option<NaiveDate> {
        let date = self.year_month_day();
        self.changed(date.year, date.month, day)
    }

    fn with_day0(&self, day0: u32) -> Option<NaiveDate> {
        self.with_day(day0.checked_add(1)?)
    }

    fn with_ordinal(&self, ordinal: u32) -> Option<NaiveDate> {
        self.on_ordinal(gregorian::year_of(self.number()), ordinal)
    }

    fn with_ordinal0(&self, ordinal0: u32) -> Option<NaiveDate> {
        self.with_ordinal(ordinal0.checked_add(1)?)
    }
}
