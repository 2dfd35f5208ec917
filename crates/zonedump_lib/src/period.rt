//! The periods in which changes are listed.

ghost use Rattle.std.specs.Prelude.{◌≡◌, MatchOption, Some};
ghost use Rattle.{
  naive_base.specs.NaiveDate.{day_of},
  zonedump_lib.specs.{Periods.{IsPeriod, bound_words, first_second, second_after}, Periods.{IsInYears, year_second}},
};

use gregorian::year_start;
use naive_base::NaiveDate;
use std::fmt;

pub(crate) const SECONDS_PER_DAY: i64 = 86_400;

// The first second of the year 1, and that of the year 10000.
const FIRST_SECOND: i64 = -62_135_596_800;

const END: i64 = 253_402_300_800;

/// The first or the last part of a period: a year or a day of UTC, the whole of which is in it.
#[derive(Clone, Copy, Debug, PartialEq, Eq)]
pub enum Bound {
    /// A year.
    Year(u16),
    /// A day.
    Date(NaiveDate),
}

impl fmt::Display for Bound {
    ghost output = { λ bound. Some (bound_words bound) };

    fn fmt<W: fmt::Write>(&self, f: &mut fmt::Formatter<W>) -> fmt::Result {
        match *self {
            Bound::Year(year) => write!(f, "{year}"),
            Bound::Date(date) => write!(f, "{date}"),
        }
    }
}

impl Bound {
    // Its first second, as a Unix time.
    fn first_second(self) -> i64
        ensures { result ≡ first_second self }
    {
        match self {
            Bound::Year(year) => second_of_year(year as i32),
            Bound::Date(date) => day_number(date) * SECONDS_PER_DAY,
        }
    }

    // The first second after it, as a Unix time.
    fn second_after(self) -> i64
        ensures { result ≡ second_after self }
    {
        match self {
            Bound::Year(year) => second_of_year(year as i32 + 1),
            Bound::Date(date) => (day_number(date) + 1) * SECONDS_PER_DAY,
        }
    }
}

/// A period of UTC from one year or day to another, both of them included.
#[derive(Clone, Copy, Debug, PartialEq, Eq)]
pub struct Period {
    /// The first year or day.
    pub first: Bound,
    /// The last year or day.
    pub last: Bound,
    pub ghost in_range: { IsPeriod first last },
}

impl Period {
    /// Returns the period from `first` to `last`. `None` if `last` is over before `first` begins, or
    /// if the period isn't in the years 1 to 9999.
    pub fn new(first: Bound, last: Bound) -> Option<Period>
        ensures { MatchOption result (¬ (IsPeriod first last))
            (λ p. IsPeriod first last × (p.first ≡ first) × (p.last ≡ last)) }
    {
        let from = first.first_second();
        let until = last.second_after();
        if from < FIRST_SECOND || until <= from || END < until {
            return None;
        }
        Some(Period { first, last })
    }

    /// Returns the first second of the period, as a Unix time.
    pub fn from(self) -> i64
        ensures value { result ≡ first_second self.first }
        ensures bound { IsInYears result }
    {
        self.first.first_second()
    }

    /// Returns the first second after the period, as a Unix time.
    pub fn until(self) -> i64
        ensures value { result ≡ second_after self.last }
        ensures bound { IsInYears result }
    {
        self.last.second_after()
    }
}

// The first second of the year.
fn second_of_year(year: i32) -> i64
    ensures { result ≡ year_second year }
{
    year_start(year) * SECONDS_PER_DAY
}

// The days from 1970-01-01 to the date.
fn day_number(date: NaiveDate) -> i64
    ensures { result ≡ day_of date }
{
    date.num_days_from_ce() as i64 - 719_163
}
