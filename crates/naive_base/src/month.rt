//! The months of a year, by name.
ghost use Rattle.std.specs.Prelude.{◌≡◌, ◌⊎◌, ◌<◌, ◌≤◌, ◌+◌, ◌%◌, option_map, take, MatchResult, Some, SomeIff};
ghost use Rattle.{
  gregorian.specs.{Month.{days_in_month}, Year.{is_leap}},
  naive_base.specs.{MonthNames.{month_name, number_of_month}, Range.{IsYearInRange}},
};

use crate::OutOfRange;
use crate::range::{FIRST_YEAR, LAST_YEAR};
use std::fmt;

/// A month of the year. Months compare by their numbers.
#[derive(Clone, Copy, PartialEq, Eq, PartialOrd, Ord, Hash, Debug)]
pub enum Month {
    /// January.
    January,
    /// February.
    February,
    /// March.
    March,
    /// April.
    April,
    /// May.
    May,
    /// June.
    June,
    /// July.
    July,
    /// August.
    August,
    /// September.
    September,
    /// October.
    October,
    /// November.
    November,
    /// December.
    December,
}

impl Month {
    // The month of a number from 1 to 12.
    fn of_number(number: u32) -> Month
        requires { (1 ≤ number) × (number ≤ 12) }
        ensures { number_of_month result ≡ number }
    {
        match number {
            1 => Month::January,
            2 => Month::February,
            3 => Month::March,
            4 => Month::April,
            5 => Month::May,
            6 => Month::June,
            7 => Month::July,
            8 => Month::August,
            9 => Month::September,
            10 => Month::October,
            11 => Month::November,
            _ => Month::December,
        }
    }

    /// Returns the month of a number from 1, for January, to 12, as a date's month is. `None` for any
    /// other number.
    ///
    /// ```
    /// let march = Month::from_u32(date.month())?.name(); // March
    /// ```
    pub fn from_u32(number: u32) -> Option<Month>
        ensures { SomeIff (option_map number_of_month result) ((1 ≤ number) × (number ≤ 12)) number }
    {
        if number == 0 || number > 12 {
            return None;
        }
        Some(Month::of_number(number))
    }

    /// Returns the next month, which is January after December.
    pub fn succ(&self) -> Month
        ensures { number_of_month result ≡ number_of_month self.now % 12 + 1 }
    {
        Month::of_number(self.number_from_month() % 12 + 1)
    }

    /// Returns the month before, which is December before January.
    pub fn pred(&self) -> Month
        ensures { number_of_month result ≡ (number_of_month self.now + 10) % 12 + 1 }
    {
        Month::of_number((self.number_from_month() + 10) % 12 + 1)
    }

    /// Returns the number of the month, from 1 for January to 12.
    pub fn number_from_month(&self) -> u32
        ensures value { result ≡ number_of_month self.now }
        ensures bound { (1 ≤ result) × (result ≤ 12) }
    {
        match self {
            Month::January => 1,
            Month::February => 2,
            Month::March => 3,
            Month::April => 4,
            Month::May => 5,
            Month::June => 6,
            Month::July => 7,
            Month::August => 8,
            Month::September => 9,
            Month::October => 10,
            Month::November => 11,
            Month::December => 12,
        }
    }

    /// Returns the English name of the month, such as `January`.
    ///
    /// ```
    /// let name = Month::March.name(); // March
    /// ```
    pub fn name(&self) -> &'static str
        ensures { result.now ≡ month_name self.now }
    {
        match self {
            Month::January => "January",
            Month::February => "February",
            Month::March => "March",
            Month::April => "April",
            Month::May => "May",
            Month::June => "June",
            Month::July => "July",
            Month::August => "August",
            Month::September => "September",
            Month::October => "October",
            Month::November => "November",
            Month::December => "December",
        }
    }

    /// Returns the first three letters of the name, such as `Jan`.
    ///
    /// ```
    /// let name = Month::September.short_name(); // Sep
    /// ```
    pub fn short_name(&self) -> &'static str
        ensures { result.now ≡ take 3 (month_name self.now) }
    {
        match self {
            Month::January => "Jan",
            Month::February => "Feb",
            Month::March => "Mar",
            Month::April => "Apr",
            Month::May => "May",
            Month::June => "Jun",
            Month::July => "Jul",
            Month::August => "Aug",
            Month::September => "Sep",
            Month::October => "Oct",
            Month::November => "Nov",
            Month::December => "Dec",
        }
    }

    /// Returns how many days the month has in that year. `None` if the year is not one from -262143
    /// to 262142.
    pub fn num_days(&self, year: i32) -> Option<u8>
        ensures { SomeIff result (IsYearInRange year)
            (days_in_month (is_leap year) (number_of_month self.now)) }
    {
        if year < FIRST_YEAR || year > LAST_YEAR {
            return None;
        }
        Some(gregorian::days_in_month(year, self.number_from_month()) as u8)
    }
}

impl fmt::Display for Month {
    ghost output = { λ month. Some (month_name month) };

    fn fmt<W: fmt::Write>(&self, f: &mut fmt::Formatter<W>) -> fmt::Result {
        f.pad(self.name())
    }
}

impl TryFrom<u8> for Month {
    type Error = OutOfRange;

    ghost try_from_gives = { λ number r. MatchResult r
        (λ month. number_of_month month ≡ number) (λ _. (number ≡ 0) ⊎ (12 < number)) };

    // A number from 1, for January, to 12.
    fn try_from(value: u8) -> Result<Month, OutOfRange> {
        Month::from_u32(value as u32).ok_or(OutOfRange::new())
    }
}
