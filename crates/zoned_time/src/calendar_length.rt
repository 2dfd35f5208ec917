//! Lengths of time in calendar units.
ghost use Rattle.std.specs.Prelude.{◌≡◌, ◌/◌, ◌%◌};

use offset_core::TimeDelta;

/// A length of time in months, days and a rest: from [`DateTime::calendar_since`](crate::DateTime), and for
/// [`DateTime::checked_add_calendar`](crate::DateTime).
///
/// Lengths are equal if their months, days and times are: a length of one month isn't one of 31 days.
///
/// ```
/// let length = CalendarLength { months: 27, days: 3, time: TimeDelta::hours(1) };
/// let years = length.years(); // 2
/// let months = length.months_of_year(); // 3
/// ```
#[derive(Clone, Copy, PartialEq, Eq, Hash, Debug)]
pub struct CalendarLength {
    /// The months, those of years too.
    pub months: u32,
    /// The days after the months.
    pub days: u32,
    /// The time after the days. It is not negative in a length that [`DateTime::calendar_since`](crate::DateTime) returns.
    pub time: TimeDelta,
}

impl CalendarLength {
    /// Returns the whole years of the months.
    pub fn years(&self) -> u32
        ensures { result ≡ self.now.months / 12 }
    {
        self.months / 12
    }

    /// Returns the months after the whole years, from 0 to 11.
    pub fn months_of_year(&self) -> u32
        ensures { result ≡ self.now.months % 12 }
    {
        self.months % 12
    }
}
