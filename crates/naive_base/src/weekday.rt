//! Weekdays.
ghost use Rattle.std.specs.Prelude.{◌≡◌, ◌+◌, ◌-◌, ◌%◌, ◌<◌, ◌≤◌, Some, MatchResult};
ghost use Rattle.naive_base.specs.Weekday.{weekday_number, days_from_monday, weekday_text};

use crate::OutOfRange;
use std::fmt;

/// A day of the week. Weekdays have no order: a week may be said to begin with any of them.
#[derive(Clone, Copy, PartialEq, Eq, Hash, Debug)]
pub enum Weekday {
    /// Monday.
    Mon,
    /// Tuesday.
    Tue,
    /// Wednesday.
    Wed,
    /// Thursday.
    Thu,
    /// Friday.
    Fri,
    /// Saturday.
    Sat,
    /// Sunday.
    Sun,
}

impl Weekday {
    fn short_name(&self) -> &'static str
        ensures { result.now ≡ weekday_text self.now }
    {
        match self {
            Weekday::Mon => "Mon",
            Weekday::Tue => "Tue",
            Weekday::Wed => "Wed",
            Weekday::Thu => "Thu",
            Weekday::Fri => "Fri",
            Weekday::Sat => "Sat",
            Weekday::Sun => "Sun",
        }
    }

    // The weekday of a number from 0, for Sunday, to 6.
    pub(crate) fn of_number(number: u32) -> Weekday
        requires { number < 7 }
        ensures { weekday_number result ≡ number }
    {
        match number {
            0 => Weekday::Sun,
            1 => Weekday::Mon,
            2 => Weekday::Tue,
            3 => Weekday::Wed,
            4 => Weekday::Thu,
            5 => Weekday::Fri,
            _ => Weekday::Sat,
        }
    }

    /// Returns the next day of the week.
    pub fn succ(&self) -> Weekday
        ensures { weekday_number result ≡ (weekday_number self.now + 1) % 7 }
    {
        Weekday::of_number((self.num_days_from_sunday() + 1) % 7)
    }

    /// Returns the day of the week before this one.
    pub fn pred(&self) -> Weekday
        ensures { weekday_number result ≡ (weekday_number self.now + 6) % 7 }
    {
        Weekday::of_number((self.num_days_from_sunday() + 6) % 7)
    }

    /// Returns the days from another day of the week to the next day that is this one, from 0 for
    /// the same day to 6.
    ///
    /// From Thursday to Monday there are four days: `Weekday::Mon.days_since(Weekday::Thu)` is 4.
    pub fn days_since(&self, other: Weekday) -> u32
        ensures value { result ≡ (weekday_number self.now + 7 - weekday_number other) % 7 }
        ensures bound { result < 7 }
    {
        (self.num_days_from_sunday() + 7 - other.num_days_from_sunday()) % 7
    }

    /// Returns the days from the Monday before it, 0 for Monday to 6 for Sunday.
    pub fn num_days_from_monday(&self) -> u32
        ensures value { result ≡ days_from_monday self.now }
        ensures bound { result < 7 }
    {
        match self {
            Weekday::Mon => 0,
            Weekday::Tue => 1,
            Weekday::Wed => 2,
            Weekday::Thu => 3,
            Weekday::Fri => 4,
            Weekday::Sat => 5,
            Weekday::Sun => 6,
        }
    }

    /// Returns the days from the Sunday before it, 0 for Sunday to 6 for Saturday.
    pub fn num_days_from_sunday(&self) -> u32
        ensures value { result ≡ weekday_number self.now }
        ensures bound { result < 7 }
    {
        match self {
            Weekday::Sun => 0,
            Weekday::Mon => 1,
            Weekday::Tue => 2,
            Weekday::Wed => 3,
            Weekday::Thu => 4,
            Weekday::Fri => 5,
            Weekday::Sat => 6,
        }
    }

    /// Returns its number in a week that begins on Monday, as in ISO 8601: 1 for Monday to 7 for
    /// Sunday.
    pub fn number_from_monday(&self) -> u32
        ensures value { result ≡ days_from_monday self.now + 1 }
        ensures bound { (1 ≤ result) × (result ≤ 7) }
    {
        self.num_days_from_monday() + 1
    }

    /// Returns its number in a week that begins on Sunday: 1 for Sunday to 7 for Saturday.
    pub fn number_from_sunday(&self) -> u32
        ensures value { result ≡ weekday_number self.now + 1 }
        ensures bound { (1 ≤ result) × (result ≤ 7) }
    {
        self.num_days_from_sunday() + 1
    }
}

/// Its first three letters, such as `Mon`, in the width, fill and alignment of the formatter.
impl fmt::Display for Weekday {
    ghost output = { λ weekday. Some (weekday_text weekday) };

    fn fmt<W: fmt::Write>(&self, f: &mut fmt::Formatter<W>) -> fmt::Result {
        f.pad(self.short_name())
    }
}

impl TryFrom<u8> for Weekday {
    type Error = OutOfRange;

    ghost try_from_gives = { λ number r. MatchResult r
        (λ weekday. days_from_monday weekday ≡ number) (λ _. 7 ≤ number) };

    // A number from 0, for Monday, to 6.
    fn try_from(value: u8) -> Result<Weekday, OutOfRange> {
        if value > 6 {
            return Err(OutOfRange::new());
        }
        Ok(Weekday::of_number((value as u32 + 1) % 7))
    }
}
