//! What calendars and clocks on a wall show.

use std::fmt;
use zoned::{Datelike, NaiveDate, NaiveTime, Timelike};

/// A day by its ISO week: `2021-W44-7`.
#[derive(Clone, Copy, Debug, PartialEq, Eq, Hash)]
pub struct IsoDay(pub NaiveDate);

impl fmt::Display for IsoDay {
    fn fmt<W: fmt::Write>(&self, f: &mut fmt::Formatter<W>) -> fmt::Result {
        let week = self.0.iso_week();
        let weekday = self.0.weekday().number_from_monday();
        write!(f, "{}-W{:02}-{weekday}", week.year(), week.week())
    }
}

/// A time of day by a clock of twelve hours: `12:30 am`, `1:30 pm`.
#[derive(Clone, Copy, Debug, PartialEq, Eq, Hash)]
pub struct TwelveHours(pub NaiveTime);

impl fmt::Display for TwelveHours {
    fn fmt<W: fmt::Write>(&self, f: &mut fmt::Formatter<W>) -> fmt::Result {
        let half = if self.0.hour() < 12 { "am" } else { "pm" };
        let hour = match self.0.hour() % 12 {
            0 => 12,
            hour => hour,
        };
        write!(f, "{hour}:{:02} {half}", self.0.minute())
    }
}
