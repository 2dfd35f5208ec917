//! The days on which a job runs.
ghost use Rattle.std.specs.Prelude.{◌↔◌, IsTrue, ℤ};
ghost use Rattle.{
  demo_examples.specs.Fires.{RunsOn},
  zoned.specs.NaiveDate.{day_of},
};

use zoned::{Datelike, NaiveDate, Weekday};

/// The days on which a job runs.
#[derive(Clone, Copy, Debug, PartialEq, Eq, Hash)]
pub enum RunDays {
    Every,
    /// Monday to Friday.
    Workdays,
    Weekday(Weekday),
    /// That day of each month that has it.
    MonthDay(u32),
}

impl RunDays {
    pub fn runs_on(&self, date: NaiveDate) -> bool
        ensures { IsTrue result ↔ RunsOn self.now (day_of date) }
    {
        let weekday = date.weekday().num_days_from_sunday();
        match self {
            RunDays::Every => true,
            RunDays::Workdays => 1 <= weekday && weekday <= 5,
            RunDays::Weekday(other) => weekday == other.num_days_from_sunday(),
            RunDays::MonthDay(day) => date.day() == *day,
        }
    }

    // Whether no month has such a day.
    pub(crate) fn has_no_day(&self) -> bool
        ensures { IsTrue result → (day : ℤ) → RunsOn self.now day → ⊥ }
    {
        match self {
            RunDays::MonthDay(day) => *day == 0 || *day > 31,
            _ => false,
        }
    }
}
