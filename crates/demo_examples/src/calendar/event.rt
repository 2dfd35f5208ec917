//! Events.

use crate::MyError;
use zoned::{
    Choice, DateTime, Days, FoldChoice, GapChoice, KeptZone, NaiveDate, NaiveTime, TimeDelta,
    TimeZone, ZoneDays,
};

/// When an event is.
#[derive(Clone, Copy, Debug, PartialEq, Eq, Hash)]
pub enum When {
    /// On whole days, by the clocks of whoever looks.
    AllDay {
        first: NaiveDate,
        days: u64,
    },
    /// From an instant on, for a while.
    Timed {
        start: DateTime<KeptZone>,
        length: TimeDelta,
    },
}

/// An event, such as a birthday or a call.
#[derive(Clone, Copy, Debug, PartialEq, Eq, Hash)]
pub struct Event {
    pub name: &'static str,
    pub when: When,
}

impl Event {
    /// Returns an event of one day.
    pub fn on_day(name: &'static str, first: NaiveDate) -> Event {
        let when = When::AllDay { first, days: 1 };
        Event { name, when }
    }

    /// Returns an event at a local time of the host. A time in a gap moves forward by the length of the
    /// gap, and one in a fold is its first pass.
    ///
    /// # Errors
    ///
    /// [`MyError::Clocks`] if the instant is out of range.
    pub fn at(
        name: &'static str,
        host: &KeptZone,
        date: NaiveDate,
        time: NaiveTime,
        length: TimeDelta,
    ) -> Result<Event, MyError> {
        let choice = Choice {
            gap: GapChoice::ShiftForward,
            fold: FoldChoice::Earliest,
        };
        let start = host.resolve(&date.and_time(time), choice)?;
        Ok(Event {
            name,
            when: When::Timed { start, length },
        })
    }

    /// Returns whether it takes place on a date, or a part of it, by these clocks.
    pub fn is_on(&self, zone: &KeptZone, date: NaiveDate) -> bool {
        match &self.when {
            When::AllDay { first, days } => is_within(*first, *days, date),
            When::Timed { start, length } => {
                is_during(zone, date, start, *length).unwrap_or(false)
            }
        }
    }

    /// Returns when it starts by these clocks: an event of whole days starts with the first of them.
    /// `None` if that is out of range.
    pub fn starts(&self, zone: &KeptZone) -> Option<DateTime<KeptZone>> {
        match &self.when {
            When::AllDay { first, .. } => zone.start_of_day(*first),
            When::Timed { start, .. } => Some(start.with_timezone(zone)),
        }
    }
}

fn is_within(first: NaiveDate, days: u64, date: NaiveDate) -> bool {
    let end = first.checked_add_days(Days::new(days));
    first <= date && end.is_none_or(|end| date < end)
}

// Whether it begins before the day's end, and ends after its start or begins with it.
fn is_during(
    zone: &KeptZone,
    date: NaiveDate,
    start: &DateTime<KeptZone>,
    length: TimeDelta,
) -> Option<bool> {
    let day_starts = zone.start_of_day(date)?;
    let day_ends = zone.start_of_day(date.succ_opt()?)?;
    let end = start.checked_add_signed(length)?;
    Some(*start < day_ends && (day_starts < end || day_starts == *start))
}
