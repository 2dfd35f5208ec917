//! The events of a day, in order.

use super::Event;
use std::alloc::{AllocError, Global};
use std::cmp::Ordering;
use std::fmt;
use zoned::{DateTime, KeptZone, NaiveDate};

/// Someone's events, by their clocks.
#[derive(Debug, Drop)]
pub struct Agenda {
    pub zone: KeptZone,
    events: Vec<Event>,
}

/// An event on a day, and when it starts.
#[derive(Clone, Copy, Debug, PartialEq, Eq)]
pub struct Entry {
    pub start: DateTime<KeptZone>,
    pub name: &'static str,
}

impl Agenda {
    /// Returns an agenda without events.
    pub fn new(alloc: Global, zone: KeptZone) -> Agenda {
        let events = Vec::new(alloc);
        Agenda { zone, events }
    }

    /// Adds an event.
    ///
    /// # Errors
    ///
    /// Running out of memory.
    pub fn add(&mut self, event: Event) -> Result<(), AllocError> {
        self.events.push(event)?;
        Ok(())
    }

    /// Returns the events of a date, the one that starts first at the front.
    ///
    /// # Errors
    ///
    /// Running out of memory.
    pub fn on(&self, alloc: Global, date: NaiveDate) -> Result<Vec<Entry>, AllocError> {
        let mut entries = Vec::new(alloc);
        for event in self.events.iter().copied() {
            if event.is_on(&self.zone, date) {
                if let Some(start) = event.starts(&self.zone) {
                    let name = event.name;
                    entries.push(Entry { start, name })?;
                }
            }
        }
        entries.sort_by(in_order_of_time)?;
        Ok(entries)
    }
}

fn in_order_of_time(one: &Entry, other: &Entry) -> Ordering {
    one.start.cmp(&other.start)
}

impl fmt::Display for Entry {
    fn fmt<W: fmt::Write>(&self, f: &mut fmt::Formatter<W>) -> fmt::Result {
        write!(f, "{} {}", self.start, self.name)
    }
}
