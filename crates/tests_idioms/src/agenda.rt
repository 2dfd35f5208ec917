//! Jobs of several zones in the order in which they come: a client without a lifetime.

use crate::{IdiomError, copy_of};
use std::alloc::{AllocError, Global};
use zoned::{Choice, DateTime, Days, KeptZone, NaiveDateTime, TimeZone};

/// A job of each day, and when it comes next.
#[derive(Clone, Copy)]
pub struct Job {
    pub number: u32,
    pub zone: KeptZone,
    pub next: DateTime<KeptZone>,
}

impl Job {
    /// A job whose first time is a local time of the zone's clocks.
    pub fn starting(
        number: u32,
        zone: KeptZone,
        first: &NaiveDateTime,
        choice: Choice,
    ) -> Result<Job, IdiomError> {
        let next = zone.resolve(first, choice)?;
        Ok(Job { number, zone, next })
    }

    /// The job on the next day, at the same time by the same clocks.
    pub fn a_day_later(&self) -> Option<Job> {
        let next = self.next.checked_add_days(Days::new(1))?;
        Some(Job {
            number: self.number,
            zone: copy_of(&self.zone),
            next,
        })
    }
}

/// Jobs, the next one first.
#[derive(Drop)]
pub struct Agenda {
    jobs: Vec<Job>,
}

impl Agenda {
    pub fn new(alloc: Global) -> Agenda {
        Agenda {
            jobs: Vec::new(alloc),
        }
    }

    pub fn add(&mut self, job: Job) -> Result<(), AllocError> {
        self.jobs.push(job)?;
        self.jobs.sort_by(|one, other| one.next.cmp(&other.next))
    }

    pub fn len(&self) -> usize {
        self.jobs.len()
    }

    pub fn is_empty(&self) -> bool {
        self.jobs.is_empty()
    }

    pub fn next(&self) -> Option<&Job> {
        self.jobs.first()
    }

    /// The numbers of the jobs that have come by an instant.
    pub fn due(&self, alloc: Global, now: &DateTime<KeptZone>) -> Result<Vec<u32>, AllocError> {
        self.jobs
            .iter()
            .filter(|job| job.next <= *now)
            .map(|job| job.number)
            .collect(alloc)
    }
}
