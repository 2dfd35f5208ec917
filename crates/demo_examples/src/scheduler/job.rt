//! Jobs.
ghost use Rattle.demo_examples.specs.Fires.{IsNextRun};
ghost use Rattle.zoned.specs.DateTime.{zoned};

use crate::scheduler::{Schedule, SchedulerError};
use std::alloc::Global;
use zoned::{DateTime, KeptZone};

/// A job that runs by the clocks of its zone.
#[derive(Debug, PartialEq, Eq, Hash, Drop)]
pub struct Job {
    pub name: &'static str,
    pub zone: KeptZone,
    pub schedule: Schedule,
}

impl Job {
    /// Returns a job by the clocks of a TZif file.
    ///
    /// # Errors
    ///
    /// The bytes are not a zone, or have an offset of a day or more; running out of memory.
    pub fn by_file(
        alloc: Global,
        name: &'static str,
        file: &[u8],
        schedule: Schedule,
    ) -> Result<Job, SchedulerError> {
        let zone = KeptZone::open(alloc, file)?;
        Ok(Job {
            name,
            zone,
            schedule,
        })
    }

    /// Returns when it runs next after an instant; `None` if it never runs again.
    pub fn next_fire(&self, after: &DateTime<KeptZone>) -> Option<DateTime<KeptZone>>
        ensures { IsNextRun self.now (zoned after.now).utc.s result }
    {
        self.schedule.next_fire(&self.zone, after)
    }
}
