//! Jobs that wait for their next runs.
ghost use Rattle.std.specs.Prelude.{◌≡◌, IfSome};
ghost use Rattle.{
  demo_examples.specs.Fires.{IsNextRun},
  zoned.specs.DateTime.{zoned},
};

use crate::scheduler::Job;
use zoned::{DateTime, KeptZone};

/// A job of a queue, with its last run and its next one.
#[derive(Drop)]
pub struct Queued {
    pub job: Job,
    /// The last run, or the instant after which the job was to run, if it has not run yet.
    pub last: DateTime<KeptZone>,
    /// The next run; `None` if the job never runs again.
    pub next: Option<DateTime<KeptZone>>,
    pub ghost is_next: { ∥ IsNextRun job (zoned last).utc.s next ∥₁ },
}

impl Queued {
    pub(crate) fn new(job: Job, last: DateTime<KeptZone>) -> Queued
        ensures { (result.job ≡ job) × (result.last ≡ last.entry) }
    {
        let next = job.next_fire(&last);
        Queued { job, last, next }
    }

    // Takes the next run, if there is one: it is the last one then.
    pub(crate) fn run(&mut self)
        ensures job { self.new.job ≡ self.old.job }
        ensures last { IfSome self.old.next (λ at. self.new.last ≡ at) }
    {
        if let Some(at) = self.next.take() {
            self.next = self.job.next_fire(&at);
            self.last = at;
        }
    }
}
