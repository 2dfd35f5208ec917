//! Jobs in the order in which they run.
ghost use Rattle.std.specs.Prelude.{◌≡◌, ◌⊎◌, ◌≤◌, ◌<ℤ◌, ◌≤ℤ◌, [], length, slice_get, IfNone, IfSome, MatchOption, MatchResult};
ghost use Rattle.{
  demo_examples.specs.Queues.{jobs_of, IsAdded, IsFirstAt, IsFirstRun, IsNoneDue, IsTaken, NoneRuns},
  zoned.specs.DateTime.{zoned},
};

use crate::scheduler::{Job, Queued, SchedulerError};
use std::alloc::Global;
use std::fmt;
use zoned::{DateTime, KeptZone};

/// A job's run: its instant, and the job's place in the queue.
#[derive(Clone, Copy, Debug, PartialEq, Eq, PartialOrd, Ord)]
pub struct Fire {
    pub at: DateTime<KeptZone>,
    pub job: usize,
}

/// A queue of jobs of several zones, each at its next run.
///
/// ```
/// while let Some(fire) = queue.take_due(&now) {
///     // run the job `queue.job(&fire)`
/// }
/// ```
#[derive(Drop)]
pub struct Queue {
    queued: Vec<Queued>,
}

impl Queue {
    /// Returns a queue without jobs.
    pub fn new(alloc: Global) -> Queue
        ensures { jobs_of result ≡ [] }
    {
        Queue {
            queued: Vec::new(alloc),
        }
    }

    /// Adds a job, which runs after that instant.
    ///
    /// # Errors
    ///
    /// Running out of memory.
    pub fn add(&mut self, job: Job, now: DateTime<KeptZone>) -> Result<(), SchedulerError>
        ensures { MatchResult result
            (λ _. IsAdded job (zoned now.entry) (jobs_of self.old) (jobs_of self.new))
            (λ _. jobs_of self.new ≡ jobs_of self.old) }
    {
        self.queued.push(Queued::new(job, now))?;
        Ok(())
    }

    /// Returns the next run of all jobs; `None` if none runs again.
    pub fn next_due(&self) -> Option<Fire>
        ensures { MatchOption result (NoneRuns (jobs_of self.now)) (IsFirstRun (jobs_of self.now)) }
    {
        let (job, _) = self.first()?;
        let at = self.queued.get(job)?.next.as_ref().copied()?;
        Some(Fire { at, job })
    }

    /// Takes the next run that is due at an instant, after which its job waits for its next one; `None`
    /// if no run is due. It looks at each job.
    pub fn take_due(&mut self, now: &DateTime<KeptZone>) -> Option<Fire>
        ensures { MatchOption result
            (IsNoneDue (jobs_of self.old) (zoned now.now).utc.s × (jobs_of self.new ≡ jobs_of self.old))
            (λ fire. IsTaken (jobs_of self.old) (zoned now.now).utc.s fire (jobs_of self.new)) }
    {
        let fire = self.next_due()?;
        if fire.at.timestamp() > now.timestamp() {
            return None;
        }
        match self.queued.get_mut(fire.job) {
            Some(queued) => queued.run(),
            None => {}
        }
        Some(fire)
    }

    // The job that runs next, and the second of its run.
    fn first(&self) -> Option<(usize, i64)>
        ensures { MatchOption result (NoneRuns (jobs_of self.now))
            (λ first. IsFirstAt (jobs_of self.now) first.0 first.1) }
    {
        let mut first: Option<(usize, i64)> = None;
        for job in 0..self.queued.len() {
            match &self.queued[job].next {
                Some(at) => first = sooner(first, job, at.timestamp()),
                None => {}
            }
        }
        first
    }

    /// Returns the job of a run, or `None` if the queue has no such job.
    pub fn job(&self, fire: &Fire) -> Option<&Job>
        ensures none { IfNone result (length (jobs_of self.now) ≤ fire.now.job) }
        ensures some { IfSome result (λ job. (q : Queued) × (slice_get (jobs_of self.now) fire.now.job ≡ Some q)
            × (job.now ≡ q.job)) }
    {
        let queued = self.queued.get(fire.job)?;
        Some(&queued.job)
    }
}

// The run of that job at that second, if it comes before the first so far.
fn sooner(first: Option<(usize, i64)>, job: usize, second: i64) -> Option<(usize, i64)>
    ensures { MatchOption first (result ≡ Some (job, second))
        (λ f. ((f.1 ≤ℤ second) × (result ≡ first)) ⊎ ((second <ℤ f.1) × (result ≡ Some (job, second)))) }
{
    match first {
        Some((_, other)) if other <= second => first,
        _ => Some((job, second)),
    }
}

impl fmt::Display for Fire {
    fn fmt<W: fmt::Write>(&self, f: &mut fmt::Formatter<W>) -> fmt::Result {
        write!(f, "{} job {}", self.at, self.job)
    }
}
