//! A scheduler: jobs that run at times of day by the clocks of their own zones, and a queue of them.
//!
//! On each of its days a job runs at each of its times: at the first instant at which clocks show that
//! time or a later one. That is the end of the gap if they skip it (all times in the gap are then one
//! run), and the first pass of a fold. [`Schedule::next_fire`] returns the first of these instants after
//! another one, and its contract says that none is skipped.

mod error;
mod job;
mod queue;
mod queued;
mod run_days;
mod schedule;

pub use error::SchedulerError;
pub use job::Job;
pub use queue::{Fire, Queue};
pub use queued::Queued;
pub use run_days::RunDays;
pub use schedule::Schedule;
