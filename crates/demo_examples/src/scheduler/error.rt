//! What can go wrong.

use std::alloc::{AllocError, AllocFailed};
use thiserror::Error;
use zoned::OpenError;

/// Why a zone isn't opened, or a job isn't queued.
#[derive(Clone, Copy, Debug, PartialEq, Eq, Error)]
pub enum SchedulerError {
    #[error("the zone: {0}")]
    Zone(#[from] OpenError),
    #[error("out of memory")]
    OutOfMemory,
}

impl From<AllocError> for SchedulerError {
    fn from(_: AllocError) -> SchedulerError {
        SchedulerError::OutOfMemory
    }
}

impl<T: Drop> From<AllocFailed<T>> for SchedulerError {
    fn from(_: AllocFailed<T>) -> SchedulerError {
        SchedulerError::OutOfMemory
    }
}
