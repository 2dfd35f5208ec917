//! What can go wrong.

use std::alloc::{AllocError, AllocFailed};
use thiserror::Error;
use zoned::OpenError;

/// Why a zone or a line can't be read.
#[derive(Clone, Copy, Debug, PartialEq, Eq, Error)]
pub enum LogError {
    #[error("the zone: {0}")]
    Zone(#[from] OpenError),
    #[error("a line begins with a date and a time, as 2021-11-07 01:30:00")]
    NoStamp,
    #[error("clocks never showed that time")]
    Skipped,
    #[error("clocks had another offset then")]
    OtherOffset,
    #[error("out of memory")]
    OutOfMemory,
}

impl From<AllocError> for LogError {
    fn from(_: AllocError) -> LogError {
        LogError::OutOfMemory
    }
}

impl<T: Drop> From<AllocFailed<T>> for LogError {
    fn from(_: AllocFailed<T>) -> LogError {
        LogError::OutOfMemory
    }
}
