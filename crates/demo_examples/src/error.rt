//! The client's own error.

use std::alloc::{AllocError, AllocFailed};
use thiserror::Error;
use zoned::{OpenError, ResolveError, SeriesError, tz_info};

/// What can go wrong.
#[derive(Clone, Copy, Debug, PartialEq, Eq, Error)]
pub enum MyError {
    #[error("the zone is rejected: {0}")]
    Zone(#[from] tz_info::Error),
    #[error("the zone has an offset of a day or more")]
    WideZone,
    #[error("no such date or time")]
    NoSuchTime,
    #[error("the clocks: {0}")]
    Clocks(#[from] ResolveError),
    #[error("the series: {0}")]
    Series(#[from] SeriesError),
    #[error("out of memory")]
    OutOfMemory,
}

impl From<AllocError> for MyError {
    fn from(_: AllocError) -> MyError {
        MyError::OutOfMemory
    }
}

// From what there was no room to keep.
impl<T: Drop> From<AllocFailed<T>> for MyError {
    fn from(_: AllocFailed<T>) -> MyError {
        MyError::OutOfMemory
    }
}

impl From<OpenError> for MyError {
    fn from(refused: OpenError) -> MyError {
        match refused {
            OpenError::Zone(fault) => MyError::Zone(fault),
            OpenError::WideZone => MyError::WideZone,
        }
    }
}
