//! Why the program does no work.

use std::alloc::AllocError;
use std::io;

/// Why the program does no work.
#[derive(Debug, Drop)]
pub enum WorkError {
    /// Its words are others than it takes.
    Usage,
    /// A file spells no zone, or one that can't be asked.
    Zone,
    /// There is no memory.
    OutOfMemory,
    /// An end failed.
    Io(io::Error),
}

impl From<io::Error> for WorkError {
    fn from(error: io::Error) -> WorkError {
        WorkError::Io(error)
    }
}

impl From<AllocError> for WorkError {
    fn from(_: AllocError) -> WorkError {
        WorkError::OutOfMemory
    }
}

impl From<tz_info::Error> for WorkError {
    fn from(_: tz_info::Error) -> WorkError {
        WorkError::Zone
    }
}
