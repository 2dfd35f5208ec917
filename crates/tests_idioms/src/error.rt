//! What can go wrong.

use thiserror::Error;
use zoned::{ResolveError, RoundingError};

/// Why there is no such instant.
#[derive(Clone, Copy, Debug, PartialEq, Eq, Error)]
pub enum IdiomError {
    #[error("no such date or time")]
    NoSuchTime,
    #[error("the clocks: {0}")]
    Clocks(#[from] ResolveError),
    #[error("the rounding: {0}")]
    Rounding(#[from] RoundingError),
}
