//! Why a day has no instant of a series.
ghost use Rattle.std.specs.Prelude.{◌≡◌};
ghost use Rattle.zoned_series.specs.Series.{series_error_number};

use thiserror::Error;
use zoned_time::ResolveError;

/// Why a day has no instant of a series.
#[derive(Clone, Copy, PartialEq, Eq, Debug, Error)]
pub enum SeriesError {
    /// The day lies outside the years -262143 to 262142.
    #[error("the day is out of range")]
    Date,
    /// The policy selects no instant for the time on that day.
    #[error(transparent)]
    Resolve(ResolveError),
}

impl SeriesError {
    /// Returns 24 for a day out of range, or the number of the error within.
    pub fn number(&self) -> u8
        ensures { result ≡ series_error_number self.now }
    {
        match self {
            SeriesError::Date => 24,
            SeriesError::Resolve(cause) => cause.number(),
        }
    }
}
