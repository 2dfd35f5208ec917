//! Why a value is not rounded.
ghost use Rattle.std.specs.Prelude.{Some};
ghost use Rattle.zoned_round.specs.Durations.{message};

use std::fmt;
use thiserror::Error;

/// Why a value is not rounded to a multiple of a length of time.
#[derive(Clone, Copy, Debug, PartialEq, Eq, Error)]
pub enum RoundingError {
    /// No call returns this; chrono has it.
    DurationExceedsTimestamp,
    /// The length isn't positive, or its nanoseconds don't fit an `i64`.
    DurationExceedsLimit,
    /// What the value's clock shows, in nanoseconds since 1970-01-01 00:00:00, doesn't fit an `i64`.
    TimestampExceedsLimit,
}

impl fmt::Display for RoundingError {
    ghost output = { λ error. Some (message error) };

    ghost styled_output = { λ error _. Some (message error) };

    fn fmt<W: fmt::Write>(&self, f: &mut fmt::Formatter<W>) -> fmt::Result {
        f.write_str(match self {
            RoundingError::DurationExceedsTimestamp => "duration in nanoseconds exceeds timestamp",
            RoundingError::DurationExceedsLimit => "duration exceeds num_nanoseconds limit",
            RoundingError::TimestampExceedsLimit => "timestamp exceeds num_nanoseconds limit",
        })
    }
}
