//! Instants, local date-times and times of day rounded to digits of a second, or to multiples of a
//! length of time.
#![tactic(auto)]

mod durations;
mod error;
pub mod laws;
mod stamp;
mod subseconds;

pub use durations::DurationRound;
pub use error::RoundingError;
pub use subseconds::SubsecRound;
