//! The standard offset of a time zone, and the amount of daylight saving time in force.
#![tactic(auto)]

mod candidates;
pub mod laws;
mod next_use;
mod saving;
mod sides;

pub use saving::{Saving, daylight_saving};
