//! TZ strings of rules and of zones, and TZif files of zones, written.
#![tactic(auto)]

mod file;
pub mod laws;
mod pieces;
mod rule_text;
mod zone_text;

pub use file::ToTzData;
pub use rule_text::{ToTzString, TzText};
pub use zone_text::ToPosixTz;
