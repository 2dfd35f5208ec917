//! Questions about a time zone, one on each line, and a line of answer to each.
//!
//! [`run`] reads lines from a reader and writes an answer to each of them to a writer, before it
//! reads the next line. A line `text T` sets the zone by a TZ string, and a line `data HEX` by the
//! bytes of a TZif file. A line `at SECS` asks for the local time type in force at a Unix time, a
//! line `wall Y M D h m s` for those in force when a clock shows a date and time, or, with a policy
//! `GAP/FOLD` after it, for the instant that the policy selects, and a line `show SECS NANOS` for
//! what the zone's clocks show at an instant. Any other line is answered `bad line`. So
//! only the end of the input, an I/O error or lack of memory ends a run.
#![tactic(auto)]

mod answer;
mod bad_line;
mod choices;
mod dialogue;
mod hex_digits;
mod hopeless;
pub mod laws;
mod lines;
mod numerals;
mod output;
mod program;
mod question;
mod run_error;
mod runs;
mod watched;
mod words;

pub use program::report;
pub use run_error::RunError;
pub use runs::run;
pub use watched::Watched;
