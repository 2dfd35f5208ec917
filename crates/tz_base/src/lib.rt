//! Parts that rules, files and zones share: errors, the cursor over bytes, the place of a fault, white
//! space, abbreviations, local time types, transitions, leap seconds, clock changes, and the spans between
//! them.
//!
//! A contract sees of a `Cursor` what is left to read, of a `TimeZoneName` its bytes. Proved: a call of
//! `Cursor` that returns an error doesn't move the cursor; names, types and the numbers of errors are
//! exact. Only tested: the texts of `Error`, `ParseError` and `Expected`. Clauses name only the variant
//! of what was expected of an instant that has no type.
#![tactic(auto)]

mod change;
mod cursor;
mod error;
pub mod laws;
mod leap_second;
mod local_time_type;
mod name;
mod parse_error;
pub mod place;
mod span;
mod transition;
pub mod trims;

pub use change::Change;
pub use cursor::Cursor;
pub use error::{Error, Expected};
pub use leap_second::LeapSecond;
pub use local_time_type::LocalTimeType;
pub use name::TimeZoneName;
pub use parse_error::ParseError;
pub use span::Span;
pub use transition::Transition;
