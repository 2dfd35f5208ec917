//! A reader of logs whose lines have local times, with or without an offset.
//!
//! In a fold clocks show each time twice: the reader chooses the pass that keeps the lines in order. A
//! time that clocks skip is an error, and so is an offset that they don't have then.
//!
//! ```
//! let mut reader = Reader::new(new_york);
//! let first = reader.read("2021-11-07 01:30:00 first pass")?; // 2021-11-07 01:30:00 -04:00
//! let second = reader.read("2021-11-07 01:15:00 second pass")?; // 2021-11-07 01:15:00 -05:00
//! ```

mod error;
mod fields;
mod reader;
mod summary;

pub use error::LogError;
pub use fields::{local_time, offset};
pub use reader::{Reader, again};
pub use summary::{by_day, by_hour, in_order, longest_silence};
