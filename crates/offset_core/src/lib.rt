//! Values that every crate of zoned time shares: the answer of a lookup by local time, fixed offsets
//! from UTC, lengths of time, and policies for gaps and folds.
#![tactic(auto)]

mod around;
mod choice;
mod fixed_offset;
pub mod laws;
mod local_result;
mod resolve_error;
mod short_text;
mod time_delta;

pub use around::{Around, Taken};
pub use choice::{Choice, FoldChoice, GapChoice};
pub use fixed_offset::FixedOffset;
pub use local_result::{LocalResult, MappedLocalTime};
pub use resolve_error::ResolveError;
pub use short_text::ShortText;
pub use time_delta::{OutOfRangeError, TimeDelta};
