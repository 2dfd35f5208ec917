//! What a zone is asked: by instant, by local time, and from change to change.

pub(crate) mod all_changes;
mod changes;
pub(crate) mod differences;
mod folds;
mod gap;
mod leap_times;
mod lookup;
pub(crate) mod lookups;
mod offset_changes;
pub(crate) mod offset_stretch;
pub(crate) mod piece;
mod reached;
pub(super) mod runs;
mod segment_search;
pub(crate) mod shown_seconds;
mod span;
pub(crate) mod spans;
pub(super) mod typed;
mod walk;
mod wall_clock;
