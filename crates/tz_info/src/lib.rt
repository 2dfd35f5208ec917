//! Time zones parsed from TZif files and TZ strings, and their lookups.
#![tactic(auto)]

mod answers;
mod change;
mod file;
pub mod laws;
mod rule;
mod zone;

pub use change::{HeldChange, HeldSecond, HeldSpan, TypedSecond};
pub use offset_core::Around;
pub use rule::{AlternateTime, DayForm, RuleDay, TransitionRule};
pub use tz_base::{
    Change, Cursor, Error, Expected, LeapSecond, LocalTimeType, ParseError, Span, TimeZoneName,
    Transition,
};
pub use tz_file::FileCounts;
pub use tz_search::Probes;
pub use zone::TimeZone;
pub use zone::ask::all_changes::Changes;
pub use zone::ask::differences::Difference;
pub use zone::ask::lookups::Lookups;
pub use zone::ask::offset_stretch::OffsetStretch;
pub use zone::ask::piece::Piece;
pub use zone::ask::shown_seconds::ShownSeconds;
pub use zone::ask::spans::Spans;
