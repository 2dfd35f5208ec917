//! Instants as text, for people and for other programs: the forms of RFC 3339, RFC 2822 and HTTP, the
//! compact form of iCalendar, ISO weeks, a clock of twelve hours, and how long ago something was.
//!
//! Each form is a wrapper with a `Display`, so `format!` and `write!` take it. Nothing here parses.
//!
//! ```
//! let instant = FixedOffset::west(14_400).timestamp(1_636_263_000, 0);
//! let text = format!(in alloc; "{}", Rfc2822(&instant))?; // Sun, 7 Nov 2021 01:30:00 -0400
//! ```

mod clocks;
mod lengths;
mod stamps;

pub use clocks::{IsoDay, TwelveHours};
pub use lengths::Ago;
pub use stamps::{Compact, HttpDate, Rfc2822, Rfc3339, rfc3339_text};
