//! The clock changes of a zone in a period, as a table, as `zdump` prints them, as JSON, and drawn.
//!
//! [`begin_table`], [`zdump_lines`] and [`to_json`] write a zone's clock changes in a period, in order.
//!
//! Proved: the head of a table and the lines that follow it are together exactly the zone's clock
//! changes in the period, each with its types. The lines of zdump are a pair for each change after the
//! first second of the period, up to the first second after it, and two lines for each end of 64 bits.
//! JSON is one text, the one that the kit's `print` gives for an object with exactly these changes.
//! Pictures are only tested (`tools/try_zonedump.py`).
#![tactic(auto)]

mod change_json;
mod change_lines;
mod changes;
mod clocks;
mod difference_json;
mod differences;
mod json_text;
mod period;
mod picture;
mod rule_words;
mod tables;
mod words;
mod zdump;

pub use changes::changes_in;
pub use clocks::Clock;
pub use difference_json::{differences_to_json, lone_to_json};
pub use differences::{differences_in, push_differences};
pub use json_text::to_json;
pub use period::{Bound, Period};
pub use picture::{Colors, draw, put_picture};
pub use tables::{LinesLeft, begin_table};
pub use words::TypeWords;
pub use zdump::zdump_lines;
