//! What is written in a picture: names, clocks, lengths and places.

use crate::period::Period;
use std::alloc::AllocError;
use std::fmt;
use tz_base::{Change, LocalTimeType};

/// Appends a text as SVG allows it: `&`, `<` and `>` by their names, and `?` for what is no printed
/// character of ASCII.
pub(super) fn put_escaped(out: &mut String, text: &str) -> Result<(), AllocError> {
    for byte in text.as_bytes() {
        match *byte {
            b'&' => out.push_str("&amp;")?,
            b'<' => out.push_str("&lt;")?,
            b'>' => out.push_str("&gt;")?,
            b' '..=b'~' => out.push(*byte as char)?,
            _ => out.push_str("?")?,
        }
    }
    Ok(())
}

/// A place in the picture, of tenths of a pixel: `243.2`, `84`.
#[derive(Clone, Copy)]
pub(super) struct Place(pub(super) u64);

impl fmt::Display for Place {
    fn fmt<W: fmt::Write>(&self, f: &mut fmt::Formatter<W>) -> fmt::Result {
        if self.0 % 10 == 0 {
            return write!(f, "{}", self.0 / 10);
        }
        write!(f, "{}.{}", self.0 / 10, self.0 % 10)
    }
}

/// An offset from UTC at its tick: `UTC`, `UTC-5`, `UTC+5:45`.
#[derive(Clone, Copy)]
pub(super) struct Tick(pub(super) i64);

impl fmt::Display for Tick {
    fn fmt<W: fmt::Write>(&self, f: &mut fmt::Formatter<W>) -> fmt::Result {
        let seconds = self.0.unsigned_abs();
        if seconds == 0 {
            return write!(f, "UTC");
        }
        let sign = if self.0 < 0 { "-" } else { "+" };
        let (hours, minutes, rest) = (seconds / 3600, seconds / 60 % 60, seconds % 60);
        write!(f, "UTC{sign}{hours}")?;
        if minutes != 0 || rest != 0 {
            write!(f, ":{minutes:02}")?;
        }
        if rest != 0 {
            write!(f, ":{rest:02}")?;
        }
        Ok(())
    }
}

/// Returns the abbreviation of a type, or `-`.
pub(super) fn name_of(shown: &LocalTimeType) -> &str {
    shown.name().map_or("-", |name| name.as_str())
}

// A number of seconds, in the greatest of hours, minutes and seconds that divides it.
#[derive(Clone, Copy)]
struct Length(u32);

impl fmt::Display for Length {
    fn fmt<W: fmt::Write>(&self, f: &mut fmt::Formatter<W>) -> fmt::Result {
        let seconds = self.0;
        if seconds % 3600 == 0 {
            write!(f, "{} h", seconds / 3600)
        } else if seconds % 60 == 0 {
            write!(f, "{} min", seconds / 60)
        } else {
            write!(f, "{seconds} s")
        }
    }
}

/// What a change is: a gap, a fold, or no step.
#[derive(Clone, Copy)]
pub(super) struct Step<'a>(pub(super) &'a Change);

impl fmt::Display for Step<'_> {
    fn fmt<W: fmt::Write>(&self, f: &mut fmt::Formatter<W>) -> fmt::Result {
        let before = self.0.before.offset();
        let after = self.0.after.offset();
        if before < after {
            write!(f, "gap of {}", Length(after.abs_diff(before)))
        } else if after < before {
            write!(f, "fold of {}", Length(before.abs_diff(after)))
        } else {
            write!(f, "no step")
        }
    }
}

/// The years or days from one to another, or only one.
#[derive(Clone, Copy)]
pub(super) struct Span(pub(super) Period);

impl fmt::Display for Span {
    fn fmt<W: fmt::Write>(&self, f: &mut fmt::Formatter<W>) -> fmt::Result {
        let first = self.0.first;
        let last = self.0.last;
        if first == last {
            write!(f, "{first}")
        } else {
            write!(f, "{first} to {last}")
        }
    }
}
