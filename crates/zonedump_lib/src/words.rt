//! Local time types and steps of the clocks in words.

ghost use Rattle.std.specs.Prelude.{Some};
ghost use Rattle.zonedump_lib.specs.Words.{offset_words, step_words, type_words};

use offset_core::FixedOffset;
use std::fmt;
use std::fmt::Write;
use tz_base::LocalTimeType;

// An offset: `+HH:MM` or `+HH:MM:SS` within a day, else its seconds.
#[derive(Clone, Copy)]
struct OffsetWords(i32);

impl fmt::Display for OffsetWords {
    ghost output = { λ words. Some (offset_words words.0) };

    #[tactic(auto, unfolding(crate::specs::Words::offset_words))]
    fn fmt<W: fmt::Write>(&self, f: &mut fmt::Formatter<W>) -> fmt::Result {
        if -86_400 < self.0 && self.0 < 86_400 {
            return write!(f, "{}", FixedOffset::east(self.0));
        }
        write!(f, "{}", self.0)
    }
}

/// A local time type: `-05:00 std EST`.
#[derive(Clone, Copy)]
pub struct TypeWords<'a>(pub &'a LocalTimeType);

impl fmt::Display for TypeWords<'_> {
    ghost output = { λ words. Some (type_words words.0.now) };

    fn fmt<W: fmt::Write>(&self, f: &mut fmt::Formatter<W>) -> fmt::Result {
        let offset = OffsetWords(self.0.offset());
        let mark = if self.0.is_dst() { " dst " } else { " std " };
        let name = self.0.name().map_or("-", |name| name.as_str());
        write!(f, "{offset}{mark}{name}")
    }
}

// What a step of the clocks does, by its seconds.
#[derive(Clone, Copy)]
pub(crate) struct StepWords(pub(crate) i64);

impl fmt::Display for StepWords {
    ghost output = { λ words. Some (step_words words.0) };

    #[tactic(auto, unfolding(crate::specs::Words::step_words))]
    fn fmt<W: fmt::Write>(&self, f: &mut fmt::Formatter<W>) -> fmt::Result {
        if self.0 > 0 {
            write!(f, "gap of {} s", self.0.unsigned_abs())
        } else if self.0 < 0 {
            write!(f, "fold of {} s", self.0.unsigned_abs())
        } else {
            write!(f, "no step")
        }
    }
}
