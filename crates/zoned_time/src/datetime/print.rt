//! How instants print: as what a clock with their offset shows, and the offset. Both are written at
//! once, unless the text is longer than a `ShortText`.
ghost use Rattle.std.specs.Prelude.{◌∷◌, ◌++◌, option_map};
ghost use Rattle.{
  naive_base.specs.Text.{reading_text},
  zoned_time.specs.DateTime.{zoned, wall_of},
};

use super::Instant;
use crate::Offset;
use offset_core::ShortText;
use std::fmt;
use std::fmt::Write;

impl<Tz, O: Offset + fmt::Display> fmt::Display for Instant<Tz, O> {
    ghost output = { λ d. option_map (λ offset. reading_text 32 (wall_of d) ++ (32 ∷ offset))
        (O.output (zoned d).offset) };

    fn fmt<W: fmt::Write>(&self, f: &mut fmt::Formatter<W>) -> fmt::Result {
        let local = self.local();
        let mut text = ShortText::new();
        match write!(text, "{local} {}", self.offset) {
            Ok(()) => f.write_str(text.as_str()),
            Err(_) => write!(f, "{local} {}", self.offset),
        }
    }
}

impl<Tz, O: Offset> fmt::Debug for Instant<Tz, O> {
    ghost debug_output = { λ d. option_map (λ offset. reading_text 84 (wall_of d) ++ offset)
        (O.debug_output (zoned d).offset) };

    fn fmt<W: fmt::Write>(&self, f: &mut fmt::Formatter<W>) -> fmt::Result {
        let local = self.local();
        let mut text = ShortText::new();
        match write!(text, "{local:?}{:?}", self.offset) {
            Ok(()) => f.write_str(text.as_str()),
            Err(_) => write!(f, "{local:?}{:?}", self.offset),
        }
    }
}
