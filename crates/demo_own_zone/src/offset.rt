//! The offsets of the odd zone.
ghost use Rattle.std.specs.Prelude.{Some};
ghost use Rattle.offset_core.specs.Offset.{offset_text};

use offset_core::FixedOffset;
use std::fmt;
use zoned_time::Offset;

/// How far the clocks of the odd zone are from UTC. It prints as its [`FixedOffset`].
#[derive(Clone, Copy, PartialEq, Eq)]
pub enum OddOffset {
    /// At even seconds: 0.
    Even,
    /// At odd seconds: 1 second ahead.
    Odd,
}

impl Offset for OddOffset {
    ghost use Rattle.demo_own_zone.specs.OddOffset.{ahead_of};

    ghost seconds = { ahead_of };

    fn fix(&self) -> FixedOffset {
        match self {
            OddOffset::Even => FixedOffset::east(0),
            OddOffset::Odd => FixedOffset::east(1),
        }
    }
}

impl fmt::Display for OddOffset {
    ghost use Rattle.demo_own_zone.specs.OddOffset.{ahead_of};

    ghost output = { λ offset. Some (offset_text (ahead_of offset)) };

    ghost styled_output = { λ offset _. Some (offset_text (ahead_of offset)) };

    fn fmt<W: fmt::Write>(&self, f: &mut fmt::Formatter<W>) -> fmt::Result {
        fmt::Display::fmt(&self.fix(), f)
    }
}

impl fmt::Debug for OddOffset {
    ghost use Rattle.demo_own_zone.specs.OddOffset.{ahead_of};

    ghost debug_output = { λ offset. Some (offset_text (ahead_of offset)) };

    fn fmt<W: fmt::Write>(&self, f: &mut fmt::Formatter<W>) -> fmt::Result {
        write!(f, "{:?}", self.fix())
    }
}
