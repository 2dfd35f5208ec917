//! Offsets of zones.
ghost use Rattle.std.specs.Prelude.{◌≡◌, ℤ};
ghost use Rattle.offset_core.specs.FixedOffset.{seconds_of};

use offset_core::FixedOffset;
use std::fmt;

/// How far the clocks of a zone are from UTC at some instant.
///
/// An offset may have more than its seconds, such as the zone that it came from.
pub trait Offset: Sized + Copy + fmt::Debug {
    // how many seconds local time is ahead of UTC
    ghost seconds: { Self → ℤ };

    /// The offset as nothing but its seconds.
    fn fix(&self) -> FixedOffset
        ensures { seconds_of result ≡ seconds self.now };
}
