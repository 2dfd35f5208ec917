//! Stretches of seconds at which one offset is in force.

ghost use Rattle.std.specs.Prelude.{◌≡◌, ◌⊎◌, ◌≤ℤ◌, ◌<ℤ◌, ℤ, pos, IfSome, MatchOption};
ghost use Rattle.{
  tz_base.specs.LocalTypes.{LocalType},
  tz_info.specs.Zones.{TypeAt, IsTypeRefused},
};

use crate::zone::time_zone::TimeZone;

/// Unix seconds at which one offset is in force: from `from` on and before `until`.
#[derive(Debug)]
pub struct OffsetStretch {
    /// The first of them.
    pub from: i64,
    /// The second after the last of them.
    pub until: i64,
    /// The offset, in seconds east of UTC.
    pub offset: i32,
}

impl TimeZone {
    /// Returns the piece of [`TimeZone::piece_at`] with the offset of its type.
    #[inline(always)]
    pub fn offset_stretch_at(&self, unix_time: i64) -> Option<OffsetStretch>
        // At each of its seconds a type of its offset is in force.
        ensures each { IfSome result (λ s. (u : ℤ) → s.from ≤ℤ u → u <ℤ s.until
            → (t : LocalType) × TypeAt self.now u t × (s.offset ≡ t.offset)) }
        // The second is one of them.
        ensures at { MatchOption result
            (IsTypeRefused self.now unix_time ⊎ (unix_time ≡ pos 9_223_372_036_854_775_807))
            (λ s. (s.from ≤ℤ unix_time) × (unix_time <ℤ s.until)) }
    {
        match self.piece_at(unix_time) {
            Some(piece) => Some(OffsetStretch {
                from: piece.from,
                until: piece.until,
                offset: piece.local_time_type.offset(),
            }),
            None => None,
        }
    }
}
