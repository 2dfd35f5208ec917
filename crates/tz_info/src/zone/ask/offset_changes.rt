//! Changes of the offset: the clock changes at which not only the DST flag or the abbreviation changes.

ghost use Rattle.std.specs.Prelude.{◌≡◌, ◌↔◌, ◌<ℤ◌, ◌≤ℤ◌, IsTrue};
ghost use Rattle.{
  tz_info.specs.{OffsetChanges.{IsFirstOfOffset, IsLastOfOffset, KeepsOffset}, HeldChanges.{change_held}},
  tz_info.specs.Zones.{TypeAt},
};

use crate::change::HeldChange;
use crate::zone::TimeZone;
use tz_base::Change;

impl TimeZone {
    /// Returns the first change of the clocks after that second at which the offset changes, or `None`
    /// if none comes at a later second of 64 bits.
    ///
    /// It goes from change to change, and ends where a rule of one offset has begun. So it finds at most
    /// one change more than the zone has transitions.
    ///
    /// ```
    /// let zone = TimeZone::from_posix_tz(alloc, "WET0WEST,M3.5.0/1,M10.5.0")?;
    /// let change = zone.next_offset_change(0)?;    // of 1970-03-29
    /// let at = change.at;                          // 7520400, 01:00 UTC
    /// ```
    pub fn next_offset_change(&self, after: i64) -> Option<Change>
        ensures { IsFirstOfOffset (TypeAt self.now) (λ u. after <ℤ u) result }
    {
        let end = self.last_of_offsets();
        let mut reached = after;
        'changes: while reached < end {
            let change = self.next_held_change(reached)?;
            if keeps_offset(&change) {
                reached = change.at;
            } else {
                return Some(change.copied());
            }
        }
        None
    }

    /// Returns the last change of the clocks at that second or before it at which the offset changes, or
    /// `None` if none comes at such a second of 64 bits. It takes as long as
    /// [`TimeZone::next_offset_change`].
    ///
    /// ```
    /// let zone = TimeZone::from_posix_tz(alloc, "WET0WEST,M3.5.0/1,M10.5.0")?;
    /// let change = zone.previous_offset_change(0)?;    // of 1969-10-26
    /// let at = change.at;                              // -5785200, 01:00 UTC
    /// ```
    pub fn previous_offset_change(&self, before_or_at: i64) -> Option<Change>
        ensures { IsLastOfOffset (TypeAt self.now) (λ u. u ≤ℤ before_or_at) result }
    {
        let end = self.last_of_offsets();
        let mut reached = if end < before_or_at {
            end
        } else {
            before_or_at
        };
        'changes: while i64::MIN < reached {
            let change = self.previous_held_change(reached)?;
            if keeps_offset(&change) {
                reached = change.at - 1;
            } else {
                return Some(change.copied());
            }
        }
        None
    }

    // A second after which the offset doesn't change: that from which on a rule whose two types have one
    // offset governs, or else the last one.
    fn last_of_offsets(&self) -> i64
        ensures { KeepsOffset (TypeAt self.now) (λ u. result <ℤ u) }
    {
        let _ = &self.changes;
        let Some(turns) = self.turns() else {
            return i64::MAX;
        };
        if turns.std().offset() != turns.dst().offset() {
            return i64::MAX;
        }
        let begin = self.rule_begin();
        if begin < i64::MAX as i128 {
            begin as i64
        } else {
            i64::MAX
        }
    }
}

// Whether the offset stays, so that only the DST flag or the abbreviation changes.
fn keeps_offset(change: &HeldChange<'_>) -> bool
    ensures { IsTrue result
        ↔ ((change_held change.now).before.offset ≡ (change_held change.now).after.offset) }
{
    change.before.offset() == change.after.offset()
}
