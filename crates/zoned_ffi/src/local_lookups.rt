//! Lookups of local times one after another, which keep a stretch of the last ones.

ghost use Rattle.std.specs.Prelude.{◌≡◌, ◌↔◌, ◌<ℤ◌, ◌≤ℤ◌, IfSome, IsTrue};
ghost use Rattle.{
  tz_base.specs.LocalTypes.{IsUtOffset},
  tz_info.specs.Zones.{Zone},
  zoned_ffi.specs.{Steps.ShownOnce.{IsHeldOf, IsOnceBy}, Units.{IsOffsetStretch}},
};

use crate::fields::{END, FIRST};
use crate::instants::NO_OFFSET;
use crate::misses::Misses;
use crate::unit::Unit;
use std::marker::Model;
use tz_info::{OffsetStretch, TimeZone};

/// A zone's lookups of local times. If these come in order, or near one another, most lookups only compare
/// the local time with both ends of the stretch that is kept.
#[derive(Drop)]
pub struct LocalLookups<'a> {
    zone: &'a TimeZone,
    misses: Misses,
    held: Held,
}

// Local times from `first` on and before `end`: one second shows each, and that offset is in force then.
#[derive(Clone, Copy)]
struct Held {
    first: i64,
    end: i64,
    offset: i32,
}

impl<'a> Model for LocalLookups<'a> {
    ghost use Rattle.tz_info.specs.Zones.{Zone};
    ghost use Rattle.zoned_ffi.specs.Steps.ShownOnce.{IsHeldOf};

    ghost Value = { Zone };

    ghost view = { λ l. l.zone.now };

    ghost invariant = { λ l. IsHeldOf l.zone.now l.held };
}

impl<'a> LocalLookups<'a> {
    /// Those of the zone.
    pub fn new(zone: &TimeZone) -> LocalLookups<'_>
        ensures { result ≡ zone.now }
    {
        LocalLookups {
            zone,
            misses: Misses::none(),
            held: Held::none(),
        }
    }

    /// The zone.
    #[inline(always)]
    pub fn zone(&self) -> &TimeZone
        ensures { result.now ≡ self.now }
    {
        self.zone
    }

    /// The offset in force at the only second that shows the local time, if the stretch that is kept has
    /// it. Else it keeps another one after some near misses in a row, or after many far ones.
    #[inline(always)]
    pub fn offset_of(&mut self, local: i64) -> Option<i32>
        ensures offset { IfSome result (IsOnceBy self.old local) }
        ensures zone { self.new ≡ self.old }
    {
        if self.held.has(local) {
            return Some(self.held.offset);
        }
        if self.misses.is_due(Unit::Seconds.part_of(local)) {
            self.held = Held::around(self.zone, local);
        }
        None
    }
}

impl Held {
    fn none() -> Held
        ensures { (z : Zone) → IsHeldOf z result }
    {
        Held {
            first: i64::MAX,
            end: i64::MIN,
            offset: 0,
        }
    }

    // Whether the local time is one of them: both comparisons without a jump between.
    #[inline(always)]
    fn has(self, local: i64) -> bool
        ensures { IsTrue result ↔ ((self.first ≤ℤ local) × (local <ℤ self.end)) }
    {
        (self.first <= local) & (local < self.end)
    }

    // Those of the stretch that the local time lies in, if it lies far enough from both ends.
    #[inline(never)]
    fn around(zone: &TimeZone, local: i64) -> Held
        ensures { IsHeldOf zone.now result }
    {
        let second = local.wrapping_sub(i64::from(zone.greatest_offset()));
        match zone.offset_stretch_at(second) {
            Some(stretch) => Held::within(zone, stretch),
            None => Held::none(),
        }
    }

    // The local times that are so far inside the stretch that, whatever the offset, no second outside it
    // shows them.
    fn within(zone: &TimeZone, stretch: OffsetStretch) -> Held
        requires { IsOffsetStretch zone.now stretch }
        ensures { IsHeldOf zone.now result }
    {
        let OffsetStretch {
            from,
            until,
            offset,
        } = stretch;
        if !is_offset(offset) {
            return Held::none();
        }
        let first = from.saturating_add(i64::from(zone.greatest_offset()));
        let end = until.saturating_add(i64::from(zone.least_offset()));
        Held {
            first: first.max(FIRST),
            end: end.min(END),
            offset,
        }
    }
}

// Whether it is an offset that zones have: every one is.
fn is_offset(offset: i32) -> bool
    ensures { IsTrue result ↔ IsUtOffset offset }
{
    offset != NO_OFFSET
}
