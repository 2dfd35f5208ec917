//! Theorems: a function here does only what its contract says; never called.
ghost use Rattle.std.specs.Prelude.{◌≡◌, ◌↔◌, IsTrue, Option, ℤ};
ghost use Rattle.{
  tz_info.specs.{Changes.{IsFirst, IsLast}, Zones.{TypeAt, Zone}},
  zoned_ref.specs.{TimeZoneRef.{writes_of, zone_of}, ZoneOffset.{ahead_of, type_of}, ZoneChange.{IsAfter, IsUpTo}},
};
ghost use Rattle.std.specs.Hash as fed;
ghost use Rattle.zoned_ref.specs.KeptZone as kept;

use crate::{KeptChange, KeptZone, TimeZoneRef, WallClock, ZoneChange, ZoneOffset};
use std::hash::Hash;
use std::mem::size_of;
use tz_base::Change;
use zoned_time::DateTime;

// An instant is a date-time of UTC, and references to the zone and to the type in force.
const _: () = prove!(size_of::<DateTime<TimeZoneRef<'static>>>() == 32);

const _: () = prove!(size_of::<DateTime<KeptZone>>() == 32);

/// Offsets are equal if and only if their types of local time are, a hash looks at the seconds, and
/// a clone is the offset.
pub fn zone_offsets<'a>()
    ensures equal { (a b : ZoneOffset) → IsTrue (⟦<ZoneOffset<'a> as PartialEq>⟧.eq a b)
        ↔ (type_of a ≡ type_of b) }
    ensures hashed { (a : ZoneOffset) → ⟦<ZoneOffset<'a> as Hash>⟧.hash_input a
        ≡ fed.i32 (ahead_of a) }
    ensures cloned { (a b : ZoneOffset) → ⟦<ZoneOffset<'a> as Clone>⟧.is_clone a b ↔ (b ≡ a) }
    ensures infallible { (a : ZoneOffset) → ⟦<ZoneOffset<'a> as Clone>⟧.is_infallible a }
{
    tz_base::laws::local_time_types();
}

/// Zones are equal if and only if their transitions, types, leap seconds and rules are. A hash looks
/// at the count of transitions and the offset of the first type. A clone is the zone, and making it
/// never fails.
pub fn time_zone_refs<'a>()
    ensures equal { (a b : TimeZoneRef) → IsTrue (⟦<TimeZoneRef<'a> as PartialEq>⟧.eq a b)
        ↔ (zone_of a ≡ zone_of b) }
    ensures hashed { (a : TimeZoneRef) → ⟦<TimeZoneRef<'a> as Hash>⟧.hash_input a
        ≡ writes_of (zone_of a) }
    ensures cloned { (a b : TimeZoneRef) → ⟦<TimeZoneRef<'a> as Clone>⟧.is_clone a b ↔ (b ≡ a) }
    ensures infallible { (a : TimeZoneRef) → ⟦<TimeZoneRef<'a> as Clone>⟧.is_infallible a }
{
    tz_info::laws::equality::zones();
}

/// A clone of a change of the clocks is that change, and making it never fails.
pub fn zone_changes<'a>(a: &ZoneChange<'a>, b: &ZoneChange<'a>)
    ensures cloned { ⟦<ZoneChange<'a> as Clone>⟧.is_clone a.now b.now → b.now ≡ a.now }
    ensures infallible { ⟦<ZoneChange<'a> as Clone>⟧.is_infallible a.now }
{}

/// Kept zones are equal and hashed as the borrowed zones that they are; a clone is the zone, and
/// making it never fails.
pub fn kept_zones()
    ensures equal { (a b : KeptZone) → IsTrue (⟦<KeptZone as PartialEq>⟧.eq a b)
        ↔ (kept.zone_of a ≡ kept.zone_of b) }
    ensures hashed { (a : KeptZone) → ⟦<KeptZone as Hash>⟧.hash_input a
        ≡ writes_of (kept.zone_of a) }
    ensures cloned { (a b : KeptZone) → ⟦<KeptZone as Clone>⟧.is_clone a b ↔ (b ≡ a) }
    ensures infallible { (a : KeptZone) → ⟦<KeptZone as Clone>⟧.is_infallible a }
{
    tz_info::laws::equality::zones();
}

/// A clone of a change of a kept zone's clocks is that change, and making it never fails.
pub fn kept_changes(a: &KeptChange, b: &KeptChange)
    ensures cloned { ⟦<KeptChange as Clone>⟧.is_clone a.now b.now → b.now ≡ a.now }
    ensures infallible { ⟦<KeptChange as Clone>⟧.is_infallible a.now }
{}

/// A clone of a `WallClock` is the same, and making it never fails.
pub fn wall_clocks(a: &WallClock, b: &WallClock)
    ensures cloned { ⟦<WallClock as Clone>⟧.is_clone a.now b.now → b.now ≡ a.now }
    ensures infallible { ⟦<WallClock as Clone>⟧.is_infallible a.now }
{}

/// The first change of a zone's clocks after a second, and the last one up to it, are determined: two
/// answers of `next_change` for one instant show the same change, and so do two of
/// `previous_change`.
pub fn one_change()
    ensures next { (z : Zone) (s : ℤ) (a b : Option Change) → IsFirst (TypeAt z) (IsAfter s) a
        → IsFirst (TypeAt z) (IsAfter s) b → a ≡ b }
    ensures previous { (z : Zone) (s : ℤ) (a b : Option Change) → IsLast (TypeAt z) (IsUpTo s) a
        → IsLast (TypeAt z) (IsUpTo s) b → a ≡ b }
{}
