//! Zones that C keeps: opened, shared and closed.

ghost use Rattle.std.specs.{Arc.{arc_value}, Prelude.{◌≡◌, ◌≢◌, ◌⊎◌, ◌↔◌, IfErr, IfOk, IfSome, IsTrue}};
ghost use Rattle.{
  tz_base.specs.LocalTypes.{IsUtOffset},
  tz_info.specs.Zones.{plain_zone, Zone},
  zoned_ffi.specs.{Handles.{IsClosed, IsLent, IsNoneLent, IsOpen}, Kinds.{IsZoneOf}, Kinds.{IsAboveLimits}},
  zoned_ffi.specs.Refusals.{refusal_number, IsErrorOfKind},
};

use crate::handle::Handle;
use crate::kind::{Kind, read_zone};
use crate::lent::Lent;
use crate::refusal::{ABOVE_LIMITS, LOCAL_TIME_TYPE, NOT_OPEN, OUT_OF_MEMORY, Refusal};
use std::alloc::Global;
use std::sync::Arc;
use tz_info::{Error, TimeZone};

/// Reads the zone, and opens it. A zone that `out` had open is closed.
#[unsafe(no_mangle)]
pub extern "C" fn zoned_open(alloc: Global, kind: u32, zone: &[u8], out: &mut Handle) -> u32
    // 0: the zone that the bytes spell is open.
    ensures opened { result ≡ 0 → (z : Zone) × IsZoneOf kind zone.now z × IsOpen out.new z }
    // Another number says what is wrong, and `out` is as it was.
    ensures refused { result ≢ 0 → IsErrorOfKind kind zone.now result × (out.new ≡ out.old) }
    // The zone that is spelled is opened, unless memory runs out.
    ensures only { (z : Zone) → IsZoneOf kind zone.now z → (result ≡ 0) ⊎ (result ≡ 17) }
{
    match opened(alloc, kind, zone) {
        Ok(handle) => {
            *out = handle;
            0
        }
        Err(refusal) => refusal.number(),
    }
}

/// Opens the zone as [`zoned_open`] does, unless the bytes are a file with more transitions or leap seconds
/// than those numbers. That is found before memory is taken.
#[unsafe(no_mangle)]
pub extern "C" fn zoned_open_limited(
    alloc: Global,
    kind: u32,
    zone: &[u8],
    most_transitions: usize,
    most_leap_seconds: usize,
    out: &mut Handle,
) -> u32
    // 48: the file is above the limits.
    ensures limited { (result ≡ 48) ↔ IsAboveLimits kind zone.now most_transitions most_leap_seconds }
    // 0: the zone that the bytes spell is open.
    ensures opened { result ≡ 0 → (z : Zone) × IsZoneOf kind zone.now z × IsOpen out.new z }
    // Another number says what is wrong, and `out` is as it was.
    ensures refused { result ≢ 0
        → ((result ≡ 48) ⊎ IsErrorOfKind kind zone.now result) × (out.new ≡ out.old) }
    // The zone that is spelled is opened, unless it is above the limits or memory runs out.
    ensures only { (z : Zone) → IsZoneOf kind zone.now z
        → ((result ≡ 0) ⊎ (result ≡ 17)) ⊎ (result ≡ 48) }
{
    if is_above_limits(kind, zone, most_transitions, most_leap_seconds) {
        return ABOVE_LIMITS;
    }
    zoned_open(alloc, kind, zone, out)
}

// Whether the bytes are a file above the limits.
fn is_above_limits(
    kind: u32,
    bytes: &[u8],
    most_transitions: usize,
    most_leap_seconds: usize,
) -> bool
    ensures { IsTrue result ↔ IsAboveLimits kind bytes.now most_transitions most_leap_seconds }
{
    let Some(Kind::File) = Kind::from_number(kind) else {
        return false;
    };
    match TimeZone::file_counts(bytes) {
        Some(counts) => {
            most_transitions < counts.transitions as usize
                || most_leap_seconds < counts.leap_seconds as usize
        }
        None => false,
    }
}

// The zone of the bytes.
fn opened(alloc: Global, kind: u32, bytes: &[u8]) -> Result<Handle, Refusal>
    ensures found { IfOk result
        (λ handle. (z : Zone) × IsZoneOf kind bytes.now z × IsOpen handle z) }
    ensures only { (z : Zone) → IsZoneOf kind bytes.now z
        → IfErr result (λ e. refusal_number e ≡ 17) }
    ensures fault { IfErr result (λ e. IsErrorOfKind kind bytes.now (refusal_number e)) }
{
    match read_zone(alloc, kind, bytes) {
        Ok(zone) => match boxed(alloc, zone) {
            Some(handle) => Ok(handle),
            None => Err(Refusal::Reader(Error::OutOfMemory)),
        },
        Err(refusal) => Err(refusal),
    }
}

// The zone, of which there is one share. It is inlined, so that the zone is moved once less.
#[inline(always)]
fn boxed(alloc: Global, zone: TimeZone) -> Option<Handle>
    ensures { IfSome result (λ handle. IsOpen handle zone) }
{
    let share = Arc::new(alloc, zone).ok()?;
    let share = Box::new(alloc, share).ok()?;
    Some(Handle::of(share))
}

/// Opens the zone whose clocks are always that many seconds ahead of UTC. Its type has no abbreviation. A
/// zone that `out` had open is closed.
#[unsafe(no_mangle)]
pub extern "C" fn zoned_open_fixed(alloc: Global, offset: i32, out: &mut Handle) -> u32
    // 0: it is open.
    ensures opened { result ≡ 0 → IsUtOffset offset × IsOpen out.new (plain_zone offset) }
    // 3: no zone has that offset. 17: memory ran out. `out` is as it was.
    ensures refused { result ≢ 0
        → (((result ≡ 3) × ¬ (IsUtOffset offset)) ⊎ ((result ≡ 17) × IsUtOffset offset))
        × (out.new ≡ out.old) }
{
    let Ok(zone) = TimeZone::fixed(alloc, offset) else {
        return if offset == i32::MIN {
            LOCAL_TIME_TYPE
        } else {
            OUT_OF_MEMORY
        };
    };
    let Some(handle) = boxed(alloc, zone) else {
        return OUT_OF_MEMORY;
    };
    *out = handle;
    0
}

/// Opens the zone of `zone` in `out` too, without parsing it again. A zone that `out` had open is
/// closed.
#[unsafe(no_mangle)]
pub extern "C" fn zoned_share(alloc: Global, zone: &Lent, out: &mut Handle) -> u32
    // 0: both have the zone open.
    ensures shared { result ≡ 0 → (z : Zone) × IsLent zone.now z × IsOpen out.new z }
    // Another number: 33 if none is open, 17 if memory ran out; `out` is as it was.
    ensures refused { result ≢ 0 → ((result ≡ 33) × IsNoneLent zone.now
        ⊎ (result ≡ 17) × ((z : Zone) × IsLent zone.now z)) × (out.new ≡ out.old) }
{
    let Some(share) = zone.share() else {
        return NOT_OPEN;
    };
    match second(alloc, share) {
        Some(handle) => {
            *out = handle;
            0
        }
        None => OUT_OF_MEMORY,
    }
}

// One more share of the zone.
fn second(alloc: Global, share: &Arc<TimeZone>) -> Option<Handle>
    ensures { IfSome result (λ handle. IsOpen handle (arc_value share.now)) }
{
    let share = Arc::try_clone(share).ok()?;
    let share = Box::new(alloc, share).ok()?;
    Some(Handle::of(share))
}

/// Closes the zone, if one is open. Its last share frees it.
#[unsafe(no_mangle)]
pub extern "C" fn zoned_close(alloc: Global, zone: &mut Handle)
    ensures { IsClosed zone.new }
{
    *zone = Handle::closed(alloc);
}
