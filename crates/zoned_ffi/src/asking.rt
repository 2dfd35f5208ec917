//! Questions to a zone that C keeps, about instants and local times; `locals` has those that take an
//! instant for a local time, `around` those about its clock change and spans, and `reached` those about
//! what clocks have reached.
#![tactic(auto, using(crate::proofs::Casts::passed_on))]

ghost use Rattle.std.specs.Prelude.{◌≡◌, ◌≢◌, ◌⊎◌, length, pos};
ghost use Rattle.{
  tz_info.specs.Zones.{IsTypeRefused, Zone},
  zoned_ffi.specs.{Columns.{AreAnswered, IsFirstWithout}, Handles.{IsLent, IsNoneLent, IsUnanswered}},
  zoned_ffi.specs.{Fields.{AreFieldsAt, AreNoFieldsAt}, WrittenTypes.{AreOffsetsAt, IsWrittenOffsetAt}},
  zoned_ffi.specs.{Units.{per_second, IsUnit}, WallClocks.{AreWallClocks, IsWallClockAt}},
  zoned_ffi.specs.{WrittenSpans.{IsWrittenSpanAt}, WrittenTypes.{AreWrittenTypesAt, IsWrittenTypeAt}},
};

pub mod around;
pub mod locals;
pub mod reached;

use crate::column::{Way, answer_locals};
use crate::fields::{Fields, answer_fields};
use crate::instants::{offset_at, write_offsets};
use crate::lent::Lent;
use crate::local_result::{WrittenLocalResult, write_local_results};
use crate::local_type::{WrittenType, write_types};
use crate::refusal::{NO_LOCAL_TIME, NOT_OPEN, OTHER_SIZE, UNKNOWN_UNIT};
use crate::span::WrittenSpan;
use crate::unit::Unit;

/// Writes the offset in force at the instant, in seconds east of UTC. If the zone has none it writes
/// `i32::MIN`: its leap time leaves 64 bits, or its rule does not answer in that year.
#[unsafe(no_mangle)]
pub extern "C" fn zoned_zone_offset(zone: &Lent, instant: i64, offset: &mut i32) -> u32
    // 0: the answer is the zone's.
    ensures answered { result ≡ 0 → (z : Zone) × IsLent zone.now z × IsWrittenOffsetAt z instant offset.new }
    // 33: no zone is open, and nothing is written.
    ensures refused { result ≢ 0 → (result ≡ 33) × IsNoneLent zone.now × (offset.new ≡ offset.old) }
{
    let Some(share) = zone.share() else {
        return NOT_OPEN;
    };
    *offset = offset_at(share, instant);
    0
}

/// Writes the offset in force at each instant, as [`zoned_zone_offset`] does.
#[unsafe(no_mangle)]
pub extern "C" fn zoned_zone_offsets(zone: &Lent, instants: &[i64], offsets: &mut [i32]) -> u32
    // 0: each answer is the zone's.
    ensures answered { result ≡ 0
        → (z : Zone) × IsLent zone.now z × AreOffsetsAt z instants.now offsets.new }
    // Another number says what is wrong, and nothing is written.
    ensures refused { result ≢ 0 → IsUnanswered zone.now (length instants.now) (length offsets.old) result
        × (offsets.new ≡ offsets.old) }
{
    let Some(share) = zone.share() else {
        return NOT_OPEN;
    };
    if instants.len() != offsets.len() {
        return OTHER_SIZE;
    }
    write_offsets(share, instants, offsets);
    0
}

/// Writes the local time type in force at the instant.
#[unsafe(no_mangle)]
pub extern "C" fn zoned_zone_type(zone: &Lent, instant: i64, local_type: &mut WrittenType) -> u32
    // 0: the answer is the zone's.
    ensures answered { result ≡ 0 → (z : Zone) × IsLent zone.now z × IsWrittenTypeAt z instant local_type.new }
    // 33: no zone is open, and nothing is written.
    ensures refused { result ≢ 0 → (result ≡ 33) × IsNoneLent zone.now × (local_type.new ≡ local_type.old) }
{
    let Some(share) = zone.share() else {
        return NOT_OPEN;
    };
    *local_type = WrittenType::at(share, instant);
    0
}

/// Writes the local time type in force at each instant.
#[unsafe(no_mangle)]
pub extern "C" fn zoned_zone_types(zone: &Lent, instants: &[i64], types: &mut [WrittenType]) -> u32
    // 0: each answer is the zone's.
    ensures answered { result ≡ 0
        → (z : Zone) × IsLent zone.now z × AreWrittenTypesAt z instants.now types.new }
    // Another number says what is wrong, and nothing is written.
    ensures refused { result ≢ 0 → IsUnanswered zone.now (length instants.now) (length types.old) result
        × (types.new ≡ types.old) }
{
    let Some(share) = zone.share() else {
        return NOT_OPEN;
    };
    if instants.len() != types.len() {
        return OTHER_SIZE;
    }
    write_types(share, instants, types);
    0
}

/// Writes the span of the instant.
#[unsafe(no_mangle)]
pub extern "C" fn zoned_zone_span(zone: &Lent, instant: i64, span: &mut WrittenSpan) -> u32
    // 0: it is written.
    ensures answered { result ≡ 0
        → (z : Zone) × IsLent zone.now z × IsWrittenSpanAt z instant span.new }
    // 33: no zone is open. 37: the zone has no type then. Nothing is written.
    ensures refused { result ≢ 0 → (((result ≡ 33) × IsNoneLent zone.now)
        ⊎ ((result ≡ 37) × ((z : Zone) × IsLent zone.now z × IsTypeRefused z instant)))
        × (span.new ≡ span.old) }
{
    let Some(share) = zone.share() else {
        return NOT_OPEN;
    };
    match share.held_span_at(instant) {
        Ok(found) => {
            *span = WrittenSpan::of(found);
            0
        }
        Err(_) => NO_LOCAL_TIME,
    }
}

/// Writes the fields of the local time that clocks show at the instant.
#[unsafe(no_mangle)]
pub extern "C" fn zoned_zone_fields(zone: &Lent, instant: i64, fields: &mut Fields) -> u32
    // 0: they are written.
    ensures answered { result ≡ 0 → (z : Zone) × IsLent zone.now z × AreFieldsAt z instant fields.new }
    // 33: no zone is open. 37: the zone has no type then. 23: the local time is out of range. Nothing
    // is written.
    ensures refused { result ≢ 0 → (((result ≡ 33) × IsNoneLent zone.now)
        ⊎ ((z : Zone) × IsLent zone.now z × AreNoFieldsAt z instant result))
        × (fields.new ≡ fields.old) }
{
    let Some(share) = zone.share() else {
        return NOT_OPEN;
    };
    answer_fields(share, instant, fields)
}

/// Writes when the zone's clocks show the local time.
#[unsafe(no_mangle)]
pub extern "C" fn zoned_zone_wall_clock(
    zone: &Lent,
    local: i64,
    clock: &mut WrittenLocalResult,
) -> u32
    // 0: the answer is the zone's.
    ensures answered { result ≡ 0 → (z : Zone) × IsLent zone.now z × IsWallClockAt z local clock.new }
    // 33: no zone is open, and nothing is written.
    ensures refused { result ≢ 0 → (result ≡ 33) × IsNoneLent zone.now × (clock.new ≡ clock.old) }
{
    let Some(share) = zone.share() else {
        return NOT_OPEN;
    };
    *clock = WrittenLocalResult::at(share, local);
    0
}

/// Writes when the zone's clocks show each local time.
#[unsafe(no_mangle)]
pub extern "C" fn zoned_zone_wall_clocks(
    zone: &Lent,
    locals: &[i64],
    clocks: &mut [WrittenLocalResult],
) -> u32
    // 0: each answer is the zone's.
    ensures answered { result ≡ 0
        → (z : Zone) × IsLent zone.now z × AreWallClocks z locals.now clocks.new }
    // Another number says what is wrong, and nothing is written.
    ensures refused { result ≢ 0 → IsUnanswered zone.now (length locals.now) (length clocks.old) result
        × (clocks.new ≡ clocks.old) }
{
    let Some(share) = zone.share() else {
        return NOT_OPEN;
    };
    if locals.len() != clocks.len() {
        return OTHER_SIZE;
    }
    write_local_results(share, locals, clocks);
    0
}

/// Writes the local time of each instant, both counted in the unit of which `count` make a second.
/// The least number of 64 bits is no time, and stays.
#[unsafe(no_mangle)]
pub extern "C" fn zoned_column_locals(
    zone: &Lent,
    count: i64,
    instants: &[i64],
    locals: &mut [i64],
    row: &mut usize,
) -> u32
    // 0: each answer is that of the zone.
    ensures answered { result ≡ 0 → (unit : Unit) × (count ≡ pos (per_second unit))
        × ((z : Zone) × IsLent zone.now z × AreAnswered z unit Way.ToLocal instants.now locals.new)
        × (row.new ≡ row.old) }
    // 37: the instant in the row that is written has none. Those before it are answered.
    ensures without { result ≡ 37 → (unit : Unit) × (count ≡ pos (per_second unit))
        × ((z : Zone) × IsLent zone.now z
        × IsFirstWithout z unit Way.ToLocal instants.now locals.old locals.new row.new 37) }
    // 36: no unit has that count in a second. Others as in the calls above. Nothing is written.
    ensures refused { result ≢ 0 → result ≢ 37 → (((result ≡ 36) × ¬ (IsUnit count))
        ⊎ (IsUnit count × IsUnanswered zone.now (length instants.now) (length locals.old) result))
        × (locals.new ≡ locals.old) × (row.new ≡ row.old) }
{
    let Some(unit) = Unit::of_count(count) else {
        return UNKNOWN_UNIT;
    };
    let Some(share) = zone.share() else {
        return NOT_OPEN;
    };
    answer_locals(share, unit, instants, locals, row)
}
