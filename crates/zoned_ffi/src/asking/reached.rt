//! What local clocks have reached at an instant: a local time, a day, and steps that begin.
#![tactic(auto, using(crate::proofs::Casts::passed_on))]

ghost use Rattle.std.specs.Prelude.{◌≡◌, ◌≢◌, ◌⊎◌, ◌-ℤ◌, length, pos};
ghost use Rattle.{
  tz_info.specs.Zones.{Zone},
  zoned_ffi.specs.{Columns.{AreAnswered, IsFirstWithout, IsSoughtNumber}, Units.{per_second, IsUnit}},
  zoned_ffi.specs.Handles.{IsLent, IsNoneLent, IsUnanswered},
  zoned_ffi.specs.WholeSeconds.{step_number, IsDayAt, IsFound, IsNoDayAt, IsNotFound, IsStep},
};

use crate::column::{Way, answer_whole_seconds};
use crate::days::WrittenDay;
use crate::lent::Lent;
use crate::refusal::{NOT_OPEN, UNKNOWN_STEP, UNKNOWN_UNIT};
use crate::unit::Unit;
use crate::whole_second::{WholeSecond, step_of};
use naive_plans::ClockStep;

/// Writes the last local time that the zone's clocks have shown up to the instant.
#[unsafe(no_mangle)]
pub extern "C" fn zoned_zone_reached(zone: &Lent, instant: i64, local: &mut i64) -> u32
    // 0: it is written.
    ensures answered { result ≡ 0
        → (z : Zone) × IsLent zone.now z × IsFound z WholeSecond.Reached instant (instant -ℤ pos 1) local.new }
    // 33: no zone is open. 40: an offset is a day or more. 23: the instant is out of range. Nothing is
    // written.
    ensures refused { result ≢ 0 → (((result ≡ 33) × IsNoneLent zone.now)
        ⊎ ((z : Zone) × IsLent zone.now z × IsNotFound z WholeSecond.Reached instant (instant -ℤ pos 1) result))
        × (local.new ≡ local.old) }
{
    write_found(zone, WholeSecond::Reached, instant, local)
}

/// Writes the second at which the step of the local clock that the instant lies in begins.
#[unsafe(no_mangle)]
pub extern "C" fn zoned_zone_floor(zone: &Lent, step: u32, instant: i64, floor: &mut i64) -> u32
    // 0: it is written.
    ensures answered { result ≡ 0 → (clock_step : ClockStep) × (step ≡ step_number clock_step)
        × ((z : Zone) × IsLent zone.now z
        × IsFound z (WholeSecond.Floor clock_step) instant (instant -ℤ pos 1) floor.new) }
    // 47: no step has that number. 33: no zone is open. 40: an offset is a day or more. 23: the instant is
    // out of range, or the step begins out of it. Nothing is written.
    ensures refused { result ≢ 0 → (((result ≡ 47) × ¬ (IsStep step))
        ⊎ ((result ≡ 33) × IsStep step × IsNoneLent zone.now)
        ⊎ ((clock_step : ClockStep) × (step ≡ step_number clock_step)
        × ((z : Zone) × IsLent zone.now z
        × IsNotFound z (WholeSecond.Floor clock_step) instant (instant -ℤ pos 1) result)))
        × (floor.new ≡ floor.old) }
{
    let Some(clock_step) = step_of(step) else {
        return UNKNOWN_STEP;
    };
    write_found(zone, WholeSecond::Floor(clock_step), instant, floor)
}

/// Writes the first second from the instant on at which a step of the local clock begins.
#[unsafe(no_mangle)]
pub extern "C" fn zoned_zone_ceil(zone: &Lent, step: u32, instant: i64, ceil: &mut i64) -> u32
    // 0: it is written.
    ensures answered { result ≡ 0 → (clock_step : ClockStep) × (step ≡ step_number clock_step)
        × ((z : Zone) × IsLent zone.now z
        × IsFound z (WholeSecond.Ceil clock_step) instant (instant -ℤ pos 1) ceil.new) }
    // 47: no step has that number. 33: no zone is open. 40: an offset is a day or more. 23: the instant is
    // out of range, or no step begins from it on in that range. Nothing is written.
    ensures refused { result ≢ 0 → (((result ≡ 47) × ¬ (IsStep step))
        ⊎ ((result ≡ 33) × IsStep step × IsNoneLent zone.now)
        ⊎ ((clock_step : ClockStep) × (step ≡ step_number clock_step)
        × ((z : Zone) × IsLent zone.now z
        × IsNotFound z (WholeSecond.Ceil clock_step) instant (instant -ℤ pos 1) result)))
        × (ceil.new ≡ ceil.old) }
{
    let Some(clock_step) = step_of(step) else {
        return UNKNOWN_STEP;
    };
    write_found(zone, WholeSecond::Ceil(clock_step), instant, ceil)
}

/// Writes the day that the instant lies in.
#[unsafe(no_mangle)]
pub extern "C" fn zoned_zone_day(zone: &Lent, instant: i64, day: &mut WrittenDay) -> u32
    // 0: it is written.
    ensures answered { result ≡ 0 → (z : Zone) × IsLent zone.now z × IsDayAt z instant day.new }
    // 33: no zone is open. 40: an offset is a day or more. 23: the instant is out of range, or an end of
    // the day is. Nothing is written.
    ensures refused { result ≢ 0 → (((result ≡ 33) × IsNoneLent zone.now)
        ⊎ ((z : Zone) × IsLent zone.now z × IsNoDayAt z instant result)) × (day.new ≡ day.old) }
{
    let Some(share) = zone.share() else {
        return NOT_OPEN;
    };
    match WrittenDay::at(share, instant) {
        Ok(found) => {
            *day = found;
            0
        }
        Err(number) => number,
    }
}

/// Writes the last local time, in whole seconds, that the zone's clocks have shown up to each instant,
/// both counted in the unit of which `count` make a second. The least number of 64 bits is no time, and
/// stays.
#[unsafe(no_mangle)]
pub extern "C" fn zoned_column_reached(
    zone: &Lent,
    count: i64,
    instants: &[i64],
    locals: &mut [i64],
    row: &mut usize,
) -> u32
    // 0: each answer is that of the zone.
    ensures answered { result ≡ 0 → (unit : Unit) × (count ≡ pos (per_second unit))
        × ((z : Zone) × IsLent zone.now z
        × AreAnswered z unit (Way.ToWholeSeconds WholeSecond.Reached) instants.now locals.new)
        × (row.new ≡ row.old) }
    // 23 or 40: the instant in the row that is written has none. Those before it are answered.
    ensures without { IsSoughtNumber result → (unit : Unit) × (count ≡ pos (per_second unit))
        × ((z : Zone) × IsLent zone.now z
        × IsFirstWithout z unit (Way.ToWholeSeconds WholeSecond.Reached) instants.now locals.old locals.new row.new result) }
    // 36: no unit has that count in a second. Others as in the calls above. Nothing is written.
    ensures refused { result ≢ 0 → ¬ (IsSoughtNumber result) → (((result ≡ 36) × ¬ (IsUnit count))
        ⊎ (IsUnit count × IsUnanswered zone.now (length instants.now) (length locals.old) result))
        × (locals.new ≡ locals.old) × (row.new ≡ row.old) }
{
    write_column_found(zone, WholeSecond::Reached, count, instants, locals, row)
}

/// Writes for each instant the second at which the step of the local clock that it lies in begins, both
/// counted in the unit of which `count` make a second. The least number of 64 bits is no time, and stays.
#[unsafe(no_mangle)]
pub extern "C" fn zoned_column_floors(
    zone: &Lent,
    step: u32,
    count: i64,
    instants: &[i64],
    floors: &mut [i64],
    row: &mut usize,
) -> u32
    // 0: each answer is that of the zone.
    ensures answered { result ≡ 0 → (clock_step : ClockStep) × (step ≡ step_number clock_step)
        × ((unit : Unit) × (count ≡ pos (per_second unit))
        × ((z : Zone) × IsLent zone.now z
        × AreAnswered z unit (Way.ToWholeSeconds (WholeSecond.Floor clock_step)) instants.now floors.new)
        × (row.new ≡ row.old)) }
    // 23 or 40: the instant in the row that is written has none. Those before it are answered.
    ensures without { IsSoughtNumber result → (clock_step : ClockStep) × (step ≡ step_number clock_step)
        × ((unit : Unit) × (count ≡ pos (per_second unit))
        × ((z : Zone) × IsLent zone.now z
        × IsFirstWithout z unit (Way.ToWholeSeconds (WholeSecond.Floor clock_step)) instants.now
        floors.old floors.new row.new result)) }
    // 47: no step has that number. 36: no unit has that count in a second. Others as in the calls above.
    // Nothing is written.
    ensures refused { result ≢ 0 → ¬ (IsSoughtNumber result) → (((result ≡ 47) × ¬ (IsStep step))
        ⊎ (IsStep step × (((result ≡ 36) × ¬ (IsUnit count))
        ⊎ (IsUnit count × IsUnanswered zone.now (length instants.now) (length floors.old) result))))
        × (floors.new ≡ floors.old) × (row.new ≡ row.old) }
{
    let Some(clock_step) = step_of(step) else {
        return UNKNOWN_STEP;
    };
    write_column_found(
        zone,
        WholeSecond::Floor(clock_step),
        count,
        instants,
        floors,
        row,
    )
}

/// Writes for each instant the first second from it on at which a step of the local clock begins, both
/// counted in the unit of which `count` make a second. The least number of 64 bits is no time, and stays.
#[unsafe(no_mangle)]
pub extern "C" fn zoned_column_ceils(
    zone: &Lent,
    step: u32,
    count: i64,
    instants: &[i64],
    ceils: &mut [i64],
    row: &mut usize,
) -> u32
    // 0: each answer is that of the zone.
    ensures answered { result ≡ 0 → (clock_step : ClockStep) × (step ≡ step_number clock_step)
        × ((unit : Unit) × (count ≡ pos (per_second unit))
        × ((z : Zone) × IsLent zone.now z
        × AreAnswered z unit (Way.ToWholeSeconds (WholeSecond.Ceil clock_step)) instants.now ceils.new)
        × (row.new ≡ row.old)) }
    // 23 or 40: the instant in the row that is written has none. Those before it are answered.
    ensures without { IsSoughtNumber result → (clock_step : ClockStep) × (step ≡ step_number clock_step)
        × ((unit : Unit) × (count ≡ pos (per_second unit))
        × ((z : Zone) × IsLent zone.now z
        × IsFirstWithout z unit (Way.ToWholeSeconds (WholeSecond.Ceil clock_step)) instants.now
        ceils.old ceils.new row.new result)) }
    // 47: no step has that number. 36: no unit has that count in a second. Others as in the calls above.
    // Nothing is written.
    ensures refused { result ≢ 0 → ¬ (IsSoughtNumber result) → (((result ≡ 47) × ¬ (IsStep step))
        ⊎ (IsStep step × (((result ≡ 36) × ¬ (IsUnit count))
        ⊎ (IsUnit count × IsUnanswered zone.now (length instants.now) (length ceils.old) result))))
        × (ceils.new ≡ ceils.old) × (row.new ≡ row.old) }
{
    let Some(clock_step) = step_of(step) else {
        return UNKNOWN_STEP;
    };
    write_column_found(
        zone,
        WholeSecond::Ceil(clock_step),
        count,
        instants,
        ceils,
        row,
    )
}

// Writes what is found for the instant.
fn write_found(zone: &Lent, sought: WholeSecond, instant: i64, found: &mut i64) -> u32
    ensures answered { result ≡ 0
        → (z : Zone) × IsLent zone.now z × IsFound z sought instant (instant -ℤ pos 1) found.new }
    ensures refused { result ≢ 0 → (((result ≡ 33) × IsNoneLent zone.now)
        ⊎ ((z : Zone) × IsLent zone.now z × IsNotFound z sought instant (instant -ℤ pos 1) result))
        × (found.new ≡ found.old) }
{
    let Some(share) = zone.share() else {
        return NOT_OPEN;
    };
    match sought.find(share, instant, 0) {
        Ok(second) => {
            *found = second;
            0
        }
        Err(number) => number,
    }
}

// Writes what is found for each instant.
fn write_column_found(
    zone: &Lent,
    sought: WholeSecond,
    count: i64,
    instants: &[i64],
    found: &mut [i64],
    row: &mut usize,
) -> u32
    ensures answered { result ≡ 0 → (unit : Unit) × (count ≡ pos (per_second unit))
        × ((z : Zone) × IsLent zone.now z
        × AreAnswered z unit (Way.ToWholeSeconds sought) instants.now found.new)
        × (row.new ≡ row.old) }
    ensures without { IsSoughtNumber result → (unit : Unit) × (count ≡ pos (per_second unit))
        × ((z : Zone) × IsLent zone.now z
        × IsFirstWithout z unit (Way.ToWholeSeconds sought) instants.now found.old found.new row.new result) }
    ensures refused { result ≢ 0 → ¬ (IsSoughtNumber result) → (((result ≡ 36) × ¬ (IsUnit count))
        ⊎ (IsUnit count × IsUnanswered zone.now (length instants.now) (length found.old) result))
        × (found.new ≡ found.old) × (row.new ≡ row.old) }
{
    let Some(unit) = Unit::of_count(count) else {
        return UNKNOWN_UNIT;
    };
    let Some(share) = zone.share() else {
        return NOT_OPEN;
    };
    answer_whole_seconds(share, unit, sought, instants, found, row)
}
