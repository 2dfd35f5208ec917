//! The answer to one time of a column, by a lookup.

ghost use Rattle.std.specs.Prelude.{◌≡◌, ◌<◌, ◌+ℤ◌, ◌-ℤ◌, pos, MatchOption, MatchResult};
ghost use Rattle.{
  gregorian.specs.Year.{floor_div},
  naive_base.specs.Stamp.{of_secs},
  zoned_ffi.specs.Columns.{IsAnswered, IsInstantOf, IsNoInstant, IsNoWholeSecondOf, IsNotAnswered, IsWholeSecondOf},
  zoned_ffi.specs.Steps.KeptTimes.{IsAnsweredBy, IsKept, IsNotAnsweredBy, IsNotWritten, IsWritten},
  zoned_ffi.specs.Steps.ResolvedInstants.{taken_instant},
  zoned_ffi.specs.Units.{IsCounted, IsLocal, IsWithout, per_second},
  zoned_plans.specs.Fires.{second_before},
};

use crate::choice::{Choice, Missing};
use crate::column::kept::{Kept, less};
use crate::column::{NO_TIME, Question, Way};
use crate::refusal::{INSTANT_OUT_OF_RANGE, NO_LOCAL_TIME};
use crate::resolved::{Taken, take};
use crate::unit::{GREATEST, LEAST, Unit};
use crate::whole_second::WholeSecond;
use naive_base::NaiveDateTime;
use tz_info::TimeZone;

/// What is written of the time, or the number that says why nothing is: by the stretch, if that has it, or
/// by a lookup.
#[inline(always)]
pub fn answer_by(question: Question, kept: Kept, time: i64) -> Result<i64, u32>
    requires { IsKept question kept }
    ensures { MatchResult result (IsWritten question.entry time)
        (λ n. IsNotWritten question.entry time n) }
{
    match kept.answer_to(question, time) {
        Some(found) => Ok(found),
        None => answer_by_zone(&question, time),
    }
}

/// The same by a lookup.
#[tactic(auto, using(crate::proofs::Casts::passed_on))]
#[inline(always)]
pub fn answer_by_zone(question: &Question, time: i64) -> Result<i64, u32>
    ensures { MatchResult result (IsWritten question.now time)
        (λ n. IsNotWritten question.now time n) }
{
    if time == NO_TIME {
        return Ok(NO_TIME);
    }
    looked_up(question, time)
}

// The answer to a time, or the number that says why it has none.
#[inline(always)]
fn looked_up(question: &Question, time: i64) -> Result<i64, u32>
    ensures { MatchResult result (IsAnsweredBy question.now time) (IsNotAnsweredBy question.now time) }
{
    let Question { zone, unit, way } = *question;
    match way {
        Way::ToLocal => match local_of(zone, unit, time) {
            Some(local) => Ok(local),
            None => Err(NO_LOCAL_TIME),
        },
        Way::ToInstants(choice, missing) => instant_or_none(zone, unit, choice, missing, time),
        Way::ToWholeSeconds(sought) => whole_second_of(zone, unit, sought, time),
    }
}

// The local time of the instant, by a lookup.
#[inline(always)]
fn local_of(zone: &TimeZone, unit: Unit, instant: i64) -> Option<i64>
    ensures { MatchOption result (IsWithout zone.now unit instant)
        (λ local. IsLocal zone.now unit instant local) }
{
    match zone.find_local_time_type(unit.second_of(instant)) {
        Ok(found) => added(instant, unit.counts_of(found.offset())),
        Err(_) => None,
    }
}

// The sum, if it is a time that can be counted.
#[inline(always)]
fn added(instant: i64, counts: i64) -> Option<i64>
    ensures { MatchOption result (¬ (IsCounted (instant +ℤ counts)))
        (λ sum. (sum ≡ instant +ℤ counts) × IsCounted sum) }
{
    let sum = instant.checked_add(counts)?;
    if sum == NO_TIME {
        return None;
    }
    Some(sum)
}

// The instant of the local time, or no time if it is missing; else the number that says why it has no instant.
#[inline(always)]
fn instant_or_none(
    zone: &TimeZone,
    unit: Unit,
    choice: Choice,
    missing: Missing,
    local: i64,
) -> Result<i64, u32>
    ensures { MatchResult result (IsAnswered zone.now unit (Way.ToInstants choice missing) local)
        (IsNotAnswered zone.now unit (Way.ToInstants choice missing) local) }
{
    match instant_of(zone, unit, choice, local) {
        Ok(instant) => Ok(instant),
        Err(number) => {
            if missing.has(number) {
                Ok(NO_TIME)
            } else {
                Err(number)
            }
        }
    }
}

// The instant of the local time, or the number that says why it has no instant.
#[inline(always)]
fn instant_of(zone: &TimeZone, unit: Unit, choice: Choice, local: i64) -> Result<i64, u32>
    ensures { MatchResult result (λ instant. IsInstantOf zone.now unit choice local instant)
        (λ n. IsNoInstant zone.now unit choice local n) }
{
    let Some(reading) = NaiveDateTime::from_timestamp_opt(unit.second_of(local), 0) else {
        return Err(INSTANT_OUT_OF_RANGE);
    };
    match take(zone, choice, reading) {
        Ok(taken) => match instant_taken(unit, local, taken) {
            Some(instant) => Ok(instant),
            None => Err(INSTANT_OUT_OF_RANGE),
        },
        Err(number) => Err(number),
    }
}

// The instant by what is taken, if it is a time that can be counted.
#[inline(always)]
fn instant_taken(unit: Unit, local: i64, taken: Taken) -> Option<i64>
    ensures { MatchOption result (¬ (IsCounted (taken_instant unit local taken)))
        (λ instant. (instant ≡ taken_instant unit local taken) × IsCounted instant) }
{
    match taken {
        Taken::InForce(offset) => added(local, less(unit.counts_of(offset))),
        Taken::Shifted(offset) => added(local, less(unit.counts_of(offset))),
        Taken::GapEnd(at, _) => counted(unit.counts_at(at)),
    }
}

// The whole second for an instant, or the error number if it has none.
fn whole_second_of(
    zone: &TimeZone,
    unit: Unit,
    sought: WholeSecond,
    instant: i64,
) -> Result<i64, u32>
    ensures { MatchResult result (IsWholeSecondOf zone.now unit sought instant)
        (IsNoWholeSecondOf zone.now unit sought instant) }
{
    let second = unit.second_of(instant);
    let nanos = nanos_after(unit, second, instant);
    match sought.find(zone, second, nanos) {
        Ok(found) => match counted(unit.counts_at(found)) {
            Some(time) => Ok(time),
            None => Err(INSTANT_OUT_OF_RANGE),
        },
        Err(number) => Err(number),
    }
}

// Some nanoseconds, if the instant is more than the second that it lies in.
fn nanos_after(unit: Unit, second: i64, instant: i64) -> u32
    requires { second ≡ floor_div instant (per_second unit) }
    ensures nanos { result < 1_000_000_000 }
    ensures before { second_before (of_secs second result)
        ≡ floor_div (instant -ℤ pos 1) (per_second unit) }
{
    if unit.counts_at(second) < instant as i128 {
        1
    } else {
        0
    }
}

// The count, if it is a time of 64 bits.
fn counted(counts: i128) -> Option<i64>
    ensures { MatchOption result (¬ (IsCounted counts)) (λ time. (time ≡ counts) × IsCounted time) }
{
    if LEAST <= counts && counts <= GREATEST {
        Some(counts as i64)
    } else {
        None
    }
}
