//! The amount of daylight saving time at an instant.

ghost use Rattle.std.specs.Prelude.{◌≡◌, ◌≢◌, ◌↔◌, true, IsTrue, MatchResult};
ghost use Rattle.{
  tz_info.specs.Zones.{IsTypeError, TypeAt},
  tz_saving.specs.{Amounts.{usual, IsAmount, IsFlaggedAmount, IsNextCandidate, IsOfTwo}, Amounts.{IsSavingAt}},
};

use crate::candidates::candidates_at;
use crate::next_use::next_candidate;
use tz_info::{Error, LocalTimeType, TimeZone};

/// The offset of standard time, and what daylight saving time adds to it: their sum is the offset in
/// force.
#[derive(Clone, Copy, Debug, PartialEq, Eq)]
pub struct Saving {
    /// Standard time, in seconds east of UTC. It is within a day in zones of the tz database; 64 bits
    /// hold it for every file.
    pub standard_offset: i64,
    /// What daylight saving time adds, in seconds: 0 if and only if the type in force has no DST flag,
    /// below 0 if clocks are behind standard time, as in Dublin in winter.
    pub amount: i32,
}

/// Returns the standard offset and the amount of daylight saving time in force at the second of Unix
/// time.
///
/// A zone says at which seconds it is daylight saving time, not how much. The amount is the offset in
/// force less that of standard time before or after it. If the two sides allow two amounts, it is the
/// one that the next use of the same type has; or else an hour, or else forward, or else by the
/// side before. If they allow none, it is an hour.
///
/// ```
/// let zone = TimeZone::from_posix_tz(alloc, "<+00>0<+02>-2,M3.5.0/1,M10.5.0/3")?;
/// let summer = daylight_saving(&zone, 1_625_097_600)?; // at 2021-07-01 00:00:00 UTC
/// let standard = summer.standard_offset; // 0
/// let amount = summer.amount; // 7200
/// ```
///
/// In standard time it costs one lookup. In daylight saving time it goes back and on from clock change to
/// clock change until standard time comes, over at most 64 changes; and if two amounts are left, on to the
/// next use of the type, and from there to both sides. So it searches for at most 320 changes, whatever
/// the zone: standard time that is farther away doesn't count. In the tz database it is always nearer.
///
/// # Errors
///
/// As [`TimeZone::find_local_time_type`].
pub fn daylight_saving(zone: &TimeZone, unix_time: i64) -> Result<Saving, Error>
    ensures { MatchResult result (IsSavingAt zone.now unix_time) (IsTypeError zone.now unix_time) }
{
    let local = zone.find_local_time_type(unix_time)?;
    let amount = amount_of(zone, unix_time, local);
    Ok(Saving {
        standard_offset: local.offset() as i64 - amount as i64,
        amount,
    })
}

// The amount at the second, at which that type is in force.
fn amount_of(zone: &TimeZone, second: i64, local: &LocalTimeType) -> i32
    requires { TypeAt zone.now second local.now }
    ensures amount { IsAmount (TypeAt zone.now) zone.now.rule second result }
{
    if local.is_dst() {
        flagged_amount(zone, second, local)
    } else {
        0
    }
}

// An hour, in seconds.
const HOUR: i32 = 3_600;

// The same of a type with the DST flag.
fn flagged_amount(zone: &TimeZone, second: i64, local: &LocalTimeType) -> i32
    requires in_force { TypeAt zone.now second local.now }
    requires flagged { local.now.dst ≡ true }
    ensures { IsFlaggedAmount (TypeAt zone.now) zone.now.rule second local.now result }
{
    let (early, late) = candidates_at(zone, second, local);
    match (early, late) {
        (None, None) => HOUR,
        (Some(only), None) => only,
        (None, Some(only)) => only,
        (Some(early), Some(late)) => amount_of_two(zone, second, local, early, late),
    }
}

// The amount by two candidates.
#[tactic(auto, using(crate::proofs::AmountLaws::of_two_found))]
fn amount_of_two(zone: &TimeZone, second: i64, local: &LocalTimeType, early: i32, late: i32) -> i32
    requires in_force { TypeAt zone.now second local.now }
    requires flagged { local.now.dst ≡ true }
    ensures { IsOfTwo (IsNextCandidate (TypeAt zone.now) zone.now.rule local.now second) early late result }
{
    if early == late {
        early
    } else {
        chosen_of(next_candidate(zone, second, local), early, late)
    }
}

// Of two amounts the one that was found, or else the usual one.
#[tactic(auto, using(tz_info::proofs::Fits::fits))]
fn chosen_of(next: Option<i32>, early: i32, late: i32) -> i32
    requires { early ≢ late }
    ensures { IsOfTwo (λ a. next ≡ Some a) early late result }
{
    if is_value(next, early) {
        early
    } else if is_value(next, late) {
        late
    } else {
        usual_of(early, late)
    }
}

fn is_value(found: Option<i32>, value: i32) -> bool
    ensures { IsTrue result ↔ (found ≡ Some value) }
{
    match found {
        Some(one) => one == value,
        None => false,
    }
}

// Of two amounts the usual one.
fn usual_of(early: i32, late: i32) -> i32
    ensures { result ≡ usual early late }
{
    if early == HOUR {
        early
    } else if late == HOUR || early < 0 && 0 < late {
        late
    } else {
        early
    }
}
