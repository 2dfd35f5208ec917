//! The instants that a choice takes for local times.

ghost use Rattle.std.specs.Prelude.{◌≡◌, ◌-ℤ◌, length, MatchResult};
ghost use Rattle.{
  naive_base.specs.{NaiveDateTime.{reading}, Range.{IsInRange}},
  zoned_ffi.specs.Resolved.{unresolved, AreReached, AreResolved, IsNoneTaken, IsReachedAt, IsResolvedAt},
  zoned_ffi.specs.Steps.ResolvedInstants.{IsResolvedStamp, IsTakenAs},
};

use crate::choice::{Choice, ChoiceInGap};
use crate::instants::offset_at;
use crate::local_lookups::LocalLookups;
use crate::refusal::INSTANT_OUT_OF_RANGE;
use naive_base::NaiveDateTime;
use offset_core::Taken as Found;
use tz_info::TimeZone;

/// The instant that a choice takes for a local time.
#[repr(C)]
#[derive(Clone, Copy)]
pub struct Resolved {
    /// 0, or why there isn't one.
    pub number: u32,
    /// The offset in force at the instant, in seconds east of UTC.
    pub offset: i32,
    /// The instant, in Unix seconds.
    pub instant: i64,
}

impl Resolved {
    /// That of the local time: seconds after 1970-01-01 00:00:00 on a clock, every day
    /// counted as 86,400.
    #[inline(always)]
    pub fn at(zone: &TimeZone, choice: Choice, local: i64) -> Resolved
        ensures { IsResolvedAt zone.now choice local result }
    {
        let Some(reading) = NaiveDateTime::from_timestamp_opt(local, 0) else {
            return Resolved::none(INSTANT_OUT_OF_RANGE);
        };
        match take(zone, choice, reading) {
            Ok(Taken::InForce(offset)) => Resolved::within(instant_by(local, offset), offset),
            Ok(Taken::Shifted(offset)) => {
                let instant = instant_by(local, offset);
                Resolved::within(instant, offset_at(zone, instant))
            }
            Ok(Taken::GapEnd(at, offset)) => Resolved::within(at, offset),
            Err(number) => Resolved::none(number),
        }
    }

    // That of the next local time.
    #[inline(always)]
    fn next(lookups: &mut LocalLookups<'_>, choice: Choice, local: i64) -> Resolved
        ensures written { IsResolvedAt lookups.old choice local result }
        ensures zone { lookups.new ≡ lookups.old }
    {
        match lookups.offset_of(local) {
            Some(offset) => Resolved::within(instant_by(local, offset), offset),
            None => Resolved::at(lookups.zone(), choice, local),
        }
    }

    /// The first instant at which a clock shows the local time or a later one.
    pub fn first_at_or_after(zone: &TimeZone, local: i64) -> Resolved
        ensures { IsReachedAt zone.now local result }
    {
        let Some(reading) = NaiveDateTime::from_timestamp_opt(local, 0) else {
            return Resolved::none(INSTANT_OUT_OF_RANGE);
        };
        let reached = zone.find_first_at_or_after(reading);
        Resolved::within(reached.at, reached.local_time_type.offset())
    }

    // The instant and the offset in force then, if the instant is in range.
    fn within(instant: i64, offset: i32) -> Resolved
        ensures { IsResolvedStamp instant offset result }
    {
        match NaiveDateTime::from_timestamp_opt(instant, 0) {
            Some(_) => Resolved {
                number: 0,
                offset,
                instant,
            },
            None => Resolved::none(INSTANT_OUT_OF_RANGE),
        }
    }

    fn none(number: u32) -> Resolved
        ensures { result ≡ unresolved number }
    {
        Resolved {
            number,
            offset: 0,
            instant: 0,
        }
    }
}

/// The second at which a clock of that offset shows the local time.
#[tactic(auto, using(crate::proofs::Words::casts))]
pub fn instant_by(local: i64, offset: i32) -> i64
    requires { IsInRange local }
    ensures { result ≡ local -ℤ offset }
{
    local - i64::from(offset)
}

/// What a choice takes of a local time: an offset, by which it gives an instant, or a second.
#[derive(Clone, Copy)]
pub enum Taken {
    /// The offset in force at that instant, at which a clock shows the local time.
    InForce(i32),
    /// The offset before the gap that the local time lies in, or the one after it: at the instant a clock
    /// shows another local time.
    Shifted(i32),
    /// The second at which that gap ends, and the offset from then on.
    GapEnd(i64, i32),
}

/// What the choice takes of the local time, or the number that says why it takes nothing.
pub fn take(zone: &TimeZone, choice: Choice, local: NaiveDateTime) -> Result<Taken, u32>
    ensures { MatchResult result (λ taken. IsTakenAs zone.now (reading local).s choice taken)
        (λ n. IsNoneTaken zone.now (reading local).s choice n) }
{
    match zone.held_types_around(local).take(choice.policy()) {
        Ok(Found::Shown(only)) => Ok(Taken::InForce(only.offset())),
        Ok(Found::InGap(change)) => match choice.gap {
            ChoiceInGap::End => Ok(Taken::GapEnd(change.at, change.after.offset())),
            ChoiceInGap::ShiftBackward => Ok(Taken::Shifted(change.after.offset())),
            _ => Ok(Taken::Shifted(change.before.offset())),
        },
        Err(reason) => Err(u32::from(reason.number())),
    }
}

/// Writes what the choice takes for each local time.
pub fn write_resolved(zone: &TimeZone, choice: Choice, locals: &[i64], resolved: &mut [Resolved])
    requires { length locals.now ≡ length resolved.old }
    ensures { AreResolved zone.now choice locals.now resolved.new }
{
    let mut lookups = LocalLookups::new(zone);
    for (i, local) in locals.iter().enumerate() {
        resolved[i] = Resolved::next(&mut lookups, choice, *local);
    }
}

/// Writes the first instant at which a clock shows each local time or a later one.
pub fn write_reached(zone: &TimeZone, locals: &[i64], reached: &mut [Resolved])
    requires { length locals.now ≡ length reached.old }
    ensures { AreReached zone.now locals.now reached.new }
{
    for (i, local) in locals.iter().enumerate() {
        reached[i] = Resolved::first_at_or_after(zone, *local);
    }
}
