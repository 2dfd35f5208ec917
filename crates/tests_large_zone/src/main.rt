//! Asks a zone of 1,048,576 clock changes about each of them: what is in force at it, and when clocks show the local time at which it is
//! over, by the index and by the walk, each by the call that users make and by its counted form. Then it asks a zone of 5,000,000 changes about the last of them: with memory at hand it is made.
//!
//! It prints how many answers of each kind are right. `rt ci` gives a program two minutes; a lookup that read the transitions or the
//! index from end to end would read some 5 * 10^11 of them.
#![tactic(auto)]

use naive_base::NaiveDateTime;
use offset_core::LocalResult;
use std::alloc::Global;
use tz_info::{Error, LocalTimeType, Probes, TimeZone, Transition};

const CHANGES: u32 = 1_048_576;

const MORE_CHANGES: u32 = 5_000_000;

const SECONDS_APART: i64 = 1_000_000;

fn main(rt: HostRuntime) -> anyhow::Result<()> {
    let zone = zone_in_turn(rt.alloc(), CHANGES)?;
    for (what, lookup) in [
        ("by instant", Lookup::ByInstant),
        ("by instant, counted", Lookup::ByInstantCounted),
        ("by local time", Lookup::ByLocalTime),
        ("by local time, counted", Lookup::ByLocalTimeCounted),
        ("by local time, without the index", Lookup::ByWalk),
    ] {
        println!(rt;
            "{what}: {} of {CHANGES} right",
            right_answers(&zone, lookup, 0, CHANGES)
        )?;
    }
    let larger = zone_in_turn(rt.alloc(), MORE_CHANGES)?;
    println!(rt;
        "the last of {MORE_CHANGES}: {} right",
        right_answers(&larger, Lookup::ByLocalTime, MORE_CHANGES - 1, MORE_CHANGES)
    )?;
    Ok(())
}

// Clocks change each 1,000,000 seconds from 1970 on, to an hour ahead of UTC and back in turn.
fn zone_in_turn(alloc: Global, changes: u32) -> anyhow::Result<TimeZone> {
    let mut types = Vec::new(alloc);
    types.push(LocalTimeType::with_offset(0)?)?;
    types.push(LocalTimeType::with_offset(3600)?)?;
    let mut transitions = Vec::new(alloc);
    let mut time = 0i64;
    for number in 0..changes {
        let index = if number % 2 == 0 { 1 } else { 0 };
        transitions.push(Transition::new(time, index))?;
        time = time.saturating_add(SECONDS_APART);
    }
    Ok(TimeZone::new(alloc, transitions, types, Vec::new(alloc), None)?)
}

#[derive(Clone, Copy)]
enum Lookup {
    ByInstant,
    ByInstantCounted,
    ByLocalTime,
    ByLocalTimeCounted,
    ByWalk,
}

// How many of the changes from `first` on, up to `end`, a lookup answers for as it should.
fn right_answers(zone: &TimeZone, lookup: Lookup, first: u32, end: u32) -> u32 {
    let mut right = 0u32;
    let mut time = i64::from(first).saturating_mul(SECONDS_APART);
    for number in first..end {
        let offset = if number % 2 == 0 { 3600 } else { 0 };
        if lookup.offset(zone, time) == Some(offset) {
            right = right.saturating_add(1);
        }
        time = time.saturating_add(SECONDS_APART);
    }
    right
}

impl Lookup {
    // The offset that it finds at the second of a change, or at the local time 3600 seconds later, which clocks show once.
    fn offset(self, zone: &TimeZone, time: i64) -> Option<i32> {
        let local = NaiveDateTime::from_timestamp_opt(time.saturating_add(3600), 0)?;
        let mut probes = Probes::new();
        match self {
            Lookup::ByInstant => offset_of(zone.find_local_time_type(time)),
            Lookup::ByInstantCounted => offset_of(zone.find_local_time_type_counted(
                time,
                &mut probes,
            )),
            Lookup::ByLocalTime => only_offset(zone.find_local_time_type_from_local(local)),
            Lookup::ByLocalTimeCounted => {
                only_offset(zone.find_local_time_type_from_local_counted(local, &mut probes))
            }
            Lookup::ByWalk => only_offset(zone.find_local_time_type_from_local_by_walk(
                local,
                &mut probes,
            )),
        }
    }
}

fn offset_of(found: Result<&LocalTimeType, Error>) -> Option<i32> {
    match found {
        Ok(local_type) => Some(local_type.offset()),
        Err(_) => None,
    }
}

fn only_offset(found: Result<LocalResult<LocalTimeType>, Error>) -> Option<i32> {
    match found {
        Ok(LocalResult::Single(local_type)) => Some(local_type.offset()),
        _ => None,
    }
}
