//! Zones by each constructor.

use std::alloc::{AllocError, Global};
use std::io;
use tz_info::{Error, LeapSecond, LocalTimeType, TimeZone, Transition};
use zoned_vectors::vectors::{GUAYAQUIL, HONOLULU, JERUSALEM};

// 2038-07-01 00:00:00 UTC.
const SUMMER: i64 = 2_161_555_200;

/// Prints a line for each zone; whether there was memory for all of them.
pub fn print_zones(rt: &HostRuntime) -> io::Result<bool> {
    let files = print_files(rt, rt.alloc())?;
    let texts = print_texts(rt, rt.alloc())?;
    let made = print_made(rt, rt.alloc())?;
    let lists = print_lists(rt, rt.alloc())?;
    Ok(files & texts & made & lists)
}

fn print_files(rt: &HostRuntime, alloc: Global) -> io::Result<bool> {
    let first = print_zone(rt, "version 1", of_file(alloc, GUAYAQUIL))?;
    let second = print_zone(rt, "version 2", of_file(alloc, HONOLULU))?;
    let third = print_zone(rt, "version 3", of_file(alloc, JERUSALEM))?;
    Ok(first & second & third)
}

fn print_texts(rt: &HostRuntime, alloc: Global) -> io::Result<bool> {
    let two_types = print_text(rt, alloc, "text", "EST5EDT,M3.2.0,M11.1.0")?;
    let one_type = print_text(rt, alloc, "text of one type", "HST10")?;
    let none = print_text(rt, alloc, "empty text", "")?;
    Ok(two_types & one_type & none)
}

fn print_text(rt: &HostRuntime, alloc: Global, name: &str, text: &str) -> io::Result<bool> {
    print_zone(rt, name, TimeZone::from_posix_tz(alloc, text))
}

fn print_made(rt: &HostRuntime, alloc: Global) -> io::Result<bool> {
    let lists = print_zone(rt, "lists", of_lists(alloc))?;
    let utc = print_zone(rt, "UTC", TimeZone::utc(alloc))?;
    let fixed = print_zone(rt, "fixed", TimeZone::fixed(alloc, -36_000))?;
    Ok(lists & utc & fixed)
}

// Lists for which a constructor keeps more than their transitions.
fn print_lists(rt: &HostRuntime, alloc: Global) -> io::Result<bool> {
    let leaps = print_zone(rt, "leap seconds", with_leap_second(alloc))?;
    let overlapping = print_zone(rt, "folds that overlap", with_overlapping_folds(alloc))?;
    let idle = print_zone(
        rt,
        "transitions that change nothing",
        with_idle_transitions(alloc),
    )?;
    Ok(leaps & overlapping & idle)
}

// Prints what the zone is; whether there was memory for it.
fn print_zone(rt: &HostRuntime, name: &str, answer: Result<TimeZone, Error>) -> io::Result<bool> {
    match answer {
        Ok(zone) => print_contents(rt, name, &zone),
        Err(e) => print_refusal(rt, name, e.number()),
    }
}

fn print_contents(rt: &HostRuntime, name: &str, zone: &TimeZone) -> io::Result<bool> {
    let transitions = zone.transition_count();
    let types = zone.type_count();
    let offset = offset_in_summer(zone);
    println!(rt; "{name}: {transitions} transitions, {types} types, {offset:?}")?;
    Ok(true)
}

fn print_refusal(rt: &HostRuntime, name: &str, number: u8) -> io::Result<bool> {
    if number == 17 {
        return Ok(false);
    }
    println!(rt; "{name}: refused {number}")?;
    Ok(true)
}

fn offset_in_summer(zone: &TimeZone) -> Option<i32> {
    match zone.find_local_time_type(SUMMER) {
        Ok(local_type) => Some(local_type.offset()),
        Err(_) => None,
    }
}

fn of_file(alloc: Global, digits: &str) -> Result<TimeZone, Error> {
    match hex::decode(alloc, digits) {
        Ok(file) => TimeZone::from_tz_data(alloc, &file),
        Err(_) => Err(Error::from(AllocError)),
    }
}

fn of_lists(alloc: Global) -> Result<TimeZone, Error> {
    zone_of(alloc, &[Transition::new(0, 1)], [0, 3600, 7200], &[])
}

// Both transitions come at the Unix time 78796800: the leap second lies between them.
fn with_leap_second(alloc: Global) -> Result<TimeZone, Error> {
    let transitions = [
        Transition::new(78_796_800, 1),
        Transition::new(78_796_801, 2),
    ];
    let leaps = [LeapSecond::new(78_796_800, 1)];
    zone_of(alloc, &transitions, [0, 3600, 7200], &leaps)
}

// Clocks are set back by an hour, and half an hour later again.
fn with_overlapping_folds(alloc: Global) -> Result<TimeZone, Error> {
    let transitions = [Transition::new(0, 1), Transition::new(1_800, 2)];
    zone_of(alloc, &transitions, [0, -3600, -7200], &[])
}

fn with_idle_transitions(alloc: Global) -> Result<TimeZone, Error> {
    let transitions = [
        Transition::new(0, 0),
        Transition::new(1_000_000, 1),
        Transition::new(2_000_000, 1),
        Transition::new(3_000_000, 2),
    ];
    zone_of(alloc, &transitions, [0, 3600, 7200], &[])
}

fn zone_of(
    alloc: Global,
    transitions: &[Transition],
    offsets: [i32; 3],
    leaps: &[LeapSecond],
) -> Result<TimeZone, Error> {
    let [first, second, third] = offsets;
    let types = [
        LocalTimeType::with_offset(first)?,
        LocalTimeType::with_offset(second)?,
        LocalTimeType::with_offset(third)?,
    ];
    TimeZone::new(
        alloc,
        transitions.to_vec(alloc)?,
        types.to_vec(alloc)?,
        leaps.to_vec(alloc)?,
        None,
    )
}
