//! Stored times that a new version of a zone moves.

use crate::answers::instant_of;
use crate::compared::{DIFFERENT, EQUAL, ERROR, print_part};
use crate::moments::{Typed, read_time};
use crate::source::{STANDARD, zone_at};
use crate::words::{OneLine, report, say, shown};
use naive_base::NaiveDateTime;
use offset_core::Around;
use std::fmt::Write;
use std::{fmt, io};
use tz_info::TimeZone;
use zonedump_lib::Clock;

// What the file of the times has.
const LINES: &str =
    "--times takes a file with a time on each line, as 2026-11-01T09:00,Europe/Paris";

// A zone of both versions, under its name.
#[derive(Drop)]
struct Pair {
    name: String,
    old: TimeZone,
    new: TimeZone,
}

// The two versions, and the zones that were read.
#[derive(Drop)]
struct Versions<'a> {
    old: &'a str,
    new: &'a str,
    are_folders: bool,
    pairs: Vec<Pair>,
}

/// Prints each time of a file that the new version of its zone moves, and how many there are. Returns
/// the status of the run. A line of the file has a time, and for two folders the name of its zone
/// after a comma or a blank.
///
/// # Errors
///
/// Standard output can't be written, or there is no memory.
pub fn print_moves(
    rt: &HostRuntime,
    old: &str,
    new: &str,
    are_folders: bool,
    file: &str,
) -> io::Result<u8> {
    let read = if file == STANDARD {
        zoned_files::read_all(rt.alloc(), rt.stdin())
    } else {
        zoned_files::read_limited(rt, file)
    };
    let bytes = match read {
        Ok(bytes) => bytes,
        Err(error) => {
            report(rt, file, error);
            say(rt, LINES);
            return Ok(ERROR);
        }
    };
    let Ok(text) = str::from_utf8(bytes.as_slice()) else {
        report(rt, file, "not UTF-8");
        say(rt, LINES);
        return Ok(ERROR);
    };
    let mut versions = Versions {
        old,
        new,
        are_folders,
        pairs: Vec::new(rt.alloc()),
    };
    print_lines(rt, text, &mut versions)
}

fn print_lines(rt: &HostRuntime, text: &str, versions: &mut Versions<'_>) -> io::Result<u8> {
    let mut status = EQUAL;
    let (mut times, mut moved) = (0_u64, 0_u64);
    for (place, line) in text.lines().enumerate() {
        let line = line.trim();
        if line.is_empty() {
            continue;
        }
        let found = print_line(rt, place, line, versions)?;
        status = status.max(found);
        times = times.saturating_add(1);
        if found == DIFFERENT {
            moved = moved.saturating_add(1);
        }
    }
    let last = format!(in rt.alloc(); "times that move: {moved} of {times}\n")?;
    print_part(rt, last.as_bytes())?;
    Ok(status)
}

// Prints a line if its time moves, or says on standard error why it can't be compared.
fn print_line(
    rt: &HostRuntime,
    place: usize,
    line: &str,
    versions: &mut Versions<'_>,
) -> io::Result<u8> {
    let (time, name) = parts_of(line, versions.are_folders);
    let Some(time) = read_time(time) else {
        let line = OneLine(line);
        let number = place as u64 as u128 + 1;
        let _ = eprintln!(rt;
            "zonedump: line {number}: not a time like 2026-11-01T09:00 or 2026-11-01T09:00Z: {line}"
        );
        return Ok(ERROR);
    };
    let Some(pair) = pair_of(rt, place, name, versions)? else {
        return Ok(ERROR);
    };
    let old = Found::of(&pair.old, time);
    let new = Found::of(&pair.new, time);
    if old == new {
        return Ok(EQUAL);
    }
    let line = format!(in rt.alloc(); "{}: {old} becomes {new}\n", OneLine(line))?;
    print_part(rt, line.as_bytes())?;
    Ok(DIFFERENT)
}

// The time of a line, and the name of its zone.
fn parts_of(line: &str, has_name: bool) -> (&str, &str) {
    if !has_name {
        return (line, "");
    }
    let parts = match line.split_once(',') {
        Some(parts) => Some(parts),
        None => line.split_once(' '),
    };
    match parts {
        Some((time, name)) => (time.trim(), name.trim()),
        None => (line, ""),
    }
}

// The zone of that name in both versions, read once.
fn pair_of<'v>(
    rt: &HostRuntime,
    place: usize,
    name: &str,
    versions: &'v mut Versions<'_>,
) -> io::Result<Option<&'v Pair>> {
    let known = versions
        .pairs
        .iter()
        .position(|pair| pair.name.as_str() == name);
    if let Some(known) = known {
        return Ok(versions.pairs.get(known));
    }
    let Some(old) = zone_in(rt, versions.old, place, name, versions.are_folders)? else {
        return Ok(None);
    };
    let Some(new) = zone_in(rt, versions.new, place, name, versions.are_folders)? else {
        return Ok(None);
    };
    let name = String::from_str(rt.alloc(), name)?;
    versions.pairs.push(Pair { name, old, new })?;
    Ok(versions.pairs.last())
}

// The zone of that name in one version. The line at that place asks for it.
fn zone_in(
    rt: &HostRuntime,
    version: &str,
    place: usize,
    name: &str,
    is_folder: bool,
) -> io::Result<Option<TimeZone>> {
    if !is_folder {
        return Ok(zone_at(rt, version, version));
    }
    let mut folders = Vec::new(rt.alloc());
    folders.push(String::from_str(rt.alloc(), version)?)?;
    match zoned_files::path_of(rt, name, folders.as_slice())? {
        Some(path) => Ok(zone_at(rt, path.as_str(), path.as_str())),
        None => {
            let (version, name) = (shown(version), shown(name));
            let number = place as u64 as u128 + 1;
            let _ = eprintln!(rt;
                "zonedump: line {number}: {version} has no zone {name}; name one after the time, as in 2026-11-01T09:00,Europe/Paris"
            );
            Ok(None)
        }
    }
}

// What a zone has at a time.
#[derive(Clone, Copy, PartialEq, Eq)]
enum Found {
    // The instant that shows the local time.
    Once(i128),
    // The first and the last instant that show it.
    More(i128, i128),
    // The instant at which clocks are set past it.
    Never(i128),
    // The local time at the instant.
    Local(i128),
    // The zone has no local time there.
    Unknown,
}

impl Found {
    fn of(zone: &TimeZone, time: Typed) -> Found {
        match time {
            Typed::Plain(local) => Found::of_local(zone, local),
            Typed::Instant(second) => match zone.find_local_time_type(second) {
                Ok(found) => Found::Local(second as i128 + found.offset() as i128),
                Err(_) => Found::Unknown,
            },
        }
    }

    fn of_local(zone: &TimeZone, local: NaiveDateTime) -> Found {
        match zone.find_local_time_type_around(local) {
            Around::Single(only) => Found::Once(instant_of(local, &only)),
            Around::Ambiguous(first, last) => {
                Found::More(instant_of(local, &first), instant_of(local, &last))
            }
            Around::Gap(change) => Found::Never(change.at as i128),
        }
    }
}

impl fmt::Display for Found {
    fn fmt<W: fmt::Write>(&self, f: &mut fmt::Formatter<W>) -> fmt::Result {
        match *self {
            Found::Once(second) => write!(f, "{} UTC", Clock(second)),
            Found::More(first, last) => write!(f, "{} or {} UTC", Clock(first), Clock(last)),
            Found::Never(second) => write!(f, "never (a gap at {} UTC)", Clock(second)),
            Found::Local(second) => write!(f, "{}", Clock(second)),
            Found::Unknown => f.write_str("no local time"),
        }
    }
}
