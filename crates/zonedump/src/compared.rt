//! Two files compared, or the files of two folders.

use crate::output::print;
use crate::source::{Place, STANDARD, place_of, zone_at};
use crate::summary::Summary;
use crate::words::{report, say, shown};
use crate::{files, folders, times};
use folders::Contents;
use std::fmt::Write;
use std::io::ErrorKind;
use std::{fs, io};
use tz_info::Difference;
use zonedump_lib::{Period, differences_in, differences_to_json, lone_to_json, push_differences};

// The status of a run, as that of diff. Of several files it is the greatest.
pub const EQUAL: u8 = 0;

pub const DIFFERENT: u8 = 1;

pub const ERROR: u8 = 2;

/// The form in which differences are printed.
#[derive(Clone, Copy)]
pub enum Form {
    Lines,
    Json,
    /// Zones with the same differences together.
    Summary,
}

/// How zones are compared.
#[derive(Clone, Copy)]
pub struct Compared<'a> {
    pub period: Period,
    pub form: Form,
    /// A file with times: which of them move is printed in place of the differences.
    pub times: Option<&'a str>,
    /// The folders of the tz database with the zones that are named.
    pub folders: &'a [String],
}

/// Prints the differences of two zones, or of the zones of two folders, and returns the status: 0 if
/// they are equal, 1 if there are differences, and 2 for an error.
pub fn compare(rt: &HostRuntime, words: [&str; 2], asked: Compared<'_>) -> u8 {
    match compare_words(rt, words, asked) {
        Ok(status) => status,
        Err(error) => {
            say(rt, error);
            ERROR
        }
    }
}

// Compares what the two words lead to.
fn compare_words(rt: &HostRuntime, words: [&str; 2], asked: Compared<'_>) -> io::Result<u8> {
    let [old, new] = words;
    if old == STANDARD && new == STANDARD {
        say(
            rt,
            "--diff reads standard input once; name a file for OLD or NEW",
        );
        return Ok(ERROR);
    }
    let old = place_of(rt, old, asked.folders)?;
    let new = place_of(rt, new, asked.folders)?;
    match (old, new) {
        (Some(Place::File(old)), Some(Place::File(new))) => {
            compare_paths(rt, old.as_str(), new.as_str(), false, asked)
        }
        (Some(Place::Folder(old)), Some(Place::Folder(new))) => {
            compare_paths(rt, old.as_str(), new.as_str(), true, asked)
        }
        (Some(Place::Folder(folder)), Some(Place::File(file)))
        | (Some(Place::File(file)), Some(Place::Folder(folder))) => {
            Ok(refuse_kinds(rt, folder.as_str(), file.as_str()))
        }
        _ => Ok(ERROR),
    }
}

fn compare_paths(
    rt: &HostRuntime,
    old: &str,
    new: &str,
    are_folders: bool,
    asked: Compared<'_>,
) -> io::Result<u8> {
    if let Some(file) = asked.times {
        return times::print_moves(rt, old, new, are_folders, file);
    }
    let mut summary = Summary::new(rt.alloc());
    let status = if are_folders {
        compare_folders(rt, old, new, asked, &mut summary)?
    } else {
        compare_files(rt, None, old, new, asked, &mut summary)?
    };
    if let Form::Summary = asked.form {
        print_part(rt, summary.text(rt.alloc(), old, new)?.as_bytes())?;
    }
    Ok(status)
}

/// What `--diff` compares.
pub const TWO: &str = "--diff takes two files or two folders, as in zonedump --diff OLD NEW";

fn refuse_kinds(rt: &HostRuntime, folder: &str, file: &str) -> u8 {
    let folder = shown(folder);
    let file = shown(file);
    let _ = eprintln!(rt; "zonedump: {TWO} ({folder} is a folder, {file} is not)");
    ERROR
}

// Compares the files of the same name, in order, and reports each zone that only one folder has.
fn compare_folders(
    rt: &HostRuntime,
    old: &str,
    new: &str,
    asked: Compared<'_>,
    summary: &mut Summary,
) -> io::Result<u8> {
    let old_contents = folders::contents_of(rt, old)?;
    let new_contents = folders::contents_of(rt, new)?;
    let is_whole = old_contents.unread.is_empty() && new_contents.unread.is_empty();
    let mut status = if is_whole { EQUAL } else { ERROR };
    for name in names_of_both(rt, &old_contents, &new_contents)?.iter() {
        if let Form::Summary = asked.form
            && folders::is_double(name.as_str())
        {
            continue;
        }
        status = status.max(compare_named(rt, name.as_str(), old, new, asked, summary)?);
    }
    Ok(status)
}

// The names of the files of either folder, in order. What can't be looked at in one of them is left
// out.
fn names_of_both(rt: &HostRuntime, old: &Contents, new: &Contents) -> io::Result<Vec<String>> {
    let mut names = Vec::new(rt.alloc());
    push_readable_names(rt, old, new, &mut names)?;
    push_readable_names(rt, new, old, &mut names)?;
    names.sort_unstable();
    names.dedup();
    Ok(names)
}

fn push_readable_names(
    rt: &HostRuntime,
    from: &Contents,
    other: &Contents,
    names: &mut Vec<String>,
) -> io::Result<()> {
    for name in from.files.iter() {
        if !other.is_unread(name.as_str()) {
            names.push(String::from_str(rt.alloc(), name.as_str())?)?;
        }
    }
    Ok(())
}

fn compare_named(
    rt: &HostRuntime,
    name: &str,
    old: &str,
    new: &str,
    asked: Compared<'_>,
    summary: &mut Summary,
) -> io::Result<u8> {
    let old_path = folders::path_within(rt, old, name)?;
    let new_path = folders::path_within(rt, new, name)?;
    match (
        side_at(rt, old_path.as_str()),
        side_at(rt, new_path.as_str()),
    ) {
        (Side::Zone, Side::Zone) => {
            let (old, new) = (old_path.as_str(), new_path.as_str());
            compare_files(rt, Some(name), old, new, asked, summary)
        }
        (Side::Zone, Side::NoZone) => {
            summary.add_old(rt.alloc(), name)?;
            print_lone(rt, old, name, asked)
        }
        (Side::NoZone, Side::Zone) => {
            summary.add_new(rt.alloc(), name)?;
            print_lone(rt, new, name, asked)
        }
        (Side::NoZone, Side::NoZone) => Ok(EQUAL),
        _ => Ok(ERROR),
    }
}

// What one of the folders has under a name.
#[derive(Clone, Copy)]
enum Side {
    Zone,
    NoZone,
    // A file that can't be read, which is reported.
    Unread,
}

fn side_at(rt: &HostRuntime, path: &str) -> Side {
    match is_zone_at(rt, path) {
        Ok(true) => Side::Zone,
        Ok(false) => Side::NoZone,
        Err(error) => {
            report(rt, path, error);
            Side::Unread
        }
    }
}

// Whether a path leads to a file that begins as a zone does.
fn is_zone_at(rt: &HostRuntime, path: &str) -> io::Result<bool> {
    match fs::metadata(rt, path) {
        Ok(found) => Ok(found.is_file() && files::is_zone(rt, path)?),
        Err(error) => match error.kind() {
            ErrorKind::NotFound | ErrorKind::NotADirectory => Ok(false),
            _ => Err(error),
        },
    }
}

// Prints that only one of the folders has a zone.
fn print_lone(rt: &HostRuntime, folder: &str, name: &str, asked: Compared<'_>) -> io::Result<u8> {
    match asked.form {
        Form::Json => {
            let path = folders::path_within(rt, folder, name)?;
            let mut line = lone_to_json(rt.alloc(), path.as_str())?;
            line.push(b'\n')?;
            print_part(rt, line.as_slice())?;
        }
        Form::Lines => {
            let name = shown(name);
            let folder = shown(folder);
            let line = format!(in rt.alloc(); "{name}: only in {folder}\n")?;
            print_part(rt, line.as_bytes())?;
        }
        Form::Summary => {}
    }
    Ok(DIFFERENT)
}

/// Prints one part of the differences. If nobody reads them any more, the rest is still compared for
/// the status.
///
/// # Errors
///
/// Standard output can't be written, and isn't closed.
pub fn print_part(rt: &HostRuntime, bytes: &[u8]) -> io::Result<()> {
    match print(rt, bytes) {
        Err(error) if error.kind() != ErrorKind::BrokenPipe => Err(error),
        _ => Ok(()),
    }
}

fn compare_files(
    rt: &HostRuntime,
    name: Option<&str>,
    old: &str,
    new: &str,
    asked: Compared<'_>,
    summary: &mut Summary,
) -> io::Result<u8> {
    let old_zone = zone_at(rt, old, old);
    let new_zone = zone_at(rt, new, new);
    let Some(old_zone) = old_zone else {
        return Ok(ERROR);
    };
    let Some(new_zone) = new_zone else {
        return Ok(ERROR);
    };
    let Ok(found) = differences_in(rt.alloc(), &old_zone, &new_zone, asked.period) else {
        report(rt, new, "out of memory");
        return Ok(ERROR);
    };
    let status = if found.is_empty() { EQUAL } else { DIFFERENT };
    match asked.form {
        Form::Json => print_difference_json(rt, name, old, new, asked.period, &found)?,
        Form::Summary => summary.add(rt.alloc(), name.unwrap_or(new), found)?,
        Form::Lines => print_difference_lines(rt, name, &found)?,
    }
    Ok(status)
}

// Prints the differences as JSON. Of a folder's files only those that differ are printed.
fn print_difference_json(
    rt: &HostRuntime,
    name: Option<&str>,
    old: &str,
    new: &str,
    period: Period,
    found: &[Difference],
) -> io::Result<()> {
    if name.is_some() && found.is_empty() {
        return Ok(());
    }
    let mut line = differences_to_json(rt.alloc(), old, new, period, found)?;
    line.push(b'\n')?;
    print_part(rt, line.as_slice())
}

// Prints the differences, those of a file in a folder after its name.
fn print_difference_lines(
    rt: &HostRuntime,
    name: Option<&str>,
    found: &[Difference],
) -> io::Result<()> {
    let mut lines = String::new(rt.alloc());
    if let Some(name) = name
        && !found.is_empty()
    {
        writeln!(lines, "{}", shown(name))?;
    }
    push_differences(&mut lines, found)?;
    print_part(rt, lines.as_bytes())
}
