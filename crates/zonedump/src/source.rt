//! What a zone is read from: a file, a zone of the tz database, standard input, or a TZ string.

use crate::guesses;
use crate::words::{NOT_UTF8, OneLine, is_utf8, report, shown};
use std::alloc::Global;
use std::fmt::Write;
use std::fs;
use std::io::{self, ErrorKind};
use tz_info::{Error, ParseError, TimeZone};

// Why a folder is no zone.
const FOLDER: &str = "a folder; name a file in it, or compare two with zonedump --diff OLD NEW";

/// The word that means standard input, or standard output.
pub const STANDARD: &str = "-";

/// What a zone is read from.
#[derive(Clone, Copy)]
pub enum Source<'a> {
    /// A TZ string.
    Text(&'a str),
    /// A TZ string with the extensions of RFC 8536.
    Extended(&'a str),
    /// A file, or a zone of the database in those folders.
    File(&'a str, &'a [String]),
}

impl<'a> Source<'a> {
    /// The name under which the zone is printed.
    pub fn name(self) -> &'a str {
        match self {
            Source::Text(text) | Source::Extended(text) => text,
            Source::File(word, _) => word,
        }
    }

    /// Returns the zone. `None` if it can't be read, which is reported.
    ///
    /// # Errors
    ///
    /// There is no memory for a name.
    pub fn zone(self, rt: &HostRuntime) -> io::Result<Option<TimeZone>> {
        match self {
            Source::File(word, folders) => zone_of_file(rt, word, folders),
            Source::Text(text) if !is_utf8(text) => {
                report(rt, text, "not a TZ string: not UTF-8");
                Ok(None)
            }
            Source::Text(text) => {
                let zone = TimeZone::parse_posix_tz(rt.alloc(), text);
                zone_of_text(rt, text, zone)
            }
            Source::Extended(text) => {
                let zone = TimeZone::parse_extended_tz(rt.alloc(), text.as_bytes());
                zone_of_text(rt, text, zone)
            }
        }
    }
}

fn zone_of_text(
    rt: &HostRuntime,
    text: &str,
    read: Result<TimeZone, ParseError>,
) -> io::Result<Option<TimeZone>> {
    match read {
        Ok(zone) => Ok(Some(zone)),
        Err(fault) => {
            reject(rt, text, "TZ string", &fault.error);
            if let Some(position) = fault.position {
                point_at_fault(rt, text, position)?;
            }
            guesses::hint_for(rt, text, &fault.error)?;
            Ok(None)
        }
    }
}

// Prints a TZ string, and below its first byte that can't be read a caret with the offset of that byte.
fn point_at_fault(rt: &HostRuntime, text: &str, position: usize) -> io::Result<()> {
    let line = printed(rt.alloc(), text)?;
    let front = printed(rt.alloc(), text_before(text, position))?;
    let column = front.chars().count();
    let _ = eprintln!(rt; "  {line}");
    let _ = eprintln!(rt; "  {:column$}^ at offset {position}", "");
    Ok(())
}

// The characters that begin in front of that byte.
fn text_before(text: &str, position: usize) -> &str {
    match text.split_at_checked(position) {
        Some((front, _)) => front,
        None => text,
    }
}

// The text as it is printed, on one line.
fn printed(alloc: Global, text: &str) -> io::Result<String> {
    let mut line = String::new(alloc);
    write!(line, "{}", OneLine(text))?;
    Ok(line)
}

/// Returns the zone of a file, or of the name of a zone. `None` if it can't be read, which is
/// reported.
///
/// # Errors
///
/// There is no memory for a path.
pub fn zone_of_file(
    rt: &HostRuntime,
    word: &str,
    folders: &[String],
) -> io::Result<Option<TimeZone>> {
    match place_of(rt, word, folders)? {
        Some(Place::File(path)) => Ok(zone_at(rt, path.as_str(), word)),
        Some(Place::Folder(_)) => {
            report(rt, word, FOLDER);
            Ok(None)
        }
        None => Ok(None),
    }
}

/// Returns the zone of the file at a path, or of standard input. `None` if it can't be read, which is
/// reported under a name.
pub fn zone_at(rt: &HostRuntime, path: &str, name: &str) -> Option<TimeZone> {
    let read = if path == STANDARD {
        zoned_files::read_all(rt.alloc(), rt.stdin())
    } else {
        zoned_files::read_limited(rt, path)
    };
    let bytes = match read {
        Ok(bytes) => bytes,
        Err(error) => {
            report(rt, name, error);
            return None;
        }
    };
    match TimeZone::parse_tz_data(rt.alloc(), bytes.as_slice()) {
        Ok(zone) => Some(zone),
        Err(fault) => {
            reject_file(rt, name, &fault);
            guesses::hint_for_file(rt, name, bytes.as_slice());
            None
        }
    }
}

// Says why a file is rejected, and at which byte.
fn reject_file(rt: &HostRuntime, name: &str, fault: &ParseError) {
    let Some(position) = fault.position else {
        reject(rt, name, "TZif file", &fault.error);
        return;
    };
    let number = fault.error.number();
    let name = shown(name);
    let words = fault.error;
    let _ = eprintln!(rt;
        "zonedump: {name}: not a TZif file: {words} ({number}) at offset {position}"
    );
}

/// The path of what a word leads to.
#[derive(Drop)]
pub enum Place {
    /// A file, or standard input.
    File(String),
    Folder(String),
}

/// Returns what a word leads to: what has that path, or else the file of the zone of that name in the
/// folders. `None` if there is neither or it can't be looked at, which is reported.
///
/// # Errors
///
/// There is no memory for the path.
pub fn place_of(rt: &HostRuntime, word: &str, folders: &[String]) -> io::Result<Option<Place>> {
    if !is_utf8(word) {
        report(rt, word, NOT_UTF8);
        return Ok(None);
    }
    if word == STANDARD {
        return Ok(Some(Place::File(String::from_str(rt.alloc(), word)?)));
    }
    match fs::metadata(rt, word) {
        Ok(found) if found.is_dir() => Ok(Some(Place::Folder(String::from_str(rt.alloc(), word)?))),
        Ok(_) => Ok(Some(Place::File(String::from_str(rt.alloc(), word)?))),
        Err(error) if error.kind() == ErrorKind::NotFound => named(rt, word, folders),
        Err(error) => {
            report(rt, word, error);
            Ok(None)
        }
    }
}

// The file of the zone of that name.
fn named(rt: &HostRuntime, word: &str, folders: &[String]) -> io::Result<Option<Place>> {
    match zoned_files::path_of(rt, word, folders)? {
        Some(path) => Ok(Some(Place::File(path))),
        None => {
            guesses::report_unknown(rt, word, folders)?;
            Ok(None)
        }
    }
}

/// Returns the path that a word leads to: the word itself, or if no such file exists, that of the zone
/// of that name in the folders. `None` if there is neither.
///
/// # Errors
///
/// There is no memory for the path.
pub fn path_of(rt: &HostRuntime, word: &str, folders: &[String]) -> io::Result<Option<String>> {
    if !is_missing(rt, word) {
        return Ok(Some(String::from_str(rt.alloc(), word)?));
    }
    zoned_files::path_of(rt, word, folders)
}

// Whether a path leads to nothing.
fn is_missing(rt: &HostRuntime, path: &str) -> bool {
    match fs::metadata(rt, path) {
        Err(error) => error.kind() == ErrorKind::NotFound,
        Ok(_) => false,
    }
}

// Says why a zone is rejected.
fn reject(rt: &HostRuntime, name: &str, kind: &str, fault: &Error) {
    if let Error::OutOfMemory = fault {
        report(rt, name, "out of memory");
        return;
    }
    let number = fault.number();
    let name = shown(name);
    let _ = eprintln!(rt; "zonedump: {name}: not a {kind}: {fault} ({number})");
}
