//! What to type in place of a word that is no file and no zone, or of a TZ string that is rejected.

use crate::folders;
use crate::words::{OneLine, Quoted, is_utf8, report, say};
use std::alloc::Global;
use std::{fmt, io};
use strsim::levenshtein;
use tz_info::{Error, TimeZone};

// How many letters of a name may be wrong, and one of how many at most.
const SLIPS: usize = 2;

const LETTERS: usize = 4;

// A longer word is no slip of a name.
const LONGEST: usize = 60;

// What a TZif file begins with, and what gzip writes begins with.
const MAGIC: [u8; 4] = *b"TZif";

const GZIP: [u8; 2] = [0x1f, 0x8b];

/// Says that a word is no file and no zone, and what to type.
///
/// # Errors
///
/// There is no memory for the names of zones.
pub fn report_unknown(rt: &HostRuntime, word: &str, folders: &[String]) -> io::Result<()> {
    let Some(folder) = database_in(rt, folders) else {
        report(rt, word, Advice::Folder);
        return Ok(());
    };
    let advice = advice_for(rt.alloc(), word, folder);
    match advice {
        Advice::Text(_) | Advice::Time => report(rt, word, advice),
        _ => match nearest(rt, word, folder)? {
            Some(name) => report(rt, word, Advice::Name(name.as_str())),
            None => report(rt, word, advice),
        },
    }
    Ok(())
}

// The first of the folders that exists.
fn database_in<'a>(rt: &HostRuntime, folders: &'a [String]) -> Option<&'a str> {
    for folder in folders.iter() {
        if folders::is_folder(rt, folder.as_str()) {
            return Some(folder.as_str());
        }
    }
    None
}

/// Says what to type in place of a file that is rejected, if it doesn't begin as a TZif file.
pub fn hint_for_file(rt: &HostRuntime, word: &str, bytes: &[u8]) {
    if bytes.starts_with(&GZIP) {
        say(rt, Hint::Compressed(word));
    } else if !bytes.starts_with(&MAGIC) {
        say(rt, Hint::File);
    }
}

/// Says what to type in place of a TZ string that is rejected with that fault, if it is the name of
/// a zone, or has no rule.
///
/// # Errors
///
/// There is no memory for a path.
pub fn hint_for(rt: &HostRuntime, text: &str, fault: &Error) -> io::Result<()> {
    let folders = zoned_files::folders(rt)?;
    if zoned_files::path_of(rt, text, folders.as_slice())?.is_some() {
        say(rt, Hint::Name(text));
    } else if let Error::UnsupportedTzString(_) = *fault {
        say(rt, Hint::Rule(text));
    }
    Ok(())
}

// What to type for a word if no name is near to it.
fn advice_for<'a>(alloc: Global, word: &'a str, folder: &'a str) -> Advice<'a> {
    match TimeZone::from_posix_tz(alloc, word) {
        Ok(_) => Advice::Text(word),
        Err(Error::UnsupportedTzString(_)) => Advice::Rule(word),
        Err(_) if is_time(word) => Advice::Time,
        Err(_) if zoned_files::is_zone_name(word) => Advice::NoZone(folder),
        Err(_) => Advice::AnyName,
    }
}

/// Whether a word begins with a digit, and has only digits, colons and hyphens.
pub fn is_time(word: &str) -> bool {
    match word.as_bytes().first() {
        Some(first) if first.is_ascii_digit() => word.bytes().all(|byte| byte.is_ascii_digit()
            || byte == b':'
            || byte == b'-'),
        _ => false,
    }
}

// What to type in place of a word that is no file and no zone.
#[derive(Clone, Copy)]
enum Advice<'a> {
    // The folder of a tz database: none is found.
    Folder,
    // The name of a zone that is near to the word.
    Name(&'a str),
    // The word is a TZ string.
    Text(&'a str),
    // The word is a TZ string but for its rule.
    Rule(&'a str),
    // The word is a date, a time of day or a year.
    Time,
    // The word may be the name of a zone, which this folder has not.
    NoZone(&'a str),
    AnyName,
}

impl fmt::Display for Advice<'_> {
    fn fmt<W: fmt::Write>(&self, f: &mut fmt::Formatter<W>) -> fmt::Result {
        match *self {
            Advice::Folder => f.write_str(
                "no such file, and no tz database is here; name its folder with --tzdir FOLDER",
            ),
            Advice::Name(name) => {
                write!(f, "no such file or zone; did you mean {}?", Quoted(name))
            }
            Advice::Text(text) => write!(
                f,
                "no such file or zone; a TZ string is given by --text '{}'{}",
                Quoted(text),
                if text.contains('+') {
                    ", with + for west of UTC"
                } else {
                    ""
                }
            ),
            Advice::Rule(text) => write!(
                f,
                "no such file or zone; a TZ string needs a rule, as in {}",
                WithRule(text)
            ),
            Advice::Time => f.write_str(
                "not a zone; write a time as --at 2026-11-01T09:00, and years or dates as --from 2026 --to 2027-03-31",
            ),
            Advice::NoZone(folder) => write!(
                f,
                "no such file, and {} has no such zone; zones have names like Europe/Paris, and --tzdir FOLDER names another tz database",
                OneLine(folder)
            ),
            Advice::AnyName => {
                f.write_str("no such file or zone; a zone has a name like Europe/Paris")
            }
        }
    }
}

// What to type in place of a TZ string or a file that is rejected.
#[derive(Clone, Copy)]
enum Hint<'a> {
    // The TZ string is the name of a zone.
    Name(&'a str),
    // The TZ string has no rule.
    Rule(&'a str),
    // The file of that name is compressed.
    Compressed(&'a str),
    // zic makes no such file.
    File,
}

impl fmt::Display for Hint<'_> {
    fn fmt<W: fmt::Write>(&self, f: &mut fmt::Formatter<W>) -> fmt::Result {
        match *self {
            Hint::Name(name) => {
                let name = Quoted(name);
                write!(
                    f,
                    "{name} is the name of a zone: leave out --text, as in zonedump {name}"
                )
            }
            Hint::Rule(text) => write!(
                f,
                "a rule says when daylight saving time starts and ends, as in {}",
                WithRule(text)
            ),
            Hint::Compressed(name) => {
                let name = Quoted(name);
                write!(
                    f,
                    "{name} is compressed: unpack it, as in gunzip -c {name} | zonedump -"
                )
            }
            Hint::File => f.write_str(
                "name a TZif file, which zic makes, or a zone, as in zonedump Europe/Paris",
            ),
        }
    }
}

// A TZ string that lacks its rule, with one, as it is typed.
#[derive(Clone, Copy)]
struct WithRule<'a>(&'a str);

impl fmt::Display for WithRule<'_> {
    fn fmt<W: fmt::Write>(&self, f: &mut fmt::Formatter<W>) -> fmt::Result {
        write!(f, "--text '{},M3.5.0,M10.5.0/3'", Quoted(self.0))
    }
}

// The name of a zone that is nearest to the word, if few letters are wrong. The name's last part
// serves as well, as `Paris`.
fn nearest(rt: &HostRuntime, word: &str, folder: &str) -> io::Result<Option<String>> {
    let name = zone_of_path(word);
    if name.len() > LONGEST || !is_utf8(word) {
        return Ok(None);
    }
    let wanted = plain(rt.alloc(), name)?;
    let names = folders::contents_of(rt, folder)?.files;
    let mut least = SLIPS.min(wanted.len() / LETTERS) + 1;
    let mut found = None;
    for name in names.iter() {
        let name = name.as_str();
        if folders::is_double(name) || !zoned_files::is_zone_name(name) {
            continue;
        }
        let slips = slips_of(rt.alloc(), wanted.as_str(), name)?;
        if slips < least {
            least = slips;
            found = Some(String::from_str(rt.alloc(), name)?);
        }
    }
    Ok(found)
}

/// Returns the name of the zone that a path into a tz database leads to, or else the path.
pub fn zone_of_path(path: &str) -> &str {
    match path.split_once("/zoneinfo/") {
        Some((_, name)) => name,
        None => path,
    }
}

// How many letters of the word are wrong for that name, or for its last part. One that lacks the end
// of the name, from a `_` on, has one wrong letter, as `America/New`.
fn slips_of(alloc: Global, wanted: &str, name: &str) -> io::Result<usize> {
    let name = plain(alloc, name)?;
    if name
        .strip_prefix(wanted)
        .is_some_and(|end| end.starts_with('_'))
    {
        return Ok(1);
    }
    let whole = levenshtein(alloc, wanted, name.as_str())?;
    let Some((_, city)) = name.as_str().rsplit_once('/') else {
        return Ok(whole);
    };
    Ok(whole.min(levenshtein(alloc, wanted, city)?))
}

// A name in small letters, with `_` for each blank.
fn plain(alloc: Global, name: &str) -> io::Result<String> {
    let mut text = String::from_str(alloc, name)?;
    text.make_ascii_lowercase();
    let mut joined = String::new(alloc);
    for letter in text.chars() {
        joined.push(if letter == ' ' { '_' } else { letter })?;
    }
    Ok(joined)
}
