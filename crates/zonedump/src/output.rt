//! What is printed, written or drawn of one zone.

use crate::answers::{When, push_answer};
use crate::files;
use crate::guesses::zone_of_path;
use crate::source::{STANDARD, Source};
use crate::words::{NOT_UTF8, is_utf8, report, shown};
use naive_base::{Datelike, NaiveDateTime};
use std::fmt::Write;
use std::io;
use std::io::Write as _;
use tz_info::TimeZone;
use tz_write::ToTzData;
use zonedump_lib::{Bound, Colors, Period, begin_table, to_json, zdump_lines};

/// What is done with a zone.
#[derive(Clone, Copy)]
pub enum What<'a> {
    Table,
    Zdump,
    Json,
    /// What its clocks show at that time is printed.
    Answer(When),
    /// It is written to the file of that name.
    Write(&'a str),
    /// A picture of it in those colours is written to the file of that name.
    Draw(&'a str, Colors),
}

/// What is done, and in which period.
#[derive(Clone, Copy)]
pub struct Asked<'a> {
    pub period: Period,
    /// Whether the period was given.
    pub has_period: bool,
    pub what: What<'a>,
}

// How a zone is drawn.
#[derive(Clone, Copy)]
struct Picture {
    period: Period,
    // How many changes may each have a panel.
    most: usize,
    colors: Colors,
}

// How many changes of a period that is given may each have a panel, and how many of another one.
const MANY: usize = 24;

const FEW: usize = 8;

/// Prints or writes a zone, and returns whether that was done. Why not is reported.
///
/// # Errors
///
/// Standard output can't be written, or there is no memory.
pub fn write_out(rt: &HostRuntime, source: Source<'_>, asked: Asked<'_>) -> io::Result<bool> {
    let Some(zone) = source.zone(rt)? else {
        return Ok(false);
    };
    let name = source.name();
    match asked.what {
        What::Table => print_table(rt, name, &zone, asked.period),
        What::Zdump => print_zdump(rt, name, &zone, asked.period),
        What::Json => print_json(rt, name, &zone, asked.period),
        What::Answer(when) => print_answer(rt, name, &zone, when),
        What::Write(path) => write_zone(rt, name, &zone, path),
        What::Draw(path, colors) => {
            let picture = Picture {
                period: period_to_draw(&zone, asked),
                most: if asked.has_period { MANY } else { FEW },
                colors,
            };
            draw(rt, name, &zone, picture, path)
        }
    }
}

// Prints the lines of the table as they are made.
fn print_table(rt: &HostRuntime, name: &str, zone: &TimeZone, period: Period) -> io::Result<bool> {
    let mut text = format!(in rt.alloc(); "{}\n", shown(name))?;
    let Ok((head, mut left)) = begin_table(rt.alloc(), zone, period) else {
        return Ok(skip(rt, name));
    };
    text.push_str(head.as_str())?;
    for _ in 0..usize::MAX {
        print(rt, text.as_bytes())?;
        text.clear();
        left = match left.push_lines(&mut text) {
            Ok(rest) => rest,
            Err(_) => return Ok(skip(rt, name)),
        };
        if text.is_empty() {
            break;
        }
    }
    Ok(true)
}

fn print_zdump(rt: &HostRuntime, name: &str, zone: &TimeZone, period: Period) -> io::Result<bool> {
    let shown = format!(in rt.alloc(); "{}", shown(name))?;
    match zdump_lines(rt.alloc(), shown.as_str(), zone, period) {
        Ok(lines) => print(rt, lines.as_bytes()),
        Err(_) => Ok(skip(rt, name)),
    }
}

// An object of JSON, on a line of its own.
fn print_json(rt: &HostRuntime, name: &str, zone: &TimeZone, period: Period) -> io::Result<bool> {
    let mut line = to_json(rt.alloc(), name, zone, period)?;
    line.push(b'\n')?;
    print(rt, line.as_slice())
}

fn print_answer(rt: &HostRuntime, name: &str, zone: &TimeZone, when: When) -> io::Result<bool> {
    let mut line = String::new(rt.alloc());
    write!(line, "{}  ", shown(name))?;
    push_answer(&mut line, zone, when)?;
    line.push('\n')?;
    print(rt, line.as_bytes())
}

// Writes the zone to a file.
fn write_zone(rt: &HostRuntime, name: &str, zone: &TimeZone, path: &str) -> io::Result<bool> {
    match zone.to_tz_data(rt.alloc()) {
        Ok(Some(bytes)) => write_file(rt, path, bytes.as_slice()),
        Ok(None) => {
            report(rt, name, "no TZif file spells this zone");
            Ok(false)
        }
        Err(_) => Ok(skip(rt, name)),
    }
}

// Writes a picture of the zone to a file.
fn draw(
    rt: &HostRuntime,
    name: &str,
    zone: &TimeZone,
    picture: Picture,
    path: &str,
) -> io::Result<bool> {
    let Picture {
        period,
        most,
        colors,
    } = picture;
    match zonedump_lib::draw(rt.alloc(), zone_of_path(name), zone, period, most, colors) {
        Ok(picture) => write_file(rt, path, picture.as_bytes()),
        Err(_) => Ok(skip(rt, name)),
    }
}

// The period of a picture.
fn period_to_draw(zone: &TimeZone, asked: Asked<'_>) -> Period {
    if asked.has_period {
        return asked.period;
    }
    recent_years(zone).unwrap_or(asked.period)
}

// The years 2020 to 2030, or if clocks don't change then, the year of the last change before.
fn recent_years(zone: &TimeZone) -> Option<Period> {
    let years = Period::new(Bound::Year(2020), Bound::Year(2030))?;
    let until = years.until();
    match zone.next_change(years.from()) {
        Some(change) if change.at < until => Some(years),
        _ => match zone.previous_change(years.from()) {
            Some(change) => whole_year(change.at),
            None => Some(years),
        },
    }
}

// The year of a second.
fn whole_year(second: i64) -> Option<Period> {
    let date = NaiveDateTime::from_timestamp_opt(second, 0)?.date();
    let year = u16::try_from(date.year()).ok()?;
    Period::new(Bound::Year(year), Bound::Year(year))
}

// Says that memory ran out for a zone.
fn skip(rt: &HostRuntime, name: &str) -> bool {
    report(rt, name, "out of memory");
    false
}

// Writes those bytes to a file or to standard output, or says why they can't be written.
fn write_file(rt: &HostRuntime, path: &str, bytes: &[u8]) -> io::Result<bool> {
    if path == STANDARD {
        return print(rt, bytes);
    }
    if !is_utf8(path) {
        report(rt, path, NOT_UTF8);
        return Ok(false);
    }
    match files::replace(rt, path, bytes) {
        Ok(is_done) => Ok(is_done),
        Err(error) => {
            report(rt, path, error);
            Ok(false)
        }
    }
}

/// Writes the bytes to standard output. Returns `true`, or the error of a write.
pub fn print(rt: &HostRuntime, bytes: &[u8]) -> io::Result<bool> {
    let mut output = rt.stdout();
    output.write_all(bytes)?;
    output.flush()?;
    Ok(true)
}
