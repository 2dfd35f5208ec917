//! What the words of a call ask for.

use crate::answers::When;
use crate::compared::Form;
use crate::faults::{FIRST_YEAR, Fault, LAST_YEAR};
use crate::moments::{Typed, read_bound, read_time};
use crate::output::{Asked, What};
use clap::ArgMatches;
use zonedump_lib::{Bound, Colors, Period};

/// Returns what is asked for, of that many zones.
///
/// # Errors
///
/// The words contradict each other, or a value has not its form.
pub fn asked_of<'a>(matches: &ArgMatches<'a>, zones: usize) -> Result<Asked<'a>, Fault<'a>> {
    if !matches.get_flag("diff") {
        check_zones(matches, zones)?;
    }
    let what = what_of(matches)?;
    let period = period_of(matches)?;
    let has_period = matches.contains_id("from") || matches.contains_id("to");
    Ok(Asked {
        period,
        has_period,
        what,
    })
}

// Checks how many zones there are, where nothing is compared.
fn check_zones<'a>(matches: &ArgMatches<'a>, zones: usize) -> Result<(), Fault<'a>> {
    if matches.get_flag("summary") {
        return Err(Fault::WithoutDiff("summary"));
    }
    if matches.get_str("times").is_some() {
        return Err(Fault::WithoutDiff("times FILE"));
    }
    if matches.get_str("colors").is_some() && matches.get_str("svg").is_none() {
        return Err(Fault::ColorsWithoutPicture);
    }
    let is_none = zones == 0 && matches.get_str("text").is_none();
    for name in ["write", "svg"] {
        let is_asked = matches.get_str(name).is_some();
        if is_asked && is_none {
            return Err(Fault::NoZoneFor(name));
        }
        if is_asked && zones > 1 {
            return Err(Fault::SeveralZones(name));
        }
    }
    if is_none {
        return Err(Fault::NoZone);
    }
    Ok(())
}

// The period that is asked for.
fn period_of<'a>(matches: &ArgMatches<'a>) -> Result<Period, Fault<'a>> {
    let first = bound_of(matches, "from", FIRST_YEAR)?;
    let last = bound_of(matches, "to", LAST_YEAR)?;
    Period::new(first, last).ok_or(Fault::InReverse(first, last))
}

fn bound_of<'a>(
    matches: &ArgMatches<'a>,
    name: &'static str,
    unless_given: u16,
) -> Result<Bound, Fault<'a>> {
    match matches.get_str(name) {
        Some(value) => read_bound(value).ok_or(Fault::NoBound(name, value)),
        None => Ok(Bound::Year(unless_given)),
    }
}

// What is done with the zones.
fn what_of<'a>(matches: &ArgMatches<'a>) -> Result<What<'a>, Fault<'a>> {
    if let Some(time) = matches.get_str("at") {
        return Ok(What::Answer(when_of(time, matches.get_flag("local"))?));
    }
    if matches.get_flag("local") {
        return Err(Fault::LocalWithoutTime);
    }
    Ok(if let Some(path) = matches.get_str("write") {
        What::Write(path)
    } else if let Some(path) = matches.get_str("svg") {
        What::Draw(path, colors_of(matches)?)
    } else if matches.get_flag("zdump") {
        What::Zdump
    } else if matches.get_flag("json") {
        What::Json
    } else {
        What::Table
    })
}

// The colours of a picture.
fn colors_of<'a>(matches: &ArgMatches<'a>) -> Result<Colors, Fault<'a>> {
    match matches.get_str("colors") {
        None => Ok(Colors::Both),
        Some("light") => Ok(Colors::Light),
        Some("dark") => Ok(Colors::Dark),
        Some(value) => Err(Fault::NoColors(value)),
    }
}

// The time of `--at`. A local time is no instant.
fn when_of<'a>(time: &'a str, is_local: bool) -> Result<When, Fault<'a>> {
    match read_time(time).ok_or(Fault::NoTime(time))? {
        Typed::Plain(local) if is_local => Ok(When::Local(local)),
        Typed::Plain(utc) => Ok(When::Instant(utc.secs_since_epoch())),
        Typed::Instant(_) if is_local => Err(Fault::NotLocal(time)),
        Typed::Instant(second) => Ok(When::Instant(second)),
    }
}

/// The form in which differences are printed.
pub fn form_of(matches: &ArgMatches<'_>) -> Form {
    if matches.get_flag("summary") {
        Form::Summary
    } else if matches.get_flag("json") {
        Form::Json
    } else {
        Form::Lines
    }
}
