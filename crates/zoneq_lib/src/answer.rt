//! The answer to a line.

ghost use Rattle.std.specs.Prelude.{◌≡◌, ◌++◌, ◌∷◌, [], codes, string_bytes, IfSome, List, MatchResult, OnOk, Some, ℕ};
ghost use Rattle.{
  naive_base.specs.{NaiveDateTime.{reading}, Text.{reading_text}},
  tz_base.specs.Errors.{error_number},
  zoned_time.specs.{DateTime.{zoned}, Zoned.{local_of}},
  zoneq_lib.specs.Answers.{shown_refusal, shown_type, shown_wall, shown_zone, AnswersAt, AnswersData, AnswersFile},
  zoneq_lib.specs.Answers.{AnswersLine, AnswersResolve, AnswersShow, AnswersText, AnswersWall},
  zoneq_lib.specs.Hex.{bytes_of},
};

use crate::question::Question;
use naive_base::NaiveDateTime;
use offset_core::{Choice, MappedLocalTime};
use std::alloc::{AllocError, Global};
use std::fmt;
use std::fmt::Write;
use tz_info::{Error, LocalTimeType, TimeZone, TransitionRule};
use zoned_ref::TimeZoneRef;
use zoned_time::{DateTime, TimeZone as Zone};

/// Puts the answer to a line in place of what `out` holds, with a newline after it. A text or a
/// file that is accepted sets the zone.
pub fn answer(
    alloc: Global,
    zone: &mut Option<TimeZone>,
    line: &[u8],
    out: &mut String,
) -> Result<(), AllocError>
    ensures { OnOk result ((text : List ℕ) × (string_bytes out.new ≡ text ++ 10 ∷ [])
        × AnswersLine zone.old line.now text zone.new) }
{
    out.clear();
    match Question::parse(line) {
        Some(Question::Text(text)) => take_text(alloc, zone, text, out),
        Some(Question::Data(digits)) => take_data(alloc, zone, digits, out),
        Some(Question::At(seconds)) => tell_type(zone, seconds, out),
        Some(Question::Wall(local)) => tell_types(zone, local, out),
        Some(Question::Resolve(local, choice)) => tell_resolved(zone, local, choice, out),
        Some(Question::Show(seconds, nanoseconds)) => {
            tell_instant(zone, seconds, nanoseconds, out)
        }
        None => writeln!(out, "bad line"),
    }
}

// Reads a TZ string. A call of its own, so that no other line pays for the room of a zone that is
// read.
#[inline(never)]
fn take_text(
    alloc: Global,
    zone: &mut Option<TimeZone>,
    text: &str,
    out: &mut String,
) -> Result<(), AllocError>
    ensures { OnOk result ((answer : List ℕ)
        × (string_bytes out.new ≡ string_bytes out.old ++ (answer ++ 10 ∷ []))
        × AnswersText zone.old text.now answer zone.new) }
{
    set_zone(zone, TimeZone::from_posix_tz(alloc, text), out)
}

// Reads the file whose bytes hex digits spell.
#[inline(never)]
fn take_data(
    alloc: Global,
    zone: &mut Option<TimeZone>,
    digits: &[u8],
    out: &mut String,
) -> Result<(), AllocError>
    ensures { OnOk result ((answer : List ℕ)
        × (string_bytes out.new ≡ string_bytes out.old ++ (answer ++ 10 ∷ []))
        × AnswersData zone.old (bytes_of digits.now) answer zone.new) }
{
    match hex::decode(alloc, digits) {
        Ok(bytes) => take_file(alloc, zone, bytes.as_slice(), out),
        // A line whose digits spell no bytes asks nothing, so memory ran out.
        Err(_) => set_zone(zone, Err(Error::OutOfMemory), out),
    }
}

// Reads a file.
fn take_file(
    alloc: Global,
    zone: &mut Option<TimeZone>,
    bytes: &[u8],
    out: &mut String,
) -> Result<(), AllocError>
    ensures { OnOk result ((answer : List ℕ)
        × (string_bytes out.new ≡ string_bytes out.old ++ (answer ++ 10 ∷ []))
        × AnswersFile zone.old bytes.now answer zone.new) }
{
    set_zone(zone, TimeZone::from_tz_data(alloc, bytes), out)
}

// Takes the zone that was read, if there is one.
fn set_zone(
    zone: &mut Option<TimeZone>,
    outcome: Result<TimeZone, Error>,
    out: &mut String,
) -> Result<(), AllocError>
    ensures { OnOk result ((answer : List ℕ)
        × (string_bytes out.new ≡ string_bytes out.old ++ (answer ++ 10 ∷ []))
        × MatchResult outcome
        (λ found. (answer ≡ shown_zone found) × (zone.new ≡ Some found))
        (λ fault. (answer ≡ shown_refusal (error_number fault)) × (zone.new ≡ zone.old))) }
{
    match outcome {
        Ok(found) => {
            writeln!(out, "{}", Accepted(&found))?;
            *zone = Some(found);
            Ok(())
        }
        Err(fault) => writeln!(out, "refused {}", fault.number()),
    }
}

// Looks up the type in force.
fn tell_type(zone: &Option<TimeZone>, seconds: i64, out: &mut String) -> Result<(), AllocError>
    ensures { OnOk result ((answer : List ℕ)
        × (string_bytes out.new ≡ string_bytes out.old ++ (answer ++ 10 ∷ []))
        × AnswersAt zone.now seconds answer) }
{
    let Some(zone) = zone else {
        return writeln!(out, "no zone");
    };
    match zone.find_local_time_type(seconds) {
        Ok(found) => writeln!(out, "{}", Shown(found)),
        Err(fault) => writeln!(out, "refused {}", fault.number()),
    }
}

// Looks up the types in force when a clock shows that date and time.
fn tell_types(
    zone: &Option<TimeZone>,
    local: NaiveDateTime,
    out: &mut String,
) -> Result<(), AllocError>
    ensures { OnOk result ((answer : List ℕ)
        × (string_bytes out.new ≡ string_bytes out.old ++ (answer ++ 10 ∷ []))
        × AnswersWall zone.now (reading local).s answer) }
{
    let Some(zone) = zone else {
        return writeln!(out, "no zone");
    };
    match zone.find_local_time_type_from_local(local) {
        Ok(found) => writeln!(out, "{}", ShownAll(found)),
        Err(fault) => writeln!(out, "refused {}", fault.number()),
    }
}

// Answers with the instant that a policy takes for a date and time.
fn tell_resolved(
    zone: &Option<TimeZone>,
    local: NaiveDateTime,
    choice: Choice,
    out: &mut String,
) -> Result<(), AllocError>
    ensures { OnOk result ((answer : List ℕ)
        × (string_bytes out.new ≡ string_bytes out.old ++ (answer ++ 10 ∷ []))
        × AnswersResolve zone.now (reading local) choice answer) }
{
    let Some(zone) = zone else {
        return writeln!(out, "no zone");
    };
    let Some(narrow) = TimeZoneRef::new(zone) else {
        return writeln!(out, "wide zone");
    };
    match narrow.resolve(&local, choice) {
        Ok(instant) => write_instant(&instant, out),
        Err(refusal) => writeln!(out, "refused {}", refusal.number()),
    }
}

// Answers with what the zone's clocks show at a timestamp.
fn tell_instant(
    zone: &Option<TimeZone>,
    seconds: i64,
    nanoseconds: u32,
    out: &mut String,
) -> Result<(), AllocError>
    ensures { OnOk result ((answer : List ℕ)
        × (string_bytes out.new ≡ string_bytes out.old ++ (answer ++ 10 ∷ []))
        × AnswersShow zone.now seconds nanoseconds answer) }
{
    let Some(zone) = zone else {
        return writeln!(out, "no zone");
    };
    let Some(zone) = TimeZoneRef::new(zone) else {
        return writeln!(out, "wide zone");
    };
    match zone.timestamp_opt(seconds, nanoseconds) {
        MappedLocalTime::Single(instant) => write_instant(&instant, out),
        _ => writeln!(out, "out of range"),
    }
}

// Writes an instant of any zone as its clocks show it.
fn write_instant<Tz: Zone>(instant: &DateTime<Tz>, out: &mut String) -> Result<(), AllocError>
where
    Tz::Offset: fmt::Display,
    ensures { IfSome (Tz.Offset.output (zoned instant.now).offset) (λ offset.
        OnOk result (string_bytes out.new ≡ string_bytes out.old
        ++ ((reading_text 32 (local_of Tz.Offset.seconds (zoned instant.now))
        ++ codes " " ++ offset) ++ 10 ∷ []))) }
{
    writeln!(out, "{instant}")
}

// A zone that was accepted: `ok TRANSITIONS TYPES LEAPS RULE`.
#[derive(Clone, Copy)]
struct Accepted<'a>(&'a TimeZone);

impl fmt::Display for Accepted<'_> {
    ghost output = { λ accepted. Some (shown_zone accepted.0.now) };

    fn fmt<W: fmt::Write>(&self, f: &mut fmt::Formatter<W>) -> fmt::Result {
        let transitions = self.0.transition_count();
        let types = self.0.type_count();
        let leaps = self.0.leap_count();
        let rule = match self.0.rule() {
            None => "none",
            Some(TransitionRule::Fixed(_)) => "fixed",
            Some(TransitionRule::Alternate(_)) => "alternate",
        };
        write!(f, "ok {transitions} {types} {leaps} {rule}")
    }
}

// A local time type: `OFFSET std NAME` or `OFFSET dst NAME`, with `-` for no name.
#[derive(Clone, Copy)]
struct Shown<'a>(&'a LocalTimeType);

impl fmt::Display for Shown<'_> {
    ghost output = { λ shown. Some (shown_type shown.0.now) };

    fn fmt<W: fmt::Write>(&self, f: &mut fmt::Formatter<W>) -> fmt::Result {
        let offset = self.0.offset();
        let mark = if self.0.is_dst() { " dst " } else { " std " };
        let name = self.0.name().map_or("-", |name| name.as_str());
        write!(f, "{offset}{mark}{name}")
    }
}

// The types of a wall clock: `none`, `single TYPE`, or `ambiguous TYPE, TYPE`.
#[derive(Clone, Copy)]
struct ShownAll(MappedLocalTime<LocalTimeType>);

impl fmt::Display for ShownAll {
    ghost output = { λ shown. Some (shown_wall shown.0) };

    fn fmt<W: fmt::Write>(&self, f: &mut fmt::Formatter<W>) -> fmt::Result {
        match &self.0 {
            MappedLocalTime::None => write!(f, "none"),
            MappedLocalTime::Single(only) => write!(f, "single {}", Shown(only)),
            MappedLocalTime::Ambiguous(first, last) => {
                write!(f, "ambiguous {}, {}", Shown(first), Shown(last))
            }
        }
    }
}
