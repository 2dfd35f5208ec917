//! What the clocks of a zone show at a time, in words.

use naive_base::NaiveDateTime;
use offset_core::Around;
use std::alloc::AllocError;
use std::fmt;
use std::fmt::Write;
use tz_info::{Change, LocalTimeType, TimeZone};
use zonedump_lib::{Clock, TypeWords};

/// The time of a question.
#[derive(Clone, Copy)]
pub enum When {
    /// A second of Unix time.
    Instant(i64),
    /// A local time of the zone.
    Local(NaiveDateTime),
}

/// Appends what the zone's clocks show at that time.
///
/// # Errors
///
/// There is no memory for it.
pub fn push_answer(out: &mut String, zone: &TimeZone, when: When) -> Result<(), AllocError> {
    match when {
        When::Instant(second) => push_instant(out, zone, second),
        When::Local(local) => push_local(out, zone, local),
    }
}

// The local time at an instant, its type, and until when that is in force.
fn push_instant(out: &mut String, zone: &TimeZone, second: i64) -> Result<(), AllocError> {
    match zone.span_at(second) {
        Ok(span) => {
            let shown = Shown(second as i128, &span.local_time_type);
            write!(out, "{shown}, {}", Until(span.until))
        }
        Err(_) => write!(out, "no local time is known then"),
    }
}

fn push_local(out: &mut String, zone: &TimeZone, local: NaiveDateTime) -> Result<(), AllocError> {
    match zone.find_local_time_type_around(local) {
        Around::Single(only) => {
            let second = instant_of(local, &only);
            let until = i64::try_from(second)
                .ok()
                .and_then(|second| until_of(zone, second));
            write!(
                out,
                "{} UTC, {}, {}",
                Clock(second),
                TypeWords(&only),
                Until(until)
            )
        }
        Around::Ambiguous(first, last) => push_fold(out, zone, local, &first, &last),
        Around::Gap(change) => write!(out, "never shown: clocks went {}", Step(&change)),
    }
}

fn until_of(zone: &TimeZone, second: i64) -> Option<i64> {
    match zone.span_at(second) {
        Ok(span) => span.until,
        Err(_) => None,
    }
}

fn push_fold(
    out: &mut String,
    zone: &TimeZone,
    local: NaiveDateTime,
    first: &LocalTimeType,
    last: &LocalTimeType,
) -> Result<(), AllocError> {
    let second = instant_of(local, last);
    write!(
        out,
        "shown more than once: first at {} UTC, {}, and last at {} UTC, {}",
        Clock(instant_of(local, first)),
        TypeWords(first),
        Clock(second),
        TypeWords(last)
    )?;
    let Ok(second) = i64::try_from(second) else {
        return Ok(());
    };
    match zone.previous_change(second) {
        Some(change) => write!(out, "; clocks went {}", Step(&change)),
        None => Ok(()),
    }
}

/// The second of Unix time at which a clock of that type shows the local time.
pub fn instant_of(local: NaiveDateTime, shown: &LocalTimeType) -> i128 {
    local.secs_since_epoch() as i128 - shown.offset() as i128
}

// What a clock of a type shows at a second.
#[derive(Clone, Copy)]
struct Shown<'a>(i128, &'a LocalTimeType);

impl fmt::Display for Shown<'_> {
    fn fmt<W: fmt::Write>(&self, f: &mut fmt::Formatter<W>) -> fmt::Result {
        let clock = Clock(clock_of(self.0, self.1));
        write!(f, "{clock} {}", TypeWords(self.1))
    }
}

// The second of UTC that has the local time of a clock of that type.
fn clock_of(second: i128, shown: &LocalTimeType) -> i128 {
    second.saturating_add(shown.offset() as i128)
}

// Until when a type is in force.
#[derive(Clone, Copy)]
struct Until(Option<i64>);

impl fmt::Display for Until {
    fn fmt<W: fmt::Write>(&self, f: &mut fmt::Formatter<W>) -> fmt::Result {
        match self.0 {
            Some(second) => write!(f, "until {} UTC", Clock(second as i128)),
            None => f.write_str("with no later change"),
        }
    }
}

// From which local time to which one clocks are set at a change.
#[derive(Clone, Copy)]
struct Step<'a>(&'a Change);

impl fmt::Display for Step<'_> {
    fn fmt<W: fmt::Write>(&self, f: &mut fmt::Formatter<W>) -> fmt::Result {
        let at = self.0.at as i128;
        let before = Clock(clock_of(at, &self.0.before));
        let after = Clock(clock_of(at, &self.0.after));
        write!(f, "from {before} to {after}, at {} UTC", Clock(at))
    }
}
