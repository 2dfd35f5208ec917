//! A picture of what the clocks of a zone do, as SVG. Tests hold it: no contract says what is drawn.

mod chart;
mod frame;
mod line;
mod panels;
mod scale;
mod thinned;
mod words;

use crate::period::{Bound, Period, SECONDS_PER_DAY};
use chart::put_chart;
pub use frame::Colors;
use frame::{put_heading, put_opening, put_title};
use gregorian::{is_day, year_of, year_start};
use panels::put_panels;
use std::alloc::{AllocError, Global};
use thinned::thinned;
use tz_info::{Change, LocalTimeType, TimeZone};

/// Returns a picture of the zone's clocks in the period, as SVG: a chart of the offset from UTC, with
/// a step at each change, and a panel for each change, or if there are more than `most`, for the last
/// ones of the last year that has one, with what wall clocks skip or repeat.
///
/// Each part of the chart's line that is wide enough has its abbreviation. However many changes there
/// are, the picture has at most some megabytes, and drawing it takes about as much memory.
///
/// # Errors
///
/// There is no memory for it.
pub fn draw(
    alloc: Global,
    title: &str,
    zone: &TimeZone,
    period: Period,
    most: usize,
    colors: Colors,
) -> Result<String, AllocError> {
    let changes = thinned(alloc, zone, period)?;
    let panels = with_panels(alloc, zone, period, most)?;
    let start = type_at(zone, period.from());
    let mut out = String::new(alloc);
    put_picture(&mut out, title, period, start, &changes, &panels, colors)?;
    Ok(out)
}

/// Appends a picture of the period under that title: a chart, whose line begins at the offset of
/// `start` and has those changes, and the panels. Both lists are in order of time.
///
/// # Errors
///
/// There is no memory for it.
pub fn put_picture(
    out: &mut String,
    title: &str,
    period: Period,
    start: LocalTimeType,
    changes: &[Change],
    panels: &[Change],
    colors: Colors,
) -> Result<(), AllocError> {
    put_opening(out, title, period, panels, colors)?;
    put_title(out, title, period)?;
    put_chart(out, period, &start, changes)?;
    put_heading(out, years_of(panels).unwrap_or(period), panels.len())?;
    put_panels(out, panels)?;
    write!(out, "</svg>\n")
}

// The type in force at the second, or UTC if the zone has none.
fn type_at(zone: &TimeZone, second: i64) -> LocalTimeType {
    match zone.find_local_time_type(second) {
        Ok(found) => *found,
        Err(_) => LocalTimeType::utc(),
    }
}

// The changes that have a panel, in order: all, or if there are more than `most`, the last ones of the
// last year that has one.
fn with_panels(
    alloc: Global,
    zone: &TimeZone,
    period: Period,
    most: usize,
) -> Result<Vec<Change>, AllocError> {
    let (from, until) = (period.from(), period.until());
    let all = last_changes(alloc, zone, from, until, most.saturating_add(1))?;
    match all.last() {
        Some(last) if all.len() > most => {
            let first = year_start(year_at(last.at)).saturating_mul(SECONDS_PER_DAY);
            last_changes(alloc, zone, first.max(from), until, most)
        }
        _ => Ok(all),
    }
}

// The last changes from one second until another, in order: no more than `most`.
fn last_changes(
    alloc: Global,
    zone: &TimeZone,
    from: i64,
    until: i64,
    most: usize,
) -> Result<Vec<Change>, AllocError> {
    let mut left = zone.changes(from, until);
    let mut found = Vec::new(alloc);
    for _ in 0..most {
        match left.next_back() {
            Some(change) => found.push(change)?,
            None => break,
        }
    }
    found.reverse();
    Ok(found)
}

// The years that changes come in.
fn years_of(changes: &[Change]) -> Option<Period> {
    let first = u16::try_from(year_at(changes.first()?.at)).ok()?;
    let last = u16::try_from(year_at(changes.last()?.at)).ok()?;
    Period::new(Bound::Year(first), Bound::Year(last))
}

// The year of a second, by UTC.
fn year_at(at: i64) -> i32 {
    let day = at.div_euclid(SECONDS_PER_DAY);
    if is_day(day) { year_of(day) } else { 0 }
}
