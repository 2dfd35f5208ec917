//! The chart of a picture: offsets from UTC against time.

ghost use Rattle.std.specs.Prelude.{◌<◌};

use crate::period::{Period, SECONDS_PER_DAY};
use crate::picture::line::{put_line, put_names};
use crate::picture::scale::{BOTTOM, LEFT, RIGHT, Scale, TOP};
use crate::picture::words::{Place, Tick};
use crate::picture::year_at;
use crate::zdump::month_name;
use gregorian::{day_number, year_start};
use std::alloc::AllocError;
use tz_base::{Change, LocalTimeType};

/// Appends the chart of those changes in the period; at first the type `start` is in force.
pub(super) fn put_chart(
    out: &mut String,
    period: Period,
    start: &LocalTimeType,
    changes: &[Change],
) -> Result<(), AllocError> {
    let scale = Scale::of(period, start, changes);
    put_offsets(out, scale)?;
    let first = year_at(scale.from);
    let last = year_at(scale.until.saturating_sub(1));
    if first < last {
        put_years(out, first, last, scale)?;
    } else {
        put_months(out, first, scale)?;
    }
    put_line(out, scale, start, changes)?;
    put_names(out, scale, start, changes)
}

// Offsets on the left side, each with a line across the chart: from the least one to the greatest.
fn put_offsets(out: &mut String, scale: Scale) -> Result<(), AllocError> {
    for place in 0..9 {
        let offset = scale.low.saturating_add(scale.step.saturating_mul(place));
        if offset <= scale.high {
            put_offset(out, scale, offset)?;
        }
    }
    Ok(())
}

fn put_offset(out: &mut String, scale: Scale, offset: i64) -> Result<(), AllocError> {
    let y = scale.down(offset);
    let (left, right, end) = (Place(LEFT), Place(RIGHT), Place(LEFT - 80));
    let (line, text, tick) = (Place(y), Place(y.saturating_add(40)), Tick(offset));
    write!(out, "<path class='grid' d='M{left} {line}H{right}'/>")?;
    write!(
        out,
        "<text class='tick end' x='{end}' y='{text}'>{tick}</text>\n"
    )
}

// Draws the months of one year that begin in the chart, each with a line down the chart at its start.
fn put_months(out: &mut String, year: i32, scale: Scale) -> Result<(), AllocError> {
    for month in 1..=12 {
        let start = day_number(year, month, 1).saturating_mul(SECONDS_PER_DAY);
        if scale.has(start) {
            put_month(out, scale.across(start), month)?;
        }
    }
    Ok(())
}

fn put_month(out: &mut String, x: u64, month: u32) -> Result<(), AllocError> {
    put_tick(out, x, x.saturating_add(330).min(RIGHT))?;
    write!(out, "{}</text>\n", month_name(month))
}

// Draws the years that are multiples of the gap and begin in the chart, each with a line down the chart
// at its start.
fn put_years(out: &mut String, first: i32, last: i32, scale: Scale) -> Result<(), AllocError> {
    let gap = year_gap(last.abs_diff(first));
    for year in first..=last {
        let start = year_start(year).saturating_mul(SECONDS_PER_DAY);
        if year.unsigned_abs() % gap == 0 && scale.has(start) {
            put_year(out, scale.across(start), year)?;
        }
    }
    Ok(())
}

fn put_year(out: &mut String, x: u64, year: i32) -> Result<(), AllocError> {
    put_tick(out, x, x)?;
    write!(out, "{year}</text>\n")
}

// A line down the chart, and the beginning of what is written below it.
fn put_tick(out: &mut String, x: u64, middle: u64) -> Result<(), AllocError> {
    let (x, middle, top, bottom) = (Place(x), Place(middle), Place(TOP), Place(BOTTOM));
    let below = Place(BOTTOM + 180);
    write!(out, "<path class='grid' d='M{x} {top}V{bottom}'/>")?;
    write!(out, "<text class='tick middle' x='{middle}' y='{below}'>")
}

// How far apart the years are that have their number: at most some twelve have it.
fn year_gap(count: u32) -> u32
    ensures { 0 < result }
{
    if count < 12 {
        1
    } else if count < 24 {
        2
    } else if count < 60 {
        5
    } else if count < 120 {
        10
    } else if count < 240 {
        20
    } else if count < 600 {
        50
    } else if count < 1200 {
        100
    } else {
        1000
    }
}
