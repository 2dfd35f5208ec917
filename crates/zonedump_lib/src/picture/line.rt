//! The line of a chart: a step at each clock change, or a band if changes are too dense for steps.

use crate::picture::scale::{LEFT, RIGHT, Scale};
use crate::picture::words::{Place, name_of};
use std::alloc::AllocError;
use tz_base::{Change, LocalTimeType};

// Three changes that lie closer together than this are drawn as a band, in tenths of a pixel.
const CYCLE: u64 = 60;

// A part of the chart in which changes are dense: from place to place, and between which offsets.
#[derive(Clone, Copy)]
struct Band {
    left: u64,
    right: u64,
    low: i32,
    high: i32,
}

/// Appends the line, which begins at the offset of `start`. It is dashed while the type has the
/// abbreviation `-00`, which the tz database gives to local time that is not known.
pub(super) fn put_line(
    out: &mut String,
    scale: Scale,
    start: &LocalTimeType,
    changes: &[Change],
) -> Result<(), AllocError> {
    write!(out, "<path class='line' d='")?;
    put_stretches(out, scale, start, changes, false)?;
    write!(out, "'/>\n<path class='unknown' d='")?;
    put_stretches(out, scale, start, changes, true)?;
    write!(out, "'/>\n")?;
    put_bands(out, scale, changes)
}

// The parts of the line that are known, with the steps, or those that aren't.
fn put_stretches(
    out: &mut String,
    scale: Scale,
    start: &LocalTimeType,
    changes: &[Change],
    unknown: bool,
) -> Result<(), AllocError> {
    let mut left = LEFT;
    let mut shown = *start;
    for (place, change) in changes.iter().enumerate() {
        let right = scale.across(change.at);
        let dense = is_dense(scale, changes, place);
        if !dense && is_unknown(&shown) == unknown {
            put_stretch(out, left, right, scale.down_to(&shown))?;
        }
        if !unknown && !(dense && is_dense(scale, changes, place.saturating_add(1))) {
            put_vertical(
                out,
                right,
                scale.down_to(&change.before),
                scale.down_to(&change.after),
            )?;
        }
        left = right;
        shown = change.after;
    }
    if is_unknown(&shown) == unknown {
        put_stretch(out, left, RIGHT, scale.down_to(&shown))?;
    }
    Ok(())
}

fn put_stretch(out: &mut String, left: u64, right: u64, down: u64) -> Result<(), AllocError> {
    let (left, right, down) = (Place(left), Place(right), Place(down));
    write!(out, "M{left} {down}H{right}")
}

fn put_vertical(out: &mut String, across: u64, before: u64, after: u64) -> Result<(), AllocError> {
    if before == after {
        return Ok(());
    }
    let (across, before, after) = (Place(across), Place(before), Place(after));
    write!(out, "M{across} {before}V{after}")
}

// Whether the type is one of local time that is not known.
fn is_unknown(shown: &LocalTimeType) -> bool {
    name_of(shown) == "-00"
}

// The position of a change. `None` if there are fewer.
fn across_at(scale: Scale, changes: &[Change], place: usize) -> Option<u64> {
    changes.get(place).map(|change| scale.across(change.at))
}

// Whether the change at that place and the two after it are dense.
fn is_cycle(scale: Scale, changes: &[Change], place: usize) -> bool {
    match (
        across_at(scale, changes, place),
        across_at(scale, changes, place.saturating_add(2)),
    ) {
        (Some(first), Some(last)) => last < first.saturating_add(CYCLE),
        _ => false,
    }
}

// Whether the stretch up to the change at that place lies in a band.
fn is_dense(scale: Scale, changes: &[Change], place: usize) -> bool {
    (0 < place && is_cycle(scale, changes, place - 1))
        || (1 < place && is_cycle(scale, changes, place - 2))
}

// Bands between the offsets of each dense stretch and of its neighbour in the cycle.
fn put_bands(out: &mut String, scale: Scale, changes: &[Change]) -> Result<(), AllocError> {
    let mut open: Option<Band> = None;
    for (place, change) in changes.iter().enumerate() {
        let next = band_at(scale, changes, place, change);
        open = match (open, next) {
            (Some(band), Some(more)) if band.low == more.low && band.high == more.high => {
                Some(Band {
                    right: more.right,
                    ..band
                })
            }
            (Some(band), _) => {
                put_band(out, scale, band)?;
                next
            }
            _ => next,
        };
    }
    match open {
        Some(band) => put_band(out, scale, band),
        None => Ok(()),
    }
}

// The band of the stretch up to that change, if it is dense.
fn band_at(scale: Scale, changes: &[Change], place: usize, change: &Change) -> Option<Band> {
    if !is_dense(scale, changes, place) {
        return None;
    }
    let begun = changes.get(place.saturating_sub(1))?;
    let is_first = is_cycle(scale, changes, place.saturating_sub(1));
    let shown = change.before.offset();
    let other = if is_first {
        change.after.offset()
    } else {
        begun.before.offset()
    };
    Some(Band {
        left: scale.across(begun.at),
        right: scale.across(change.at),
        low: shown.min(other),
        high: shown.max(other),
    })
}

fn put_band(out: &mut String, scale: Scale, band: Band) -> Result<(), AllocError> {
    let (top, bottom) = (scale.down(band.high as i64), scale.down(band.low as i64));
    let (x, y) = (Place(band.left), Place(top.saturating_sub(10)));
    let width = Place(band.right.saturating_sub(band.left));
    let height = Place(bottom.saturating_sub(top).saturating_add(20));
    write!(
        out,
        "<rect class='dense' x='{x}' y='{y}' width='{width}' height='{height}'/>\n"
    )
}

/// Appends the name of each type over its part of the line, if that is wide enough.
pub(super) fn put_names(
    out: &mut String,
    scale: Scale,
    start: &LocalTimeType,
    changes: &[Change],
) -> Result<(), AllocError> {
    let mut left = LEFT;
    let mut shown = *start;
    for change in changes {
        let right = scale.across(change.at);
        put_name_between(out, scale, left, right, &shown)?;
        left = right;
        shown = change.after;
    }
    put_name_between(out, scale, left, RIGHT, &shown)
}

fn put_name_between(
    out: &mut String,
    scale: Scale,
    left: u64,
    right: u64,
    shown: &LocalTimeType,
) -> Result<(), AllocError> {
    let width = (name_of(shown).len() as u64)
        .saturating_mul(95)
        .saturating_add(80);
    if right < left.saturating_add(width) {
        return Ok(());
    }
    let (x, y) = (
        Place(left.saturating_add(50)),
        Place(scale.down_to(shown).saturating_sub(60)),
    );
    let name = name_of(shown);
    write!(out, "<text class='name' x='{x}' y='{y}'>{name}</text>\n")
}
