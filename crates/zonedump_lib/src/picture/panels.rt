//! The panels of a picture: what wall clocks show at each change of a year.

use crate::clocks::Clock;
use crate::picture::words::{Step, name_of};
use crate::words::TypeWords;
use std::alloc::AllocError;
use tz_base::{Change, LocalTimeType};

// Wall clocks against UTC in a gap, in a fold, and without a step.
const GAP: &str = "\
    <rect class='band' x='1' y='125' width='418' height='50'/><path class='grid' d='M210 226V180'/>\
    <path class='jump' d='M210 175V125'/><path class='hand' d='M106 240L210 175M210 125L314 60'/>\
    <circle class='open' cx='210' cy='175' r='4'/><circle class='dot' cx='210' cy='125' r='4'/>\
    <text class='note' x='16' y='155'>never shown</text>\n";

const FOLD: &str = "\
    <rect class='band' x='1' y='125' width='418' height='50'/><path class='grid' d='M210 226V180'/>\
    <path class='jump' d='M210 125V175'/><path class='hand' d='M90 200L210 125M210 175L330 100'/>\
    <circle class='open' cx='210' cy='125' r='4'/><circle class='dot' cx='210' cy='175' r='4'/>\
    <text class='note' x='16' y='155'>shown twice</text>\n";

const EVEN: &str = "\
    <path class='grid' d='M210 226V155'/><path class='hand' d='M90 225L330 75'/>\
    <circle class='dot' cx='210' cy='150' r='4'/>\n";

/// Appends a panel for each change, two in a row.
pub(super) fn put_panels(out: &mut String, changes: &[Change]) -> Result<(), AllocError> {
    for (place, change) in changes.iter().enumerate() {
        put_panel(out, place, change)?;
    }
    Ok(())
}

fn put_panel(out: &mut String, place: usize, change: &Change) -> Result<(), AllocError> {
    let before = change.before.offset();
    let after = change.after.offset();
    let (kind, shape) = if before < after {
        ("gap", GAP)
    } else if after < before {
        ("fold", FOLD)
    } else {
        ("even", EVEN)
    };
    put_head(out, place, change, kind)?;
    write!(out, "{shape}")?;
    put_answer(out, change)?;
    // The later one of the two wall clocks lies above the band.
    if after < before {
        put_side(out, 16, 116, change, &change.before)?;
        put_side(out, 222, 194, change, &change.after)?;
    } else {
        put_side(out, 16, 116, change, &change.after)?;
        put_side(out, 222, 194, change, &change.before)?;
    }
    write!(out, "</g>\n")
}

// The panel's frame, what happens, the types before and after, and the second, as UTC shows it.
fn put_head(out: &mut String, place: usize, change: &Change, kind: &str) -> Result<(), AllocError> {
    let x = 20 + place % 2 * 440;
    let y = 298 + place as u128 / 2 * 270;
    let step = Step(change);
    let before = TypeWords(&change.before);
    let after = TypeWords(&change.after);
    let utc = Clock(change.at as i128);
    write!(
        out,
        "<g class='{kind}' transform='translate({x} {y})'><rect class='frame' width='420' height='250' rx='6'/>\n"
    )?;
    write!(out, "<text class='what' x='16' y='28'>{step}</text>\n")?;
    write!(
        out,
        "<text class='note' x='16' y='48'>{before} to {after}</text>\n"
    )?;
    write!(
        out,
        "<text class='note middle' x='210' y='241'>{utc} UTC</text>\n"
    )
}

// The answer of a zone for the local times of the band.
fn put_answer(out: &mut String, change: &Change) -> Result<(), AllocError> {
    let before = change.before.offset();
    let after = change.after.offset();
    if before == after {
        return Ok(());
    }
    write!(out, "<text class='answer' x='404' y='155'>")?;
    if before < after {
        write!(out, "None")?;
    } else {
        let (first, last) = (name_of(&change.before), name_of(&change.after));
        write!(out, "Ambiguous({first}, {last})")?;
    }
    write!(out, "</text>\n")
}

// What a clock of that type shows at the second.
fn put_side(
    out: &mut String,
    x: u32,
    y: u32,
    change: &Change,
    shown: &LocalTimeType,
) -> Result<(), AllocError> {
    let clock = Clock(change.at as i128 + shown.offset() as i128);
    let name = name_of(shown);
    write!(
        out,
        "<text class='clock' x='{x}' y='{y}'>{clock} {name}</text>\n"
    )
}
