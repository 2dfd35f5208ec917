//! The line of a change.

ghost use Rattle.std.specs.{Fmt.{signed_decimal}, Prelude.{◌≡◌, ◌-ℤ◌, ◌++◌, ◌∷◌, [], codes, string_bytes, OnOk, Some}};
ghost use Rattle.{
  naive_base.specs.{NaiveDateTime.{reading}, Reading.{ahead}, Stamp.{of_secs}},
  zonedump_lib.specs.{ChangeLines.{change_text}, Periods.{IsNearYears}, Steps.Sides.{side_of, sides_of}},
  zonedump_lib.specs.Words.{step_words},
};

use crate::words::{StepWords, TypeWords};
use naive_base::NaiveDateTime;
use std::alloc::AllocError;
use std::fmt;
use std::fmt::Write;
use tz_base::{Change, LocalTimeType};

// Writes a line for a change: what clocks of UTC, of the type before and of the type after show at
// its second, the gap or the fold, and the second.
pub(crate) fn push_change(out: &mut String, change: &Change) -> Result<(), AllocError>
    requires { IsNearYears change.now.at }
    ensures { OnOk result
        (string_bytes out.new ≡ string_bytes out.old ++ (change_text change.now ++ 10 ∷ [])) }
{
    let utc = utc_at(change.at);
    let before = Side(shown(change.at, &change.before), &change.before);
    let after = Side(shown(change.at, &change.after), &change.after);
    let step = step_of(change);
    let at = change.at;
    let sides = SidesText(utc, before, after);
    writeln!(out, "{}", ChangeText(sides, StepText(step, at)))
}

// A change: its sides, and its step and second.
#[derive(Clone, Copy)]
struct ChangeText<'a>(SidesText<'a>, StepText);

impl fmt::Display for ChangeText<'_> {
    ghost output = { λ text. Some (sides_of text.0 ++ codes "  "
        ++ (step_words text.1.0 ++ codes " at " ++ signed_decimal text.1.1)) };

    fn fmt<W: fmt::Write>(&self, f: &mut fmt::Formatter<W>) -> fmt::Result {
        write!(f, "{}  {}", self.0, self.1)
    }
}

// By how many seconds a change sets the clocks forward, and its second.
#[derive(Clone, Copy)]
struct StepText(i64, i64);

impl fmt::Display for StepText {
    ghost output = { λ text. Some
        (step_words text.0 ++ codes " at " ++ signed_decimal text.1) };

    fn fmt<W: fmt::Write>(&self, f: &mut fmt::Formatter<W>) -> fmt::Result {
        write!(f, "{} at {}", StepWords(self.0), self.1)
    }
}

// What a clock of UTC shows at a change, and its two sides.
#[derive(Clone, Copy)]
struct SidesText<'a>(NaiveDateTime, Side<'a>, Side<'a>);

impl fmt::Display for SidesText<'_> {
    ghost output = { λ text. Some (sides_of text) };

    fn fmt<W: fmt::Write>(&self, f: &mut fmt::Formatter<W>) -> fmt::Result {
        write!(f, "{} UTC  {} -> {}", self.0, self.1, self.2)
    }
}

// What the clocks show, and by which type.
#[derive(Clone, Copy)]
struct Side<'a>(NaiveDateTime, &'a LocalTimeType);

impl fmt::Display for Side<'_> {
    ghost output = { λ side. Some (side_of side) };

    fn fmt<W: fmt::Write>(&self, f: &mut fmt::Formatter<W>) -> fmt::Result {
        write!(f, "{} {}", self.0, TypeWords(self.1))
    }
}

// By how many seconds the clocks are set forward.
fn step_of(change: &Change) -> i64
    ensures { result ≡ change.now.after.offset -ℤ change.now.before.offset }
{
    change.after.offset() as i64 - change.before.offset() as i64
}

// What a clock of UTC shows at the second.
pub(crate) fn utc_at(at: i64) -> NaiveDateTime
    requires { IsNearYears at }
    ensures { reading result ≡ of_secs at 0 }
{
    match NaiveDateTime::from_timestamp_opt(at, 0) {
        Some(shown) => shown,
        None => unreachable!(),
    }
}

// What a clock of that type shows at the second.
pub(crate) fn shown(at: i64, t: &LocalTimeType) -> NaiveDateTime
    requires { IsNearYears at }
    ensures { reading result ≡ ahead (of_secs at 0) t.now.offset }
{
    match NaiveDateTime::from_timestamp_opt(at + t.offset() as i64, 0) {
        Some(shown) => shown,
        None => unreachable!(),
    }
}
