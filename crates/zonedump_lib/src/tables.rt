//! A zone as a table, whose lines are written as they are made.

ghost use Rattle.std.specs.Fmt.{signed_decimal};
ghost use Rattle.std.specs.Prelude.{◌≡◌, ◌-◌, ◌++◌, ◌∷◌, [], codes, length, string_bytes, All, IfOk, OnOk, Some};
ghost use Rattle.{
  tz_info.specs.{Changes.{AreChanges}, ChangesLeft.{changes_left}, Zones.{TypeAt}},
  zonedump_lib.specs.{ChangeLines.{change_lines}, Periods.{first_second, second_after}, Periods.{IsNearYears}},
  zonedump_lib.specs.Tables.{counts_text, head_text, leap_lines, leap_text, period_text, BeginsTable},
};

use crate::change_lines::push_change;
use crate::period::Period;
use crate::rule_words::RuleWords;
use std::alloc::{AllocError, Global};
use std::fmt;
use std::fmt::Write;
use tz_info::laws::changes::one_change_law;
use tz_info::{Changes, LeapSecond, TimeZone};

/// The changes of a table whose lines are still to be written.
#[derive(Drop)]
pub struct LinesLeft<'a> {
    left: Changes<'a>,
    pub ghost near: { All (λ c. IsNearYears c.at) (changes_left left) },
}

/// Returns the head of a zone's table: the counts of its lists, its rule, its leap seconds, and how
/// many changes its clocks have in the period. [`LinesLeft::push_lines`] writes the lines that follow.
///
/// # Errors
///
/// There is no memory for the head.
pub fn begin_table<'a>(
    alloc: Global,
    zone: &'a TimeZone,
    period: Period,
) -> Result<(String, LinesLeft<'a>), AllocError>
    ensures { IfOk result (λ r. BeginsTable zone.now period.first period.last
        (string_bytes r.0) (changes_left r.1.left)) }
{
    one_change_law();
    let counted = changes_of(zone, period);
    let count = count_of(counted)?;
    let left = changes_of(zone, period);
    let mut text = String::new(alloc);
    push_head(&mut text, zone, period, count)?;
    Ok((text, LinesLeft { left }))
}

// The changes of the period.
fn changes_of(zone: &TimeZone, period: Period) -> Changes<'_>
    ensures { AreChanges (TypeAt zone.now) (first_second period.first) (second_after period.last)
        (changes_left result) }
{
    zone.changes(period.from(), period.until())
}

// How many changes are left.
fn count_of(mut left: Changes<'_>) -> Result<usize, AllocError>
    ensures { IfOk result (λ n. n ≡ length (changes_left left.entry)) }
{
    for count in 0..usize::MAX {
        if left.next().is_none() {
            return Ok(count);
        }
    }
    Err(AllocError)
}

impl<'a> LinesLeft<'a> {
    /// Appends the lines of the next changes, a thousand or all that are left, and returns what is left
    /// then.
    ///
    /// # Errors
    ///
    /// There is no memory for them.
    pub fn push_lines(self, out: &mut String) -> Result<LinesLeft<'a>, AllocError>
        ensures lines { IfOk result (λ r. string_bytes out.new ++ change_lines (changes_left r.left)
            ≡ string_bytes out.old ++ change_lines (changes_left self.entry.left)) }
        ensures count { IfOk result (λ r. length (changes_left r.left)
            ≡ length (changes_left self.entry.left) - 1000) }
    {
        let mut left = self.left;
        push_some(&mut left, out)?;
        Ok(LinesLeft { left })
    }
}

// Appends the lines of the next changes, a thousand or all that are left.
fn push_some(left: &mut Changes<'_>, out: &mut String) -> Result<(), AllocError>
    requires { All (λ c. IsNearYears c.at) (changes_left left.old) }
    ensures near { OnOk result (All (λ c. IsNearYears c.at) (changes_left left.new)) }
    ensures lines { OnOk result (string_bytes out.new ++ change_lines (changes_left left.new)
        ≡ string_bytes out.old ++ change_lines (changes_left left.old)) }
    ensures count { OnOk result
        (length (changes_left left.new) ≡ length (changes_left left.old) - 1000) }
{
    for _turn in 0..1000_usize {
        match left.next() {
            Some(change) => push_change(out, &change)?,
            None => return Ok(()),
        }
    }
    Ok(())
}

fn push_head(
    out: &mut String,
    zone: &TimeZone,
    period: Period,
    count: usize,
) -> Result<(), AllocError>
    ensures { OnOk result (string_bytes out.new ≡ string_bytes out.old
        ++ head_text zone.now period.first period.last count) }
{
    writeln!(out, "{}", CountsText(zone))?;
    writeln!(out, "rule: {}", RuleWords(zone.rule()))?;
    push_leap_seconds(out, zone.leap_seconds())?;
    writeln!(out, "{}", PeriodText(period, count))
}

fn push_leap_seconds(out: &mut String, leaps: &[LeapSecond]) -> Result<(), AllocError>
    ensures { OnOk result (string_bytes out.new ≡ string_bytes out.old ++ leap_lines leaps.now) }
{
    for leap in leaps {
        push_leap_second(out, leap)?;
    }
    Ok(())
}

fn push_leap_second(out: &mut String, leap: &LeapSecond) -> Result<(), AllocError>
    ensures { OnOk result
        (string_bytes out.new ≡ string_bytes out.old ++ (leap_text leap.now ++ 10 ∷ [])) }
{
    writeln!(out, "{}", LeapText(leap.correction, leap.unix_leap_time))
}

// The counts of the zone's lists.
#[derive(Clone, Copy)]
struct CountsText<'a>(&'a TimeZone);

impl fmt::Display for CountsText<'_> {
    ghost output = { λ text. Some (counts_text text.0.now) };

    fn fmt<W: fmt::Write>(&self, f: &mut fmt::Formatter<W>) -> fmt::Result {
        let transitions = self.0.transition_count();
        let types = self.0.type_count();
        let leaps = self.0.leap_count();
        write!(
            f,
            "{transitions} transitions, {types} types, {leaps} leap seconds"
        )
    }
}

// A leap second, as its correction and its leap time.
#[derive(Clone, Copy)]
struct LeapText(i32, i64);

impl fmt::Display for LeapText {
    ghost output = { λ text. Some (codes "leap second: correction " ++ signed_decimal text.0
        ++ codes " from leap time " ++ signed_decimal text.1) };

    fn fmt<W: fmt::Write>(&self, f: &mut fmt::Formatter<W>) -> fmt::Result {
        write!(
            f,
            "leap second: correction {} from leap time {}",
            self.0, self.1
        )
    }
}

// The period, and how many changes come in it.
#[derive(Clone, Copy)]
struct PeriodText(Period, usize);

impl fmt::Display for PeriodText {
    ghost output = { λ text. Some (period_text text.0.first text.0.last text.1) };

    fn fmt<W: fmt::Write>(&self, f: &mut fmt::Formatter<W>) -> fmt::Result {
        let first = self.0.first;
        let last = self.0.last;
        let count = self.1;
        write!(f, "changes from {first} to {last}: {count}")
    }
}
