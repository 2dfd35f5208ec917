//! The lines that `zdump -v` prints of a zone.

ghost use Rattle.std.specs.{List.{flat_map}, Prelude.{◌≡◌, ◌-ℤ◌, ◌++◌, [], codes, pos, string_bytes, All, IfOk, OnOk, Some}};
ghost use Rattle.{
  naive_base.specs.{NaiveDateTime.{reading}, Reading.{day_at}},
  zonedump_lib.specs.{ChangeLines.{ended_line}, Steps.Seconds.{clocks_of}, ZdumpLines.{IsZdump}},
  zonedump_lib.specs.Periods.{IsInYears, IsNearYears},
  zonedump_lib.specs.ZdumpLines.{zdump_day_text, zdump_text, asctime_text, first_lines, last_lines, null_line},
  zonedump_lib.specs.ZdumpLines.{pair_lines, second_text, short_day, short_month, short_weekday, type_fields},
};

use crate::change_lines::{shown, utc_at};
use crate::changes::changes_after;
use crate::period::Period;
use naive_base::{Datelike, NaiveDateTime};
use std::alloc::{AllocError, Global};
use std::fmt;
use std::fmt::Write;
use tz_info::{Change, LocalTimeType, TimeZone};

/// The zone as `zdump -v -c LO,HI` prints it under that name, where LO is the first year and HI the
/// year after the last one: a pair of lines for each change of its clocks, the second before it and
/// its own. Of days LO is the first second, and HI the one after the last.
///
/// # Errors
///
/// There is no memory for it.
pub fn zdump_lines(
    alloc: Global,
    name: &str,
    zone: &TimeZone,
    period: Period,
) -> Result<String, AllocError>
    ensures { IfOk result (λ text.
        IsZdump name.now zone.now period.first period.last (string_bytes text)) }
{
    let changes = changes_after(alloc, zone, period)?;
    let listed = changes.as_slice();
    let mut text = String::new(alloc);
    push_zdump(&mut text, name, listed)?;
    Ok(text)
}

// Writes those changes as `zdump -v` prints them of a file of that name: a pair of lines for each,
// the second before it and its own, between two lines at either end of what 64 bits hold.
fn push_zdump(out: &mut String, name: &str, changes: &[Change]) -> Result<(), AllocError>
    requires { All (λ c. IsInYears c.at) changes.now }
    ensures { OnOk result
        (string_bytes out.new ≡ string_bytes out.old ++ zdump_text name.now changes.now) }
{
    push_first(out, name)?;
    push_pairs(out, name, changes)?;
    push_last(out, name)
}

fn push_first(out: &mut String, name: &str) -> Result<(), AllocError>
    ensures { OnOk result (string_bytes out.new ≡ string_bytes out.old ++ first_lines name.now) }
{
    push_null(out, name, "-9223372036854775808")?;
    push_null(out, name, "-9223372036854689408")
}

fn push_last(out: &mut String, name: &str) -> Result<(), AllocError>
    ensures { OnOk result (string_bytes out.new ≡ string_bytes out.old ++ last_lines name.now) }
{
    push_null(out, name, "9223372036854689407")?;
    push_null(out, name, "9223372036854775807")
}

fn push_null(out: &mut String, name: &str, second: &str) -> Result<(), AllocError>
    ensures { OnOk result (string_bytes out.new
        ≡ string_bytes out.old ++ null_line name.now second.now) }
{
    writeln!(out, "{name}  {second} = NULL")
}

fn push_pairs(out: &mut String, name: &str, changes: &[Change]) -> Result<(), AllocError>
    requires { All (λ c. IsInYears c.at) changes.now }
    ensures { OnOk result (string_bytes out.new
        ≡ string_bytes out.old ++ flat_map (pair_lines name.now) changes.now) }
{
    for change in changes {
        push_pair(out, name, change)?;
    }
    Ok(())
}

fn push_pair(out: &mut String, name: &str, change: &Change) -> Result<(), AllocError>
    requires { IsInYears change.now.at }
    ensures { OnOk result (string_bytes out.new
        ≡ string_bytes out.old ++ pair_lines name.now change.now) }
{
    push_second(out, name, second_before(change.at), &change.before)?;
    push_second(out, name, change.at, &change.after)
}

fn second_before(at: i64) -> i64
    requires { IsInYears at }
    ensures value { result ≡ at -ℤ pos 1 }
    ensures near { IsNearYears result }
{
    at - 1
}

fn push_second(out: &mut String, name: &str, at: i64, t: &LocalTimeType) -> Result<(), AllocError>
    requires { IsNearYears at }
    ensures { OnOk result (string_bytes out.new
        ≡ string_bytes out.old ++ ended_line (second_text name.now at t.now)) }
{
    let clocks = ClocksText(utc_at(at), shown(at, t));
    writeln!(out, "{}", SecondText(name, clocks, TypeFields(t)))
}

// A second at which a type is in force, after a name.
#[derive(Clone, Copy)]
struct SecondText<'a>(&'a str, ClocksText, TypeFields<'a>);

impl fmt::Display for SecondText<'_> {
    ghost output = { λ text. Some (text.0.now ++ codes "  " ++ clocks_of text.1 ++ codes " "
        ++ type_fields text.2.0.now) };

    fn fmt<W: fmt::Write>(&self, f: &mut fmt::Formatter<W>) -> fmt::Result {
        write!(f, "{}  {} {}", self.0, self.1, self.2)
    }
}

// What a clock of UTC and a local one show.
#[derive(Clone, Copy)]
struct ClocksText(NaiveDateTime, NaiveDateTime);

impl fmt::Display for ClocksText {
    ghost output = { λ text. Some (clocks_of text) };

    fn fmt<W: fmt::Write>(&self, f: &mut fmt::Formatter<W>) -> fmt::Result {
        write!(f, "{} UT = {}", Asctime(self.0), Asctime(self.1))
    }
}

// A local date-time, as asctime of the C library has it.
#[derive(Clone, Copy)]
struct Asctime(NaiveDateTime);

impl fmt::Display for Asctime {
    ghost output = { λ text. Some (asctime_text (reading text.0)) };

    fn fmt<W: fmt::Write>(&self, f: &mut fmt::Formatter<W>) -> fmt::Result {
        let day = DayText(self.0);
        let time = self.0.time();
        let year = self.0.year();
        write!(f, "{day} {time} {year}")
    }
}

// The date of a local date-time, but its year.
#[derive(Clone, Copy)]
struct DayText(NaiveDateTime);

impl fmt::Display for DayText {
    ghost output = { λ text. Some (zdump_day_text (day_at (reading text.0))) };

    fn fmt<W: fmt::Write>(&self, f: &mut fmt::Formatter<W>) -> fmt::Result {
        let weekday = weekday_name(self.0.weekday().num_days_from_sunday());
        let month = month_name(self.0.month());
        let day = ShortDay(self.0.day());
        write!(f, "{weekday} {month} {day}")
    }
}

// A day of the month in two places.
#[derive(Clone, Copy)]
struct ShortDay(u32);

impl fmt::Display for ShortDay {
    ghost output = { λ text. Some (short_day text.0) };

    #[tactic(auto, unfolding(crate::specs::ZdumpLines::short_day))]
    fn fmt<W: fmt::Write>(&self, f: &mut fmt::Formatter<W>) -> fmt::Result {
        if self.0 < 10 {
            return write!(f, " {}", self.0);
        }
        write!(f, "{}", self.0)
    }
}

// A type of local time by its fields.
#[derive(Clone, Copy)]
struct TypeFields<'a>(&'a LocalTimeType);

impl fmt::Display for TypeFields<'_> {
    ghost output = { λ text. Some (type_fields text.0.now) };

    fn fmt<W: fmt::Write>(&self, f: &mut fmt::Formatter<W>) -> fmt::Result {
        let name = self.0.name().map_or("-", |name| name.as_str());
        let flag = if self.0.is_dst() { "1" } else { "0" };
        let offset = self.0.offset();
        write!(f, "{name} isdst={flag} gmtoff={offset}")
    }
}

#[tactic(auto, unfolding(crate::specs::ZdumpLines::short_weekday))]
fn weekday_name(weekday: u32) -> &'static str
    ensures { result.now ≡ short_weekday weekday }
{
    match weekday {
        0 => "Sun",
        1 => "Mon",
        2 => "Tue",
        3 => "Wed",
        4 => "Thu",
        5 => "Fri",
        _ => "Sat",
    }
}

#[tactic(auto, unfolding(crate::specs::ZdumpLines::short_month))]
pub(crate) fn month_name(month: u32) -> &'static str
    ensures { result.now ≡ short_month month }
{
    match month {
        1 => "Jan",
        2 => "Feb",
        3 => "Mar",
        4 => "Apr",
        5 => "May",
        6 => "Jun",
        7 => "Jul",
        8 => "Aug",
        9 => "Sep",
        10 => "Oct",
        11 => "Nov",
        _ => "Dec",
    }
}
