//! A zone and the changes of its clocks as JSON.
#![tactic(auto, using(crate::proofs::JsonPutting::wrote, crate::proofs::JsonPutting::puts_then))]

ghost use Rattle.std.specs.{Fmt.{signed_decimal}, Prelude.{◌≡◌, ◌∷◌, [], codes, decimal, flat_map, length, IfOk}};
ghost use Rattle.{
  json.specs.{Json.{document}, Print.{print}, Token.{begin_object, end_object, key, number, string}},
  json.specs.Tree.{json_tokens},
  naive_base.specs.NaiveDate.{printed_date},
  zonedump_lib.specs.{ChangeValues.{list_value}, JsonSteps.{Puts}, Periods.{bound_value}},
  zonedump_lib.specs.JsonValues.{day_value, leap_value, moment_value, rule_value, zone_value, IsJson},
};

use crate::change_json::{put_changes, put_count, put_number, put_string, put_type};
use crate::changes::changes_in;
use crate::period::{Bound, Period};
use json::Writer;
use naive_base::NaiveDate;
use std::alloc::{AllocError, Global};
use tz_info::{
    AlternateTime, Change, DayForm, LeapSecond, LocalTimeType, RuleDay, TimeZone, TransitionRule,
};

/// The zone under that name, and the changes of its clocks in the period, as a JSON object on one
/// line: `zone`, `from`, `to`, how many `transitions` and `types` there are, `rule`,
/// `leap_seconds` and `changes`.
///
/// # Errors
///
/// There is no memory for it.
pub fn to_json(
    alloc: Global,
    name: &str,
    zone: &TimeZone,
    period: Period,
) -> Result<Vec<u8>, AllocError>
    ensures { IfOk result (λ text. IsJson zone.now name.now period.first period.last text.items) }
{
    let changes = changes_in(alloc, zone, period)?;
    write_text(alloc, name, zone, period, &changes)
}

// The text of the zone's value.
fn write_text(
    alloc: Global,
    name: &str,
    zone: &TimeZone,
    period: Period,
    changes: &[Change],
) -> Result<Vec<u8>, AllocError>
    ensures value { IfOk result (λ text. document text.items
        ≡ Some (zone_value name.now period.first period.last zone.now changes.now)) }
    ensures printed { IfOk result (λ text. text.items ≡ print (json_tokens
        (zone_value name.now period.first period.last zone.now changes.now))) }
{
    let mut writer = Writer::new(Vec::new(alloc));
    put_zone(&mut writer, alloc, name, zone, period, changes)?;
    Ok(writer.into_inner())
}

fn put_zone(
    writer: &mut Writer,
    alloc: Global,
    name: &str,
    zone: &TimeZone,
    period: Period,
    changes: &[Change],
) -> Result<(), AllocError>
    ensures { Puts result writer.old writer.new (json_tokens
        (zone_value name.now period.first period.last zone.now changes.now)) }
{
    writer.begin_object()?;
    put_string(writer, "zone", name)?;
    put_bound(writer, alloc, "from", period.first)?;
    put_bound(writer, alloc, "to", period.last)?;
    put_counts(writer, zone)?;
    put_rule(writer, zone)?;
    put_leaps(writer, zone)?;
    put_changes(writer, alloc, changes)?;
    writer.end_object()
}

// The counts of the zone's lists.
fn put_counts(writer: &mut Writer, zone: &TimeZone) -> Result<(), AllocError>
    ensures { Puts result writer.old writer.new
        (key (codes "transitions") ∷ number (decimal (length zone.now.transitions))
        ∷ key (codes "types") ∷ number (decimal (length zone.now.types)) ∷ []) }
{
    put_count(writer, "transitions", zone.transition_count() as u64)?;
    put_count(writer, "types", zone.type_count() as u64)
}

// Writes a member whose value is a year or a date.
pub(crate) fn put_bound(
    writer: &mut Writer,
    alloc: Global,
    name: &str,
    bound: Bound,
) -> Result<(), AllocError>
    ensures { Puts result writer.old writer.new
        (key name.now ∷ json_tokens (bound_value bound)) }
{
    match bound {
        Bound::Year(year) => put_count(writer, name, year as u64),
        Bound::Date(date) => put_date(writer, alloc, name, date),
    }
}

fn put_date(
    writer: &mut Writer,
    alloc: Global,
    name: &str,
    date: NaiveDate,
) -> Result<(), AllocError>
    ensures { Puts result writer.old writer.new (key name.now ∷ string (printed_date date) ∷ []) }
{
    let text = format!(in alloc; "{date}")?;
    put_string(writer, name, text.as_str())
}

fn put_rule(writer: &mut Writer, zone: &TimeZone) -> Result<(), AllocError>
    ensures { Puts result writer.old writer.new
        (key (codes "rule") ∷ json_tokens (rule_value zone.now.rule)) }
{
    writer.key("rule")?;
    match zone.rule() {
        None => writer.null(),
        Some(TransitionRule::Fixed(fixed)) => put_fixed(writer, fixed),
        Some(TransitionRule::Alternate(turns)) => put_turns(writer, turns),
    }
}

fn put_fixed(writer: &mut Writer, fixed: &LocalTimeType) -> Result<(), AllocError>
    ensures { Puts result writer.old writer.new
        (json_tokens (rule_value (Some (TransitionRule.Fixed fixed.now)))) }
{
    writer.begin_object()?;
    put_type(writer, "always", fixed)?;
    writer.end_object()
}

fn put_turns(writer: &mut Writer, turns: &AlternateTime) -> Result<(), AllocError>
    ensures { Puts result writer.old writer.new
        (json_tokens (rule_value (Some (TransitionRule.Alternate turns.now)))) }
{
    writer.begin_object()?;
    put_type(writer, "std", turns.std())?;
    put_type(writer, "dst", turns.dst())?;
    put_moment(writer, "start", turns.dst_start(), turns.dst_start_time())?;
    put_moment(writer, "end", turns.dst_end(), turns.dst_end_time())?;
    writer.end_object()
}

// A day of each year, and seconds after its midnight.
fn put_moment(writer: &mut Writer, name: &str, day: RuleDay, time: i32) -> Result<(), AllocError>
    ensures { Puts result writer.old writer.new (key name.now
        ∷ json_tokens (moment_value (record { day = day; time = time }))) }
{
    writer.key(name)?;
    writer.begin_object()?;
    writer.key("day")?;
    put_day(writer, day)?;
    put_number(writer, "time", time as i64)?;
    writer.end_object()
}

fn put_day(writer: &mut Writer, day: RuleDay) -> Result<(), AllocError>
    ensures { Puts result writer.old writer.new (json_tokens (day_value day)) }
{
    match day.form() {
        DayForm::Julian1(n) => put_place(writer, "J", n),
        DayForm::Julian0(n) => put_place(writer, "n", n),
        DayForm::MonthWeekday(month, week, weekday) => put_weekday(writer, month, week, weekday),
    }
}

fn put_place(writer: &mut Writer, form: &str, n: u16) -> Result<(), AllocError>
    ensures { Puts result writer.old writer.new (begin_object ∷ key (codes "form")
        ∷ string form.now ∷ key (codes "n") ∷ number (decimal n) ∷ end_object ∷ []) }
{
    writer.begin_object()?;
    put_string(writer, "form", form)?;
    put_count(writer, "n", n as u64)?;
    writer.end_object()
}

fn put_weekday(writer: &mut Writer, month: u8, week: u8, weekday: u8) -> Result<(), AllocError>
    ensures { Puts result writer.old writer.new
        (json_tokens (day_value (DayForm.MonthWeekday month week weekday))) }
{
    writer.begin_object()?;
    put_string(writer, "form", "M")?;
    put_count(writer, "month", month as u64)?;
    put_count(writer, "week", week as u64)?;
    put_count(writer, "weekday", weekday as u64)?;
    writer.end_object()
}

fn put_leaps(writer: &mut Writer, zone: &TimeZone) -> Result<(), AllocError>
    ensures { Puts result writer.old writer.new
        (key (codes "leap_seconds") ∷ json_tokens (list_value leap_value zone.now.leaps)) }
{
    writer.key("leap_seconds")?;
    writer.begin_array()?;
    put_leap_list(writer, zone.leap_seconds())?;
    writer.end_array()
}

fn put_leap_list(writer: &mut Writer, leaps: &[LeapSecond]) -> Result<(), AllocError>
    ensures { Puts result writer.old writer.new
        (flat_map (λ e. json_tokens (leap_value e)) leaps.now) }
{
    for leap in leaps {
        put_leap(writer, leap)?;
    }
    Ok(())
}

fn put_leap(writer: &mut Writer, leap: &LeapSecond) -> Result<(), AllocError>
    ensures { Puts result writer.old writer.new (json_tokens (leap_value leap.now)) }
{
    writer.begin_object()?;
    put_leap_time(writer, leap)?;
    put_correction(writer, leap)?;
    writer.end_object()
}

fn put_leap_time(writer: &mut Writer, leap: &LeapSecond) -> Result<(), AllocError>
    ensures { Puts result writer.old writer.new
        (key (codes "leap_time") ∷ number (signed_decimal leap.now.unix_leap_time) ∷ []) }
{
    put_number(writer, "leap_time", leap.unix_leap_time)
}

fn put_correction(writer: &mut Writer, leap: &LeapSecond) -> Result<(), AllocError>
    ensures { Puts result writer.old writer.new
        (key (codes "correction") ∷ number (signed_decimal leap.now.correction) ∷ []) }
{
    put_number(writer, "correction", leap.correction as i64)
}
