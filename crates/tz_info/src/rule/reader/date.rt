//! The days of a TZ string: a date, and a time of that day.

ghost use Rattle.std.specs.Prelude.{◌≡◌, IfOk};
ghost use Rattle.{
  tz_base.specs.Grammar.{IsRead, Number},
  tz_info.specs.{Rules.{IsWithinWeek}, Steps.Spelled.{day_time_of}},
  tz_info.specs.TzGrammar.{date, day, julian_date, month_date, numbered_day, place_of_day},
};

use crate::rule::day::RuleDay;
use crate::rule::reader::clock::read_optional_time;
use tz_base::place::checked_at;
use tz_base::{Cursor, Error};

// The limit of a month, a week and a weekday, before their own.
const DATE_MAX: u32 = u8::MAX as u32;

// The limit of a day number, before its own.
const DAY_MAX: u32 = u16::MAX as u32;

// A date, and its time of day, in seconds after midnight.
#[tactic(auto, unfolding(crate::specs::TzGrammar::day))]
pub(super) fn read_day(extended: bool, cursor: &mut Cursor<'_>) -> Result<(RuleDay, i32), Error>
    ensures value { IsRead (day extended) cursor.old day_time_of result cursor.new }
    ensures bound { IfOk result (λ d. IsWithinWeek d.1) }
{
    let date = read_date(cursor)?;
    let time = read_optional_time(extended, cursor)?;
    Ok((date, time))
}

#[tactic(auto, unfolding(crate::specs::TzGrammar::date))]
fn read_date(cursor: &mut Cursor<'_>) -> Result<RuleDay, Error>
    ensures { IsRead date cursor.old (λ d. d) result cursor.new }
{
    if cursor.read_optional_tag(b"M") {
        read_month_date(cursor)
    } else if cursor.read_optional_tag(b"J") {
        read_julian_date(cursor)
    } else {
        read_day_number(cursor)
    }
}

// `month.week.weekday`, after the `M`.
#[tactic(auto, unfolding(crate::specs::TzGrammar::month_date, crate::specs::TzGrammar::checked_day))]
fn read_month_date(cursor: &mut Cursor<'_>) -> Result<RuleDay, Error>
    ensures { IsRead month_date cursor.old (λ d. d) result cursor.new }
{
    let at_month = cursor.remaining();
    let month = read_byte(cursor)?;
    cursor.read_tag(b".")?;
    let at_week = cursor.remaining();
    let week = read_byte(cursor)?;
    cursor.read_tag(b".")?;
    let at_weekday = cursor.remaining();
    let weekday = read_byte(cursor)?;
    let place = place_of_day(month, week, at_month, at_week, at_weekday);
    checked_at(place, cursor, RuleDay::month_weekday(month, week, weekday))
}

// Of a month, a week and a weekday, each with the place at which it begins, the place of the first
// that is out of its limits.
fn place_of_day<'a>(
    month: u8,
    week: u8,
    at_month: &'a [u8],
    at_week: &'a [u8],
    at_weekday: &'a [u8],
) -> &'a [u8]
    ensures { result.now
        ≡ place_of_day month week at_month.now at_week.now at_weekday.now }
{
    if month < 1 || month > 12 {
        at_month
    } else if week < 1 || week > 5 {
        at_week
    } else {
        at_weekday
    }
}

fn read_byte(cursor: &mut Cursor<'_>) -> Result<u8, Error>
    ensures { IsRead (Number 255) cursor.old (λ n. n) result cursor.new }
{
    Ok(cursor.read_int(DATE_MAX)? as u8)
}

// The number after the `J`.
#[tactic(auto, unfolding(crate::specs::TzGrammar::julian_date, crate::specs::TzGrammar::checked_day))]
fn read_julian_date(cursor: &mut Cursor<'_>) -> Result<RuleDay, Error>
    ensures { IsRead julian_date cursor.old (λ d. d) result cursor.new }
{
    let at_day = cursor.remaining();
    let n = cursor.read_int(DAY_MAX)?;
    checked_at(at_day, cursor, RuleDay::julian_1(n as u16))
}

#[tactic(auto, unfolding(crate::specs::TzGrammar::numbered_day, crate::specs::TzGrammar::checked_day))]
fn read_day_number(cursor: &mut Cursor<'_>) -> Result<RuleDay, Error>
    ensures { IsRead numbered_day cursor.old (λ d. d) result cursor.new }
{
    let at_day = cursor.remaining();
    let n = cursor.read_int(DAY_MAX)?;
    checked_at(at_day, cursor, RuleDay::julian_0(n as u16))
}
