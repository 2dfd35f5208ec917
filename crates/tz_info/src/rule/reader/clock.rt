//! The offsets and the times of day of a TZ string: `hh[:mm[:ss]]` with a sign or without.

ghost use Rattle.std.specs.Prelude.{◌≡◌, ◌≤◌, IfOk};
ghost use Rattle.{
  offset_core.specs.Offset.{IsWithinDay},
  tz_base.specs.{Fronts.{Gives}, Grammar.{checked, read, IsRead}, Refusals.{InvalidTzString}},
  tz_info.specs.Rules.{IsWithinWeek},
  tz_info.specs.TzGrammar.{signed_seconds, time_sign, within_test, duration, offset, optional_minutes, optional_time},
  tz_info.specs.TzGrammar.{seconds, sign},
};

use tz_base::place::checked_at;
use tz_base::{Cursor, Error, Expected};

// The limit of each number, before those of hours, minutes and seconds.
const CLOCK_MAX: u32 = i32::MAX as u32;

// An offset, in seconds east of UTC. The text counts west.
#[tactic(auto, unfolding(crate::specs::TzGrammar::offset))]
pub(super) fn read_offset(cursor: &mut Cursor<'_>) -> Result<i32, Error>
    ensures value { IsRead offset cursor.old (λ z. z) result cursor.new }
    ensures bound { IfOk result (λ z. IsWithinDay z) }
{
    let is_minus = read_sign(cursor);
    read_duration(23, !is_minus, cursor)
}

// A `/` and a time of day, in seconds after midnight, or nothing for two o'clock.
#[tactic(auto, unfolding(crate::specs::TzGrammar::optional_time, crate::specs::TzGrammar::time))]
pub(super) fn read_optional_time(extended: bool, cursor: &mut Cursor<'_>) -> Result<i32, Error>
    ensures value { IsRead (optional_time extended) cursor.old (λ z. z) result cursor.new }
    ensures bound { IfOk result (λ z. IsWithinWeek z) }
{
    if !cursor.read_optional_tag(b"/") {
        return Ok(7_200);
    }
    let is_minus = read_time_sign(extended, cursor);
    read_duration(if extended { 167 } else { 24 }, is_minus, cursor)
}

#[tactic(auto, unfolding(crate::specs::TzGrammar::time_sign))]
fn read_time_sign(extended: bool, cursor: &mut Cursor<'_>) -> bool
    ensures { read (time_sign extended) cursor.old ≡ Ok (result, cursor.new) }
{
    if extended { read_sign(cursor) } else { false }
}

// Whether a minus comes next. A plus may come instead.
#[tactic(auto, unfolding(crate::specs::TzGrammar::sign))]
fn read_sign(cursor: &mut Cursor<'_>) -> bool
    ensures { read sign cursor.old ≡ Ok (result, cursor.new) }
{
    if cursor.read_optional_tag(b"+") {
        false
    } else {
        cursor.read_optional_tag(b"-")
    }
}

#[tactic(auto, unfolding(crate::specs::TzGrammar::duration, crate::specs::TzGrammar::hours_minutes_seconds))]
fn read_duration(limit: u32, negative: bool, cursor: &mut Cursor<'_>) -> Result<i32, Error>
    requires { limit ≤ 167 }
    ensures value { IsRead (duration limit negative) cursor.old (λ z. z) result cursor.new }
    ensures day { limit ≤ 23 → IfOk result (λ z. IsWithinDay z) }
    ensures week { IfOk result (λ z. IsWithinWeek z) }
{
    let at_hours = cursor.remaining();
    let h = cursor.read_int(CLOCK_MAX)?;
    let (m, s) = read_optional_minutes(cursor)?;
    checked_at(at_hours, cursor, seconds_of(limit, negative, h, m, s))
}

// The minutes and the seconds; 0 for what is left out.
#[tactic(auto, unfolding(crate::specs::TzGrammar::optional_minutes, crate::specs::TzGrammar::minutes_seconds))]
fn read_optional_minutes(cursor: &mut Cursor<'_>) -> Result<(u32, u32), Error>
    ensures { IsRead optional_minutes cursor.old (λ t. (t.0, t.1)) result cursor.new }
{
    if !cursor.read_optional_tag(b":") {
        return Ok((0, 0));
    }
    let m = cursor.read_int(CLOCK_MAX)?;
    let s = read_seconds(cursor)?;
    Ok((m, s))
}

#[tactic(auto, unfolding(crate::specs::TzGrammar::seconds))]
fn read_seconds(cursor: &mut Cursor<'_>) -> Result<u32, Error>
    ensures { IsRead seconds cursor.old (λ s. s) result cursor.new }
{
    if cursor.read_optional_tag(b":") {
        cursor.read_int(CLOCK_MAX)
    } else {
        Ok(0)
    }
}

// The signed seconds of a number of hours, up to the limit, minutes and seconds, up to 59.
fn seconds_of(limit: u32, negative: bool, h: u32, m: u32, s: u32) -> Result<i32, Error>
    requires { limit ≤ 167 }
    ensures value { Gives (λ z. z) result
        (checked (within_test limit h m s).passes (InvalidTzString Expected.HoursMinutesAndSecondsWithinTheirLimits)
        (signed_seconds negative h m s)) }
    ensures day { limit ≤ 23 → IfOk result (λ z. IsWithinDay z) }
    ensures week { IfOk result (λ z. IsWithinWeek z) }
{
    if h > limit || m > 59 || s > 59 {
        return Err(Error::InvalidTzString(Expected::HoursMinutesAndSecondsWithinTheirLimits));
    }
    let seconds = (3_600 * h + 60 * m + s) as i32;
    if negative { Ok(-seconds) } else { Ok(seconds) }
}
