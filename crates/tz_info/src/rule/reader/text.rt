//! The whole of a TZ string.

ghost use Rattle.std.specs.Prelude.{◌≡◌, ◌+ℤ◌, int_le, pos, IfOk};
ghost use Rattle.{
  offset_core.specs.Offset.{IsWithinDay},
  tz_base.specs.{Fronts.{Gives}, Grammar.{checked, is_end, IsRead}, Names.{expected_of_name}, Steps.TextTests.{is_name}},
  tz_base.specs.Refusals.{InvalidTzString, LocalTimeType as BadType},
  tz_info.specs.{Rules.{IsWithinWeek}, Steps.Spelled.{day_time_of, rule_of, IsSpelled}},
  tz_info.specs.TzGrammar.{named_type, text, alternate, days, dst_offset, end, fixed, given_offset, more, named},
};

use crate::rule::reader::clock::read_offset;
use crate::rule::reader::date::read_day;
use crate::rule::reader::name::read_name;
use crate::rule::{AlternateTime, RuleDay, TransitionRule};
use tz_base::place::checked_at;
use tz_base::{Cursor, Error, Expected, LocalTimeType};

// What a text spells: one type, or two with the days and times at which the second starts and
// ends. The rule is made of it at the end, since it is large and each call would copy it.
#[derive(Clone, Copy)]
pub(crate) enum Spelled {
    Fixed(LocalTimeType),
    Alternate(LocalTimeType, LocalTimeType, (RuleDay, i32), (RuleDay, i32)),
}

#[inline(always)]
pub(crate) fn rule_of(spelled: Spelled) -> TransitionRule
    requires { IsSpelled spelled }
    ensures { result ≡ rule_of spelled }
{
    match spelled {
        Spelled::Fixed(local) => TransitionRule::Fixed(local),
        Spelled::Alternate(std, dst, start, end) => {
            match AlternateTime::new(std, dst, start.0, start.1, end.0, end.1) {
                Ok(rule) => TransitionRule::Alternate(rule),
                Err(_) => unreachable!(),
            }
        }
    }
}

// What all bytes of the cursor spell.
#[tactic(auto, unfolding(crate::specs::TzGrammar::text, crate::specs::TzGrammar::rule))]
pub(crate) fn read_text(extended: bool, cursor: &mut Cursor<'_>) -> Result<Spelled, Error>
    ensures value { IsRead (text extended) cursor.old rule_of result cursor.new }
    ensures limits { IfOk result (λ spelled. IsSpelled spelled) }
{
    let at_name = cursor.remaining();
    let name = read_name(cursor)?;
    let offset = read_offset(cursor)?;
    if is_at_end(cursor) {
        read_fixed(at_name, name, offset, cursor)
    } else {
        read_alternate(extended, at_name, name, offset, cursor)
    }
}

#[tactic(auto, unfolding(crate::specs::TzGrammar::fixed))]
fn read_fixed<'a>(
    at_name: &'a [u8],
    name: &[u8],
    offset: i32,
    cursor: &mut Cursor<'a>,
) -> Result<Spelled, Error>
    requires { IsWithinDay offset }
    ensures value { IsRead (fixed at_name.now name.now offset) cursor.old rule_of result cursor.new }
    ensures limits { IfOk result (λ spelled. IsSpelled spelled) }
{
    let std = read_named(at_name, name, false, offset, cursor)?;
    Ok(Spelled::Fixed(std))
}

// What follows the offset of standard time. The names are looked at last.
#[tactic(auto, unfolding(crate::specs::TzGrammar::alternate))]
fn read_alternate<'a>(
    extended: bool,
    at_name: &'a [u8],
    name: &[u8],
    offset: i32,
    cursor: &mut Cursor<'a>,
) -> Result<Spelled, Error>
    requires { IsWithinDay offset }
    ensures value { IsRead (alternate extended at_name.now name.now offset) cursor.old rule_of result
        cursor.new }
    ensures limits { IfOk result (λ spelled. IsSpelled spelled) }
{
    let at_dst_name = cursor.remaining();
    let dst_name = read_name(cursor)?;
    let dst_offset = read_dst_offset(offset, cursor)?;
    let (start, end) = read_days(extended, cursor)?;
    expect_end(cursor)?;
    let std = read_named(at_name, name, false, offset, cursor)?;
    let dst = read_named(at_dst_name, dst_name, true, dst_offset, cursor)?;
    Ok(Spelled::Alternate(std, dst, start, end))
}

// The days when daylight saving time starts and ends, with their times.
#[tactic(auto, unfolding(crate::specs::TzGrammar::days))]
fn read_days(
    extended: bool,
    cursor: &mut Cursor<'_>,
) -> Result<((RuleDay, i32), (RuleDay, i32)), Error>
    ensures value { IsRead (days extended) cursor.old
        (λ days. (day_time_of days.0, day_time_of days.1)) result cursor.new }
    ensures bound { IfOk result (λ days. IsWithinWeek days.0.1 × IsWithinWeek days.1.1) }
{
    let start = read_day(extended, cursor)?;
    cursor.read_tag(b",")?;
    let end = read_day(extended, cursor)?;
    Ok((start, end))
}

// The offset of daylight saving time, an hour more than that of standard time if none is given,
// and the comma after it.
#[tactic(auto, unfolding(crate::specs::TzGrammar::dst_offset, crate::specs::TzGrammar::next_hour))]
fn read_dst_offset(std: i32, cursor: &mut Cursor<'_>) -> Result<i32, Error>
    requires { IsWithinDay std }
    ensures value { IsRead (dst_offset std) cursor.old (λ z. z) result cursor.new }
    ensures bound { IfOk result (λ z. IsWithinDay z) }
{
    let at_comma = cursor.remaining();
    if cursor.read_optional_tag(b",") {
        checked_at(at_comma, cursor, next_hour(std))
    } else {
        read_given_offset(cursor)
    }
}

#[tactic(auto, unfolding(crate::specs::TzGrammar::given_offset))]
fn read_given_offset(cursor: &mut Cursor<'_>) -> Result<i32, Error>
    ensures value { IsRead given_offset cursor.old (λ z. z) result cursor.new }
    ensures bound { IfOk result (λ z. IsWithinDay z) }
{
    expect_more(cursor)?;
    let offset = read_offset(cursor)?;
    expect_more(cursor)?;
    cursor.read_tag(b",")?;
    Ok(offset)
}

fn next_hour(std: i32) -> Result<i32, Error>
    requires { IsWithinDay std }
    ensures value { Gives (λ z. z) result (checked (int_le (std +ℤ pos 3_600) (pos 86_399))
        (InvalidTzString Expected.OffsetOfDaylightSavingTimeWithinDay) (std +ℤ pos 3_600)) }
    ensures bound { IfOk result (λ z. IsWithinDay z) }
{
    let offset = std + 3_600;
    if offset > 86_399 {
        return Err(Error::InvalidTzString(Expected::OffsetOfDaylightSavingTimeWithinDay));
    }
    Ok(offset)
}

// The type of the name that begins at that place, if a type can have it.
#[tactic(auto, unfolding(crate::specs::TzGrammar::named))]
fn read_named<'a>(
    at_name: &'a [u8],
    name: &[u8],
    dst: bool,
    offset: i32,
    cursor: &mut Cursor<'a>,
) -> Result<LocalTimeType, Error>
    requires { IsWithinDay offset }
    ensures value { IsRead (named at_name.now name.now dst offset) cursor.old (λ t. t) result
        cursor.new }
    ensures offset { IfOk result (λ t. IsWithinDay t.offset) }
{
    checked_at(at_name, cursor, named_type(name, dst, offset))
}

#[tactic(auto, using(crate::proofs::PosixLaws::named_by))]
fn named_type(name: &[u8], dst: bool, offset: i32) -> Result<LocalTimeType, Error>
    requires { IsWithinDay offset }
    ensures value { Gives (λ t. t) result (checked (is_name name.now)
        (BadType (expected_of_name name.now)) (named_type name.now dst offset)) }
    ensures offset { IfOk result (λ t. IsWithinDay t.offset) }
{
    LocalTimeType::new(offset, dst, Some(name))
}

#[tactic(auto, unfolding(crate::specs::TzGrammar::more))]
fn expect_more(cursor: &Cursor<'_>) -> Result<(), Error>
    ensures { IsRead more cursor.now (λ unit. unit) result cursor.now }
{
    if is_at_end(cursor) {
        Err(Error::UnsupportedTzString(Expected::DaysWhenDaylightSavingTimeStartsAndEnds))
    } else {
        Ok(())
    }
}

#[tactic(auto, unfolding(crate::specs::TzGrammar::end))]
fn expect_end(cursor: &Cursor<'_>) -> Result<(), Error>
    ensures { IsRead end cursor.now (λ unit. unit) result cursor.now }
{
    if is_at_end(cursor) {
        Ok(())
    } else {
        Err(Error::InvalidTzString(Expected::NothingAfterText))
    }
}

// The test as a value that specifies what is read.
fn is_at_end(cursor: &Cursor<'_>) -> bool
    ensures { result ≡ is_end cursor.now }
{
    cursor.is_empty()
}
