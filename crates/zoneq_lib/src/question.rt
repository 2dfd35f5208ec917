//! A line as a question.

ghost use Rattle.{
  naive_base.specs.{NaiveDate.{day_of}, NaiveDateTime.{reading}},
  std.specs.Prelude.{[], MatchOption},
  zoneq_lib.specs.Questions.{at_query, calendar_day, data_query, local_time, resolve_query, show_query, text_query},
  zoneq_lib.specs.Questions.{wall_query},
  zoneq_lib.specs.Steps.LineReading.{query_of, scan, ReadsAs},
};

use crate::bad_line::{BadLine, stop};
use crate::choices::choice;
use crate::hex_digits::spell_bytes;
use crate::numerals::{integer, next_number, seconds};
use crate::words::{expect_byte, strip_word};
use naive_base::{NaiveDate, NaiveDateTime};
use offset_core::Choice;
use std::str;

/// What a line asks.
#[derive(Clone, Copy)]
pub enum Question<'a> {
    /// `text T`: parse this TZ string, and use its zone from here on.
    Text(&'a str),
    /// `data HEX`: parse a TZif file, whose bytes these hex digits spell, and use its zone from
    /// here on.
    Data(&'a [u8]),
    /// `at SECS`: the local time type in force at this Unix time.
    At(i64),
    /// `wall Y M D h m s`: the local time types in force when a clock shows this date and time.
    Wall(NaiveDateTime),
    /// `wall Y M D h m s GAP/FOLD`: the instant that this policy selects for this date and time.
    Resolve(NaiveDateTime, Choice),
    /// `show SECS NANOS`: what the zone's clocks show at this Unix time and that many nanoseconds
    /// after it.
    Show(i64, u32),
}

impl<'a> Question<'a> {
    ghost use Rattle.zoneq_lib.specs.Questions.{Asks, IsBadLine, query_line, question};

    /// Returns the question that a line asks, or `None` for a bad line.
    ///
    /// A text that isn't UTF-8 makes a bad line, and so do digits that are no hex digits or odd in
    /// number, a number that doesn't fit its type, a date or a time that doesn't exist, and a word
    /// after it that is no choice.
    #[tactic(auto, using(crate::proofs::ScanLaws::scanned, crate::proofs::ScanLaws::not_scanned))]
    pub fn parse(line: &'a [u8]) -> Option<Question<'a>>
        ensures { MatchOption result
            (IsBadLine line.now) (λ question. Asks line.now (query_of question)) }
    {
        match Question::read(line) {
            Ok(question) => Some(question),
            Err(_) => None,
        }
    }

    /// Returns the question that a line asks, or why it asks nothing.
    #[tactic(auto, unfolding(crate::specs::Questions::query_line))]
    pub fn read(bytes: &'a [u8]) -> Result<Question<'a>, BadLine>
        ensures { ReadsAs (λ q. (query_of q, [])) result (scan query_line bytes.now) }
    {
        let (question, rest) = Question::read_front(bytes)?;
        if !rest.is_empty() {
            return Err(stop(rest));
        }
        Ok(question)
    }

    // The question, by the word that the line begins with, and the bytes after it.
    #[tactic(auto, unfolding(crate::specs::Questions::question))]
    fn read_front(bytes: &'a [u8]) -> Result<(Question<'a>, &'a [u8]), BadLine>
        ensures { ReadsAs (λ p. (query_of p.0, p.1.now)) result (scan question bytes.now) }
    {
        let (found, rest) = strip_word(bytes, b"text ")?;
        if found {
            return read_text(rest);
        }
        let (found, rest) = strip_word(rest, b"data ")?;
        if found {
            return read_data(rest);
        }
        let (found, rest) = strip_word(rest, b"at ")?;
        if found {
            return read_at(rest);
        }
        let (found, rest) = strip_word(rest, b"wall ")?;
        if found {
            return read_wall(rest);
        }
        let (found, rest) = strip_word(rest, b"show ")?;
        if found {
            return read_show(rest);
        }
        Err(stop(rest))
    }
}

// The question about a TZ string, which is all that is left.
#[tactic(auto, using(crate::proofs::ScanLaws::utf8_tested), unfolding(crate::specs::Questions::text_query))]
fn read_text(bytes: &[u8]) -> Result<(Question<'_>, &[u8]), BadLine>
    ensures { ReadsAs (λ p. (query_of p.0, p.1.now)) result (scan text_query bytes.now) }
{
    match str::from_utf8(bytes) {
        Ok(text) => Ok((Question::Text(text), b"")),
        Err(_) => Err(BadLine::Unfinished),
    }
}

// The question on a file, whose hex digits are all that is left.
#[tactic(auto, unfolding(crate::specs::Questions::data_query))]
fn read_data(digits: &[u8]) -> Result<(Question<'_>, &[u8]), BadLine>
    ensures { ReadsAs (λ p. (query_of p.0, p.1.now)) result (scan data_query digits.now) }
{
    if spell_bytes(digits) {
        Ok((Question::Data(digits), b""))
    } else {
        Err(BadLine::Unfinished)
    }
}

// The question on seconds.
#[tactic(auto, unfolding(crate::specs::Questions::at_query))]
fn read_at(text: &[u8]) -> Result<(Question<'_>, &[u8]), BadLine>
    ensures { ReadsAs (λ p. (query_of p.0, p.1.now)) result (scan at_query text.now) }
{
    let (seconds, rest) = seconds(text)?;
    Ok((Question::At(seconds), rest))
}

// The question on a date and time, with a choice after it or none.
#[tactic(auto, unfolding(crate::specs::Questions::wall_query, crate::specs::Questions::resolve_query))]
fn read_wall(text: &[u8]) -> Result<(Question<'_>, &[u8]), BadLine>
    ensures { ReadsAs (λ p. (query_of p.0, p.1.now)) result (scan wall_query text.now) }
{
    let (local, rest) = local_time(text)?;
    if rest.is_empty() {
        return Ok((Question::Wall(local), rest));
    }
    let rest = expect_byte(rest, b' ')?;
    let (choice, rest) = choice(rest)?;
    Ok((Question::Resolve(local, choice), rest))
}

// The question on the seconds and the nanoseconds `SECS NANOS`.
#[tactic(auto, unfolding(crate::specs::Questions::show_query))]
fn read_show(text: &[u8]) -> Result<(Question<'_>, &[u8]), BadLine>
    ensures { ReadsAs (λ p. (query_of p.0, p.1.now)) result (scan show_query text.now) }
{
    let (seconds, rest) = seconds(text)?;
    let (nanoseconds, rest) = next_number(rest, u32::MAX)?;
    Ok((Question::Show(seconds, nanoseconds), rest))
}

// The date and time `Y M D h m s` that a text begins with, and the bytes after it.
#[tactic(auto, unfolding(crate::specs::Questions::local_time))]
fn local_time(text: &[u8]) -> Result<(NaiveDateTime, &[u8]), BadLine>
    ensures { ReadsAs (λ p. (reading p.0, p.1.now)) result (scan local_time text.now) }
{
    let (date, rest) = date(text)?;
    let (hour, rest) = next_number(rest, 23)?;
    let (minute, rest) = next_number(rest, 59)?;
    let (second, rest) = next_number(rest, 59)?;
    match date.and_hms_opt(hour, minute, second) {
        Some(local) => Ok((local, rest)),
        None => Err(stop(rest)),
    }
}

// The date `Y M D` that a text begins with, and the bytes after it.
#[tactic(auto, unfolding(crate::specs::Questions::calendar_day))]
fn date(text: &[u8]) -> Result<(NaiveDate, &[u8]), BadLine>
    ensures { ReadsAs (λ p. (day_of p.0, p.1.now)) result (scan calendar_day text.now) }
{
    let (year, rest) = integer(text, 262_143, 262_142)?;
    let (month, rest) = next_number(rest, 12)?;
    if month == 0 {
        return Err(stop(rest));
    }
    let (day, rest) = next_number(rest, 31)?;
    match NaiveDate::from_ymd_opt(year as i32, month, day) {
        Some(date) => Ok((date, rest)),
        None => Err(stop(rest)),
    }
}
