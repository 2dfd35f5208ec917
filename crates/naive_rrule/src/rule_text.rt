//! Rules of RFC 5545 as text: `FREQ=MONTHLY;BYDAY=-1FR;COUNT=3`.
ghost use Rattle.std.specs.Prelude.{[], ◌∷◌, ◌≡◌, ◌<◌, ◌≤◌, ◌+◌, ◌-◌, ◌^◌, ◌==◌, ◌++◌, Option, Ok, option_map, length, true, false, IfSome, List, ℕ};
ghost use Rattle.std.specs.Char.{to_ascii_uppercase};
ghost use Rattle.naive_base.specs.{NaiveDate.{day_of}, NaiveDateTime.{reading}, Range.{IsDayInRange, IsInRange}};
ghost use Rattle.offset_core.specs.FixedOffset.{seconds_of};
ghost use Rattle.naive_rrule.specs.RuleTexts as recur;

use crate::{Frequency, NthWeekday, RecurrenceEnd, RecurrenceRule};
use naive_base::{NaiveDate, NaiveDateTime, Weekday};
use offset_core::FixedOffset;
use std::alloc::Global;
use std::marker::Model;
use thiserror::Error;

const LAST_TIME: ClockTime = ClockTime {
    hour: 23,
    minute: 59,
    second: 59,
};

/// The name of a part.
#[derive(Clone, Copy)]
pub(crate) enum PartName {
    Freq,
    Interval,
    Count,
    Until,
    Wkst,
    ByMonth,
    ByWeekNo,
    ByYearDay,
    ByMonthDay,
    ByDay,
    ByHour,
    ByMinute,
    BySecond,
    BySetPos,
}

// The end of a rule, as its text gives it.
#[derive(Clone, Copy, Debug)]
pub(crate) enum RuleEnd {
    /// No end.
    Never,
    /// `COUNT`
    Count(u32),
    /// `UNTIL` with a date: the end of that day.
    Date(CalendarDay),
    /// `UNTIL` with a local date-time.
    Local(CalendarDay, ClockTime),
    /// `UNTIL` with a date-time in UTC.
    Utc(CalendarDay, ClockTime),
}

#[derive(Clone, Copy, Debug)]
pub(crate) struct CalendarDay {
    pub(crate) year: u32,
    pub(crate) month: u32,
    pub(crate) day: u32,
}

#[derive(Clone, Copy, Debug)]
pub(crate) struct ClockTime {
    pub(crate) hour: u32,
    pub(crate) minute: u32,
    pub(crate) second: u32,
}

impl CalendarDay {
    fn date(&self) -> NaiveDate
        requires { recur.IsCalendarDay self.now }
        ensures value { day_of result ≡ recur.number_of self.now }
        ensures in_range { IsDayInRange (day_of result) }
    {
        match NaiveDate::from_ymd_opt(self.year as i32, self.month, self.day) {
            Some(date) => date,
            None => unreachable!(),
        }
    }

    fn at(&self, time: &ClockTime) -> NaiveDateTime
        requires day { recur.IsCalendarDay self.now }
        requires time { recur.IsClockTime time.now }
        ensures value { (reading result).s ≡ recur.second_of self.now time.now }
        ensures in_range { IsInRange (reading result).s }
    {
        match self.date().and_hms_opt(time.hour, time.minute, time.second) {
            Some(local) => local,
            None => unreachable!(),
        }
    }
}

impl RuleEnd {
    fn is_open(&self) -> bool
        ensures { result ≡ recur.is_open self.now }
    {
        match self {
            RuleEnd::Never => true,
            _ => false,
        }
    }
}

/// What was expected at the fault of a rule's text.
#[derive(Clone, Copy, PartialEq, Eq, Debug, Error)]
pub enum RuleExpected {
    #[error("the name of a part")]
    PartName,
    #[error("a part that isn't there yet")]
    OtherPart,
    #[error("an equals sign")]
    EqualsSign,
    #[error("a frequency")]
    Frequency,
    #[error("a number")]
    Number,
    #[error("a weekday")]
    Weekday,
    #[error("a date or a date-time")]
    DateOrDateTime,
    #[error("a part FREQ")]
    FrequencyPart,
}

/// Why a text isn't that of a rule.
#[derive(Clone, Copy, PartialEq, Eq, Debug, Error)]
pub enum RuleTextError {
    /// Out of memory.
    #[error("out of memory")]
    OutOfMemory,
    /// What was expected, and the number of bytes in front of it.
    #[error("at byte {0}: expected {1}")]
    Syntax(usize, RuleExpected),
}

// The value, or a fault: what was expected at a position.
fn expect<T: Drop>(value: Option<T>, at: usize, expected: RuleExpected) -> Result<T, RuleTextError>
    ensures { result ≡ recur.expect value at expected }
{
    match value {
        Some(value) => Ok(value),
        None => Err(RuleTextError::Syntax(at, expected)),
    }
}

// The bytes in front of the first separator, and those after it.
#[tactic(auto, using(crate::proofs::Texts::steps))]
fn cut(bytes: &[u8], separator: u8) -> (&[u8], Option<&[u8]>)
    ensures front { result.0.now ≡ recur.front_of separator bytes.now }
    ensures after { option_map (λ b. b.now) result.1 ≡ recur.after_of separator bytes.now }
{
    for at in 0..bytes.len() {
        if bytes[at] == separator {
            return (&bytes[..at], Some(&bytes[at + 1..]));
        }
    }
    (bytes, None)
}

// Whether a text is a word, in either case.
#[tactic(auto, using(crate::proofs::Texts::steps))]
fn is_word(bytes: &[u8], word: &[u8]) -> bool
    ensures { result ≡ recur.is_word bytes.now word.now }
{
    if bytes.len() != word.len() {
        return false;
    }
    for at in 0..bytes.len() {
        if bytes[at].to_ascii_uppercase() != word[at] {
            return false;
        }
    }
    true
}

// Digits, which spell a number up to `most`.
#[tactic(auto, using(crate::proofs::Texts::steps))]
fn number(bytes: &[u8], digits: usize, most: u32) -> Option<u32>
    ensures value { result ≡ recur.number digits most bytes.now }
    ensures bound { IfSome result (λ n. n ≤ most) }
{
    if bytes.is_empty() || bytes.len() > digits {
        return None;
    }
    let mut value: u32 = 0;
    for byte in bytes {
        value = with_digit(value, *byte, most)?;
    }
    Some(value)
}

// A number with a digit more.
fn with_digit(value: u32, byte: u8, most: u32) -> Option<u32>
    ensures value { result ≡ recur.number_from most value (byte ∷ []) }
{
    if !byte.is_ascii_digit() {
        return None;
    }
    let more = value as u64 * 10 + (byte - b'0') as u64;
    if more > most as u64 {
        None
    } else {
        Some(more as u32)
    }
}

// A number with or without a sign.
fn signed(bytes: &[u8], digits: usize) -> Option<i32>
    ensures { result ≡ recur.signed digits bytes.now }
{
    match bytes.split_first()? {
        (b'-', rest) => Some(-(number(rest, digits, 999)? as i32)),
        (b'+', rest) => Some(number(rest, digits, 999)? as i32),
        _ => Some(number(bytes, digits, 999)? as i32),
    }
}

// A value that has a word.
pub(crate) trait Word: Copy + Drop {
    ghost spelling: { Self → List ℕ };

    fn word(&self) -> &'static str
        ensures { result.now ≡ spelling self.now };
}

impl Word for PartName {
    ghost spelling = { recur.name_text };

    fn word(&self) -> &'static str {
        match self {
            PartName::Freq => "FREQ",
            PartName::Interval => "INTERVAL",
            PartName::Count => "COUNT",
            PartName::Until => "UNTIL",
            PartName::Wkst => "WKST",
            PartName::ByMonth => "BYMONTH",
            PartName::ByWeekNo => "BYWEEKNO",
            PartName::ByYearDay => "BYYEARDAY",
            PartName::ByMonthDay => "BYMONTHDAY",
            PartName::ByDay => "BYDAY",
            PartName::ByHour => "BYHOUR",
            PartName::ByMinute => "BYMINUTE",
            PartName::BySecond => "BYSECOND",
            PartName::BySetPos => "BYSETPOS",
        }
    }
}

impl Word for Frequency {
    ghost spelling = { recur.frequency_text };

    fn word(&self) -> &'static str {
        match self {
            Frequency::Yearly => "YEARLY",
            Frequency::Monthly => "MONTHLY",
            Frequency::Weekly => "WEEKLY",
            Frequency::Daily => "DAILY",
            Frequency::Hourly => "HOURLY",
            Frequency::Minutely => "MINUTELY",
            Frequency::Secondly => "SECONDLY",
        }
    }
}

impl Word for Weekday {
    ghost spelling = { recur.weekday_text };

    fn word(&self) -> &'static str {
        match self {
            Weekday::Mon => "MO",
            Weekday::Tue => "TU",
            Weekday::Wed => "WE",
            Weekday::Thu => "TH",
            Weekday::Fri => "FR",
            Weekday::Sat => "SA",
            Weekday::Sun => "SU",
        }
    }
}

// The value whose word that is.
#[tactic(auto, using(crate::proofs::Texts::steps))]
fn word_of<T: Word>(all: &[T], bytes: &[u8]) -> Option<T>
    ensures { result ≡ recur.word_of T.spelling all.now bytes.now }
{
    for value in all {
        if is_word(bytes, value.word().as_bytes()) {
            return Some(*value);
        }
    }
    None
}

fn weekday(bytes: &[u8]) -> Option<Weekday>
    ensures { result ≡ recur.word_of recur.weekday_text recur.weekdays bytes.now }
{
    let all = [
        Weekday::Mon,
        Weekday::Tue,
        Weekday::Wed,
        Weekday::Thu,
        Weekday::Fri,
        Weekday::Sat,
        Weekday::Sun,
    ];
    word_of(&all, bytes)
}

fn frequency(bytes: &[u8]) -> Option<Frequency>
    ensures { result ≡ recur.word_of recur.frequency_text recur.frequencies bytes.now }
{
    let all = [
        Frequency::Yearly,
        Frequency::Monthly,
        Frequency::Weekly,
        Frequency::Daily,
        Frequency::Hourly,
        Frequency::Minutely,
        Frequency::Secondly,
    ];
    word_of(&all, bytes)
}

fn part_name(bytes: &[u8]) -> Option<PartName>
    ensures { result ≡ recur.word_of recur.name_text recur.part_names bytes.now }
{
    let all = [
        PartName::Freq,
        PartName::Interval,
        PartName::Count,
        PartName::Until,
        PartName::Wkst,
        PartName::ByMonth,
        PartName::ByWeekNo,
        PartName::ByYearDay,
        PartName::ByMonthDay,
        PartName::ByDay,
        PartName::ByHour,
        PartName::ByMinute,
        PartName::BySecond,
        PartName::BySetPos,
    ];
    word_of(&all, bytes)
}

// An entry of a list.
trait Entry: Copy + Drop {
    ghost entry_of: { ℕ → List ℕ → Option Self };

    fn read(bytes: &[u8], digits: usize) -> Option<Self>
        ensures { result ≡ entry_of digits bytes.now };
}

impl Entry for u32 {
    ghost entry_of = { λ digits. recur.number digits 999 };

    fn read(bytes: &[u8], digits: usize) -> Option<u32> {
        number(bytes, digits, 999)
    }
}

impl Entry for i32 {
    ghost entry_of = { recur.signed };

    fn read(bytes: &[u8], digits: usize) -> Option<i32> {
        signed(bytes, digits)
    }
}

impl Entry for NthWeekday {
    ghost entry_of = { λ _. recur.entry };

    fn read(bytes: &[u8], _digits: usize) -> Option<NthWeekday> {
        let front = bytes.len().saturating_sub(2);
        let weekday = weekday(&bytes[front..])?;
        if front == 0 {
            return Some(NthWeekday::every(weekday));
        }
        numbered(weekday, signed(&bytes[..front], 2)?)
    }
}

fn numbered(weekday: Weekday, nth: i32) -> Option<NthWeekday>
    ensures { result ≡ recur.numbered weekday nth }
{
    if nth == 0 {
        None
    } else {
        Some(NthWeekday::nth(nth, weekday))
    }
}

fn push<T: Drop>(list: &mut Vec<T>, value: T) -> Result<(), RuleTextError>
    ensures { recur.IsRead (λ _. list.new.items) result (Ok (list.old.items ++ value ∷ [])) }
{
    match list.push(value) {
        Ok(()) => Ok(()),
        Err(_) => Err(RuleTextError::OutOfMemory),
    }
}

// The entries of a list, which begins at a position.
#[tactic(auto, using(crate::proofs::Texts::parts))]
fn list<T: Entry>(
    alloc: Global,
    bytes: &[u8],
    digits: usize,
    expected: RuleExpected,
    at: usize,
) -> Result<Vec<T>, RuleTextError>
    requires { at + length bytes.now < 2 ^ 63 }
    ensures { recur.IsRead (λ v. v.items) result
        (recur.entries (T.entry_of digits) expected at (recur.pieces 44 bytes.now) []) }
{
    let mut list = Vec::new(alloc);
    let mut rest = bytes;
    let mut from = at;
    'entries: loop {
        let (entry, after) = cut(rest, b',');
        push(&mut list, expect(T::read(entry, digits), from, expected)?)?;
        let Some(more) = after else {
            return Ok(list);
        };
        from += entry.len() + 1;
        rest = more;
    }
}

// `YYYYMMDD`
fn date(bytes: &[u8]) -> Option<CalendarDay>
    requires { 8 ≤ length bytes.now }
    ensures value { result ≡ recur.date bytes.now }
    ensures real { IfSome result (λ d. recur.IsCalendarDay d) }
{
    let year = number(&bytes[..4], 4, 9999)?;
    let month = number(&bytes[4..6], 2, 99)?;
    let day = number(&bytes[6..8], 2, 99)?;
    if !gregorian::is_date(year as i32, month, day) {
        return None;
    }
    Some(CalendarDay { year, month, day })
}

// `THHMMSS`, after a date.
fn time(bytes: &[u8]) -> Option<ClockTime>
    requires { 15 ≤ length bytes.now }
    ensures value { result ≡ recur.time bytes.now }
    ensures real { IfSome result (λ t. recur.IsClockTime t) }
{
    if !is_letter(bytes[8], b'T') {
        return None;
    }
    let hour = number(&bytes[9..11], 2, 23)?;
    let minute = number(&bytes[11..13], 2, 59)?;
    let second = number(&bytes[13..15], 2, 59)?;
    Some(ClockTime {
        hour,
        minute,
        second,
    })
}

fn is_letter(byte: u8, letter: u8) -> bool
    ensures { result ≡ (to_ascii_uppercase byte == letter) }
{
    byte.to_ascii_uppercase() == letter
}

// A date, a local date-time, or one in UTC.
fn until(bytes: &[u8]) -> Option<RuleEnd>
    ensures value { result ≡ recur.until bytes.now }
    ensures real { IfSome result (λ e. recur.IsEnd e) }
{
    if bytes.len() == 8 {
        return Some(RuleEnd::Date(date(bytes)?));
    }
    if bytes.len() == 15 {
        return Some(RuleEnd::Local(date(bytes)?, time(bytes)?));
    }
    if bytes.len() != 16 || !is_letter(bytes[15], b'Z') {
        return None;
    }
    Some(RuleEnd::Utc(date(bytes)?, time(bytes)?))
}

fn count(bytes: &[u8], at: usize) -> Result<u32, RuleTextError>
    ensures { result ≡ recur.count at bytes.now }
{
    expect(
        number(bytes, bytes.len(), u32::MAX),
        at,
        RuleExpected::Number,
    )
}

// The parts that a text has.
#[derive(Drop)]
pub(crate) struct Parts {
    pub(crate) frequency: Option<Frequency>,
    pub(crate) interval: Option<u32>,
    pub(crate) week_start: Option<Weekday>,
    pub(crate) by_month: Vec<u32>,
    pub(crate) by_week_number: Vec<i32>,
    pub(crate) by_year_day: Vec<i32>,
    pub(crate) by_month_day: Vec<i32>,
    pub(crate) by_weekday: Vec<NthWeekday>,
    pub(crate) by_hour: Vec<u32>,
    pub(crate) by_minute: Vec<u32>,
    pub(crate) by_second: Vec<u32>,
    pub(crate) by_set_position: Vec<i32>,
    pub(crate) end: RuleEnd,
}

impl Model for Parts {
    ghost use Rattle.naive_rrule.specs.RuleTexts.{IsEnd, RuleParts};

    ghost Value = { RuleParts };

    ghost view = { λ p. record {
      frequency = p.frequency;
      interval = p.interval;
      week_start = p.week_start;
      by_month = p.by_month.items;
      by_week_number = p.by_week_number.items;
      by_year_day = p.by_year_day.items;
      by_month_day = p.by_month_day.items;
      by_weekday = p.by_weekday.items;
      by_hour = p.by_hour.items;
      by_minute = p.by_minute.items;
      by_second = p.by_second.items;
      by_set_position = p.by_set_position.items;
      end = p.end;
    } };

    ghost invariant = { λ p. IsEnd p.end };
}

impl Parts {
    fn none(alloc: Global) -> Parts
        ensures { result ≡ recur.none }
    {
        Parts {
            frequency: None,
            interval: None,
            week_start: None,
            by_month: Vec::new(alloc),
            by_week_number: Vec::new(alloc),
            by_year_day: Vec::new(alloc),
            by_month_day: Vec::new(alloc),
            by_weekday: Vec::new(alloc),
            by_hour: Vec::new(alloc),
            by_minute: Vec::new(alloc),
            by_second: Vec::new(alloc),
            by_set_position: Vec::new(alloc),
            end: RuleEnd::Never,
        }
    }

    fn has(&self, name: PartName) -> bool
        ensures { result ≡ recur.has name self.now }
    {
        match name {
            PartName::Freq => self.frequency.is_some(),
            PartName::Interval => self.interval.is_some(),
            PartName::Count | PartName::Until => !self.end.is_open(),
            PartName::Wkst => self.week_start.is_some(),
            PartName::ByMonth => self.by_month.len() > 0,
            PartName::ByWeekNo => self.by_week_number.len() > 0,
            PartName::ByYearDay => self.by_year_day.len() > 0,
            PartName::ByMonthDay => self.by_month_day.len() > 0,
            PartName::ByDay => self.by_weekday.len() > 0,
            PartName::ByHour => self.by_hour.len() > 0,
            PartName::ByMinute => self.by_minute.len() > 0,
            PartName::BySecond => self.by_second.len() > 0,
            PartName::BySetPos => self.by_set_position.len() > 0,
        }
    }

    // Adds a part's value, which begins at a position.
    fn set(
        &mut self,
        alloc: Global,
        name: PartName,
        bytes: &[u8],
        at: usize,
    ) -> Result<(), RuleTextError>
        requires { at + length bytes.now < 2 ^ 63 }
        ensures { recur.IsRead (λ _. self.new) result (recur.with_value name at bytes.now self.old) }
    {
        match name {
            PartName::Freq => {
                self.frequency = Some(expect(frequency(bytes), at, RuleExpected::Frequency)?);
                Ok(())
            }
            PartName::Interval => {
                self.interval = Some(count(bytes, at)?);
                Ok(())
            }
            PartName::Count => {
                self.end = RuleEnd::Count(count(bytes, at)?);
                Ok(())
            }
            PartName::Until => {
                self.end = expect(until(bytes), at, RuleExpected::DateOrDateTime)?;
                Ok(())
            }
            PartName::Wkst => {
                self.week_start = Some(expect(weekday(bytes), at, RuleExpected::Weekday)?);
                Ok(())
            }
            PartName::ByMonth => {
                self.by_month = list(alloc, bytes, 2, RuleExpected::Number, at)?;
                Ok(())
            }
            PartName::ByWeekNo => {
                self.by_week_number = list(alloc, bytes, 2, RuleExpected::Number, at)?;
                Ok(())
            }
            PartName::ByYearDay => {
                self.by_year_day = list(alloc, bytes, 3, RuleExpected::Number, at)?;
                Ok(())
            }
            PartName::ByMonthDay => {
                self.by_month_day = list(alloc, bytes, 2, RuleExpected::Number, at)?;
                Ok(())
            }
            PartName::ByDay => {
                self.by_weekday = list(alloc, bytes, 2, RuleExpected::Weekday, at)?;
                Ok(())
            }
            PartName::ByHour => {
                self.by_hour = list(alloc, bytes, 2, RuleExpected::Number, at)?;
                Ok(())
            }
            PartName::ByMinute => {
                self.by_minute = list(alloc, bytes, 2, RuleExpected::Number, at)?;
                Ok(())
            }
            PartName::BySecond => {
                self.by_second = list(alloc, bytes, 2, RuleExpected::Number, at)?;
                Ok(())
            }
            PartName::BySetPos => {
                self.by_set_position = list(alloc, bytes, 3, RuleExpected::Number, at)?;
                Ok(())
            }
        }
    }

    // Adds a part, `NAME=value`, which begins at a position.
    #[tactic(auto, using(crate::proofs::Texts::parts))]
    fn add(&mut self, alloc: Global, part: &[u8], at: usize) -> Result<(), RuleTextError>
        requires { at + length part.now < 2 ^ 63 }
        ensures { recur.IsRead (λ _. self.new) result (recur.with_part at part.now self.old) }
    {
        let (front, after) = cut(part, b'=');
        let name = expect(part_name(front), at, RuleExpected::PartName)?;
        if self.has(name) {
            return Err(RuleTextError::Syntax(at, RuleExpected::OtherPart));
        }
        let Some(value) = after else {
            return Err(RuleTextError::Syntax(at + part.len(), RuleExpected::EqualsSign));
        };
        self.set(alloc, name, value, at + front.len() + 1)
    }
}

// The parts of a text.
#[tactic(auto, using(crate::proofs::Texts::parts))]
fn read_parts(alloc: Global, bytes: &[u8]) -> Result<Parts, RuleTextError>
    ensures { recur.IsRead (λ p. p) result
        (recur.with_parts 0 (recur.pieces 59 bytes.now) recur.none) }
{
    let mut parts = Parts::none(alloc);
    let mut rest = bytes;
    let mut at = 0;
    'parts: loop {
        let (part, after) = cut(rest, b';');
        parts.add(alloc, part, at)?;
        let Some(more) = after else {
            return Ok(parts);
        };
        at += part.len() + 1;
        rest = more;
    }
}

/// A rule of RFC 5545 and its end, read from the text of a `RECUR` value (section 3.3.10). It owns its
/// lists, and prints as the RFC writes it.
///
/// ```
/// // from 2024-01-01 09:00:00 on: the last Friday of each month
/// let rule = RuleText::parse(alloc, "FREQ=MONTHLY;BYDAY=-1FR")?;
/// let plan = Recurrence::new(rule.rule(), start, rule.end(offset))?;
/// let first = plan.next_after(&start); // Some(2024-01-26 09:00:00)
/// ```
#[derive(Drop)]
pub struct RuleText {
    pub(crate) frequency: Frequency,
    pub(crate) parts: Parts,
}

impl Model for RuleText {
    ghost use Rattle.std.specs.Prelude.{◌≡◌, Some};
    ghost use Rattle.naive_rrule.specs.RuleTexts.{RuleParts};

    ghost Value = { RuleParts };

    ghost view = { λ r. r.parts };

    ghost invariant = { λ r. r.parts.frequency ≡ Some r.frequency };
}

impl RuleText {
    /// Returns the rule that a text spells: parts such as `FREQ=MONTHLY`, with semicolons between, in
    /// any order, each at most once. Letters may be in either case. [`Recurrence::new`](crate::Recurrence::new)
    /// checks whether the RFC allows the rule.
    ///
    /// # Errors
    ///
    /// [`RuleTextError::Syntax`] with the position of the first fault, in bytes, and what was expected
    /// there: that of the part, of its value or of the entry of its list, or the end of the text if `FREQ`
    /// is missing. [`RuleTextError::OutOfMemory`] only after an allocation failed.
    pub fn parse(alloc: Global, rule: &str) -> Result<RuleText, RuleTextError>
        ensures { recur.IsRead (λ r. r) result (recur.rule_of rule.now) }
    {
        let parts = read_parts(alloc, rule.as_bytes())?;
        match parts.frequency {
            Some(frequency) => Ok(RuleText { frequency, parts }),
            None => Err(RuleTextError::Syntax(rule.len(), RuleExpected::FrequencyPart)),
        }
    }

    /// Returns its parts but `COUNT` and `UNTIL`. `INTERVAL` is 1 and weeks begin on Monday if the text
    /// doesn't say it.
    pub fn rule(&self) -> RecurrenceRule<'_>
        ensures { recur.IsRuleOf self.now result }
    {
        RecurrenceRule {
            frequency: self.frequency,
            interval: self.parts.interval.unwrap_or(1),
            week_start: self.parts.week_start.unwrap_or(Weekday::Mon),
            by_month: &self.parts.by_month,
            by_week_number: &self.parts.by_week_number,
            by_year_day: &self.parts.by_year_day,
            by_month_day: &self.parts.by_month_day,
            by_weekday: &self.parts.by_weekday,
            by_hour: &self.parts.by_hour,
            by_minute: &self.parts.by_minute,
            by_second: &self.parts.by_second,
            by_set_position: &self.parts.by_set_position,
        }
    }

    /// Returns its end. An `UNTIL` in UTC is what clocks at that offset show then: look it up at
    /// [`RuleText::until_utc`]. Other ends don't depend on it. A date lets its whole day through.
    pub fn end(&self, offset: FixedOffset) -> RecurrenceEnd
        ensures { recur.IsLocalEnd self.now.end (seconds_of offset) result }
    {
        match self.parts.end {
            RuleEnd::Never => RecurrenceEnd::Never,
            RuleEnd::Count(count) => RecurrenceEnd::Count(count),
            RuleEnd::Date(day) => RecurrenceEnd::Until(day.at(&LAST_TIME)),
            RuleEnd::Local(day, time) => RecurrenceEnd::Until(day.at(&time)),
            RuleEnd::Utc(day, time) => {
                RecurrenceEnd::Until(day.at(&time).overflowing_add_offset(offset))
            }
        }
    }

    /// Returns its `UNTIL`, if that is in UTC.
    pub fn until_utc(&self) -> Option<NaiveDateTime>
        ensures { option_map (λ l. (reading l).s) result ≡ recur.utc_of self.now.end }
    {
        match self.parts.end {
            RuleEnd::Utc(day, time) => Some(day.at(&time)),
            _ => None,
        }
    }
}
