//! How dates, times and local date-times print.
ghost use Rattle.std.specs.{Fmt.{decimal}, Prelude.{◌≡◌, ◌<◌, ◌≤◌, ◌+◌, ◌++◌, length, Some}};
ghost use Rattle.{
  naive_base.specs.{IsoWeek.{printed_week}, NaiveTime.{printed_time}, Range.{IsWideYear}, NaiveDate.{printed_date}},
  naive_base.specs.NaiveDateTime.{debug_reading, printed_reading, reading},
  naive_base.specs.Text.{clock_text, four_digits, fraction_text, reading_text, year_text},
};

use crate::{IsoWeek, NaiveDate, NaiveDateTime, NaiveTime, Timelike};
use offset_core::ShortText;
use std::fmt;

impl fmt::Display for NaiveDate {
    ghost output = { λ date. Some (printed_date date) };

    ghost styled_output = { λ date _. Some (printed_date date) };

    fn fmt<W: fmt::Write>(&self, f: &mut fmt::Formatter<W>) -> fmt::Result {
        let mut text = ShortText::new();
        push_date(*self, &mut text);
        f.write_str(text.as_str())
    }
}

impl fmt::Debug for NaiveDate {
    ghost debug_output = { λ date. Some (printed_date date) };

    fn fmt<W: fmt::Write>(&self, f: &mut fmt::Formatter<W>) -> fmt::Result {
        fmt::Display::fmt(self, f)
    }
}

impl fmt::Display for NaiveTime {
    ghost output = { λ time. Some (printed_time time) };

    ghost styled_output = { λ time _. Some (printed_time time) };

    fn fmt<W: fmt::Write>(&self, f: &mut fmt::Formatter<W>) -> fmt::Result {
        let mut text = ShortText::new();
        push_time(*self, &mut text);
        f.write_str(text.as_str())
    }
}

impl fmt::Debug for NaiveTime {
    ghost debug_output = { λ time. Some (printed_time time) };

    fn fmt<W: fmt::Write>(&self, f: &mut fmt::Formatter<W>) -> fmt::Result {
        fmt::Display::fmt(self, f)
    }
}

impl fmt::Display for NaiveDateTime {
    ghost output = { λ datetime. Some (printed_reading datetime) };

    ghost styled_output = { λ datetime _. Some (printed_reading datetime) };

    fn fmt<W: fmt::Write>(&self, f: &mut fmt::Formatter<W>) -> fmt::Result {
        let text = text_of(*self, b' ');
        f.write_str(text.as_str())
    }
}

impl fmt::Debug for NaiveDateTime {
    ghost debug_output = { λ datetime. Some (debug_reading datetime) };

    fn fmt<W: fmt::Write>(&self, f: &mut fmt::Formatter<W>) -> fmt::Result {
        let text = text_of(*self, b'T');
        f.write_str(text.as_str())
    }
}

impl fmt::Debug for IsoWeek {
    ghost debug_output = { λ week. Some (printed_week week) };

    fn fmt<W: fmt::Write>(&self, f: &mut fmt::Formatter<W>) -> fmt::Result {
        let mut text = ShortText::new();
        push_week(*self, &mut text);
        f.write_str(text.as_str())
    }
}

fn push_week(week: IsoWeek, text: &mut ShortText)
    requires { length text.old + 11 ≤ 32 }
    ensures { text.new ≡ text.old ++ printed_week week }
{
    push_year(week.year(), text);
    text.push(b'-');
    text.push(b'W');
    text.push_two_digits(week.week());
}

// A local date-time, with that byte between its date and its time.
fn text_of(datetime: NaiveDateTime, between: u8) -> ShortText
    requires { between < 128 }
    ensures { result ≡ reading_text between (reading datetime) }
{
    let mut text = ShortText::new();
    push_date(datetime.date(), &mut text);
    text.push(between);
    push_time(datetime.time(), &mut text);
    text
}

fn push_date(date: NaiveDate, text: &mut ShortText)
    requires room { length text.old + 13 ≤ 32 }
    ensures text { text.new ≡ text.old ++ printed_date date }
    ensures len { length text.new ≤ length text.old + 13 }
{
    let date = date.year_month_day();
    push_year(date.year, text);
    text.push(b'-');
    text.push_two_digits(date.month);
    text.push(b'-');
    text.push_two_digits(date.day);
}

// A year in at least four digits, with its sign unless it has just four.
#[tactic(auto, unfolding(crate::specs::Text::year_text))]
fn push_year(year: i32, text: &mut ShortText)
    requires year { IsWideYear year }
    requires room { length text.old + 7 ≤ 32 }
    ensures text { text.new ≡ text.old ++ year_text year }
    ensures len { length text.new ≤ length text.old + 7 }
{
    let number = year.unsigned_abs();
    if year < 0 {
        text.push(b'-');
    } else if year > 9999 {
        text.push(b'+');
    }
    push_four(number, text);
}

// A number in at least four digits.
#[tactic(auto, using(crate::proofs::Digits::printed))]
fn push_four(number: u32, text: &mut ShortText)
    requires number { number < 1_000_000 }
    requires room { length text.old + 6 ≤ 32 }
    ensures text { text.new ≡ text.old ++ four_digits number }
    ensures len { length text.new ≤ length text.old + 6 }
{
    if number < 10_000 {
        return text.push_four_digits(number);
    }
    push_short(number / 10_000, text);
    text.push_four_digits(number % 10_000);
}

// A number in one digit or two.
#[tactic(auto, using(crate::proofs::Digits::printed))]
fn push_short(number: u32, text: &mut ShortText)
    requires number { number < 100 }
    requires room { length text.old + 2 ≤ 32 }
    ensures text { text.new ≡ text.old ++ decimal number }
    ensures len { length text.new ≤ length text.old + 2 }
{
    if number < 10 {
        return text.push(b'0' + number as u8);
    }
    text.push_two_digits(number);
}

// A leap second prints as the second after the one that it follows.
fn push_time(time: NaiveTime, text: &mut ShortText)
    requires { length text.old + 18 ≤ 32 }
    ensures { text.new ≡ text.old ++ printed_time time }
{
    let second = time.num_seconds_from_midnight();
    let (hour, minute, second) = (second / 3600, second / 60 % 60, second % 60);
    let fraction = time.nanosecond();
    if fraction < 1_000_000_000 {
        push_clock(hour, minute, second, text);
        return push_fraction(fraction, text);
    }
    push_clock(hour, minute, second + 1, text);
    push_fraction(fraction - 1_000_000_000, text);
}

fn push_clock(hour: u32, minute: u32, second: u32, text: &mut ShortText)
    requires hour { hour < 100 }
    requires minute { minute < 100 }
    requires second { second < 100 }
    requires room { length text.old + 8 ≤ 32 }
    ensures text { text.new ≡ text.old ++ clock_text hour minute second }
    ensures len { length text.new ≡ length text.old + 8 }
{
    text.push_two_digits(hour);
    text.push(b':');
    text.push_two_digits(minute);
    text.push(b':');
    text.push_two_digits(second);
}

// Nothing for 0, else 3, 6 or 9 digits.
#[tactic(auto, using(crate::proofs::Digits::printed))]
fn push_fraction(nanos: u32, text: &mut ShortText)
    requires fraction { nanos < 1_000_000_000 }
    requires room { length text.old + 10 ≤ 32 }
    ensures { text.new ≡ text.old ++ fraction_text nanos }
{
    if nanos == 0 {
        return;
    }
    text.push(b'.');
    text.push_three_digits(nanos / 1_000_000);
    if nanos % 1_000_000 == 0 {
        return;
    }
    text.push_three_digits(nanos / 1_000 % 1_000);
    if nanos % 1_000 == 0 {
        return;
    }
    text.push_three_digits(nanos % 1_000);
}
