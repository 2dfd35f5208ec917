//! How lengths of time print.
ghost use Rattle.std.specs.{Fmt.{decimal}, Prelude.{◌≡◌, ◌<◌, ◌≤◌, ◌+◌, ◌++◌, length, Some}};
ghost use Rattle.{
  offset_core.specs.{Digits.{in_digits}, Nanoseconds.{FitsTimeDelta}},
  offset_core.specs.LengthText.{length_text, part_text, printed_length, seconds_text, without_zeros},
};

use crate::{ShortText, TimeDelta};
use std::fmt;

impl fmt::Display for TimeDelta {
    ghost output = { λ delta. Some (printed_length delta) };

    ghost styled_output = { λ delta _. Some (printed_length delta) };

    fn fmt<W: fmt::Write>(&self, f: &mut fmt::Formatter<W>) -> fmt::Result {
        let text = text_of(self.whole_nanoseconds());
        f.write_str(text.as_str())
    }
}

fn text_of(nanos: i128) -> ShortText
    requires { FitsTimeDelta nanos }
    ensures { result ≡ length_text nanos }
{
    let mut text = ShortText::new();
    if nanos == 0 {
        text.push(b'P');
        text.push(b'0');
        text.push(b'D');
        return text;
    }
    if nanos < 0 {
        text.push(b'-');
        push_seconds(nanos.unsigned_abs(), &mut text);
        return text;
    }
    push_seconds(nanos.unsigned_abs(), &mut text);
    text
}

// `PT`, the whole seconds of a number of nanoseconds, their fraction and `S`.
#[tactic(auto, using(crate::proofs::Digits::seconds_fit))]
fn push_seconds(nanos: u128, text: &mut ShortText)
    requires nanos { nanos < 10_000_000_000_000_000_000_000_000 }
    requires room { length text.old ≤ 1 }
    ensures { text.new ≡ text.old ++ seconds_text nanos }
{
    text.push(b'P');
    text.push(b'T');
    push_decimal((nanos / 1_000_000_000) as u64, text);
    push_part((nanos % 1_000_000_000) as u32, text);
    text.push(b'S');
}

// A number in as many digits as it has.
#[tactic(auto, using(crate::proofs::Digits::decimals))]
fn push_decimal(number: u64, text: &mut ShortText)
    requires { length text.old + length (decimal number) ≤ 32 }
    ensures text { text.new ≡ text.old ++ decimal number }
    ensures len { length text.new ≡ length text.old + length (decimal number) }
{
    if number < 10 {
        return text.push(b'0' + number as u8);
    }
    push_decimal(number / 10, text);
    text.push(b'0' + (number % 10) as u8);
}

// A point and the digits of a fraction of a second in nanoseconds; nothing for 0.
fn push_part(nanos: u32, text: &mut ShortText)
    requires nanos { nanos < 1_000_000_000 }
    requires room { length text.old + 10 ≤ 32 }
    ensures text { text.new ≡ text.old ++ part_text nanos }
    ensures len { length text.new ≤ length text.old + 10 }
{
    if nanos == 0 {
        return;
    }
    text.push(b'.');
    push_digits(9, nanos, text);
}

// The last `count` digits of a number, without the zeros at their end.
#[tactic(auto, unfolding(crate::specs::LengthText::without_zeros))]
fn push_digits(count: u32, number: u32, text: &mut ShortText)
    requires count { count ≤ 9 }
    requires room { length text.old + count ≤ 32 }
    ensures text { text.new ≡ text.old ++ without_zeros count number }
    ensures len { length text.new ≤ length text.old + count }
{
    if count == 0 {
        return;
    }
    if number % 10 == 0 {
        return push_digits(count - 1, number / 10, text);
    }
    push_number(count, number, text);
}

// The last `count` digits of a number.
#[tactic(auto, unfolding(crate::specs::Digits::in_digits))]
fn push_number(count: u32, number: u32, text: &mut ShortText)
    requires count { count ≤ 9 }
    requires room { length text.old + count ≤ 32 }
    ensures text { text.new ≡ text.old ++ in_digits count number }
    ensures len { length text.new ≡ length text.old + count }
{
    if count == 0 {
        return;
    }
    push_number(count - 1, number / 10, text);
    text.push(b'0' + (number % 10) as u8);
}
