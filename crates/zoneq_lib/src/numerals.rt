//! Numbers in decimal digits, with any leading zeros.

ghost use Rattle.std.specs.{Option.{SomeIff}, Prelude.{◌≡◌, ◌<◌, ◌≤◌, ◌+◌, ◌-◌, ◌*◌, ◌^◌, ◌≤ℤ◌, neg_ℤ, pos, true, IfOk}};
ghost use Rattle.{
  tz_base.specs.{Fronts.{is_digit}, Grammar.{Number}},
  zoneq_lib.specs.{Questions.{integer, next, unix_seconds}, Steps.LineReading.{scan, ReadsAs}},
};

use crate::bad_line::BadLine;
use crate::words::{expect_byte, strip_byte};

// How far below zero an `i64` goes.
const MOST_NEGATIVE: u64 = 1 << 63;

/// Returns seconds of 64 bits and the bytes after them.
#[tactic(auto, unfolding(crate::specs::Questions::unix_seconds))]
pub fn seconds(text: &[u8]) -> Result<(i64, &[u8]), BadLine>
    ensures { ReadsAs (λ p. (p.0, p.1.now)) result (scan unix_seconds text.now) }
{
    integer(text, MOST_NEGATIVE, MOST_NEGATIVE - 1)
}

/// Returns a number, which may have a minus sign, and the bytes after it. It is at least `-least`
/// and at most `most`.
#[tactic(auto, unfolding(crate::specs::Questions::integer, tz_base::specs::Fronts::optional_tag_at))]
pub fn integer(text: &[u8], least: u64, most: u64) -> Result<(i64, &[u8]), BadLine>
    requires least { least ≤ 2 ^ 63 }
    requires most { most < 2 ^ 63 }
    ensures value { ReadsAs (λ p. (p.0, p.1.now)) result (scan (integer least most) text.now) }
    ensures least { IfOk result (λ p. neg_ℤ (pos least) ≤ℤ p.0) }
    ensures most { IfOk result (λ p. p.0 ≤ℤ pos most) }
{
    match strip_byte(text, b'-') {
        Some(digits) => {
            let (n, rest) = number(digits, least)?;
            Ok((negative(n), rest))
        }
        None => {
            let (n, rest) = number(text, most)?;
            Ok((n as i64, rest))
        }
    }
}

/// Returns the number after the one space that a text begins with, up to `max`, and the bytes
/// after it.
#[tactic(auto, unfolding(crate::specs::Questions::next))]
pub fn next_number(text: &[u8], max: u32) -> Result<(u32, &[u8]), BadLine>
    ensures value { ReadsAs (λ p. (p.0, p.1.now)) result (scan (next max) text.now) }
    ensures bound { IfOk result (λ p. p.0 ≤ max) }
{
    let rest = expect_byte(text, b' ')?;
    let (n, rest) = number(rest, u64::from(max))?;
    Ok((n as u32, rest))
}

// The number that the longest run of digits spells, up to `max`, and the bytes after it.
#[tactic(auto, using(crate::proofs::ScanLaws::number_read))]
fn number(text: &[u8], max: u64) -> Result<(u64, &[u8]), BadLine>
    ensures value { ReadsAs (λ p. (p.0, p.1.now)) result (scan (Number max) text.now) }
    ensures bound { IfOk result (λ p. p.0 ≤ max) }
{
    let mut value = 0;
    for (i, byte) in text.iter().enumerate() {
        if !byte.is_ascii_digit() {
            if i == 0 {
                return Err(BadLine::Hopeless);
            }
            let (_, rest) = text.split_at(i);
            return Ok((value, rest));
        }
        match with_digit(value, *byte, max) {
            Some(more) => value = more,
            None => return Err(BadLine::Hopeless),
        }
    }
    if text.is_empty() {
        return Err(BadLine::Unfinished);
    }
    Ok((value, b""))
}

// The number with one more digit after its own, up to `max`.
#[inline]
fn with_digit(value: u64, digit: u8, max: u64) -> Option<u64>
    requires { is_digit digit ≡ true }
    ensures { SomeIff result (10 * value + (digit - 48) ≤ max) (10 * value + (digit - 48)) }
{
    let more = value.checked_mul(10)?.checked_add(u64::from(digit - b'0'))?;
    if more <= max { Some(more) } else { None }
}

fn negative(n: u64) -> i64
    requires { n ≤ MOST_NEGATIVE }
    ensures { result ≡ neg_ℤ (pos n) }
{
    if n == MOST_NEGATIVE {
        i64::MIN
    } else {
        -(n as i64)
    }
}
