//! Short printed texts, made in place.
ghost use Rattle.std.specs.Prelude.{◌≡◌, ◌+◌, ◌<◌, ◌≤◌, [], ◌∷◌, ◌++◌, length};
ghost use Rattle.offset_core.specs.Digits.{in_digits};

use std::fmt;
use std::marker::Model;

/// A text of at most 48 bytes, made piece by piece with no allocation: a local date-time of a year
/// of six digits with its sign and nine digits of a fraction has 32, and an offset 9 more.
///
/// What prints in one piece is made here and written at once, which takes a fraction of the time
/// that a formatter's pieces take.
#[derive(Drop)]
pub struct ShortText {
    bytes: [u8; 48],
    len: usize,
}

impl Model for ShortText {
    ghost use Rattle.std.specs.{Prelude.{◌≤◌, take, List, ℕ}, Str.{IsUtf8}};

    ghost Value = { List ℕ };

    ghost view = { λ text. take text.len text.bytes };

    ghost invariant = { λ text. (text.len ≤ 48) × IsUtf8 (take text.len text.bytes) };
}

impl ShortText {
    /// The empty text.
    pub fn new() -> ShortText
        ensures { result ≡ [] }
    {
        ShortText {
            bytes: [0; 48],
            len: 0,
        }
    }

    /// Appends an ASCII byte. Requires: the text has less than 48 bytes.
    pub fn push(&mut self, byte: u8)
        requires ascii { byte < 128 }
        requires room { length self.old < 48 }
        ensures text { self.new ≡ self.old ++ (byte ∷ []) }
        ensures len { length self.new ≡ length self.old + 1 }
    {
        self.bytes[self.len] = byte;
        self.len += 1;
    }

    /// Appends a number below 100 in two digits. Requires: there is room for them within 48 bytes.
    #[tactic(auto, unfolding(crate::specs::Digits::in_digits))]
    pub fn push_two_digits(&mut self, number: u32)
        requires number { number < 100 }
        requires room { length self.old + 2 ≤ 48 }
        ensures text { self.new ≡ self.old ++ in_digits 2 number }
        ensures len { length self.new ≡ length self.old + 2 }
    {
        self.push(b'0' + (number / 10) as u8);
        self.push(b'0' + (number % 10) as u8);
    }

    /// Appends a number below 1000 in three digits. Requires: there is room for them within 48
    /// bytes.
    #[tactic(auto, unfolding(crate::specs::Digits::in_digits))]
    pub fn push_three_digits(&mut self, number: u32)
        requires number { number < 1_000 }
        requires room { length self.old + 3 ≤ 48 }
        ensures text { self.new ≡ self.old ++ in_digits 3 number }
        ensures len { length self.new ≡ length self.old + 3 }
    {
        self.push(b'0' + (number / 100) as u8);
        self.push_two_digits(number % 100);
    }

    /// Appends a number below 10,000 in four digits. Requires: there is room for them within 48
    /// bytes.
    #[tactic(auto, unfolding(crate::specs::Digits::in_digits))]
    pub fn push_four_digits(&mut self, number: u32)
        requires number { number < 10_000 }
        requires room { length self.old + 4 ≤ 48 }
        ensures text { self.new ≡ self.old ++ in_digits 4 number }
        ensures len { length self.new ≡ length self.old + 4 }
    {
        self.push_two_digits(number / 100);
        self.push_two_digits(number % 100);
    }

    /// The text.
    pub fn as_str(&self) -> &str
        ensures { result.now ≡ self.now }
    {
        unsafe { std::str::from_utf8_unchecked(&self.bytes[..self.len]) }
    }
}

/// Appends a text, or returns an error if there is no room for it.
impl fmt::Write for ShortText {
    ghost write_str_gives = { λ old bytes new. new ≡ old ++ bytes };

    fn write_str(&mut self, s: &str) -> fmt::Result {
        let bytes = s.as_bytes();
        if bytes.len() > 48 - self.len {
            return Err(fmt::Error);
        }
        let end = self.len + bytes.len();
        self.bytes[self.len..end].copy_from_slice(bytes);
        self.len = end;
        Ok(())
    }
}
