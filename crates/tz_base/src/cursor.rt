//! A cursor over bytes.

ghost use Rattle.std.specs.{Fn.{FnReturnsAt}, Option.{option_copied}};
ghost use Rattle.std.specs.Prelude.{EachIndex, IfOk, IsTrue, OnErr, ◌≡◌, ◌↔◌, ◌<◌, ◌≤◌, ◌++◌, [], false, length, slice_get, slice_index, true};
ghost use Rattle.{
  tz_base.specs.Fronts.{exact_at, int_at, number_within, optional_tag_at, tag_at, AllDigits, Gives},
  tz_base.specs.Grammar.{be_u32, read},
};

use crate::error::{Error, Expected};
use std::marker::Model;

/// A place in a list of bytes. Each call reads from there on, and what it returns is lent from those
/// bytes. A call that returns an error doesn't move the cursor.
#[derive(Drop)]
pub struct Cursor<'a> {
    rest: &'a [u8],
}

impl<'a> Model for Cursor<'a> {
    ghost use Rattle.std.specs.Prelude.{List, ℕ};

    ghost Value = { List ℕ };

    ghost view = { λ c. c.rest.now };
}

impl<'a> Cursor<'a> {
    /// Returns a cursor at the first of those bytes.
    pub fn new(bytes: &'a [u8]) -> Self
        ensures { result ≡ bytes.now }
    {
        Cursor { rest: bytes }
    }

    /// Returns the next byte, without going past it; `None` if no byte is left.
    pub fn peek(&self) -> Option<&u8>
        ensures { option_copied result ≡ slice_get self.now 0 }
    {
        self.rest.first()
    }

    /// Returns the bytes that are left.
    pub fn remaining(&self) -> &'a [u8]
        ensures { result.now ≡ self.now }
    {
        self.rest
    }

    /// Returns whether no byte is left.
    pub fn is_empty(&self) -> bool
        ensures { IsTrue result ↔ (self.now ≡ []) }
    {
        self.rest.is_empty()
    }

    /// Returns the next `count` bytes, and goes past them.
    ///
    /// # Errors
    ///
    /// [`Error::UnexpectedEnd`] if fewer are left.
    #[tactic(auto, unfolding(crate::specs::Fronts::exact_at))]
    pub fn read_exact(&mut self, count: usize) -> Result<&'a [u8], Error>
        ensures value { Gives (λ bytes. (bytes.now, self.new)) result (exact_at count self.old) }
        ensures err { OnErr result (self.new ≡ self.old) }
        ensures len { IfOk result (λ bytes. length bytes.now ≡ count) }
    {
        if self.rest.len() < count {
            return Err(Error::UnexpectedEnd(Expected::MoreBytes));
        }
        let (front, rest) = self.rest.split_at(count);
        self.rest = rest;
        Ok(front)
    }

    /// Returns the next four bytes as a big-endian number, and goes past them.
    ///
    /// # Errors
    ///
    /// [`Error::UnexpectedEnd`] if fewer are left.
    #[tactic(auto, unfolding(crate::specs::Grammar::be_u32))]
    pub fn read_be_u32(&mut self) -> Result<u32, Error>
        ensures value { Gives (λ n. (n, self.new)) result (read be_u32 self.old) }
        ensures err { OnErr result (self.new ≡ self.old) }
    {
        let bytes = self.read_exact(4)?;
        Ok(u32::from_be_bytes([bytes[0], bytes[1], bytes[2], bytes[3]]))
    }

    /// Goes past a tag, which must be next.
    ///
    /// # Errors
    ///
    /// [`Error::UnexpectedEnd`] if fewer bytes are left than the tag has, which is looked at first;
    /// [`Error::MissingTag`] if other bytes are next.
    #[tactic(auto, unfolding(crate::specs::Fronts::tag_at))]
    pub fn read_tag(&mut self, tag: &[u8]) -> Result<(), Error>
        ensures value { Gives (λ unit. (unit, self.new)) result (tag_at tag.now self.old) }
        ensures err { OnErr result (self.new ≡ self.old) }
    {
        if self.rest.len() < tag.len() {
            return Err(Error::UnexpectedEnd(Expected::Tag));
        }
        if !self.rest.starts_with(tag) {
            return Err(Error::MissingTag(Expected::OtherBytes));
        }
        self.rest = &self.rest[tag.len()..];
        Ok(())
    }

    /// Goes past a tag if it is next, and returns whether it was.
    #[tactic(auto, unfolding(crate::specs::Fronts::optional_tag_at))]
    pub fn read_optional_tag(&mut self, tag: &[u8]) -> bool
        ensures { (result, self.new) ≡ optional_tag_at tag.now self.old }
    {
        if self.rest.starts_with(tag) {
            self.rest = &self.rest[tag.len()..];
            true
        } else {
            false
        }
    }

    /// Returns the longest run of next bytes for which `f` holds, and goes past it.
    ///
    /// Requires: `f` may be called with every byte.
    pub fn read_while<F: Fn(&u8) -> bool + Drop>(&mut self, f: F) -> &'a [u8]
        requires { F.IsAlwaysCallable f }
        ensures whole { result.now ++ self.new ≡ self.old }
        ensures run { EachIndex result.now (λ k. FnReturnsAt F.Fn f (slice_index result.now k) true) }
        ensures stop { 0 < length self.new → FnReturnsAt F.Fn f (slice_index self.new 0) false }
    {
        let bytes = self.rest;
        let mut n = 0;
        while n < bytes.len() && f(&bytes[n]) {
            n += 1;
        }
        let (run, rest) = bytes.split_at(n);
        self.rest = rest;
        run
    }

    /// Returns the longest run of next bytes for which `f` fails, and goes past it.
    ///
    /// Requires: `f` may be called with every byte.
    pub fn read_until<F: Fn(&u8) -> bool + Drop>(&mut self, f: F) -> &'a [u8]
        requires { F.IsAlwaysCallable f }
        ensures whole { result.now ++ self.new ≡ self.old }
        ensures run { EachIndex result.now (λ k. FnReturnsAt F.Fn f (slice_index result.now k) false) }
        ensures stop { 0 < length self.new → FnReturnsAt F.Fn f (slice_index self.new 0) true }
    {
        let bytes = self.rest;
        let mut n = 0;
        while n < bytes.len() && !f(&bytes[n]) {
            n += 1;
        }
        let (run, rest) = bytes.split_at(n);
        self.rest = rest;
        run
    }

    /// Returns the number that the longest run of next ASCII digits spells, and goes past it. There
    /// may be any number of leading zeros.
    ///
    /// # Errors
    ///
    /// [`Error::ParseInt`] if no digit is next, or if the number is above `max`.
    pub fn read_int(&mut self, max: u32) -> Result<u32, Error>
        ensures value { Gives (λ n. (n, self.new)) result (int_at max self.old) }
        ensures err { OnErr result (self.new ≡ self.old) }
        ensures limit { IfOk result (λ n. n ≤ max) }
    {
        let mut ahead = Cursor { rest: self.rest };
        let digits = ahead.read_while(u8::is_ascii_digit);
        let n = number(digits, max)?;
        self.rest = ahead.rest;
        Ok(n)
    }
}

// The value of the digits.
#[tactic(auto, using(crate::proofs::RunLaws::grown))]
fn number(digits: &[u8], max: u32) -> Result<u32, Error>
    requires { AllDigits digits.now }
    ensures value { Gives (λ n. n) result (number_within max digits.now) }
    ensures limit { IfOk result (λ n. n ≤ max) }
{
    if digits.is_empty() {
        return Err(Error::ParseInt(Expected::Digit));
    }
    let mut n = 0u64;
    for digit in digits {
        n = 10 * n + (*digit - b'0') as u64;
        if n > max as u64 {
            return Err(Error::ParseInt(Expected::NumberWithinItsLimit));
        }
    }
    Ok(n as u32)
}
