//! Abbreviations of local time types.

ghost use Rattle.std.specs.{Bool.{nat_eq}, Cmp.{partial_equiv_from_equiv, Lexicographic.{nat_list_eq_equiv, pointwise}}};
ghost use Rattle.std.specs.Prelude.{◌≡◌, ◌↔◌, IsTrue, MatchResult};
ghost use Rattle.tz_base.specs.Names.{expected_of_name, is_name_byte, zero_ended, IsName};

use crate::error::{Error, Expected};
use std::fmt;
use std::marker::Model;

/// The abbreviation of a local time type, such as `CET` or `-03`: three to seven letters, digits,
/// `+` or `-` (RFC 8536 section 3.2 says that it should have three to six).
#[derive(Clone, Copy)]
pub struct TimeZoneName {
    // The bytes, and zeros after them.
    buffer: [u8; 8],
    len: u8,
}

impl Model for TimeZoneName {
    ghost use Rattle.std.specs.Prelude.{List, ℕ, take, length};

    ghost Value = { List ℕ };

    ghost use Rattle.tz_base.specs.{Names.{zero_ended}, Steps.StoredNames.{length_back, padded_back, Holds}};

    ghost view = { λ n. take n.len n.buffer };

    ghost invariant = { λ n. Holds n.buffer n.len };

    ghost inverse = { λ text. record { buffer = zero_ended text; len = length text } };

    ghost use Rattle.std.proofs.Common.{ap, ◌≡◌, refl};

    ghost inverse_ok = { λ n h i. record {
      buffer = padded_back n.buffer n.len h i;
      len = length_back n.buffer n.len h i;
    } };
}

impl TimeZoneName {
    /// Returns the name of those bytes.
    ///
    /// # Errors
    ///
    /// [`Error::LocalTimeType`] if they are fewer than three or more than seven, or if one of them
    /// is a byte other than `A` to `Z`, `a` to `z`, `0` to `9`, `+` and `-`.
    pub fn new(name: &[u8]) -> Result<TimeZoneName, Error>
        ensures { MatchResult result (λ n. IsName name.now × (n ≡ name.now))
            (λ e. (e ≡ Error.LocalTimeType (expected_of_name name.now)) × ¬ (IsName name.now)) }
    {
        let len = name.len();
        if len < 3 || len > 7 {
            return Err(Error::LocalTimeType(Expected::NameOfThreeToSevenBytes));
        }
        if !name.iter().all(|byte| is_name_byte(*byte)) {
            return Err(Error::LocalTimeType(Expected::LettersDigitsPlusOrMinusInName));
        }
        let mut buffer = [0; 8];
        buffer[..len].copy_from_slice(name);
        Ok(TimeZoneName {
            buffer,
            len: len as u8,
        })
    }

    /// Returns the bytes of the name.
    pub fn as_bytes(&self) -> &[u8]
        ensures bytes { result.now ≡ self.now }
        ensures name { IsName self.now }
    {
        &self.buffer[..self.len as usize]
    }

    /// Returns the bytes of the name, and zeros after them.
    #[inline(always)]
    pub fn zero_ended(&self) -> [u8; 8]
        ensures { result ≡ zero_ended self.now }
    {
        self.buffer
    }

    /// Returns the name as text.
    #[tactic(auto, using(crate::proofs::NameLaws::name_is_utf8))]
    pub fn as_str(&self) -> &str
        ensures { result.now ≡ self.now }
    {
        match std::str::from_utf8(self.as_bytes()) {
            Ok(text) => text,
            Err(_) => unreachable!(),
        }
    }

    /// Returns whether two names have the same bytes.
    pub fn equal(&self, other: &TimeZoneName) -> bool
        ensures { IsTrue result ↔ (self.now ≡ other.now) }
    {
        self.as_bytes() == other.as_bytes()
    }
}

impl PartialEq for TimeZoneName {
    ghost eq = { pointwise nat_eq };

    ghost laws = { partial_equiv_from_equiv nat_list_eq_equiv };

    fn eq(&self, other: &TimeZoneName) -> bool {
        self.as_bytes() == other.as_bytes()
    }
}

impl Eq for TimeZoneName {
    ghost laws = { nat_list_eq_equiv };
}

impl fmt::Debug for TimeZoneName {
    ghost use Rattle.std.specs.Prelude.{◌++◌, ◌∷◌, [], Some};

    ghost debug_output = { λ name. Some (34 ∷ (name ++ (34 ∷ []))) };

    fn fmt<W: fmt::Write>(&self, f: &mut fmt::Formatter<W>) -> fmt::Result {
        write!(f, "\"{}\"", self.as_str())
    }
}

fn is_name_byte(byte: u8) -> bool
    ensures { result ≡ is_name_byte byte }
{
    byte.is_ascii_alphanumeric() || byte == b'+' || byte == b'-'
}
