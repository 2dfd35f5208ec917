//! The reader of TZ strings.

ghost use Rattle.std.specs.{Prelude.{◌≡◌, IfErr, IfOk, Some}, Result.{IsOkAnd}};
ghost use Rattle.tz_info.specs.{Steps.Spelled.{IsParsed}, TzGrammar.{text_fault_position, IsTextFault, IsTzText}};

mod clock;
mod date;
mod name;
pub(crate) mod text;

use crate::rule::transition_rule::TransitionRule;
use text::{Spelled, read_text, rule_of};
use tz_base::{Cursor, Error, ParseError};

impl TransitionRule {
    /// The rule that a TZ string spells, as `EST5EDT,M3.2.0,M11.1.0` (POSIX.1 section 8.3). With
    /// extensions a time of day may have a sign and hours up to 167, as in the footer of a TZif
    /// file of version 3 (RFC 8536 section 3.3.1).
    ///
    /// # Errors
    ///
    /// The first of these faults in the string: [`Error::UnexpectedEnd`] or
    /// [`Error::MissingTag`] for a missing `>`, `.` or comma; [`Error::ParseInt`] for a missing
    /// number; [`Error::InvalidTzString`] for hours, minutes, seconds or an offset of
    /// daylight saving time out of their limits, and for bytes left over; [`Error::TransitionRule`]
    /// for a date out of its limits; [`Error::UnsupportedTzString`] if the string ends after the
    /// name of daylight saving time or its offset; and, looked at last, [`Error::LocalTimeType`]
    /// for a name that isn't three to seven letters, digits, `+` or `-`.
    pub fn from_tz_string(bytes: &[u8], extended: bool) -> Result<TransitionRule, Error>
        // What is read is spelled so.
        ensures found { IfOk result (λ rule. IsTzText extended bytes.now rule) }
        // What is spelled so is read.
        ensures only { (rule : TransitionRule) → IsTzText extended bytes.now rule
            → IsOkAnd result (λ r. r ≡ rule) }
        // An error is the first fault of the text.
        ensures fault { IfErr result (λ e. IsTextFault extended bytes.now e) }
    {
        Ok(TransitionRule::parse_tz_string(bytes, extended)?)
    }

    /// Returns the rule of [`TransitionRule::from_tz_string`], or its error with the place of the
    /// fault.
    ///
    /// ```
    /// if let Err(e) = TransitionRule::parse_tz_string(b"EST5EDT,M3.2.0,M13.1.0", false) {
    ///     let position = e.position; // Some(16), at the month 13
    /// }
    /// ```
    ///
    /// # Errors
    ///
    /// Those of [`TransitionRule::from_tz_string`], at the first byte with which no TZ string goes
    /// on; at the end if the string ends too soon; and at the first byte of a number, a time or a name
    /// that is out of its limits. If the offset of daylight saving time is left out, and an hour more
    /// than that of standard time is no offset, the fault is at the comma.
    #[tactic(auto, using(crate::proofs::PosixLaws::fault_by, crate::proofs::PosixLaws::found_by, crate::proofs::PosixLaws::only_by))]
    pub fn parse_tz_string(bytes: &[u8], extended: bool) -> Result<TransitionRule, ParseError>
        // What is read is spelled so.
        ensures found { IfOk result (λ rule. IsTzText extended bytes.now rule) }
        // What is spelled so is read.
        ensures only { (rule : TransitionRule) → IsTzText extended bytes.now rule
            → IsOkAnd result (λ r. r ≡ rule) }
        // An error is the first fault of the text.
        ensures fault { IfErr result (λ e. IsTextFault extended bytes.now e.error) }
        // Its place is that of the fault.
        ensures place { IfErr result
            (λ e. e.position ≡ Some (text_fault_position extended bytes.now)) }
    {
        Ok(rule_of(read_all(bytes, extended)?))
    }
}

// What all the bytes spell.
#[tactic(auto, unfolding(crate::specs::Steps::Spelled::rule_in))]
pub(crate) fn read_all(bytes: &[u8], extended: bool) -> Result<Spelled, ParseError>
    ensures { IsParsed extended bytes.now result }
{
    let mut cursor = Cursor::new(bytes);
    match read_text(extended, &mut cursor) {
        Ok(spelled) => Ok(spelled),
        Err(error) => Err(ParseError {
            error,
            position: Some(bytes.len().saturating_sub(cursor.remaining().len())),
        }),
    }
}
