//! The footer of a file (RFC 8536 section 3.3).

ghost use Rattle.std.specs.Prelude.{◌≡◌, option_map, IfOk, IfSome};
ghost use Rattle.{
  tz_base.specs.Grammar.{IsRead},
  tz_info.specs.{Footers.{footer, footer_text, optional_footer, utf8}, Steps.Spelled.{rule_of, IsSpelled}},
};

use crate::rule::reader::text::{Spelled, read_text};
use std::str;
use tz_base::place::{after, fault_inside};
use tz_base::trims::{after_space, trimmed};
use tz_base::{Cursor, Error, Expected};
use tz_file::{Pieces, byte_or_zero, read_to_zero};

/// What the footer spells, if it has a rule.
#[tactic(auto, unfolding(crate::specs::Footers::optional_footer))]
pub fn read_footer_rule<'a>(
    pieces: &Pieces<'a>,
    cursor: &mut Cursor<'a>,
) -> Result<Option<Spelled>, Error>
    ensures value { IsRead (optional_footer pieces.now.extended (option_map (λ f. f.now) pieces.now.footer))
        cursor.old (option_map rule_of) result cursor.new }
    ensures limits { IfOk result (λ found. IfSome found (λ spelled. IsSpelled spelled)) }
{
    match pieces.footer {
        Some(bytes) => {
            let mut inside = Cursor::new(bytes);
            match read_footer(pieces.extended, &mut inside) {
                Ok(spelled) => Ok(spelled),
                Err(error) => {
                    *cursor = fault_inside(bytes, &inside, bytes);
                    Err(error)
                }
            }
        }
        None => Ok(None),
    }
}

// The TZ string between two newlines, or `None` if that is empty. One newline alone begins and ends
// the footer.
#[tactic(auto, unfolding(crate::specs::Footers::footer, crate::specs::Footers::newline))]
fn read_footer(extended: bool, cursor: &mut Cursor<'_>) -> Result<Option<Spelled>, Error>
    ensures value { IsRead (footer extended) cursor.old (option_map rule_of) result cursor.new }
    ensures limits { IfOk result (λ found. IfSome found (λ spelled. IsSpelled spelled)) }
{
    let bytes = cursor.remaining();
    check_utf8(cursor)?;
    if byte_or_zero(bytes, 0) != b'\n' {
        return Err(Error::InvalidTzFile(Expected::FooterBetweenNewlines));
    }
    if byte_or_zero(bytes, bytes.len().saturating_sub(1)) != b'\n' {
        *cursor = Cursor::new(&[]);
        return Err(Error::InvalidTzFile(Expected::FooterBetweenNewlines));
    }
    let text = trimmed(bytes);
    let mut inside = Cursor::new(text);
    match read_footer_text(extended, &mut inside) {
        Ok(spelled) => Ok(spelled),
        Err(error) => {
            *cursor = fault_inside(text, &inside, after_space(bytes));
            Err(error)
        }
    }
}

#[tactic(auto, using(crate::proofs::TzFileLaws::utf8_tests), unfolding(crate::specs::Footers::utf8))]
fn check_utf8(cursor: &mut Cursor<'_>) -> Result<(), Error>
    ensures { IsRead utf8 cursor.old (λ unit. unit) result cursor.new }
{
    let bytes = cursor.remaining();
    match str::from_utf8(bytes) {
        Ok(_) => Ok(()),
        Err(error) => {
            *cursor = Cursor::new(after(bytes, error.valid_up_to()));
            Err(Error::Utf8(Expected::FooterInUtf8))
        }
    }
}

// A colon in front would name a file, and a 0 byte is in no TZ string.
#[tactic(auto, unfolding(crate::specs::Footers::footer_text))]
fn read_footer_text(extended: bool, cursor: &mut Cursor<'_>) -> Result<Option<Spelled>, Error>
    ensures value { IsRead (footer_text extended) cursor.old (option_map rule_of) result cursor.new }
    ensures limits { IfOk result (λ found. IfSome found (λ spelled. IsSpelled spelled)) }
{
    let bytes = cursor.remaining();
    if cursor.read_optional_tag(b":") {
        *cursor = Cursor::new(bytes);
        return Err(Error::InvalidTzFile(Expected::TzTextInFooter));
    }
    let mut inside = Cursor::new(bytes);
    let _front = read_to_zero(&mut inside);
    if !inside.is_empty() {
        *cursor = fault_inside(bytes, &inside, bytes);
        return Err(Error::InvalidTzFile(Expected::TzTextInFooter));
    }
    if cursor.is_empty() {
        return Ok(None);
    }
    Ok(Some(read_text(extended, cursor)?))
}
