//! Words of a line.

ghost use Rattle.std.specs.Prelude.{◌≡◌, ◌∷◌, MatchOption};
ghost use Rattle.tz_base.specs.Grammar.{Byte, Without};
ghost use Rattle.zoneq_lib.specs.{Questions.{Begins, Word}, Steps.LineReading.{scan, ReadsAs}};

use crate::bad_line::{BadLine, stop};

/// Returns whether a text begins with a word, as its first byte says, and the bytes after the word.
#[tactic(auto, unfolding(crate::specs::Questions::Begins, tz_base::specs::Fronts::optional_tag_at))]
pub fn strip_word<'a>(text: &'a [u8], word: &[u8]) -> Result<(bool, &'a [u8]), BadLine>
    ensures { ReadsAs (λ p. (p.0, p.1.now)) result (scan (Begins word.now) text.now) }
{
    match word.split_first() {
        Some((first, others)) => match strip_byte(text, *first) {
            Some(rest) => {
                let rest = strip_bytes(rest, others)?;
                Ok((true, rest))
            }
            None => Ok((false, text)),
        },
        None => Ok((true, text)),
    }
}

// The bytes after these ones.
#[tactic(auto, unfolding(crate::specs::Questions::Word, tz_base::specs::Fronts::tag_at))]
fn strip_bytes<'a>(text: &'a [u8], word: &[u8]) -> Result<&'a [u8], BadLine>
    ensures { ReadsAs (λ rest. (tt, rest.now)) result (scan (Word word.now) text.now) }
{
    let mut rest = text;
    for byte in word {
        match strip_byte(rest, *byte) {
            Some(more) => rest = more,
            None => return Err(stop(rest)),
        }
    }
    Ok(rest)
}

/// Returns the bytes after that one, if a text begins with it.
pub fn strip_byte(text: &[u8], byte: u8) -> Option<&[u8]>
    ensures { MatchOption result (Without byte text.now) (λ rest. text.now ≡ byte ∷ rest.now) }
{
    match text.split_first() {
        Some((first, rest)) => if byte == *first { Some(rest) } else { None },
        None => None,
    }
}

/// Returns the bytes after that one, which must come.
#[tactic(auto, unfolding(tz_base::specs::Fronts::tag_at))]
pub fn expect_byte(text: &[u8], byte: u8) -> Result<&[u8], BadLine>
    ensures { ReadsAs (λ rest. (tt, rest.now)) result (scan (Byte byte) text.now) }
{
    match strip_byte(text, byte) {
        Some(rest) => Ok(rest),
        None => Err(stop(text)),
    }
}
