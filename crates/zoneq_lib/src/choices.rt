//! How choices for gaps and folds are spelled.

ghost use Rattle.zoneq_lib.specs.{Questions.{choice, fold, gap}, Steps.LineReading.{scan, ReadsAs}};

use crate::bad_line::{BadLine, stop};
use crate::words::{expect_byte, strip_word};
use offset_core::{Choice, FoldChoice, GapChoice};

/// Returns the choice that a text begins with, and the bytes after it.
#[tactic(auto, unfolding(crate::specs::Questions::choice))]
pub fn choice(text: &[u8]) -> Result<(Choice, &[u8]), BadLine>
    ensures { ReadsAs (λ p. (p.0, p.1.now)) result (scan choice text.now) }
{
    let (gap, rest) = gap(text)?;
    let rest = expect_byte(rest, b'/')?;
    let (fold, rest) = fold(rest)?;
    Ok((Choice { gap, fold }, rest))
}

#[tactic(auto, unfolding(crate::specs::Questions::gap))]
fn gap(text: &[u8]) -> Result<(GapChoice, &[u8]), BadLine>
    ensures { ReadsAs (λ p. (p.0, p.1.now)) result (scan gap text.now) }
{
    let (found, rest) = strip_word(text, b"refuse")?;
    if found {
        return Ok((GapChoice::Refuse, rest));
    }
    let (found, rest) = strip_word(rest, b"shift")?;
    if found {
        return Ok((GapChoice::ShiftForward, rest));
    }
    Err(stop(rest))
}

#[tactic(auto, unfolding(crate::specs::Questions::fold))]
fn fold(text: &[u8]) -> Result<(FoldChoice, &[u8]), BadLine>
    ensures { ReadsAs (λ p. (p.0, p.1.now)) result (scan fold text.now) }
{
    let (found, rest) = strip_word(text, b"refuse")?;
    if found {
        return Ok((FoldChoice::Refuse, rest));
    }
    let (found, rest) = strip_word(rest, b"earliest")?;
    if found {
        return Ok((FoldChoice::Earliest, rest));
    }
    let (found, rest) = strip_word(rest, b"latest")?;
    if found {
        return Ok((FoldChoice::Latest, rest));
    }
    Err(stop(rest))
}
