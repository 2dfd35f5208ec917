//! Beginnings of a line with which no line asks anything.

ghost use Rattle.std.specs.Prelude.{◌≡◌, false};
ghost use Rattle.zoneq_lib.specs.Steps.Outcomes.{IsHopeless};

use crate::bad_line::BadLine;
use crate::lines::without_return;
use crate::question::Question;

/// Returns whether a line that begins so may still ask something. Its first `judged` bytes are from
/// earlier blocks.
///
/// A beginning is judged each time that its length has one more binary digit, so that a long line
/// is not read once for each block. The answer for one that isn't judged is `true`.
#[tactic(auto, using(crate::proofs::ScanLaws::hopeless))]
pub fn may_ask(front: &[u8], judged: usize) -> bool
    ensures { result ≡ false → IsHopeless front.now }
{
    if front.len().leading_zeros() == judged.leading_zeros() {
        return true;
    }
    // A carriage return at the end may be no part of the line.
    let line = without_return(front);
    match Question::read(line) {
        Err(BadLine::Hopeless) => false,
        _ => true,
    }
}
