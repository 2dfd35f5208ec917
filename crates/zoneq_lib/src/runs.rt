//! Lines in, answers out.

ghost use Rattle.std.specs.Prelude.{◌≡◌, ◌<◌, ℕ, List, [], true, false, length, OnOk, MatchResult};
ghost use Rattle.std.specs.Io.KnownBytes.{Appends, Consumes, IsAtEnd};
ghost use Rattle.zoneq_lib.specs.Runs.{Answers, StopsWith};

use crate::dialogue::Dialogue;
use crate::run_error::RunError;
use crate::watched::Watched;
use std::alloc::Global;
use std::io::{Read, Write};

// How many bytes are asked of the reader at a time.
const BLOCK: usize = 16384;

/// Answers each line that the reader gives.
///
/// Each answer is written at once, and all that was written is flushed before the next read. A line
/// ends with a newline, and one carriage return before it isn't part of the line. What follows the
/// last newline is a line if it is not empty.
///
/// Requires: neither end has failed or ended before.
///
/// The contract speaks of the bytes that a reader has left and a writer holds, if their types show
/// them, as `&[u8]` and `Vec<u8>` do. Standard input and output don't, so of a run over them the
/// contract says only which end failed, that the input ended, and that what was written was sent.
///
/// # Errors
///
/// [`RunError::Read`] and [`RunError::Write`] if that end failed; [`RunError::Memory`] if a line
/// or its answer found no memory; [`RunError::TooLong`] if the count of reads, 2^64 - 1, is used up.
///
/// ```
/// let mut reader = Watched::new(b"text UTC0\nat 0\n".as_slice());
/// let mut writer = Watched::new(Vec::new(alloc));
/// run(alloc, &mut reader, &mut writer)?;
/// let written = writer.into_inner(); // "ok 0 1 0 fixed\n0 std UTC\n"
/// ```
pub fn run<R: Read, W: Write>(
    alloc: Global,
    reader: &mut Watched<R>,
    writer: &mut Watched<W>,
) -> Result<(), RunError>
    requires reader { (reader.old.failed ≡ false) × (reader.old.ended ≡ false) }
    requires writer { (writer.old.failed ≡ false) × (writer.old.ended ≡ false) }
    // What was read, what was written, and what the one is of the other.
    ensures answers { (input : List ℕ) × (output : List ℕ)
        × Consumes (R.remaining reader.old.inner) (R.remaining reader.new.inner) input
        × Appends (W.contents writer.old.inner) (W.contents writer.new.inner) output
        × MatchResult result
        (λ _. (reader.new.ended ≡ true) × IsAtEnd (R.remaining reader.new.inner)
        × (reader.new.failed ≡ false) × (writer.new.failed ≡ false) × Answers input output)
        (λ e. StopsWith reader.new.failed writer.new.failed reader.new.reads e input output) }
    // Nothing that was written is left unsent at the end, nor when the run stops, unless the writer
    // failed.
    ensures sent { OnOk result (writer.new.unsent ≡ false) }
    ensures none_left { writer.old.unsent ≡ false → writer.new.failed ≡ false
        → writer.new.unsent ≡ false }
{
    let mut block = [0; BLOCK];
    let mut dialogue = Dialogue::new(alloc);
    answer_all(&mut dialogue, reader, writer, &mut block)
}

// Answers what the reader gives, a block at a time.
#[tactic(auto, using(crate::proofs::Covering::from_start))]
fn answer_all<R: Read, W: Write>(
    dialogue: &mut Dialogue,
    reader: &mut Watched<R>,
    writer: &mut Watched<W>,
    block: &mut [u8],
) -> Result<(), RunError>
    requires zone { dialogue.old.zone ≡ None }
    requires begun { dialogue.old.begun.items ≡ [] }
    requires reader { (reader.old.failed ≡ false) × (reader.old.ended ≡ false) }
    requires writer { (writer.old.failed ≡ false) × (writer.old.ended ≡ false) }
    requires room { 0 < length block.old }
    ensures answers { (input : List ℕ) × (output : List ℕ)
        × Consumes (R.remaining reader.old.inner) (R.remaining reader.new.inner) input
        × Appends (W.contents writer.old.inner) (W.contents writer.new.inner) output
        × MatchResult result
        (λ _. (reader.new.ended ≡ true) × IsAtEnd (R.remaining reader.new.inner)
        × (reader.new.failed ≡ false) × (writer.new.failed ≡ false) × Answers input output)
        (λ e. StopsWith reader.new.failed writer.new.failed reader.new.reads e input output) }
    ensures sent { OnOk result (writer.new.unsent ≡ false) }
    ensures none_left { writer.old.unsent ≡ false → writer.new.failed ≡ false
        → writer.new.unsent ≡ false }
{
    for _ in 0..u64::MAX {
        match reader.read(block) {
            Err(_) => return Err(RunError::Read),
            Ok(0) => return dialogue.finish(writer),
            Ok(n) => dialogue.take_block(writer, &block[..n])?,
        }
    }
    Err(RunError::TooLong)
}
