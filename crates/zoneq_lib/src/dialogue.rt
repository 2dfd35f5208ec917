//! What a run keeps, and what it does with a block of its input.

ghost use Rattle.std.specs.Prelude.{◌≡◌, ◌<◌, ◌++◌, [], false, length, IfErr, OnErr, OnOk};
ghost use Rattle.{
  zoneq_lib.specs.Runs.{without_return, HasNoNewline},
  zoneq_lib.specs.Steps.Outcomes.{AnswersAtEnd, AnswersIn, IsKeptFor, Replies, StopsAt, StopsAtEnd, StopsIn},
};

use crate::answer::answer;
use crate::hopeless::may_ask;
use crate::lines::{split_line, without_return};
use crate::output::{send, write_all};
use crate::run_error::RunError;
use crate::watched::Watched;
use std::alloc::{AllocError, Global};
use std::io::Write;
use tz_info::TimeZone;

/// What a run keeps from one block of its input to the next.
#[derive(Drop)]
pub struct Dialogue {
    alloc: Global,
    // The latest zone that a line gave.
    zone: Option<TimeZone>,
    // The beginning of a line, from earlier blocks, or one byte for it if the line can't ask
    // anything.
    begun: Vec<u8>,
    // The answer to one line at a time, kept for its memory.
    answer: String,
}

impl Dialogue {
    pub fn new(alloc: Global) -> Dialogue
        ensures zone { result.zone ≡ None }
        ensures begun { result.begun.items ≡ [] }
    {
        Dialogue {
            alloc,
            zone: None,
            begun: Vec::new(alloc),
            answer: String::new(alloc),
        }
    }

    /// Answers the lines that end in a block, keeps what is after them, and sends the answers on
    /// their way.
    pub fn take_block<W: Write>(
        &mut self,
        writer: &mut Watched<W>,
        block: &[u8],
    ) -> Result<(), RunError>
        requires begun { HasNoNewline self.old.begun.items }
        requires writer { writer.old.failed ≡ false }
        ensures ok { OnOk result (AnswersIn writer.new.failed
            (W.contents writer.old.inner) (W.contents writer.new.inner)
            self.old.zone self.old.begun.items block.now self.new.zone self.new.begun.items) }
        ensures err { IfErr result (StopsIn writer.new.failed
            (W.contents writer.old.inner) (W.contents writer.new.inner)
            self.old.zone self.old.begun.items block.now) }
        ensures sent { writer.new.failed ≡ false → writer.new.unsent ≡ false }
    {
        let answered = self.answer_lines(writer, block);
        send(writer, answered)
    }

    // Answers the lines that end in a block, and keeps what is after them.
    fn answer_lines<W: Write>(
        &mut self,
        writer: &mut Watched<W>,
        block: &[u8],
    ) -> Result<(), RunError>
        requires begun { HasNoNewline self.old.begun.items }
        requires writer { writer.old.failed ≡ false }
        ensures ok { OnOk result (AnswersIn writer.new.failed
            (W.contents writer.old.inner) (W.contents writer.new.inner)
            self.old.zone self.old.begun.items block.now self.new.zone self.new.begun.items) }
        ensures err { IfErr result (StopsIn writer.new.failed
            (W.contents writer.old.inner) (W.contents writer.new.inner)
            self.old.zone self.old.begun.items block.now) }
    {
        let mut rest = block;
        while let Some((piece, more)) = split_line(rest) {
            match self.end_line(writer, piece) {
                Ok(()) => rest = more,
                Err(e) => return Err(e),
            }
        }
        match self.begin_line(rest) {
            Ok(()) => Ok(()),
            Err(_) => Err(RunError::Memory),
        }
    }

    // Answers the line that ends with a piece.
    fn end_line<W: Write>(&mut self, writer: &mut Watched<W>, piece: &[u8]) -> Result<(), RunError>
        requires { writer.old.failed ≡ false }
        ensures ok { OnOk result ((self.new.begun.items ≡ []) × Replies writer.new.failed
            (W.contents writer.old.inner) (W.contents writer.new.inner)
            self.old.zone (without_return (self.old.begun.items ++ piece.now)) self.new.zone) }
        ensures err { IfErr result (StopsAt writer.new.failed
            (W.contents writer.old.inner) (W.contents writer.new.inner)
            self.old.zone (without_return (self.old.begun.items ++ piece.now))) }
    {
        if self.begun.is_empty() {
            let line = without_return(piece);
            return reply(self.alloc, writer, &mut self.zone, line, &mut self.answer);
        }
        if self.begun.extend_from_slice(piece).is_err() {
            return Err(RunError::Memory);
        }
        let line = without_return(self.begun.as_slice());
        match reply(self.alloc, writer, &mut self.zone, line, &mut self.answer) {
            Ok(()) => {
                self.begun.clear();
                Ok(())
            }
            Err(e) => Err(e),
        }
    }

    // Keeps more of a line that has not ended, or one byte for it if the line can't ask anything
    // any more.
    #[tactic(auto, using(crate::proofs::ScanLaws::mark_hopeless))]
    fn begin_line(&mut self, bytes: &[u8]) -> Result<(), AllocError>
        ensures zone { self.new.zone ≡ self.old.zone }
        ensures ok { OnOk result
            (IsKeptFor self.new.begun.items (self.old.begun.items ++ bytes.now)) }
        ensures lone { HasNoNewline self.old.begun.items → HasNoNewline bytes.now
            → OnOk result (HasNoNewline self.new.begun.items) }
        ensures err { OnErr result (0 < length bytes.now) }
    {
        if bytes.is_empty() {
            return Ok(());
        }
        let judged = self.begun.len();
        self.begun.extend_from_slice(bytes)?;
        if may_ask(self.begun.as_slice(), judged) {
            return Ok(());
        }
        // With this no question begins.
        self.begun.clear();
        self.begun.extend_from_slice(b"?")
    }

    /// Answers the last line, if the input does not end with a newline, and sends the answer on its
    /// way.
    pub fn finish<W: Write>(&mut self, writer: &mut Watched<W>) -> Result<(), RunError>
        requires { writer.old.failed ≡ false }
        ensures ok { OnOk result (AnswersAtEnd writer.new.failed
            (W.contents writer.old.inner) (W.contents writer.new.inner)
            self.old.zone self.old.begun.items) }
        ensures err { IfErr result (StopsAtEnd writer.new.failed
            (W.contents writer.old.inner) (W.contents writer.new.inner)
            self.old.zone self.old.begun.items) }
        ensures sent { writer.new.failed ≡ false → writer.new.unsent ≡ false }
    {
        let answered = self.answer_last(writer);
        send(writer, answered)
    }

    // Answers the last line, if the input does not end with a newline.
    #[tactic(auto, using(crate::proofs::Stopping::last_is))]
    fn answer_last<W: Write>(&mut self, writer: &mut Watched<W>) -> Result<(), RunError>
        requires { writer.old.failed ≡ false }
        ensures ok { OnOk result (AnswersAtEnd writer.new.failed
            (W.contents writer.old.inner) (W.contents writer.new.inner)
            self.old.zone self.old.begun.items) }
        ensures err { IfErr result (StopsAtEnd writer.new.failed
            (W.contents writer.old.inner) (W.contents writer.new.inner)
            self.old.zone self.old.begun.items) }
    {
        let last = self.begun.as_slice();
        if last.is_empty() {
            return Ok(());
        }
        reply(self.alloc, writer, &mut self.zone, last, &mut self.answer)
    }
}

// Answers a line, and writes the answer.
fn reply<W: Write>(
    alloc: Global,
    writer: &mut Watched<W>,
    zone: &mut Option<TimeZone>,
    line: &[u8],
    out: &mut String,
) -> Result<(), RunError>
    requires { writer.old.failed ≡ false }
    ensures ok { OnOk result (Replies writer.new.failed
        (W.contents writer.old.inner) (W.contents writer.new.inner)
        zone.old line.now zone.new) }
    ensures err { IfErr result (StopsAt writer.new.failed
        (W.contents writer.old.inner) (W.contents writer.new.inner)
        zone.old line.now) }
{
    match answer(alloc, zone, line, out) {
        Ok(()) => write_all(writer, out.as_bytes()),
        Err(_) => Err(RunError::Memory),
    }
}
