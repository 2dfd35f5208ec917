//! Bytes written to a writer, and flushed.

ghost use Rattle.std.specs.{Io.KnownBytes.{Appends, Keeps}, Prelude.{◌≡◌, false, take, true, IfErr, OnOk, ℕ}};
ghost use Rattle.zoneq_lib.specs.Steps.Outcomes.{IsSentOf};

use crate::run_error::RunError;
use crate::watched::Watched;
use std::io::Write;

/// Writes all of the bytes, or a beginning of them before the writer fails.
#[tactic(auto, using(crate::proofs::Stopping::appends_more))]
pub fn write_all<W: Write>(writer: &mut Watched<W>, bytes: &[u8]) -> Result<(), RunError>
    requires { writer.old.failed ≡ false }
    ensures ok { OnOk result ((writer.new.failed ≡ false)
        × Appends (W.contents writer.old.inner) (W.contents writer.new.inner) bytes.now) }
    ensures err { IfErr result (λ e. (e ≡ RunError.Write) × (writer.new.failed ≡ true)
        × ((n : ℕ)
        × Appends (W.contents writer.old.inner) (W.contents writer.new.inner) (take n bytes.now))) }
{
    let mut written = 0;
    while written < bytes.len() {
        let (_, rest) = bytes.split_at(written);
        match writer.write(rest) {
            Ok(0) | Err(_) => return Err(RunError::Write),
            Ok(n) => written += n,
        }
    }
    Ok(())
}

/// Sends what was written on its way, unless the writer has failed, and gives what became of the
/// writing.
pub fn send<W: Write>(
    writer: &mut Watched<W>,
    written: Result<(), RunError>,
) -> Result<(), RunError>
    ensures bytes { Keeps (W.contents writer.old.inner) (W.contents writer.new.inner) }
    ensures result { IsSentOf writer.old.failed writer.new.failed written result }
    ensures sent { writer.new.failed ≡ false → writer.new.unsent ≡ false }
{
    if writer.failed() {
        return written;
    }
    match writer.flush() {
        Ok(()) => written,
        Err(_) => Err(RunError::Write),
    }
}
