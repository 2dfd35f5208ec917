//! How a program ends after a run.

ghost use Rattle.std.specs.Prelude.{◌≡◌, ◌++◌, codes, false};
ghost use Rattle.zoneq_lib.specs.{Runs.{message_of, status_of, WritesUnlessFailed}, Runs.{fault_text}};

use crate::output::write_all;
use crate::run_error::RunError;
use crate::watched::Watched;
use std::io::Write;

/// Returns the exit status of a program that ends after a run: 0 if every line was answered, and 1
/// if the run stopped before. Then it writes the reason, one line, to `errors`, which is standard
/// error.
///
/// If standard error fails too, a beginning of that line is written, and the status is the same.
///
/// Requires: `errors` has not failed before.
///
/// ```
/// let mut errors = Watched::new(Vec::new(alloc));
/// let status = report(Err(RunError::Read), &mut errors); // 1
/// let written = errors.into_inner(); // "zoneq: read failed\n"
/// ```
pub fn report<E: Write>(ended: Result<(), RunError>, errors: &mut Watched<E>) -> u8
    requires { errors.old.failed ≡ false }
    ensures status { result ≡ status_of ended }
    ensures told { WritesUnlessFailed errors.new.failed
        (E.contents errors.old.inner) (E.contents errors.new.inner) (message_of ended) }
{
    match ended {
        Ok(()) => 0,
        Err(stop) => {
            let _ = tell(errors, stop);
            1
        }
    }
}

// Writes why a run stopped, and a newline.
fn tell<E: Write>(errors: &mut Watched<E>, stop: RunError) -> Result<(), RunError>
    requires { errors.old.failed ≡ false }
    ensures { WritesUnlessFailed errors.new.failed
        (E.contents errors.old.inner) (E.contents errors.new.inner)
        (fault_text stop ++ codes "\n") }
{
    write_all(errors, stop.text().as_bytes())?;
    write_all(errors, b"\n")
}
