//! Why a line asks nothing.

ghost use Rattle.std.specs.Prelude.{◌≡◌};
ghost use Rattle.zoneq_lib.specs.Steps.LineReading.{stop};

/// Why a line asks nothing.
#[derive(Drop)]
pub enum BadLine {
    /// It ends too early: a line that goes on from it may ask something.
    Unfinished,
    /// No line that begins so asks anything.
    Hopeless,
}

/// Returns why nothing is read at these bytes: at the end, more may come.
pub fn stop(bytes: &[u8]) -> BadLine
    ensures { result ≡ stop bytes.now }
{
    if bytes.is_empty() {
        BadLine::Unfinished
    } else {
        BadLine::Hopeless
    }
}
