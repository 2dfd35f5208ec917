//! Why a run stops before the end of its input.

ghost use Rattle.std.specs.Prelude.{◌≡◌};

/// Why a run stopped before the end of its input.
#[derive(Clone, Copy, Debug, PartialEq, Eq)]
pub enum RunError {
    /// The reader failed.
    Read,
    /// The writer failed.
    Write,
    /// Memory ran out for a line, or for its answer.
    Memory,
    /// The count of reads was used up.
    TooLong,
}

impl RunError {
    ghost use Rattle.zoneq_lib.specs.Runs.{fault_text};

    /// Returns what the program `zoneq` says of it on standard error.
    pub fn text(&self) -> &'static str
        ensures { result.now ≡ fault_text self.now }
    {
        match self {
            RunError::Read => "zoneq: read failed",
            RunError::Write => "zoneq: write failed",
            RunError::Memory => "zoneq: out of memory",
            RunError::TooLong => "zoneq: input too long",
        }
    }
}
