//! Why a wall clock gives no instant under a choice.
ghost use Rattle.std.specs.Prelude.{◌≡◌};
ghost use Rattle.offset_core.specs.ResolveNumbers.{resolve_error_number};

use thiserror::Error;

/// Why a wall clock gives no instant under a choice.
#[derive(Clone, Copy, PartialEq, Eq, Debug, Error)]
pub enum ResolveError {
    /// No clock shows the time, and the policy for gaps is `Refuse`.
    #[error("no clock of the zone shows that time")]
    Gap,
    /// Clocks show the time several times, and the policy for folds is `Refuse`.
    #[error("clocks of the zone show that time more than once")]
    Fold,
    /// The instant that is taken is out of range.
    #[error("the instant is out of range")]
    OutOfRange,
}

impl ResolveError {
    /// 21 for a gap, 22 for a fold, 23 for an instant out of range.
    pub fn number(&self) -> u8
        ensures { result ≡ resolve_error_number self.now }
    {
        match self {
            ResolveError::Gap => 21,
            ResolveError::Fold => 22,
            ResolveError::OutOfRange => 23,
        }
    }
}
