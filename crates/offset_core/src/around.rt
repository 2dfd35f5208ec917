//! What shows a local time, or the gap that it lies in, and what a choice takes of it.

ghost use Rattle.std.specs.Prelude.{◌≡◌};
ghost use Rattle.offset_core.specs.Around.{taken_of};

use crate::choice::{Choice, FoldChoice, GapChoice};
use crate::resolve_error::ResolveError;

/// What a zone gives for a local time: a value for each instant that shows it, or the gap that it
/// lies in.
///
/// What is known of a gap depends on the zone: of a parsed zone it is the clock change, with the
/// local time types on both sides and the second; of any other zone it is the offset before the gap.
#[derive(Clone, Copy, Drop, PartialEq, Eq, Debug)]
pub enum Around<T, G> {
    /// One instant shows the local time.
    Single(T),
    /// Several instants show it: the values at the first and at the last.
    Ambiguous(T, T),
    /// No instant shows it: it lies in that gap.
    Gap(G),
}

/// What a choice takes of an [`Around`].
#[derive(Drop, Debug)]
pub enum Taken<T, G> {
    /// The value at the instant that is taken, which shows the local time.
    Shown(T),
    /// The gap that the local time lies in: no instant shows it, and the choice takes one all the same.
    InGap(G),
}

impl<T, G> Around<T, G> {
    /// Returns what the choice takes: the only value, in a fold the first or the last, and in a gap
    /// the gap.
    ///
    /// # Errors
    ///
    /// [`ResolveError::Gap`] in a gap under [`GapChoice::Refuse`], and [`ResolveError::Fold`] in a
    /// fold under [`FoldChoice::Refuse`]. [`ResolveError::OutOfRange`] never.
    ///
    /// ```
    /// let choice = Choice { gap: GapChoice::ShiftForward, fold: FoldChoice::Earliest };
    /// let shown = Around::<u8, u8>::Ambiguous(1, 2).take(choice); // Ok(Taken::Shown(1))
    /// let skipped = Around::<u8, u8>::Gap(3).take(choice); // Ok(Taken::InGap(3))
    /// ```
    #[inline(always)]
    pub fn take(self, choice: Choice) -> Result<Taken<T, G>, ResolveError>
    where
        T: Drop,
        G: Drop,
        ensures { result ≡ taken_of choice self }
    {
        match self {
            Around::Single(only) => Ok(Taken::Shown(only)),
            Around::Ambiguous(first, last) => match choice.fold {
                FoldChoice::Refuse => Err(ResolveError::Fold),
                FoldChoice::Earliest => Ok(Taken::Shown(first)),
                FoldChoice::Latest => Ok(Taken::Shown(last)),
            },
            Around::Gap(gap) => match choice.gap {
                GapChoice::Refuse => Err(ResolveError::Gap),
                GapChoice::ShiftForward => Ok(Taken::InGap(gap)),
            },
        }
    }
}
