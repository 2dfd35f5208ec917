//! Choices for local times in gaps and folds, as C numbers them.

ghost use Rattle.std.specs.Prelude.{◌≡◌, ◌↔◌, IsTrue, MatchOption};
ghost use Rattle.zoned_ffi.specs.{
  Columns.{fold_asked, gap_asked, missing_of, IsMissing},
  Resolved.{IsChoice, IsChoiceOf, policy_of},
};

use crate::refusal::{IN_FOLD, IN_GAP};
use offset_core::{Choice as Policy, FoldChoice, GapChoice};

/// What to take of a local time in a gap.
#[derive(Clone, Copy)]
pub enum ChoiceInGap {
    /// Nothing.
    Refuse,
    /// The instant at which a clock that was not set forward shows it.
    ShiftForward,
    /// The second at which the gap ends.
    End,
    /// The instant at which a clock that had been set forward already shows it.
    ShiftBackward,
}

/// What to take of local times in gaps and folds.
#[derive(Clone, Copy)]
pub struct Choice {
    /// In gaps.
    pub gap: ChoiceInGap,
    /// In folds.
    pub fold: FoldChoice,
}

impl Choice {
    /// Returns what the library's own choice takes. It has one way to take an instant for a gap, and gives
    /// the clock change, from which the others follow.
    pub fn policy(&self) -> Policy
        ensures { result ≡ policy_of self.now }
    {
        let gap = match self.gap {
            ChoiceInGap::Refuse => GapChoice::Refuse,
            ChoiceInGap::ShiftForward => GapChoice::ShiftForward,
            ChoiceInGap::End => GapChoice::ShiftForward,
            ChoiceInGap::ShiftBackward => GapChoice::ShiftForward,
        };
        Policy {
            gap,
            fold: self.fold,
        }
    }
}

/// The choice of those numbers: of a gap 0 is rejected, 1 shifts forward, 2 takes its end, and 3 shifts
/// backward; of a fold 0 is rejected, 1 takes the earliest and 2 the latest.
pub fn choice_of(gap: u32, fold: u32) -> Option<Choice>
    ensures { MatchOption result (¬ (IsChoice gap fold)) (λ choice. IsChoiceOf gap fold choice) }
{
    let gap = match gap {
        0 => ChoiceInGap::Refuse,
        1 => ChoiceInGap::ShiftForward,
        2 => ChoiceInGap::End,
        3 => ChoiceInGap::ShiftBackward,
        _ => return None,
    };
    let fold = match fold {
        0 => FoldChoice::Refuse,
        1 => FoldChoice::Earliest,
        2 => FoldChoice::Latest,
        _ => return None,
    };
    Some(Choice { gap, fold })
}

// The number by which a column gives local times in gaps no time.
const NO_TIME_IN_GAPS: u32 = 4;

// The number by which it gives those in folds no time.
const NO_TIME_IN_FOLDS: u32 = 3;

/// Which local times that a choice rejects become no time in a column.
#[derive(Clone, Copy)]
pub struct Missing {
    /// Those in gaps.
    pub in_gaps: bool,
    /// Those in folds.
    pub in_folds: bool,
}

impl Missing {
    /// Those of the numbers of a column's choice.
    pub fn of(gap: u32, fold: u32) -> Missing
        ensures { result ≡ missing_of gap fold }
    {
        Missing {
            in_gaps: gap == NO_TIME_IN_GAPS,
            in_folds: fold == NO_TIME_IN_FOLDS,
        }
    }

    /// Whether a local time that is rejected with that number is one of them.
    pub fn has(self, number: u32) -> bool
        ensures { IsTrue result ↔ IsMissing self number }
    {
        (self.in_gaps && number == IN_GAP) || (self.in_folds && number == IN_FOLD)
    }
}

/// The choice of the numbers of a column's choice. The numbers by which what is rejected becomes no time reject
/// it too.
pub fn column_choice_of(gap: u32, fold: u32) -> Option<Choice>
    ensures { MatchOption result (¬ (IsChoice (gap_asked gap) (fold_asked fold)))
        (λ choice. IsChoiceOf (gap_asked gap) (fold_asked fold) choice) }
{
    let gap = if gap == NO_TIME_IN_GAPS { 0 } else { gap };
    let fold = if fold == NO_TIME_IN_FOLDS { 0 } else { fold };
    choice_of(gap, fold)
}
