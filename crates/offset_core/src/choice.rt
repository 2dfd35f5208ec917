//! Policies for gaps and folds.

/// The policy for a gap, whose times no clock shows.
#[derive(Clone, Copy, PartialEq, Eq, Debug)]
pub enum GapChoice {
    /// Selects no instant: the answer is the error for a gap.
    Refuse,
    /// The instant at which a clock that wasn't set forward shows the time. New York's clocks
    /// skipped 02:30 on 2021-03-14: it is the instant at which they showed 03:30.
    ShiftForward,
}

/// The policy for a fold, whose times are shown several times.
#[derive(Clone, Copy, PartialEq, Eq, Debug)]
pub enum FoldChoice {
    /// Selects no instant: the answer is the error for a fold.
    Refuse,
    /// The first instant that shows the time.
    Earliest,
    /// The last.
    Latest,
}

/// A policy for gaps and folds: which instant a local time selects that clocks never show, or show
/// several times.
///
/// ```
/// let choice = Choice { gap: GapChoice::ShiftForward, fold: FoldChoice::Earliest };
/// ```
#[derive(Clone, Copy, PartialEq, Eq, Debug)]
pub struct Choice {
    pub gap: GapChoice,
    pub fold: FoldChoice,
}
