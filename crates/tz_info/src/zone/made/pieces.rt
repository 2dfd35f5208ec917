//! Pieces of the wall-clock axis: on each of them local times have one answer.

ghost use Rattle.std.specs.Prelude.{◌≡◌, ◌<◌, ◌≤◌, ◌+◌, length, take, IsFalse, IsTrue, MatchResult};
ghost use Rattle.{
  tz_info.specs.Steps.{Merging.{IsMerged, IsNext, IsStep}, WallPieces.{answer_before, AreInOrder}},
  tz_info.specs.Steps.Shown.{HasGreatNumber},
};

use crate::zone::made::shown::{Packed, Shown, together};
use std::alloc::{AllocError, Global};
use tz_base::Error;

// From its start on, and until the next piece starts, a local time has this answer.
#[derive(Debug, Drop)]
pub(in crate::zone) struct Piece {
    pub(in crate::zone) start: i64,
    pub(in crate::zone) answer: Packed,
}

impl Piece {
    // The piece from there on, if the answer's numbers are small enough.
    #[inline(always)]
    pub(in crate::zone) fn new(start: i64, shown: Shown) -> Result<Piece, AllocError>
        ensures { MatchResult result
            (λ p. p ≡ record { start = start; answer = shown }) (λ _. HasGreatNumber shown) }
    {
        let answer = Packed::new(shown)?;
        Ok(Piece { start, answer })
    }

    // The piece from there on, whose answer's numbers are small enough.
    #[inline(always)]
    pub(super) fn small(start: i64, shown: Shown) -> Piece
        requires { ¬ (HasGreatNumber shown) }
        ensures { result ≡ record { start = start; answer = shown } }
    {
        let answer = Packed::small(shown);
        Piece { start, answer }
    }
}

// The pieces of earlier seconds and those of later ones, merged: when one of either starts, so does
// one of them.
pub(super) fn merged(
    alloc: Global,
    before_first: &Shown,
    first: &[Piece],
    before_last: &Shown,
    last: &[Piece],
) -> Result<Vec<Piece>, Error>
    requires first { AreInOrder first.now }
    requires last { AreInOrder last.now }
    ensures { MatchResult result
        (λ v. IsMerged before_first.now first.now before_last.now last.now v.items)
        (λ e. e ≡ Error.OutOfMemory) }
{
    let total = first.len() + last.len();
    let mut pieces = Vec::with_capacity(alloc, total)?;
    let mut i = 0;
    let mut j = 0;
    for _step in 0..total {
        let (start, first_passed, last_passed) = next_start(first, i, last, j);
        i = first_passed;
        j = last_passed;
        let answer = together(
            answer_before(before_first, first, i),
            answer_before(before_last, last, j),
        );
        let piece = Piece::new(start, answer)?;
        pieces.push(piece)?;
    }
    Ok(pieces)
}

// The answer of the piece before that place.
#[tactic(auto, using(crate::proofs::Prefixes::last_taken))]
fn answer_before(before: &Shown, pieces: &[Piece], place: usize) -> Shown
    requires { place ≤ length pieces.now }
    ensures { result ≡ answer_before before.now (take place pieces.now) }
{
    if place == 0 {
        return *before;
    }
    pieces[place - 1].answer.shown()
}

// The start of the next piece of the two lists, and the places up to which they have been passed
// with it.
fn next_start(first: &[Piece], i: usize, last: &[Piece], j: usize) -> (i64, usize, usize)
    requires i { i ≤ length first.now }
    requires j { j ≤ length last.now }
    requires some { i + j < length first.now + length last.now }
    ensures { IsStep first.now i last.now j result.0 result.1 result.2 }
{
    if first_is_next(first, i, last, j) {
        (first[i].start, i + 1, j)
    } else {
        (last[j].start, i, j + 1)
    }
}

// Whether the piece at place `i` of the first is the next one, and not that at place `j` of the
// last.
fn first_is_next(first: &[Piece], i: usize, last: &[Piece], j: usize) -> bool
    requires i { i ≤ length first.now }
    requires j { j ≤ length last.now }
    requires some { i + j < length first.now + length last.now }
    ensures first { IsTrue result → IsNext first.now i last.now j }
    ensures last { IsFalse result → IsNext last.now j first.now i }
{
    if i == first.len() {
        return false;
    }
    if j == last.len() {
        return true;
    }
    first[i].start <= last[j].start
}
