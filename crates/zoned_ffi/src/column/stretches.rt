//! The stretches that a long column keeps.

ghost use Rattle.std.specs.Prelude.{◌<◌, ◌≡◌};
ghost use Rattle.zoned_ffi.specs.Steps.KeptTimes.{AreKept, IsKept, stretch_at, with_stretch};

use crate::column::Question;
use crate::column::kept::Kept;

/// How many they are.
pub const PLACES: usize = 258;

/// The stretches, each at its place, in a list for each of its fields: so a row takes fewer instructions than
/// with one list of structs.
#[derive(Clone, Copy)]
pub struct Stretches {
    /// The first time of each.
    pub lows: [i64; PLACES],
    /// How many times each has.
    pub lengths: [u64; PLACES],
    /// What is added to them.
    pub adds: [i64; PLACES],
}

impl Stretches {
    /// No times at any place.
    #[inline(always)]
    pub fn none(question: Question) -> Stretches
        ensures { AreKept question.entry result }
    {
        let Kept { low, length, add } = Kept::none(question);
        Stretches {
            lows: [low; PLACES],
            lengths: [length; PLACES],
            adds: [add; PLACES],
        }
    }

    /// The stretch at the place.
    #[inline(always)]
    pub fn at(&self, question: Question, place: usize) -> Kept
        requires place { place < 258 }
        requires kept { AreKept question self.now }
        ensures stretch { result ≡ stretch_at self.now place }
        ensures kept { IsKept question.entry result }
    {
        let _ = question;
        Kept {
            low: self.lows[place],
            length: self.lengths[place],
            add: self.adds[place],
        }
    }

    /// Keeps the stretch at the place.
    #[inline(always)]
    pub fn put(&mut self, question: Question, place: usize, kept: Kept)
        requires place { place < 258 }
        requires kept { AreKept question self.old }
        requires this { IsKept question kept }
        ensures stretches { self.new ≡ with_stretch self.old place kept }
        ensures kept { AreKept question.entry self.new }
    {
        let _ = question;
        self.lows[place] = kept.low;
        self.lengths[place] = kept.length;
        self.adds[place] = kept.add;
    }
}
