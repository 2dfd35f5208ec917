//! What neighbouring segments show of a local time.

ghost use Rattle.std.specs.Prelude.{◌≡◌, ◌↔◌, ◌⊎◌, ◌<◌, ◌≤◌, IsTrue, MatchResult};
ghost use Rattle.tz_info.specs.Steps.Shown.{HasGreatNumber, together, unpacked};

use std::alloc::AllocError;
use std::marker::Model;

// Places and indexes from this number on aren't packed.
const TOO_GREAT: usize = 1 << 30;

// What a clock shows of a local time in the segments, by indexes of types.
#[derive(Clone, Copy, Debug)]
pub(in crate::zone) enum Shown {
    // Less at all seconds.
    Less,
    // Less at all seconds before the segment at that place, and more at its first one.
    Skipped(usize),
    // The local time itself, at one second.
    Once(usize),
    // The local time itself: the types at the first and at the last second.
    Several(usize, usize),
}

// The same in eight bytes: the first number and which of the four it is, and the second number.
#[derive(Debug, Drop)]
pub(in crate::zone) struct Packed {
    first: u32,
    second: u32,
}

impl Model for Packed {
    ghost use Rattle.std.specs.Prelude.{◌/◌, ◌%◌};
    ghost use Rattle.tz_info.specs.{Steps.Shown.{unpacked}, declared.zone.made.shown.Shown.{Shown}};

    ghost Value = { Shown };

    ghost view = { λ p. unpacked (p.first % 4) (p.first / 4) p.second };
}

impl Packed {
    // What is shown, if its numbers are small enough.
    #[inline(always)]
    pub(in crate::zone) fn new(shown: Shown) -> Result<Packed, AllocError>
        ensures { MatchResult result (λ p. p ≡ shown) (λ _. HasGreatNumber shown) }
    {
        let (kind, first, second) = numbers(shown);
        if is_great(first) || is_great(second) {
            return Err(AllocError);
        }
        Ok(Packed::of(kind, first, second))
    }

    // What is shown, whose numbers are small enough.
    #[inline(always)]
    pub(in crate::zone) fn small(shown: Shown) -> Packed
        requires { ¬ (HasGreatNumber shown) }
        ensures { result ≡ shown }
    {
        let (kind, first, second) = numbers(shown);
        Packed::of(kind, first, second)
    }

    #[inline(always)]
    fn of(kind: u32, first: usize, second: usize) -> Packed
        requires kind { kind < 4 }
        requires first { first < 1_073_741_824 }
        requires second { second < 1_073_741_824 }
        ensures { result ≡ unpacked kind first second }
    {
        Packed {
            first: first as u32 * 4 + kind,
            second: second as u32,
        }
    }

    #[inline(always)]
    pub(in crate::zone) fn shown(&self) -> Shown
        ensures { result ≡ self.now }
    {
        let first = (self.first / 4) as usize;
        let second = self.second as usize;
        match self.first % 4 {
            0 => Shown::Less,
            1 => Shown::Skipped(first),
            2 => Shown::Once(first),
            _ => Shown::Several(first, second),
        }
    }
}

// Which of the four answers it is, and its numbers.
#[inline(always)]
fn numbers(shown: Shown) -> (u32, usize, usize)
    ensures kind { result.0 < 4 }
    ensures answer { unpacked result.0 result.1 result.2 ≡ shown }
    ensures great { HasGreatNumber shown
        ↔ ((1_073_741_824 ≤ result.1) ⊎ (1_073_741_824 ≤ result.2)) }
{
    match shown {
        Shown::Less => (0, 0, 0),
        Shown::Skipped(place) => (1, place, 0),
        Shown::Once(only) => (2, only, 0),
        Shown::Several(first, last) => (3, first, last),
    }
}

// Whether it isn't packed.
#[inline(always)]
fn is_great(number: usize) -> bool
    ensures { IsTrue result ↔ (1_073_741_824 ≤ number) }
{
    number >= TOO_GREAT
}

// Refuses a number of items whose places aren't packed.
pub(super) fn must_be_packed(count: usize) -> Result<(), AllocError>
    ensures { MatchResult result (λ _. count < 1_073_741_824) (λ _. 1_073_741_824 ≤ count) }
{
    if is_great(count) {
        return Err(AllocError);
    }
    Ok(())
}

// What earlier segments and later ones show together.
pub(super) fn together(first: Shown, last: Shown) -> Shown
    ensures { result ≡ together first last }
{
    match (first, last) {
        (Shown::Less, shown) => shown,
        (shown, Shown::Less) | (shown, Shown::Skipped(_)) => shown,
        (Shown::Skipped(_), shown) => shown,
        (
            Shown::Once(least) | Shown::Several(least, _),
            Shown::Once(greatest) | Shown::Several(_, greatest),
        ) => Shown::Several(least, greatest),
    }
}
