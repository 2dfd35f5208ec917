//! Where lists that make no zone are at fault.

ghost use Rattle.std.specs.Prelude.{◌≡◌, ◌↔◌, ◌<◌, IsTrue};
ghost use Rattle.{
  tz_file.specs.{FileContents.{leap_at, time_at}, FileLists.{pieces_of, EndFile, HasLengths}},
  tz_info.specs.FilePlaces.{IsListPlace, IsNotLater, IsOtherIndex, IsOtherLeap},
  tz_info.specs.Steps.FileLists.{Finds},
};

use crate::zone::lists::valid::{is_first, is_next};
use tz_base::place::after;
use tz_base::trims::after_space;
use tz_file::{Pieces, footer_bytes, from_parts, leap_at, time_at};

/// Returns the bytes from the first fault of the lists on that the pieces say: from a type index, a
/// time, a leap second, or else the footer's text.
pub fn from_fault_of_lists<'a>(bytes: &'a [u8], pieces: &Pieces<'a>) -> &'a [u8]
    requires { EndFile bytes.now (pieces_of pieces.now) }
    ensures { IsListPlace (pieces_of pieces.now) result.now }
{
    let from = from_parts(bytes, pieces);
    if let Some(k) = first_other_index(pieces) {
        return after(from.type_indexes, k);
    }
    if let Some(k) = first_not_later(pieces) {
        return after(from.times, k * pieces.time_size);
    }
    if let Some(k) = first_other_leap(pieces) {
        return after(from.leap_seconds, k * (pieces.time_size + 4));
    }
    after_space(footer_bytes(pieces.footer))
}

fn first_other_index(pieces: &Pieces<'_>) -> Option<usize>
    requires { HasLengths (pieces_of pieces.now) }
    ensures { Finds (IsOtherIndex (pieces_of pieces.now)) pieces.now.counts.transitions result }
{
    let indexes = pieces.block.type_indexes;
    for k in 0..indexes.len() {
        if indexes[k] as u32 >= pieces.counts.types {
            return Some(k);
        }
    }
    None
}

fn first_not_later(pieces: &Pieces<'_>) -> Option<usize>
    requires { HasLengths (pieces_of pieces.now) }
    ensures { Finds (IsNotLater (pieces_of pieces.now)) pieces.now.counts.transitions result }
{
    for k in 1..pieces.counts.transitions as usize {
        if time_at(pieces, k) <= time_at(pieces, k - 1) {
            return Some(k);
        }
    }
    None
}

fn first_other_leap(pieces: &Pieces<'_>) -> Option<usize>
    requires { HasLengths (pieces_of pieces.now) }
    ensures { Finds (IsOtherLeap (pieces_of pieces.now)) pieces.now.counts.leap_seconds result }
{
    for k in 0..pieces.counts.leap_seconds as usize {
        if is_other_leap(pieces, k) {
            return Some(k);
        }
    }
    None
}

// Whether the leap second may not be the first, or may not follow the one before it.
fn is_other_leap(pieces: &Pieces<'_>, k: usize) -> bool
    requires lengths { HasLengths (pieces_of pieces.now) }
    requires place { k < pieces.now.counts.leap_seconds }
    ensures { IsTrue result ↔ IsOtherLeap (pieces_of pieces.now) k }
{
    let here = leap_at(pieces, k);
    if k == 0 {
        return !is_first(here);
    }
    !is_next(leap_at(pieces, k - 1), here)
}
