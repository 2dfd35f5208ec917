//! The local times at which segments end.

ghost use Rattle.std.specs.Prelude.{◌≡◌, ◌↔◌, ◌<◌, ◌≤◌, ◌≤ℤ◌, length, ⊤, MatchResult, ℤ};
ghost use Rattle.tz_info.specs.{Steps.SegmentEnds.{end_of, AreMaxima}, Transitions.{NameTypes}};

use crate::zone::lists::kept::Kept;
use crate::zone::made::segments::{cut_of, segment_at};
use std::alloc::{AllocError, Global};
use tz_base::LocalTimeType;

// What a clock would show at the end of the segment before that place: later local times aren't
// shown in it.
#[inline(always)]
fn end_of(types: &[LocalTimeType], entries: &[Kept], place: usize) -> i64
    requires some { 0 < length types.now }
    requires named { NameTypes (length types.now) entries.now }
    requires first { 0 < place }
    requires place { place ≤ length entries.now }
    ensures { result ≡ end_of types.now entries.now place }
{
    let segment = segment_at(types, entries, place - 1);
    cut_of(entries, place, segment.offset)
}

// The latest end of the first segments, for each number of them.
pub(super) fn maxima_of(
    alloc: Global,
    types: &[LocalTimeType],
    entries: &[Kept],
) -> Result<Vec<i64>, AllocError>
    requires some { 0 < length types.now }
    requires named { NameTypes (length types.now) entries.now }
    ensures { MatchResult result (λ v. AreMaxima types.now entries.now v.items) (λ _. ⊤) }
{
    let count = entries.len();
    let mut maxima = Vec::with_capacity(alloc, count)?;
    let mut latest = i64::MIN;
    for place in 0..count {
        latest = later(latest, end_of(types, entries, place + 1));
        maxima.push_reserved(latest);
    }
    Ok(maxima)
}

// The later of the two.
#[inline(always)]
pub(in crate::zone) fn later(a: i64, b: i64) -> i64
    ensures { (u : ℤ) → (result ≤ℤ u) ↔ ((a ≤ℤ u) × (b ≤ℤ u)) }
{
    if a < b { b } else { a }
}
