//! The pieces of a zone's table in one pass over its entries, where their cuts come in order.

ghost use Rattle.std.specs.{List.{slice_get}, Prelude.{◌≡◌, ◌↔◌, ◌⊎◌, ◌<◌, ◌≤◌, ◌-◌, ◌<ℤ◌, ◌≤ℤ◌, length, IsFalse, IsTrue, MatchOption, MatchResult}};
ghost use Rattle.{
  tz_info.specs.Steps.{Entries.{AllChange, IsSomeIdle}, Pieces.{zone_in, AreCutsCrossed, ArePieces, ArePiecesAt, IsSegment}},
  tz_info.specs.Steps.{SegmentEnds.{AreEndsRising}, Segments.{index_of}, WallPieces.{IsTable}},
};

use crate::change::is_same_type;
use crate::zone::lists::kept::Kept;
use crate::zone::made::pieces::Piece;
use crate::zone::made::segments::{Segment, SegmentPieces, ZoneLists, cut_of, segment_at};
use crate::zone::made::shown::{Shown, must_be_packed};
use std::alloc::Global;
use tz_base::{Error, LocalTimeType};

// The pieces of the first `count` segments, two for each entry. None if an entry does not cut the
// axis after the one before it, since the two lie closer together than their offsets differ, or if one
// before the last does not change the type.
#[inline(never)]
#[tactic(auto, using(crate::proofs::Fits::fits, crate::proofs::Words::ints))]
pub(super) fn pieces_in_one_pass(
    alloc: Global,
    lists: ZoneLists,
    entries: &[Kept],
    count: usize,
) -> Result<Option<SegmentPieces>, Error>
    requires table { IsTable (zone_in lists) entries.now count }
    requires some { 0 < length entries.now }
    requires count { length entries.now ≤ count }
    ensures { MatchResult result
        (λ made. MatchOption made
        (AreCutsCrossed lists.entry.types.now entries.now ⊎ IsSomeIdle lists.entry.types.now entries.now)
        (λ s. ArePieces (zone_in lists.entry) entries.now 0 count s.before s.pieces.items
        × AreEndsRising lists.entry.types.now entries.now
        × AllChange lists.entry.types.now entries.now (length entries.now)))
        (λ e. e ≡ Error.OutOfMemory) }
{
    must_be_packed(entries.len())?;
    must_be_packed(lists.types.len())?;
    let mut pieces = Vec::with_capacity(alloc, entries.len() + count - 1)?;
    let mut latest = i64::MIN;
    let mut before = segment_at(lists.types, entries, 0);
    for place in 1..count {
        let after = segment_at(lists.types, entries, place);
        if is_idle(lists.types, entries, place, before, after) {
            return Ok(None);
        }
        let (first, last) = pieces_at(entries, place, before, after);
        if is_crossed(place, latest, first.start) {
            return Ok(None);
        }
        latest = last.start;
        pieces.push_reserved(first);
        pieces.push_reserved(last);
        before = after;
    }
    if count == entries.len() {
        let end = cut_of(entries, count, before.offset);
        if is_crossed(count, latest, end) {
            return Ok(None);
        }
        let piece = Piece::small(end, Shown::Less);
        pieces.push_reserved(piece);
    }
    Ok(Some(SegmentPieces {
        before: Shown::Once(segment_at(lists.types, entries, 0).index),
        pieces,
    }))
}

// Whether the segment at that place has the type of the one before it, and another entry comes.
#[inline(always)]
fn is_idle(
    types: &[LocalTimeType],
    entries: &[Kept],
    place: usize,
    before: Segment,
    after: Segment,
) -> bool
    requires before { IsSegment types.now entries.now (place - 1) before }
    requires after { IsSegment types.now entries.now place after }
    ensures { IsTrue result ↔ ((place < length entries.now)
        × (slice_get types.now (index_of entries.now place)
        ≡ slice_get types.now (index_of entries.now (place - 1)))) }
{
    before.offset == after.offset
        && place < entries.len()
        && is_same_type(&types[before.index], &types[after.index])
}

// Whether the next cut, at that place, does not come after the latest, if there is one.
#[inline(always)]
fn is_crossed(place: usize, latest: i64, cut: i64) -> bool
    ensures crossed { IsTrue result → (1 < place) × (cut ≤ℤ latest) }
    ensures after { IsFalse result → 1 < place → latest <ℤ cut }
{
    place > 1 && cut <= latest
}

// The pieces at the entry between the segment at that place and the one before: in a gap neither
// shows the local time, in a fold both do.
#[inline(always)]
fn pieces_at(entries: &[Kept], place: usize, before: Segment, after: Segment) -> (Piece, Piece)
    requires some { 0 < place }
    requires place { place ≤ length entries.now }
    requires entries { length entries.now < 1_073_741_824 }
    requires before { before.index < 1_073_741_824 }
    requires after { after.index < 1_073_741_824 }
    ensures { ArePiecesAt entries.now place before after result.0 result.1 }
{
    let end = cut_of(entries, place, before.offset);
    let start = cut_of(entries, place, after.offset);
    let (first, answer, last) = if end <= start {
        (end, Shown::Skipped(place), start)
    } else {
        (start, Shown::Several(before.index, after.index), end)
    };
    let earlier = Piece::small(first, answer);
    let later = Piece::small(last, Shown::Once(after.index));
    (earlier, later)
}
