//! The segments between entries, and the pieces of the wall-clock axis that they make.

ghost use Rattle.std.specs.Prelude.{◌≡◌, ◌<◌, ◌≤◌, ◌+◌, length, MatchResult};
ghost use Rattle.{
  tz_info.specs.Steps.{Pieces.{cut_of, zone_in, ArePieces, IsSegment}, WallPieces.{IsTable}, Segments.{index_of}},
  tz_info.specs.Transitions.{NameTypes},
};

use crate::rule::TransitionRule;
use crate::zone::lists::kept::Kept;
use crate::zone::lists::leap_seconds::LeapSeconds;
use crate::zone::lists::starts::cut_at;
use crate::zone::made::pieces::{Piece, merged};
use crate::zone::made::shown::{Shown, together};
use std::alloc::Global;
use tz_base::{Error, LocalTimeType};
use tz_search::Timed;

// The lists of a zone, lent.
#[derive(Clone, Copy)]
pub(in crate::zone) struct ZoneLists<'a> {
    pub(in crate::zone) transitions: &'a [Kept],
    pub(in crate::zone) types: &'a [LocalTimeType],
    pub(in crate::zone) leaps: &'a LeapSeconds,
    pub(in crate::zone) rule: &'a Option<TransitionRule>,
}

// The type in force in a segment, by its index and its offset.
#[derive(Clone, Copy)]
pub(in crate::zone) struct Segment {
    pub(in crate::zone) index: usize,
    pub(in crate::zone) offset: i64,
}

// The segment after the first `place` entries.
#[inline(always)]
pub(super) fn segment_at(types: &[LocalTimeType], entries: &[Kept], place: usize) -> Segment
    requires some { 0 < length types.now }
    requires named { NameTypes (length types.now) entries.now }
    requires place { place ≤ length entries.now }
    ensures { IsSegment types.now entries.now place result }
{
    let index = index_of_segment(types, entries, place);
    let offset = types[index].offset() as i64;
    Segment { index, offset }
}

// The index of the type in force after the first `place` entries.
#[inline(always)]
#[tactic(auto, using(crate::proofs::SegmentLaws::index_next))]
fn index_of_segment(types: &[LocalTimeType], entries: &[Kept], place: usize) -> usize
    requires some { 0 < length types.now }
    requires named { NameTypes (length types.now) entries.now }
    requires place { place ≤ length entries.now }
    ensures index { result ≡ index_of entries.now place }
    ensures below { result < length types.now }
{
    if place == 0 {
        return 0;
    }
    entries[place - 1].type_index()
}

// What a clock at that offset shows at the first second of the segment at that place.
#[inline(always)]
pub(super) fn cut_of(entries: &[Kept], place: usize, offset: i64) -> i64
    requires some { 0 < place }
    requires place { place ≤ length entries.now }
    ensures { result ≡ cut_of entries.now place offset }
{
    cut_at(entries[place - 1].second(), offset)
}

// The pieces of some neighbouring segments, and what a clock shows before the first.
#[derive(Debug, Drop)]
pub(in crate::zone) struct SegmentPieces {
    pub(in crate::zone) before: Shown,
    pub(super) pieces: Vec<Piece>,
}

// The pieces of the segment after the first `place` entries, of which the first has no start and the
// last no end.
fn pieces_of_one(
    alloc: Global,
    lists: ZoneLists,
    entries: &[Kept],
    place: usize,
) -> Result<SegmentPieces, Error>
    requires table { IsTable (zone_in lists) entries.now (place + 1) }
    requires some { 0 < length entries.now }
    ensures { MatchResult result
        (λ s. ArePieces (zone_in lists.entry) entries.now place (place + 1) s.before s.pieces.items)
        (λ e. e ≡ Error.OutOfMemory) }
{
    let segment = segment_at(lists.types, entries, place);
    if place == 0 {
        let end = Piece::new(cut_of(entries, 1, segment.offset), Shown::Less)?;
        let pieces = vec![in alloc; end]?;
        return Ok(SegmentPieces {
            before: Shown::Once(segment.index),
            pieces,
        });
    }
    let start = Piece::new(
        cut_of(entries, place, segment.offset),
        Shown::Once(segment.index),
    )?;
    let before = Shown::Skipped(place);
    if place == entries.len() {
        let pieces = vec![in alloc; start]?;
        return Ok(SegmentPieces { before, pieces });
    }
    let end = Piece::new(cut_of(entries, place + 1, segment.offset), Shown::Less)?;
    let pieces = vec![in alloc; start, end]?;
    Ok(SegmentPieces { before, pieces })
}

// The pieces of the segments from `low` on and before `high`: those of two halves, merged.
pub(super) fn pieces_of(
    alloc: Global,
    lists: ZoneLists,
    entries: &[Kept],
    low: usize,
    high: usize,
) -> Result<SegmentPieces, Error>
    requires table { IsTable (zone_in lists) entries.now high }
    requires some { 0 < length entries.now }
    requires order { low < high }
    ensures { MatchResult result
        (λ s. ArePieces (zone_in lists.entry) entries.now low high s.before s.pieces.items)
        (λ e. e ≡ Error.OutOfMemory) }
{
    if high - low == 1 {
        return pieces_of_one(alloc, lists, entries, low);
    }
    let half = low + (high - low) / 2;
    let first = pieces_of(alloc, lists, entries, low, half)?;
    let last = pieces_of(alloc, lists, entries, half, high)?;
    let pieces = merged(
        alloc,
        &first.before,
        &first.pieces,
        &last.before,
        &last.pieces,
    )?;
    Ok(SegmentPieces {
        before: together(first.before, last.before),
        pieces,
    })
}
