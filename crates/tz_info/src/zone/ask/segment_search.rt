//! The search for the first segment in which clocks show a local time or a later one.

ghost use Rattle.std.specs.Prelude.{◌≡◌, ◌↔◌, ◌<◌, ◌≤◌, ◌+◌, ◌^◌, length, IsTrue};
ghost use Rattle.{
  naive_base.specs.Range.{IsWide},
  tz_info.specs.Steps.Segments.{begin_of, index_of},
  tz_info.specs.Steps.SegmentEnds.{end_of, AreEnds, IsFirstOf, IsFirstSegment, IsLatestEnd, IsReached},
  tz_info.specs.Transitions.{NameTypes},
  tz_search.specs.{Counts.{RoseWithin}, RisingCounts.{HasRoomFor}, Digits.{digits}},
};

use crate::answers::second_showing;
use crate::change::HeldSecond;
use crate::zone::lists::starts::cut_at;
use crate::zone::made::change_table::ChangeTable;
use crate::zone::made::index::Index;
use crate::zone::made::segment_ends::later;
use tz_base::LocalTimeType;
use tz_search::Probes;

// What a clock would show at the end of the segment before that place: later local times aren't
// shown in it. One probe is counted.
#[inline(always)]
#[tactic(auto, using(crate::proofs::WallPieces::ends))]
fn end_at(types: &[LocalTimeType], changes: &ChangeTable, place: usize, probes: &mut Probes) -> i64
    requires some { 0 < length types.now }
    requires named { NameTypes (length types.now) changes.now.items }
    requires first { 0 < place }
    requires place { place ≤ length changes.now.items }
    requires room { HasRoomFor 1 probes.old.reads }
    ensures end { result ≡ end_of types.now changes.now.items place }
    ensures cost { RoseWithin probes.old probes.new 1 0 }
{
    let entry = changes.entry(types, place - 1, probes);
    cut_at(entry.at, types[entry.before].offset() as i64)
}

// The place of the first segment in which clocks show the local time or a later one, or that of the
// last segment if they do so in none before. If the index has no latest ends, the segments end later and
// later.
#[tactic(auto, using(crate::proofs::SegmentEndLaws::steps))]
pub(super) fn first_reaching(
    types: &[LocalTimeType],
    changes: &ChangeTable,
    index: &Index,
    local: i64,
    probes: &mut Probes,
) -> usize
    requires some { 0 < length types.now }
    requires named { NameTypes (length types.now) changes.now.items }
    requires ends { AreEnds types.now changes.now.items index.now.maxima }
    requires local { IsWide local }
    requires room { HasRoomFor (2 ^ 64) probes.old.reads }
    ensures first { IsFirstSegment types.now changes.now.items local result }
    ensures cost { RoseWithin probes.old probes.new (digits (length changes.now.items)) 0 }
    ensures few { probes.new.reads < probes.old.reads + 2 ^ 64 }
{
    let mut first = 0;
    let mut count = changes.len();
    while count > 0 {
        let half = count / 2;
        if is_reached(types, changes, index, first + half + 1, local, probes) {
            count = half;
        } else {
            first = first + half + 1;
            count = count - half - 1;
        }
    }
    first
}

// Whether clocks show the local time or a later one in one of the segments before that place. One probe
// is counted.
#[inline(always)]
fn is_reached(
    types: &[LocalTimeType],
    changes: &ChangeTable,
    index: &Index,
    place: usize,
    local: i64,
    probes: &mut Probes,
) -> bool
    requires some { 0 < length types.now }
    requires named { NameTypes (length types.now) changes.now.items }
    requires ends { AreEnds types.now changes.now.items index.now.maxima }
    requires place { place ≤ length changes.now.items }
    requires room { HasRoomFor 1 probes.old.reads }
    ensures reached { IsTrue result ↔ IsReached types.now changes.now.items place local }
    ensures cost { RoseWithin probes.old probes.new 1 0 }
{
    local < latest_end(types, changes, index, place, probes)
}

// The latest end of the segments before that place: clocks show just the earlier local times, or later ones,
// in one of them. One probe is counted at most.
#[inline(always)]
pub(super) fn latest_end(
    types: &[LocalTimeType],
    changes: &ChangeTable,
    index: &Index,
    place: usize,
    probes: &mut Probes,
) -> i64
    requires some { 0 < length types.now }
    requires named { NameTypes (length types.now) changes.now.items }
    requires ends { AreEnds types.now changes.now.items index.now.maxima }
    requires place { place ≤ length changes.now.items }
    requires room { HasRoomFor 1 probes.old.reads }
    ensures end { IsLatestEnd types.now changes.now.items place result }
    ensures cost { RoseWithin probes.old probes.new 1 0 }
{
    if place == 0 {
        return i64::MIN;
    }
    match index.latest_end(place, probes) {
        Some(end) => end,
        None => end_at(types, changes, place, probes),
    }
}

// The first second of the segment at that place at which clocks show the local time or a later one.
pub(super) fn first_of<'a>(
    types: &'a [LocalTimeType],
    changes: &ChangeTable,
    place: usize,
    local: i64,
    probes: &mut Probes,
) -> HeldSecond<'a>
    requires some { 0 < length types.now }
    requires named { NameTypes (length types.now) changes.now.items }
    requires place { place ≤ length changes.now.items }
    requires local { IsWide local }
    requires room { HasRoomFor 1 probes.old.reads }
    ensures first { IsFirstOf types.now changes.now.items place local
        result.at result.local_time_type.now }
    ensures cost { RoseWithin probes.old probes.new 1 0 }
    ensures free { place ≡ 0 → probes.new ≡ probes.old }
{
    let (index, begin) = begin_of(types, changes, place, probes);
    let local_time_type = &types[index];
    let shown = second_showing(local, local_time_type.offset());
    HeldSecond {
        at: later(begin, shown),
        local_time_type,
    }
}

// The index of the type in force in the segment at that place, and the second at which it begins: one probe,
// or none at the first segment.
#[inline(always)]
pub(super) fn begin_of(
    types: &[LocalTimeType],
    changes: &ChangeTable,
    place: usize,
    probes: &mut Probes,
) -> (usize, i64)
    requires some { 0 < length types.now }
    requires named { NameTypes (length types.now) changes.now.items }
    requires place { place ≤ length changes.now.items }
    requires room { HasRoomFor 1 probes.old.reads }
    ensures index { result.0 ≡ index_of changes.now.items place }
    ensures below { result.0 < length types.now }
    ensures begin { result.1 ≡ begin_of changes.now.items place }
    ensures cost { RoseWithin probes.old probes.new 1 0 }
    ensures free { place ≡ 0 → probes.new ≡ probes.old }
{
    if place == 0 {
        return (0, i64::MIN);
    }
    let entry = changes.entry(types, place - 1, probes);
    (entry.after, entry.at)
}
