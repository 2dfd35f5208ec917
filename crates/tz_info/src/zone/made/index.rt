//! A zone's index of the wall-clock axis.

ghost use Rattle.std.specs.Prelude.{◌≡◌, ◌<◌, ◌≤◌, ◌-◌, ◌^◌, length, slice_index_or, IfSome, MatchOption, MatchResult};
ghost use Rattle.{
  tz_info.specs.Steps.{Entries.{as_listed, most_looks, AreEntries}, Pieces.{zone_in, ArePieces}},
  tz_info.specs.Steps.{WallPieces.{answer_at, top_of, IsCounted, IsIndex}, SegmentEnds.{AreEnds}},
  tz_info.specs.Zones.{IsValid},
  tz_search.specs.{Counts.{RoseByPieces, RoseWithin}, RisingCounts.{HasRoomFor}},
};

use crate::zone::made::change_list::ChangeList;
use crate::zone::made::one_pass::pieces_in_one_pass;
use crate::zone::made::pieces::Piece;
use crate::zone::made::segment_ends::maxima_of;
use crate::zone::made::segments::{SegmentPieces, ZoneLists, pieces_of, segment_at};
use crate::zone::made::shown::Shown;
use std::alloc::Global;
use std::marker::Model;
use tz_base::Error;
use tz_search::{Probes, Timed, Timeline};

// The pieces of a zone's wall-clock axis. A lookup can see one of them only by a counted probe.
#[derive(Drop)]
pub(in crate::zone) struct Index {
    before: Shown,
    pieces: Timeline<Piece>,
    // For each segment the latest end of those up to it; empty if each ends later than the one before.
    maxima: Vec<i64>,
    rule_from: i64,
}

impl Model for Index {
    ghost use Rattle.tz_info.specs.Steps.WallPieces.{WallIndex, AreInOrder};

    ghost Value = { WallIndex };

    ghost view = { λ i. record {
      before = i.before;
      pieces = i.pieces;
      maxima = i.maxima.items;
      rule_from = i.rule_from;
    } };

    ghost invariant = { λ i. AreInOrder i.pieces };
}

impl Timed for Piece {
    ghost use Rattle.tz_search.specs.RisingCounts.{pieces_more, pieces_more_on, pieces_more_none, pieces_more_probed};

    ghost time = { λ p. p.start };

    ghost counted = { pieces_more };

    ghost probed = { λ c. c.piece_reads };

    ghost counts_up = { pieces_more_on };

    ghost counts_none = { pieces_more_none };

    ghost counts_probed = { pieces_more_probed };

    #[inline(always)]
    fn second(&self) -> i64 {
        self.start
    }

    #[inline(always)]
    fn count_probe(probes: &mut Probes) {
        probes.count_piece_read();
    }
}

impl Index {
    // The index of the zone of those lists and of those entries.
    pub(in crate::zone) fn new(
        alloc: Global,
        lists: ZoneLists,
        changes: &ChangeList,
    ) -> Result<Index, Error>
        requires valid { IsValid (zone_in lists) }
        requires list { AreEntries (zone_in lists) changes.now }
        ensures { MatchResult result (λ i. IsIndex (zone_in lists.entry) changes.now i)
            (λ e. e ≡ Error.OutOfMemory) }
    {
        let entries = changes.items();
        if entries.is_empty() {
            return Ok(Index::without_pieces(alloc, lists, changes));
        }
        let count = changes.segment_count(lists.rule);
        if let Some(pieces) = pieces_in_one_pass(alloc, lists, entries, count)? {
            return Index::of_pieces(alloc, lists, changes, pieces, Vec::new(alloc));
        }
        let pieces = pieces_of(alloc, lists, entries, 0, count)?;
        let maxima = maxima_of(alloc, lists.types, entries)?;
        Index::of_pieces(alloc, lists, changes, pieces, maxima)
    }

    // The index of the zone of those lists, in one pass, if its transitions are its entries: there is no
    // leap second, and each transition but the last changes the type.
    #[tactic(auto, using(crate::proofs::EntryLaws::own_entries))]
    pub(in crate::zone) fn of_transitions(
        alloc: Global,
        lists: ZoneLists,
        changes: &ChangeList,
    ) -> Result<Option<Index>, Error>
        requires valid { IsValid (zone_in lists) }
        requires some { 0 < length lists.transitions.now }
        requires listed { changes.now ≡ as_listed lists.transitions.now }
        ensures { MatchResult result (λ made. IfSome made (λ i. AreEntries (zone_in lists.entry) changes.now
            × IsIndex (zone_in lists.entry) changes.now i)) (λ e. e ≡ Error.OutOfMemory) }
    {
        if !lists.leaps.entries().is_empty() {
            return Ok(None);
        }
        let count = changes.segment_count(lists.rule);
        let Some(pieces) = pieces_in_one_pass(alloc, lists, lists.transitions, count)? else {
            return Ok(None);
        };
        let index = Index::of_pieces(alloc, lists, changes, pieces, Vec::new(alloc))?;
        Ok(Some(index))
    }

    // The index of the zone of those lists and of those entries, which has those pieces and maxima.
    #[tactic(auto, using(crate::proofs::WallPieces::starts_in_order))]
    fn of_pieces(
        alloc: Global,
        lists: ZoneLists,
        changes: &ChangeList,
        all: SegmentPieces,
        maxima: Vec<i64>,
    ) -> Result<Index, Error>
        requires list { AreEntries (zone_in lists) changes.now }
        requires pieces { ArePieces (zone_in lists) changes.now.items 0
            (top_of lists.rule.now changes.now) all.before all.pieces.items }
        requires ends { AreEnds lists.types.now changes.now.items maxima.items }
        ensures { MatchResult result (λ i. IsIndex (zone_in lists.entry) changes.now i)
            (λ e. e ≡ Error.OutOfMemory) }
    {
        let pieces = Timeline::new(alloc, all.pieces)?;
        Ok(Index {
            before: all.before,
            pieces,
            maxima,
            rule_from: changes.rule_from(),
        })
    }

    // The index of a zone without entries, which takes no memory.
    pub(in crate::zone) fn without_pieces(
        alloc: Global,
        lists: ZoneLists,
        changes: &ChangeList,
    ) -> Index
        requires valid { IsValid (zone_in lists) }
        requires list { AreEntries (zone_in lists) changes.now }
        requires none { length changes.now.items ≡ 0 }
        ensures { IsIndex (zone_in lists.entry) changes.now result }
    {
        let segment = segment_at(lists.types, changes.items(), 0);
        let before = if changes.segment_count(lists.rule) == 0 {
            Shown::Less
        } else {
            Shown::Once(segment.index)
        };
        Index {
            before,
            pieces: Timeline::none(alloc),
            maxima: Vec::new(alloc),
            rule_from: changes.rule_from(),
        }
    }

    // How many pieces there are.
    pub(in crate::zone) fn len(&self) -> usize
        ensures { result ≡ length self.now.pieces }
    {
        self.pieces.len()
    }

    // The latest end of the first `place` segments, which is counted as a transition probe; none if each
    // segment ends later than the one before.
    #[inline(always)]
    pub(in crate::zone) fn latest_end(&self, place: usize, probes: &mut Probes) -> Option<i64>
        requires first { 0 < place }
        requires place { 0 < length self.now.maxima → place ≤ length self.now.maxima }
        requires room { HasRoomFor 1 probes.old.reads }
        ensures end { MatchOption result (length self.now.maxima ≡ 0)
            (λ e. (0 < length self.now.maxima) × (e ≡ slice_index_or self.now.maxima (place - 1) e)) }
        ensures cost { RoseWithin probes.old probes.new 1 0 }
        ensures free { length self.now.maxima ≡ 0 → probes.new ≡ probes.old }
    {
        if self.maxima.is_empty() {
            return None;
        }
        probes.count_read();
        Some(self.maxima[place - 1])
    }

    // The second from which the zone's rule is asked.
    #[inline(always)]
    pub(in crate::zone) fn rule_from(&self) -> i64
        ensures { result ≡ self.now.rule_from }
    {
        self.rule_from
    }

    // The answer of the last piece that starts at or before the local time. If there are transitions
    // and no pieces, one probe is counted.
    #[inline(always)]
    #[tactic(auto, using(crate::proofs::WallPieces::latest_answers, crate::proofs::WallPieces::none_answers, crate::proofs::EntryChanges::few_digits))]
    pub(in crate::zone) fn answer(&self, local: i64, probes: &mut Probes) -> Shown
        requires { HasRoomFor (2 ^ 64) probes.old.piece_reads }
        ensures answer { result ≡ answer_at self.now.before self.now.pieces local }
        ensures cost { RoseByPieces probes.old probes.new (most_looks (length self.now.pieces)) 0 }
        ensures looked { IsCounted self.now → probes.old.piece_reads < probes.new.piece_reads }
    {
        if self.len() == 0 {
            if self.rule_from == i64::MAX {
                probes.count_piece_read();
            }
            return self.before;
        }
        match self.pieces.passed(local, probes).latest {
            Some(piece) => piece.answer.shown(),
            None => self.before,
        }
    }
}
