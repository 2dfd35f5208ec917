//! The wall clock of a zone.

ghost use Rattle.std.specs.{Prelude.{◌≡◌, ◌<◌, ◌+◌, ◌*◌, length, ⊤, MatchOption}, Result.{IsOkAnd}};
ghost use Rattle.{
  naive_base.specs.{NaiveDateTime.{reading}, Range.{IsWide}},
  offset_core.specs.{LocalResult.{map_of}, WallAnswer.{IsWallAnswer}},
  tz_info.specs.Steps.{Seasons.{IsSeasonIn}, Walk.{IsShownIn}, Pieces.{AreBelow, AreListed}},
  tz_info.specs.Steps.WallPieces.{shown_indexes, IsTableAnswer},
  tz_info.specs.{WallClocks.{Shows}, Zones.{TypeAt}, Looks.{RoseByWallClock}, Questions.{IsAskedFor}},
  tz_search.specs.{Counts.{HasRoom, RoseByPieces, RoseWithin}, RisingCounts.{HasRoomFor}, Digits.{digits}},
};

use crate::answers::{joined, types_copied};
use crate::rule::{Season, TransitionRule};
use crate::zone::made::shown::Shown;
use crate::zone::time_zone::TimeZone;
use naive_base::NaiveDateTime;
use offset_core::MappedLocalTime;
use tz_base::{Error, LocalTimeType};
use tz_search::Probes;

impl TimeZone {
    /// Returns the types in force at the instants at which a clock of this zone shows the local time.
    ///
    /// A gap: in New York clocks were set forward from 02:00 to 03:00 on 14 March 2021. No clock
    /// showed 02:00:00 or 02:59:59 that day, and the answer is `None`; 03:00:00 was shown once.
    ///
    /// A fold: they were set back from 02:00 to 01:00 on 7 November 2021. 01:00:00 and 01:59:59
    /// were shown twice that day, and the answer is `Ambiguous`, with EDT at the first instant and
    /// EST at the last; 02:00:00 was shown once.
    ///
    /// # Errors
    ///
    /// None: the `Result` is that of chrono's signature, and is always `Ok`.
    pub fn find_local_time_type_from_local(
        &self,
        local: NaiveDateTime,
    ) -> Result<MappedLocalTime<LocalTimeType>, Error>
        ensures { IsOkAnd result (IsWallAnswer (Shows (TypeAt self.now) (reading local).s)) }
    {
        Ok(types_copied(self.local_time_types_at(local)))
    }

    /// As [`TimeZone::find_local_time_type_from_local`], with references to the zone's types.
    #[inline(always)]
    pub fn local_time_types_at(&self, local: NaiveDateTime) -> MappedLocalTime<&LocalTimeType>
        ensures { IsWallAnswer (Shows (TypeAt self.now) (reading local).s)
            (map_of (λ r. r.now) result) }
    {
        let local = local.secs_since_epoch();
        match self.last_type_at(local) {
            Some(local_time_type) => MappedLocalTime::Single(local_time_type),
            None => self.wall_answer_of(local, &mut Probes::new()),
        }
    }

    /// As [`TimeZone::find_local_time_type_from_local`], and counts the piece probes in the zone's
    /// index and the questions to the rule. With n transitions there are at most as many probes as
    /// 2n + 1 has binary digits, none of them of a transition, and one question for each second at which
    /// a clock at an offset of the rule's types shows the local time and the rule gives the type: at
    /// most two.
    ///
    /// It always searches: [`TimeZone::find_local_time_type_from_local`] needs no search after the
    /// last change.
    ///
    /// The zone keeps the times of its first and its last piece: a comparison with one of them that
    /// does not decide is not counted.
    ///
    /// Requires: [`Probes::has_room`].
    ///
    /// # Errors
    ///
    /// None: the `Result` is that of chrono's signature, and is always `Ok`.
    #[inline(always)]
    pub fn find_local_time_type_from_local_counted(
        &self,
        local: NaiveDateTime,
        probes: &mut Probes,
    ) -> Result<MappedLocalTime<LocalTimeType>, Error>
        requires { HasRoom probes.old }
        ensures found { IsOkAnd result (IsWallAnswer (Shows (TypeAt self.now) (reading local).s)) }
        ensures cost { RoseByWallClock self.now probes.old probes.new }
        ensures questions { IsAskedFor self.now (reading local).s
            probes.old.rule_questions probes.new.rule_questions }
    {
        Ok(types_copied(self.wall_answer_of(local.secs_since_epoch(), probes)))
    }

    // The answer of all seconds, by one search in the pieces.
    #[inline(always)]
    fn wall_answer_of(&self, local: i64, probes: &mut Probes) -> MappedLocalTime<&LocalTimeType>
        requires local { IsWide local }
        requires room { HasRoom probes.old }
        ensures found { IsWallAnswer (Shows (TypeAt self.now) local) (map_of (λ r. r.now) result) }
        ensures cost { RoseByWallClock self.now probes.old probes.new }
        ensures counted { IsAskedFor self.now local
            probes.old.rule_questions probes.new.rule_questions }
    {
        let shown = self.table_answer(local, probes);
        self.answer_after(local, shown, probes).1
    }

    // What the table shows of the local time.
    #[inline(always)]
    #[tactic(auto, using(crate::proofs::EntryChanges::looks_most))]
    pub(super) fn table_answer(&self, local: i64, probes: &mut Probes) -> Shown
        requires local { IsWide local }
        requires room { HasRoom probes.old }
        ensures shown { IsTableAnswer self.now local result }
        ensures cost { RoseByPieces probes.old probes.new
            (digits (2 * length self.now.transitions + 1)) 0 }
        ensures looked { 0 < length self.now.transitions
            → probes.old.piece_reads < probes.new.piece_reads }
    {
        self.index.answer(local, probes)
    }

    // The answer of all seconds, and the moments of the local time's year if the rule's part was
    // decided by these alone.
    #[inline(always)]
    #[tactic(auto, using(crate::proofs::TableLaws::table_answers))]
    pub(super) fn answer_after(
        &self,
        local: i64,
        shown: Shown,
        probes: &mut Probes,
    ) -> (Option<Season>, MappedLocalTime<&LocalTimeType>)
        requires local { IsWide local }
        requires room { HasRoomFor 2 probes.old.rule_questions }
        requires shown { IsTableAnswer self.now local shown }
        ensures season { MatchOption result.0 ⊤ (IsSeasonIn self.now local) }
        ensures found { IsWallAnswer (Shows (TypeAt self.now) local)
            (map_of (λ r. r.now) result.1) }
        ensures cost { RoseWithin probes.old probes.new 0 2 }
        ensures counted { IsAskedFor self.now local
            probes.old.rule_questions probes.new.rule_questions }
    {
        let table = types_shown(&self.local_types, shown);
        match &self.last_rule {
            None => (None, table),
            Some(rule) => self.try_rule(rule, local, table, probes),
        }
    }

    // The answer with the seconds at which the rule's types show the local time, from the last
    // transition on; before it the moments of the local time's year, if these alone decided there.
    #[inline(always)]
    pub(super) fn try_rule<'a>(
        &'a self,
        rule: &'a TransitionRule,
        local: i64,
        answer: MappedLocalTime<&'a LocalTimeType>,
        probes: &mut Probes,
    ) -> (Option<Season>, MappedLocalTime<&'a LocalTimeType>)
        requires local { IsWide local }
        requires room { HasRoomFor 2 probes.old.rule_questions }
        requires rule { self.now.rule ≡ Some rule.now }
        requires seen { IsWallAnswer
            (IsShownIn self.now local (length self.now.transitions))
            (map_of (λ r. r.now) answer) }
        ensures season { MatchOption result.0 ⊤ (IsSeasonIn self.now local) }
        ensures found { IsWallAnswer (IsShownIn self.now local
            (length self.now.transitions + 1)) (map_of (λ r. r.now) result.1) }
        ensures cost { RoseWithin probes.old probes.new 0 2 }
        ensures counted { IsAskedFor self.now local
            probes.old.rule_questions probes.new.rule_questions }
    {
        let (season, by_rule) = rule.answer_from(self.index.rule_from(), local, probes);
        (season, joined(answer, by_rule))
    }
}

// The types of the indexes.
#[inline(always)]
fn types_shown(types: &[LocalTimeType], shown: Shown) -> MappedLocalTime<&LocalTimeType>
    requires { AreBelow (length types.now) (shown_indexes shown) }
    ensures { AreListed types.now (shown_indexes shown) (map_of (λ r. r.now) result) }
{
    match shown {
        Shown::Less | Shown::Skipped(_) => MappedLocalTime::None,
        Shown::Once(only) => MappedLocalTime::Single(&types[only]),
        Shown::Several(first, last) => MappedLocalTime::Ambiguous(&types[first], &types[last]),
    }
}
