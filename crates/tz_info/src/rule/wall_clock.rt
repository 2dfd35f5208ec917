//! The wall clock of a rule.

ghost use Rattle.std.specs.{Prelude.{◌≡◌, ◌-ℤ◌, ⊤, int_lt, not, Bool, MatchOption, ℤ}, Result.{IsOkAnd}};
ghost use Rattle.{
  naive_base.specs.{NaiveDateTime.{reading}, Range.{IsWide}},
  offset_core.specs.{LocalResult.{map_of}, WallAnswer.{IsWallAnswer}},
  tz_base.specs.LocalTypes.{IsUtOffset},
  tz_info.specs.HeldChanges.{change_held},
  tz_info.specs.Steps.{Walk.{IsAskedLast}, Gaps.{IsNeverFrom, IsRuleGap}, Seasons.{IsSeason, IsSeasonFor, IsSeasonOf}},
  tz_info.specs.Steps.RuleSeconds.{AreUtOffsets, IsAskedFrom, IsAskedSince, TypeFrom},
  tz_info.specs.{Moments.{type_when}, Rules.{IsAlternateRule}, RuleTypes.{RuleAt}, WallClocks.{Shows}},
  tz_search.specs.{Counts.{RoseWithin}, RisingCounts.{HasRoomFor}},
};

use crate::answers::{joined, second_showing, types_copied};
use crate::change::HeldChange;
use crate::rule::moments::Moment;
use crate::rule::{AlternateTime, Season, TransitionRule};
use naive_base::NaiveDateTime;
use offset_core::MappedLocalTime;
use tz_base::{Error, LocalTimeType};
use tz_search::Probes;

impl TransitionRule {
    /// Returns the types in force at the instants at which a clock by this rule shows the local time.
    ///
    /// `EST5EDT,M3.2.0,M11.1.0` sets clocks forward at 02:00 on 14 March 2021: that day 02:30 is in
    /// a gap, which no clock shows, and the answer is `None`. It sets them back at 02:00 on 7
    /// November 2021: that day 01:30 is in a fold, shown twice, and the answer is `Ambiguous`, with
    /// EDT at the first instant and EST at the last.
    ///
    /// # Errors
    ///
    /// None: the `Result` is that of chrono's signature, and is always `Ok`.
    #[tactic(auto, using(crate::proofs::Fits::in_range, crate::proofs::Candidates::from_least))]
    pub fn find_local_time_type_from_local(
        &self,
        local: NaiveDateTime,
    ) -> Result<MappedLocalTime<LocalTimeType>, Error>
        ensures { IsOkAnd result (IsWallAnswer (Shows (RuleAt self.now) (reading local).s)) }
    {
        let local = local.secs_since_epoch();
        Ok(types_copied(self.answer_from(i64::MIN, local, &mut Probes::new()).1))
    }

    // The types in force at the seconds from that one on at which a clock by this rule shows the
    // local time; before them the moments of its year, if these alone decided.
    #[inline(always)]
    pub(crate) fn answer_from(
        &self,
        from: i64,
        local: i64,
        probes: &mut Probes,
    ) -> (Option<Season>, MappedLocalTime<&LocalTimeType>)
        requires local { IsWide local }
        requires room { HasRoomFor 2 probes.old.rule_questions }
        ensures season { MatchOption result.0 ⊤ (IsSeasonOf (Some self.now) from local) }
        ensures found { IsWallAnswer (Shows (TypeFrom self.now from) local)
            (map_of (λ r. r.now) result.1) }
        ensures cost { RoseWithin probes.old probes.new 0 2 }
        ensures counted { IsAskedFrom self.now from local
            probes.old.rule_questions probes.new.rule_questions }
        ensures offsets { AreUtOffsets self.now }
    {
        match self {
            TransitionRule::Fixed(only) => (None, answer_of_one(only, from, local, probes)),
            TransitionRule::Alternate(turns) => turns.answer_from(from, local, probes),
        }
    }
}

// Asks a rule of one type for the one second that could show the local time.
#[inline(always)]
fn answer_of_one<'a>(
    only: &'a LocalTimeType,
    from: i64,
    local: i64,
    probes: &mut Probes,
) -> MappedLocalTime<&'a LocalTimeType>
    requires local { IsWide local }
    requires room { HasRoomFor 2 probes.old.rule_questions }
    ensures found { IsWallAnswer (Shows (TypeFrom (TransitionRule.Fixed only.now) from) local)
        (map_of (λ r. r.now) result) }
    ensures cost { RoseWithin probes.old probes.new 0 2 }
    ensures counted { IsAskedFrom (TransitionRule.Fixed only.now) from local
        probes.old.rule_questions probes.new.rule_questions }
    ensures offset { IsUtOffset only.now.offset }
{
    if second_showing(local, only.offset()) < from {
        return MappedLocalTime::None;
    }
    probes.count_question();
    MappedLocalTime::Single(only)
}

impl AlternateTime {
    // Asks for the two seconds that could show the local time.
    #[inline(always)]
    fn answer_from(
        &self,
        from: i64,
        local: i64,
        probes: &mut Probes,
    ) -> (Option<Season>, MappedLocalTime<&LocalTimeType>)
        requires local { IsWide local }
        requires room { HasRoomFor 2 probes.old.rule_questions }
        ensures season { MatchOption result.0 ⊤ (IsSeasonFor self.now from local) }
        ensures found { IsWallAnswer (Shows (TypeFrom (TransitionRule.Alternate self.now) from) local)
            (map_of (λ r. r.now) result.1) }
        ensures cost { RoseWithin probes.old probes.new 0 2 }
        ensures counted { IsAskedFrom (TransitionRule.Alternate self.now) from local
            probes.old.rule_questions probes.new.rule_questions }
        ensures rule { IsAlternateRule self.now }
    {
        // The greater offset has the earlier second.
        let dst_first = self.std().offset() < self.dst().offset();
        let first = self.type_when(dst_first).offset();
        let last = self.type_when(!dst_first).offset();
        let is_early = second_showing(local, last) < from;
        if is_early {
            return (None, MappedLocalTime::None);
        }
        let season = self.season(local);
        let one = self.ask(season, from, local, first, MappedLocalTime::None, probes);
        if first == last {
            return (None, one);
        }
        let both = self.ask(season, from, local, last, one, probes);
        (self.season_for(season, from, local, first, last), both)
    }

    // The season, if its moments decide at both seconds that could show the local time by these offsets.
    #[inline(always)]
    fn season_for(
        &self,
        season: Season,
        from: i64,
        local: i64,
        first: i32,
        last: i32,
    ) -> Option<Season>
        requires season { IsSeason self.now season }
        requires local { IsWide local }
        ensures { (dst : Bool) → dst ≡ int_lt self.now.std.offset self.now.dst.offset
            → first ≡ (type_when self.now dst).offset → last ≡ (type_when self.now (not dst)).offset
            → MatchOption result ⊤ (IsSeasonFor self.now from local) }
    {
        let earlier = second_showing(local, first);
        if from <= earlier && season.from <= earlier && second_showing(local, last) < season.until {
            Some(season)
        } else {
            None
        }
    }

    // The change at which clocks jump over the local time, if the season's moments decide at both
    // seconds that could show it.
    //
    // At the earlier of these two the type of the lesser offset is in force, and at the later one
    // the other type, since neither shows the local time. So one moment lies between them.
    #[inline(always)]
    pub(crate) fn gap_in(&self, season: Season, local: i64) -> HeldChange<'_>
        requires { IsWide local }
        ensures { (from : ℤ) → IsSeasonFor self.now from local season → IsNeverFrom self.now from local
            → IsRuleGap self.now from local (change_held result) }
    {
        let to_dst = self.std().offset() < self.dst().offset();
        self.change_of(Moment {
            at: season.turns.moment(to_dst),
            to_dst,
        })
    }

    // Asks for the one second that could show the local time at the offset, unless it comes before that one.
    #[inline(always)]
    #[tactic(auto, using(crate::proofs::Fits::in_range, crate::proofs::Candidates::asked_found, crate::proofs::Candidates::asked_other))]
    fn ask<'a>(
        &'a self,
        season: Season,
        from: i64,
        local: i64,
        offset: i32,
        answer: MappedLocalTime<&'a LocalTimeType>,
        probes: &mut Probes,
    ) -> MappedLocalTime<&'a LocalTimeType>
        requires season { IsSeason self.now season }
        requires local { IsWide local }
        requires room { HasRoomFor 1 probes.old.rule_questions }
        ensures asked { IsAskedLast (TypeFrom (TransitionRule.Alternate self.now) from) local offset
            (map_of (λ r. r.now) answer.entry) (map_of (λ r. r.now) result) }
        ensures cost { RoseWithin probes.old probes.new 0 1 }
        ensures counted { IsAskedSince from (local -ℤ offset)
            probes.old.rule_questions probes.new.rule_questions }
    {
        let second = second_showing(local, offset);
        if second < from {
            return answer;
        }
        probes.count_question();
        let found = self.type_in(season, second);
        if found.offset() == offset {
            return joined(answer, MappedLocalTime::Single(found));
        }
        answer
    }
}
