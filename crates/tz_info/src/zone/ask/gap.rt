//! Gaps: what is in force around a local time that no clock shows.

ghost use Rattle.std.specs.Prelude.{◌*◌, ◌^◌, length, option_map, ⊤, MatchOption};
ghost use Rattle.{
  naive_base.specs.{NaiveDateTime.{reading}, Range.{IsWide}},
  offset_core.specs.WallAnswer.{IsNeverShown},
  tz_info.specs.Around.{map_both, AreTypesAround, IsAroundOrBefore},
  tz_info.specs.Steps.{WallPieces.{IsTableLess}, Gaps.{HasReach}, Seasons.{IsSeasonIn}},
  tz_info.specs.{WallClocks.{Shows}, Gaps.{HasGap, IsShown, IsTypeBeforeGap}, HeldChanges.{change_held}},
  tz_info.specs.{Looks.{RoseAround}, Zones.{TypeAt}},
  tz_search.specs.{Counts.{HasRoom, RoseWithin}, Digits.{digits}, RisingCounts.{HasRoomFor}},
};

use crate::change::HeldChange;
use crate::rule::Season;
use crate::zone::time_zone::TimeZone;
use naive_base::NaiveDateTime;
use offset_core::{Around, MappedLocalTime};
use tz_base::{Change, LocalTimeType};
use tz_search::Probes;

impl TimeZone {
    /// Returns the local time types in force at the instants at which a clock of this zone shows the
    /// local time; in a gap the clock change that skips it, at the first second at which clocks show
    /// more.
    ///
    /// In New York clocks were set forward from 02:00 to 03:00 on 14 March 2021. For 02:30 that day
    /// it returns the change at 1615705200 from EST to EDT, and for 03:30 EDT.
    #[inline(always)]
    pub fn find_local_time_type_around(&self, local: NaiveDateTime) -> Around<LocalTimeType, Change>
        ensures { AreTypesAround (TypeAt self.now) (reading local).s result }
    {
        match self.last_type_at(local.secs_since_epoch()) {
            Some(only) => Around::Single(*only),
            None => self.find_local_time_type_around_counted(local, &mut Probes::new()),
        }
    }

    /// As [`TimeZone::find_local_time_type_around`], and counts as
    /// [`TimeZone::find_local_time_type_from_local_counted`] does. In a gap it also probes its sides: at
    /// most one transition more than three times as many as their number has binary digits, and the rule is
    /// asked at most three times more. It always searches: [`TimeZone::find_local_time_type_around`] needs no search after
    /// the last change.
    ///
    /// Requires: [`Probes::has_room`].
    #[inline(always)]
    pub fn find_local_time_type_around_counted(
        &self,
        local: NaiveDateTime,
        probes: &mut Probes,
    ) -> Around<LocalTimeType, Change>
        requires { HasRoom probes.old }
        ensures found { AreTypesAround (TypeAt self.now) (reading local).s result }
        ensures cost { RoseAround self.now (reading local).s result probes.old probes.new }
    {
        match self.around(local.secs_since_epoch(), probes) {
            Around::Single(only) => Around::Single(*only),
            Around::Ambiguous(first, last) => Around::Ambiguous(*first, *last),
            Around::Gap(gap) => Around::Gap(gap.copied()),
        }
    }

    /// As [`TimeZone::find_local_time_type_around`], with references to the zone's types.
    #[inline(always)]
    pub fn held_types_around(&self, local: NaiveDateTime) -> Around<&LocalTimeType, HeldChange<'_>>
        ensures { AreTypesAround (TypeAt self.now) (reading local).s
            (map_both (λ r. r.now) change_held result) }
    {
        let local = local.secs_since_epoch();
        match self.last_type_at(local) {
            Some(only) => Around::Single(only),
            None => self.around(local, &mut Probes::new()),
        }
    }

    /// As [`TimeZone::held_types_around`]; of a gap it returns the type before it.
    #[inline(always)]
    pub fn local_time_types_around(
        &self,
        local: NaiveDateTime,
    ) -> Around<&LocalTimeType, &LocalTimeType>
        ensures { IsAroundOrBefore (TypeAt self.now) (reading local).s
            (map_both (λ r. r.now) (λ r. r.now) result) }
    {
        match self.held_types_around(local) {
            Around::Single(only) => Around::Single(only),
            Around::Ambiguous(first, last) => Around::Ambiguous(first, last),
            Around::Gap(gap) => Around::Gap(gap.before),
        }
    }

    // What shows the local time, or the gap that it lies in.
    #[inline(always)]
    fn around(&self, local: i64, probes: &mut Probes) -> Around<&LocalTimeType, HeldChange<'_>>
        requires local { IsWide local }
        requires room { HasRoom probes.old }
        ensures found { AreTypesAround (TypeAt self.now) local
            (map_both (λ r. r.now) change_held result) }
        ensures cost { RoseAround self.now local (map_both (λ r. r.now) change_held result)
            probes.old probes.new }
    {
        let _ = (self.extremes.least, self.extremes.greatest);
        let shown = self.index.answer(local, probes);
        let (season, answer) = self.answer_after(local, shown, probes);
        match answer {
            MappedLocalTime::None => {
                let jump = self.changes.jump(&self.local_types, shown, probes);
                Around::Gap(self.gap_at(local, jump, season, probes))
            }
            MappedLocalTime::Single(only) => Around::Single(only),
            MappedLocalTime::Ambiguous(first, last) => Around::Ambiguous(first, last),
        }
    }

    /// Returns the type in force before the gap that the local time lies in: the type at the second
    /// before the first of all seconds at which clocks show a later time. `None` if and only if
    /// some second shows the local time.
    ///
    /// In New York clocks were set forward from 02:00 to 03:00 on 14 March 2021: for 02:30 that day
    /// the answer is EST.
    pub fn find_local_time_type_before_gap(&self, local: NaiveDateTime) -> Option<LocalTimeType>
        ensures { MatchOption result
            (IsShown (TypeAt self.now) (reading local).s)
            (λ t. IsTypeBeforeGap (TypeAt self.now) (reading local).s t) }
    {
        match self.find_local_time_type_around(local) {
            Around::Gap(gap) => Some(gap.before),
            Around::Single(_) | Around::Ambiguous(_, _) => None,
        }
    }

    // The gap in the table, or from the last transition on.
    #[inline(always)]
    fn gap_at<'a>(
        &'a self,
        local: i64,
        jump: Option<HeldChange<'a>>,
        season: Option<Season>,
        probes: &mut Probes,
    ) -> HeldChange<'a>
        requires local { IsWide local }
        requires room { HasRoomFor (2 ^ 65) probes.old.reads }
        requires questions { HasRoomFor 3 probes.old.rule_questions }
        requires season { MatchOption season ⊤ (IsSeasonIn self.now local) }
        requires never { IsNeverShown (Shows (TypeAt self.now) local) }
        requires reach { HasReach self.now local }
        requires jump { MatchOption (option_map change_held jump) (IsTableLess self.now local)
            (λ c. HasGap (TypeAt self.now) local c.before c.after c.at) }
        ensures gap { HasGap (TypeAt self.now) local
            result.before.now result.after.now result.at }
        ensures cost { RoseWithin probes.old probes.new
            (3 * digits (length self.now.transitions)) 3 }
    {
        match jump {
            Some(change) => change,
            None => self.gap_after_table(local, season, probes),
        }
    }

    // The gap from the last transition on, before which clocks show less: mostly by the moments of
    // the local time's year.
    #[inline(always)]
    fn gap_after_table(
        &self,
        local: i64,
        season: Option<Season>,
        probes: &mut Probes,
    ) -> HeldChange<'_>
        requires local { IsWide local }
        requires room { HasRoomFor (2 ^ 65) probes.old.reads }
        requires questions { HasRoomFor 3 probes.old.rule_questions }
        requires season { MatchOption season ⊤ (IsSeasonIn self.now local) }
        requires never { IsNeverShown (Shows (TypeAt self.now) local) }
        requires reach { HasReach self.now local }
        requires less { IsTableLess self.now local }
        ensures gap { HasGap (TypeAt self.now) local
            result.before.now result.after.now result.at }
        ensures cost { RoseWithin probes.old probes.new
            (3 * digits (length self.now.transitions)) 3 }
    {
        let _ = &self.changes;
        let Some(turns) = self.turns() else {
            return self.gap_by_search(local, probes);
        };
        let Some(season) = season else {
            return self.gap_by_search(local, probes);
        };
        turns.gap_in(season, local)
    }

    // The gap by the first second at which clocks show the local time or a later one.
    fn gap_by_search(&self, local: i64, probes: &mut Probes) -> HeldChange<'_>
        requires local { IsWide local }
        requires room { HasRoomFor (2 ^ 65) probes.old.reads }
        requires questions { HasRoomFor 3 probes.old.rule_questions }
        requires never { IsNeverShown (Shows (TypeAt self.now) local) }
        requires reach { HasReach self.now local }
        ensures gap { HasGap (TypeAt self.now) local
            result.before.now result.after.now result.at }
        ensures cost { RoseWithin probes.old probes.new
            (3 * digits (length self.now.transitions)) 3 }
    {
        let _ = (self.extremes.least, self.extremes.greatest);
        let first = self.first_at_or_after(local, probes);
        HeldChange {
            before: self.near_type_counted(first.at - 1, probes),
            after: first.local_time_type,
            at: first.at,
        }
    }
}
