//! A rule is asked about a year, and each question is counted.
//!
//! A year's changes need its `AskedYear`. `ask_year`, which counts, makes one. Years beyond it, up to
//! the first one in which clocks change, are one question together.

ghost use Rattle.std.specs.Prelude.{◌≡◌, ◌≢◌, ◌+◌, true, MatchOption};
ghost use Rattle.{
  tz_info.specs.{Changes.{IsChange}, Moments.{type_when, AlternateAt, IsRuleTime, IsRuleYear, IsYearOf}},
  tz_info.specs.Steps.{AskedYears.{turn_of, IsAskedYear, IsCalmRule}, Beside.{change_found, IsNearestMomentOf}},
  tz_info.specs.Steps.Changes.{IsIdle, IsInStretch, IsOfYear},
  tz_search.specs.RisingCounts.{HasRoomFor},
};

use crate::change::is_same_type;
use crate::rule::alternate::AlternateTime;
use crate::rule::moments::{Moment, Turns, nearer};
use crate::rule::years::{Stretch, rule_year_of};
use tz_search::Probes;

// A year, and the two moments of a rule in it.
#[derive(Clone, Copy)]
pub(super) struct AskedYear {
    year: i32,
    turns: Turns,
}

impl AskedYear {
    pub(super) fn year(self) -> i32
        ensures { result ≡ self.year }
    {
        self.year
    }
}

impl AlternateTime {
    // Asks about the year: one question.
    #[inline(always)]
    pub(super) fn ask_year(&self, year: i32, probes: &mut Probes) -> AskedYear
        requires inside { IsRuleYear year }
        requires room { HasRoomFor 1 probes.old.rule_questions }
        ensures asked { IsAskedYear self.now result }
        ensures year { result.year ≡ year }
        ensures cost { probes.new
            ≡ record probes.old { rule_questions = probes.old.rule_questions + 1 } }
    {
        probes.count_question();
        self.moments_of(year)
    }

    // The year's moments, without a question.
    #[inline(always)]
    pub(super) fn moments_of(&self, year: i32) -> AskedYear
        requires { IsRuleYear year }
        ensures asked { IsAskedYear self.now result }
        ensures year { result.year ≡ year }
    {
        AskedYear {
            year,
            turns: self.turns(year),
        }
    }

    // Asks about the second's year.
    #[inline(always)]
    pub(super) fn ask_year_at(&self, second: i64, probes: &mut Probes) -> AskedYear
        requires time { IsRuleTime second }
        requires room { HasRoomFor 1 probes.old.rule_questions }
        ensures asked { IsAskedYear self.now result }
        ensures year { IsYearOf second result.year }
        ensures cost { probes.new
            ≡ record probes.old { rule_questions = probes.old.rule_questions + 1 } }
    {
        self.ask_year(rule_year_of(second), probes)
    }

    // The first moment of the stretch or the last one, of those for which the second before lies in
    // the year.
    #[inline(always)]
    pub(super) fn nearest_in(
        &self,
        asked: AskedYear,
        stretch: Stretch,
        forward: bool,
    ) -> Option<Moment>
        requires { IsAskedYear self.now asked }
        ensures { IsNearestMomentOf forward self.now
            (IsOfYear stretch.after stretch.last asked.year) result }
    {
        if self.is_calm() {
            self.nearest_amid(asked, stretch, forward)
        } else {
            self.nearest_by_three(asked.year, stretch, forward)
        }
    }

    // Whether all moments keep away from the ends of their years.
    #[inline(always)]
    fn is_calm(&self) -> bool
        ensures { result ≡ true → IsCalmRule self.now }
    {
        self.margin > 0
    }

    // The same by the year's own two moments.
    #[inline(always)]
    #[tactic(auto, using(crate::proofs::Fits::in_range, crate::proofs::CalmYears::none_of_one, crate::proofs::CalmYears::nearest_of_two))]
    fn nearest_amid(&self, asked: AskedYear, stretch: Stretch, forward: bool) -> Option<Moment>
        requires asked { IsAskedYear self.now asked }
        requires calm { IsCalmRule self.now }
        ensures { IsNearestMomentOf forward self.now
            (IsOfYear stretch.after stretch.last asked.year) result }
    {
        if asked.turns.start == asked.turns.end {
            return None;
        }
        if is_same_type(self.std(), self.dst()) {
            return None;
        }
        let start = self.turn_within(asked, stretch, true);
        nearer(start, self.turn_within(asked, stretch, false), forward)
    }

    // The start, or the end, if it lies in the stretch.
    #[inline(always)]
    fn turn_within(&self, asked: AskedYear, stretch: Stretch, to_dst: bool) -> Option<Moment>
        requires asked { IsAskedYear self.now asked }
        requires calm { IsCalmRule self.now }
        requires apart { asked.turns.start ≢ asked.turns.end }
        requires types { self.now.std ≢ self.now.dst }
        ensures { let second = turn_of self.now to_dst asked.year in
            MatchOption (change_found self.now result)
            (IsIdle (AlternateAt self.now) stretch.after stretch.last second)
            (λ c. IsChange (AlternateAt self.now) c × (c.at ≡ second)
            × IsInStretch stretch.after stretch.last second) }
    {
        let at = asked.turns.moment(to_dst);
        if stretch.has(at) {
            Some(Moment { at, to_dst })
        } else {
            None
        }
    }

    // Whether it is daylight saving time at a second of the year.
    #[inline(always)]
    #[tactic(auto, using(crate::proofs::Fits::fits))]
    pub(super) fn is_dst_in_year(&self, asked: AskedYear, second: i64) -> bool
        requires asked { IsAskedYear self.now asked }
        requires year { IsYearOf second asked.year }
        requires time { IsRuleTime second }
        ensures { AlternateAt self.now second (type_when self.now result) }
    {
        if self.is_calm() {
            asked.turns.is_dst(second)
        } else {
            self.is_dst_at(second)
        }
    }
}
