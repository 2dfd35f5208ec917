//! The moments of one year at which a rule's types give way to each other, and the seconds at which
//! only these decide.

ghost use Rattle.std.specs.Prelude.{◌≡◌, ◌↔◌, ◌<◌, ◌+ℤ◌, pos, IsTrue, MatchResult};
ghost use Rattle.{
  naive_base.specs.{DateOf.{day_of_year, year_of}, Year.{floor_div, year_start, IsDay, LiesIn}},
  tz_info.specs.{Moments.{IsRuleTime}, Rules.{IsAlternateRule}, Steps.{Kinds.{kind_place}, Seasons.{IsDecidedIn}}},
};

use crate::rule::alternate::AlternateTime;
use crate::rule::kinds::{kind_by, kind_of};
use crate::rule::moments::{Turns, is_dst_by_three};
use gregorian::{year_day_of, year_of, year_start};
use tz_base::{Error, Expected, LocalTimeType};

// The first and the last second of the years that a rule answers in.
pub(super) const FIRST_RULE_TIME: i64 = -67_768_100_504_812_800;

pub(super) const LAST_RULE_TIME: i64 = 67_767_976_170_460_799;

// How many days before 1970 they begin.
const DAYS_BEFORE_1970: i64 = 784_353_015_102;

// The moments of one year, and from when until when these alone decide.
#[derive(Clone, Copy)]
pub(crate) struct Season {
    pub(super) from: i64,
    pub(super) until: i64,
    pub(super) turns: Turns,
}

impl AlternateTime {
    ghost use Rattle.tz_info.specs.Moments.{end_in, start_in, type_when, AlternateAt, IsAlternateRefused, IsDstAt};
    ghost use Rattle.tz_info.specs.{Moments.{IsRuleYear}, Steps.Seasons.{IsSeason}};

    /// The type in force at the second of Unix time, as `TransitionRule::find_local_time_type` has
    /// it.
    ///
    /// # Errors
    ///
    /// [`Error::OutOfRange`] if the second's UTC year is below `i32::MIN + 2` or above
    /// `i32::MAX - 2`.
    #[inline(always)]
    #[tactic(auto, using(crate::proofs::Fits::in_range, crate::proofs::RuleLaws::rule_time))]
    pub fn find_local_time_type(&self, unix_time: i64) -> Result<&LocalTimeType, Error>
        ensures { MatchResult result
            (λ t. AlternateAt self.now unix_time t.now)
            (λ e. (e ≡ Error.OutOfRange Expected.YearThatRuleAnswersIn) × IsAlternateRefused unix_time) }
    {
        if !is_rule_time(unix_time) {
            return Err(Error::OutOfRange(Expected::YearThatRuleAnswersIn));
        }
        Ok(self.type_in(self.season(unix_time), unix_time))
    }

    // The moments of the second's year, for questions about several seconds near it.
    #[inline(always)]
    pub(crate) fn season(&self, unix_time: i64) -> Season
        requires { IsRuleTime unix_time }
        ensures { IsSeason self.now result }
    {
        let day = day_of(unix_time);
        let place = year_day_of(day);
        let first = first_of_year(day, place.day_of_year);
        let midnight = 86_400 * first;
        Season {
            from: midnight - self.margin,
            until: midnight + 31_536_000 + self.margin,
            turns: self.turns_from(first, kind_by(place.is_leap, place.first_weekday)),
        }
    }

    // The type in force at the second, by the season's moments if these decide.
    #[inline(always)]
    #[tactic(auto, using(crate::proofs::Fits::in_range))]
    pub(super) fn type_in(&self, season: Season, unix_time: i64) -> &LocalTimeType
        requires season { IsSeason self.now season }
        requires time { IsRuleTime unix_time }
        ensures { AlternateAt self.now unix_time result.now }
    {
        self.type_when(self.is_dst_in(season, unix_time))
    }

    // Whether it is daylight saving time at the second, by the season's moments if these decide.
    #[inline(always)]
    pub(super) fn is_dst_in(&self, season: Season, unix_time: i64) -> bool
        requires season { IsSeason self.now season }
        requires time { IsRuleTime unix_time }
        ensures { AlternateAt self.now unix_time (type_when self.now result) }
    {
        if season.decides(unix_time) {
            return self.is_dst_amid(season, unix_time);
        }
        let day = day_of(unix_time);
        self.is_dst(year_of(day), day, unix_time)
    }

    // Whether it is daylight saving time at a second at which the season's moments decide.
    #[inline(always)]
    pub(crate) fn is_dst_amid(&self, season: Season, unix_time: i64) -> bool
        requires season { IsSeason self.now season }
        requires time { IsRuleTime unix_time }
        requires decides { IsDecidedIn season unix_time }
        ensures { AlternateAt self.now unix_time (type_when self.now result) }
    {
        season.turns.is_dst(unix_time)
    }

    // Whether it is daylight saving time at the second, which lies on that day of that year.
    //
    // A rule's moments lie less than eight days outside their year, so that near the year's ends
    // those of its neighbours decide as well.
    #[inline(never)]
    fn is_dst(&self, year: i32, day: i64, unix_time: i64) -> bool
        requires day { day ≡ floor_div unix_time 86_400 }
        requires lies { LiesIn day year }
        requires inside { IsRuleYear year }
        ensures { IsDstAt (start_in self.now) (end_in self.now) year unix_time result }
    {
        let here = self.turns(year);
        is_dst_by_three(self.turns(year - 1), here, self.turns(year + 1), unix_time)
    }

    // The moments of the year, by its kind.
    #[inline(always)]
    #[tactic(auto, using(crate::proofs::Fits::in_range, crate::proofs::SeasonLaws::of_year))]
    pub(super) fn turns(&self, year: i32) -> Turns
        ensures start { result.start ≡ start_in self.now year }
        ensures end { result.end ≡ end_in self.now year }
        ensures rule { IsAlternateRule self.now }
    {
        let first = year_start(year);
        self.turns_from(first, kind_of(year, first))
    }

    // The moments of the year that begins on that day and is of that kind.
    #[inline(always)]
    fn turns_from(&self, first: i64, kind: usize) -> Turns
        requires first { first ≡ year_start (year_of first) }
        requires day { IsDay first }
        requires kind { kind ≡ kind_place (year_of first) }
        requires below { kind < 14 }
        ensures start { result.start ≡ start_in self.now (year_of first) }
        ensures end { result.end ≡ end_in self.now (year_of first) }
        ensures rule { IsAlternateRule self.now }
    {
        let midnight = 86_400 * first;
        Turns {
            start: midnight + self.starts[kind],
            end: midnight + self.ends[kind],
        }
    }
}

impl Season {
    // Whether the season's moments alone decide at the second.
    #[inline(always)]
    pub(crate) fn decides(self, unix_time: i64) -> bool
        ensures { IsTrue result ↔ IsDecidedIn self unix_time }
    {
        (self.from <= unix_time) & (unix_time < self.until)
    }
}

// Whether the second lies in a year that a rule answers in.
pub(super) fn is_rule_time(unix_time: i64) -> bool
    ensures { IsTrue result ↔ IsRuleTime unix_time }
{
    FIRST_RULE_TIME <= unix_time && unix_time <= LAST_RULE_TIME
}

// The second, counted from the first of the years that a rule answers in.
fn since_first(unix_time: i64) -> u64
    requires { IsRuleTime unix_time }
    ensures value { unix_time +ℤ pos 67_768_100_504_812_800 ≡ pos result }
    ensures bound { result < 135_536_076_675_273_600 }
{
    (unix_time - FIRST_RULE_TIME) as u64
}

// The day number of the day that comes `days` days after the first of those years begins.
fn day_from_first(days: u64) -> i64
    requires { days < 1_568_704_591_149 }
    ensures { result +ℤ pos 784_353_015_102 ≡ pos days }
{
    days as i64 - DAYS_BEFORE_1970
}

// The day number of the second. Counted from the first of those years no second is negative, so
// that one division is enough.
#[inline(always)]
pub(super) fn day_of(unix_time: i64) -> i64
    requires { IsRuleTime unix_time }
    ensures value { result ≡ floor_div unix_time 86_400 }
    ensures bound { IsDay result }
{
    day_from_first(since_first(unix_time) / 86_400)
}

// The day number of the first day of the year that the day lies in.
#[inline(always)]
fn first_of_year(day: i64, passed: u32) -> i64
    requires day { IsDay day }
    requires place { passed ≡ day_of_year day }
    requires bound { passed < 366 }
    ensures value { result ≡ year_start (year_of day) }
    ensures bound { IsDay result }
{
    day - passed as i64
}
