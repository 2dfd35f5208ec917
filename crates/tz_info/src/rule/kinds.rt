//! Kinds of years: a year is a leap year or not, and begins with one of the seven weekdays.
//!
//! A rule's moments, counted from the first second of their year, are the same in all years of a
//! kind. They are found once for each of the fourteen kinds, when the rule is made.

ghost use Rattle.std.specs.Prelude.{◌≡◌, ◌<◌, ◌+◌, ◌+ℤ◌, if◌then◌else◌, int_le, int_lt};
ghost use Rattle.{
  naive_base.specs.Year.{year_start, IsDay},
  offset_core.specs.Offset.{IsWithinDay},
  tz_info.specs.Rules.{IsWithinWeek},
  tz_info.specs.Steps.Kinds.{seconds_by_kind, are_calm, day_time_second, is_calm_kind, is_inside, kind_place},
  tz_info.specs.Steps.Kinds.{is_one_moment, are_steady, margin_of, runs_on},
  tz_info.specs.Steps.Below.{all_below},
};

use crate::rule::day::DayTime;
use gregorian::{is_leap_year, weekday_of};

// The place of the kind of the year that begins on that day: the common years that begin with
// Sunday to Saturday, and then the leap years.
#[inline(always)]
pub(super) fn kind_of(year: i32, first: i64) -> usize
    requires first { first ≡ year_start year }
    requires day { IsDay first }
    ensures place { result ≡ kind_place year }
    ensures bound { result < 14 }
{
    kind_by(is_leap_year(year), weekday_of(first))
}

// That of a leap year or a common one, by the weekday of its first day.
#[inline(always)]
pub(super) fn kind_by(is_leap: bool, first_weekday: u32) -> usize
    requires { first_weekday < 7 }
    ensures value { result ≡ (if is_leap then 7 else 0) + first_weekday }
    ensures bound { result < 14 }
{
    (7 * is_leap as u32 + first_weekday) as usize
}

impl DayTime {
    // The second, counted from the year's first, at which a clock at that offset shows the time on
    // the day, in a year of each kind.
    #[tactic(auto, using(crate::proofs::Fits::fits, crate::proofs::Words::take_all), unfolding(crate::specs::Steps::Kinds::seconds_by_kind))]
    pub(super) fn seconds_by_kind(&self, offset: i32) -> [i64; 14]
        requires time { IsWithinWeek self.now.time }
        requires offset { IsWithinDay offset }
        ensures { result ≡ seconds_by_kind self.now offset }
    {
        let places = self.day.places_by_kind();
        let mut seconds = [0; 14];
        for kind in 0..14 {
            seconds[kind] = self.second_at(offset, places[kind]);
        }
        seconds
    }

    // The second at a place, given how many days of the year come before the day.
    #[inline(always)]
    fn second_at(&self, offset: i32, place: u32) -> i64
        requires time { IsWithinWeek self.now.time }
        requires offset { IsWithinDay offset }
        ensures { result ≡ day_time_second self.now offset place }
    {
        86_400 * place as i64 + (self.time as i64 - offset as i64)
    }
}

// How far inside its year each moment lies at least, if the two also come in one order in all
// years; else how far outside of it none lies, as a number below 0.
#[tactic(auto, unfolding(crate::specs::Steps::Kinds::margin_of))]
pub(super) fn margin_of(starts: &[i64; 14], ends: &[i64; 14]) -> i64
    ensures { result ≡ margin_of starts.now ends.now }
{
    if are_calm(starts, ends) {
        172_800
    } else {
        -691_200
    }
}

// Whether in years of each kind the moments lie two days or more from the ends of the year, and
// come in the order in which they come in years of the first kind.
pub(super) fn are_calm(starts: &[i64; 14], ends: &[i64; 14]) -> bool
    ensures { result ≡ are_calm starts.now ends.now }
{
    for kind in 0..14 {
        if !is_calm_kind(starts, ends, kind) {
            return false;
        }
    }
    true
}

fn is_calm_kind(starts: &[i64; 14], ends: &[i64; 14], kind: usize) -> bool
    requires { kind < 14 }
    ensures { result ≡ is_calm_kind starts.now ends.now kind }
{
    let is_start_first = starts[0] <= ends[0];
    let (start, end) = (starts[kind], ends[kind]);
    is_inside(start) && is_inside(end) && is_in_order(is_start_first, start, end)
}

fn is_in_order(start_first: bool, start: i64, end: i64) -> bool
    ensures { result ≡ (if start_first then int_le start end else int_lt end start) }
{
    if start_first {
        start <= end
    } else {
        end < start
    }
}

// Whether the second, counted from the year's first, lies two days or more from the ends of the
// year.
fn is_inside(second: i64) -> bool
    ensures { result ≡ is_inside second }
{
    172_800 <= second && second <= 31_363_200
}

// Whether the clocks of a rule with those moments never change: the two of each year are one, or the
// one season lasts until it begins again.
#[tactic(auto, unfolding(crate::specs::Steps::Kinds::are_steady))]
pub(super) fn are_steady(starts: &[i64; 14], ends: &[i64; 14]) -> bool
    ensures { result ≡ are_steady starts.now ends.now }
{
    are_one_moment(starts, ends) || run_on(starts, ends) || run_on(ends, starts)
}

// Whether the two moments of each year are one.
fn are_one_moment(starts: &[i64; 14], ends: &[i64; 14]) -> bool
    ensures { result ≡ all_below 14 (is_one_moment starts.now ends.now) }
{
    for kind in 0..14 {
        if !is_one_moment(starts, ends, kind) {
            return false;
        }
    }
    true
}

fn is_one_moment(starts: &[i64; 14], ends: &[i64; 14], kind: usize) -> bool
    requires { kind < 14 }
    ensures { result ≡ is_one_moment starts.now ends.now kind }
{
    let (start, end) = (starts[kind], ends[kind]);
    start <= end && end <= start
}

// Whether each year's last moment comes at or after the first one of the next year.
fn run_on(firsts: &[i64; 14], lasts: &[i64; 14]) -> bool
    ensures { result ≡ all_below 14 (runs_on firsts.now lasts.now) }
{
    for kind in 0..14 {
        if !runs_on(firsts, lasts, kind) {
            return false;
        }
    }
    true
}

// Whether that of a year of that kind does, whether the next year is a leap year or not.
fn runs_on(firsts: &[i64; 14], lasts: &[i64; 14], kind: usize) -> bool
    requires { kind < 14 }
    ensures { result ≡ runs_on firsts.now lasts.now kind }
{
    let is_leap = kind / 7;
    let weekday = (kind % 7 + is_leap + 1) % 7;
    let year = 86_400 * (365 + is_leap) as i64;
    let last = lasts[kind];
    is_reached(year, firsts[weekday], last) && is_reached(year, firsts[7 + weekday], last)
}

// Whether the first moment of the year after one of so many seconds comes by the last one of that year.
fn is_reached(year: i64, first: i64, last: i64) -> bool
    ensures { result ≡ int_le (year +ℤ first) last }
{
    i128::from(year) + i128::from(first) <= i128::from(last)
}
