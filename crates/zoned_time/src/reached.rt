//! The last local time that the clocks of a zone have shown up to an instant.
ghost use Rattle.std.specs.Prelude.{◌≡◌, ◌↔◌, ◌<ℤ◌, ◌≤ℤ◌, ◌+ℤ◌, ◌-ℤ◌, pos, IsTrue};
ghost use Rattle.{
  naive_base.specs.{NaiveDateTime.{reading}, Range.{IsInRange}},
  offset_core.specs.Offset.{IsWithinDay},
  zoned_time.specs.{Zone.{IsReachedAt}, Steps.Passed.{HasPassed}},
};

use crate::ZoneDays;
use naive_base::{NaiveDateTime, Timelike};
use offset_core::FixedOffset;

// Two offsets in seconds, which the bisection brings together: clocks have passed the local time of
// the first, and that of the second is still ahead.
#[derive(Clone, Copy)]
struct Bracket {
    passed: i32,
    ahead: i32,
}

// The last local time, in whole seconds, that clocks have shown up to a second of UTC.
pub(crate) fn reached_at<Tz: ZoneDays>(zone: &Tz, utc: NaiveDateTime) -> NaiveDateTime
    requires { IsInRange (reading utc).s }
    ensures reached { IsReachedAt (Tz.law zone.now).off (reading utc).s (reading result).s }
    ensures whole { (reading result).f ≡ 0 }
{
    let offset = reached_offset(zone, utc);
    let local = utc.overflowing_add_offset(FixedOffset::east(offset));
    match local.with_nanosecond(0) {
        Some(whole) => whole,
        None => unreachable!(),
    }
}

// How many seconds that local time is ahead of UTC: by the zone's own search, if it has one.
fn reached_offset<Tz: ZoneDays>(zone: &Tz, utc: NaiveDateTime) -> i32
    requires { IsInRange (reading utc).s }
    ensures within { IsWithinDay result }
    ensures reached { let s = (reading utc).s in
        IsReachedAt (Tz.law zone.now).off s (s +ℤ result) }
{
    match zone.reached_offset(&utc) {
        Some(offset) => offset,
        None => offset_by_search(zone, utc),
    }
}

// The same by the other calls of the zone. If clocks haven't been set for two days, it is the
// offset in force: they are less than a day away from UTC.
#[tactic(auto, using(crate::proofs::Words::casts, crate::proofs::Words::numbers))]
fn offset_by_search<Tz: ZoneDays>(zone: &Tz, utc: NaiveDateTime) -> i32
    requires { IsInRange (reading utc).s }
    ensures within { IsWithinDay result }
    ensures reached { let s = (reading utc).s in
        IsReachedAt (Tz.law zone.now).off s (s +ℤ result) }
{
    let stretch = zone.offset_stretch_at(&utc);
    if is_two_days_before(stretch.from, utc.secs_since_epoch()) {
        return stretch.offset;
    }
    reached_after_change(zone, utc, stretch.offset)
}

// Whether the first of two seconds comes two days before the other one, or earlier.
fn is_two_days_before(first: i64, second: i64) -> bool
    requires { IsInRange second }
    ensures { IsTrue result ↔ first ≤ℤ (second -ℤ pos 172_800) }
{
    first <= second - 172_800
}

// The same: the offset in force, unless clocks have been set back and haven't caught up yet.
fn reached_after_change<Tz: ZoneDays>(zone: &Tz, utc: NaiveDateTime, now: i32) -> i32
    requires range { IsInRange (reading utc).s }
    requires within { IsWithinDay now }
    requires offset { now ≡ (Tz.law zone.now).off (reading utc).s }
    ensures within { IsWithinDay result }
    ensures reached { let s = (reading utc).s in
        IsReachedAt (Tz.law zone.now).off s (s +ℤ result) }
{
    if now == 86_399 {
        return now;
    }
    let next = now + 1;
    if has_passed(zone, utc, next) {
        offset_by_bisection(zone, utc, next)
    } else {
        now
    }
}

// The same, found by bisection of the offsets from one whose local time clocks have passed.
fn offset_by_bisection<Tz: ZoneDays>(zone: &Tz, utc: NaiveDateTime, passed: i32) -> i32
    requires range { IsInRange (reading utc).s }
    requires within { IsWithinDay passed }
    requires passed { let s = (reading utc).s in HasPassed (Tz.law zone.now).off (s +ℤ passed) s }
    ensures within { IsWithinDay result }
    ensures reached { let s = (reading utc).s in
        IsReachedAt (Tz.law zone.now).off s (s +ℤ result) }
{
    let mut bracket = Bracket {
        passed,
        ahead: 86_400,
    };
    while bracket.passed + 1 < bracket.ahead {
        bracket = halved(zone, utc, bracket);
    }
    bracket.passed
}

// The half of a bracket that still has the answer between its ends.
#[tactic(auto, using(crate::proofs::Words::casts))]
fn halved<Tz: ZoneDays>(zone: &Tz, utc: NaiveDateTime, bracket: Bracket) -> Bracket
    requires range { IsInRange (reading utc).s }
    requires some { (bracket.passed +ℤ pos 1) <ℤ bracket.ahead }
    requires within { IsWithinDay bracket.passed }
    requires end { bracket.ahead <ℤ pos 86_401 }
    requires passed { let s = (reading utc).s in
        HasPassed (Tz.law zone.now).off (s +ℤ bracket.passed) s }
    requires ahead { let s = (reading utc).s in
        HasPassed (Tz.law zone.now).off (s +ℤ bracket.ahead) s → ⊥ }
    ensures some { result.passed <ℤ result.ahead }
    ensures within { IsWithinDay result.passed }
    ensures end { result.ahead <ℤ pos 86_401 }
    ensures passed { let s = (reading utc).s in
        HasPassed (Tz.law zone.now).off (s +ℤ result.passed) s }
    ensures ahead { let s = (reading utc).s in
        HasPassed (Tz.law zone.now).off (s +ℤ result.ahead) s → ⊥ }
    ensures less { (result.ahead -ℤ result.passed) <ℤ (bracket.ahead -ℤ bracket.passed) }
{
    let middle = middle_of(bracket.passed, bracket.ahead);
    if has_passed(zone, utc, middle) {
        Bracket {
            passed: middle,
            ahead: bracket.ahead,
        }
    } else {
        Bracket {
            passed: bracket.passed,
            ahead: middle,
        }
    }
}

// An offset between these two.
fn middle_of(passed: i32, ahead: i32) -> i32
    requires within { IsWithinDay passed }
    requires some { (passed +ℤ pos 1) <ℤ ahead }
    requires end { ahead <ℤ pos 86_401 }
    ensures low { passed <ℤ result }
    ensures high { result <ℤ ahead }
{
    passed + (ahead - passed) / 2
}

// Whether clocks have shown, up to a second of UTC, the local time that many seconds ahead of it or a
// later one.
fn has_passed<Tz: ZoneDays>(zone: &Tz, utc: NaiveDateTime, seconds: i32) -> bool
    requires range { IsInRange (reading utc).s }
    requires within { IsWithinDay seconds }
    ensures { let s = (reading utc).s in
        IsTrue result ↔ HasPassed (Tz.law zone.now).off (s +ℤ seconds) s }
{
    let local = utc.overflowing_add_offset(FixedOffset::east(seconds));
    zone.first_second_at_or_after(&local) <= utc.secs_since_epoch()
}
