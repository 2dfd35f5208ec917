//! The first second at which a transition has come, and what a clock shows then.

ghost use Rattle.std.specs.Int.{saturate_signed, w64};
ghost use Rattle.std.specs.Prelude.{◌≡◌, ◌↔◌, ◌≤ℤ◌, ◌+ℤ◌, neg_ℤ, pos, ℤ, ◌<◌, ◌≤◌, ◌-◌, ◌<ℤ◌, length, slice_index_or, IsTrue};
ghost use Rattle.tz_info.specs.{Leaps.{AreLeapSeconds, IsLeapTime}, Steps.Starts.{HaveCome}};

use crate::zone::lists::leap_time::correction_after;
use tz_base::LeapSecond;

// The first second at which the leap time has come: also one that 64 bits don't hold. It is found without
// a search if `near` entries have come by then. Then as many as have come are near.
pub(in crate::zone) fn first_second(leaps: &[LeapSecond], leap_time: i64, near: &mut usize) -> i128
    requires { AreLeapSeconds leaps.now }
    ensures reached { (u y : ℤ) → IsLeapTime leaps.now u y → (leap_time ≤ℤ y) ↔ (result ≤ℤ u) }
    ensures bound { neg_ℤ (pos 9_223_372_036_854_775_808) ≤ℤ result }
{
    let come = entries_come(leaps, leap_time, near);
    if come == 0 {
        return leap_time as i128;
    }
    let passed = leaps[come - 1].unix_leap_time as i128 - correction_after(leaps, come - 1) as i128;
    let led_back = leap_time as i128 - correction_after(leaps, come) as i128;
    later_second(passed, led_back)
}

fn later_second(a: i128, b: i128) -> i128
    ensures { (u : ℤ) → (result ≤ℤ u) ↔ ((a ≤ℤ u) × (b ≤ℤ u)) }
{
    if a < b { b } else { a }
}

// How many entries come at or before the leap time, without a search if `near` of them do.
fn entries_come(leaps: &[LeapSecond], leap_time: i64, near: &mut usize) -> usize
    requires { AreLeapSeconds leaps.now }
    ensures { HaveCome leaps.now leap_time result }
{
    if leaps.is_empty() {
        return 0;
    }
    if !have_come(leaps, *near, leap_time) {
        *near = leaps.partition_point(|entry| entry.unix_leap_time <= leap_time);
    }
    *near
}

// Whether the first `count` entries come at or before the leap time, and no others.
fn have_come(leaps: &[LeapSecond], count: usize, leap_time: i64) -> bool
    requires { AreLeapSeconds leaps.now }
    ensures { IsTrue result → HaveCome leaps.now leap_time count }
{
    if count > leaps.len() {
        return false;
    }
    is_since(leaps, count, leap_time) & is_until(leaps, count, leap_time)
}

// Whether the last one of the first `count` entries comes at or before the leap time, if there is one.
fn is_since(leaps: &[LeapSecond], count: usize, leap_time: i64) -> bool
    requires { count ≤ length leaps.now }
    ensures { IsTrue result → (d : LeapSecond) → 0 < count
        → (slice_index_or leaps.now (count - 1) d).unix_leap_time ≤ℤ leap_time }
{
    count == 0 || leaps[count - 1].unix_leap_time <= leap_time
}

// Whether the entry after those comes after the leap time, if there is one.
fn is_until(leaps: &[LeapSecond], count: usize, leap_time: i64) -> bool
    requires { count ≤ length leaps.now }
    ensures { IsTrue result → (d : LeapSecond) → count < length leaps.now
        → leap_time <ℤ (slice_index_or leaps.now count d).unix_leap_time }
{
    count == leaps.len() || leap_time < leaps[count].unix_leap_time
}

// Two numbers that are no farther from 0 have a sum of 64 bits.
const FAR: i64 = 1 << 61;

// What a clock at that offset shows at the second. Mostly the sum is known to be one of 64 bits, which
// takes fewer steps.
#[inline(always)]
pub(in crate::zone) fn cut_at(second: i64, offset: i64) -> i64
    ensures { result ≡ saturate_signed w64 (second +ℤ offset) }
{
    if -FAR <= second && second <= FAR && -FAR <= offset && offset <= FAR {
        return second + offset;
    }
    second.saturating_add(offset)
}
