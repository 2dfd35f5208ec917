//! How many leap seconds are passed, and Unix times of leap times.

ghost use Rattle.std.specs.Prelude.{◌≡◌, ◌↔◌, ◌<◌, ◌≤◌, length, pos, take, IsTrue, MatchResult};
ghost use Rattle.{
  tz_info.specs.Leaps.{correction_before, corrections, expected_of_leap_time, passed_count, AreLeapSeconds, IsUnixTime},
  tz_info.specs.Leaps.{IsUnixTimeRefused},
  tz_info.specs.{Steps.Starts.{AreBefore}, Lists.{last_else}},
};

use tz_base::{Error, Expected, LeapSecond};

// How many entries are passed at the Unix time.
pub(super) fn passed_at(entries: &[LeapSecond], unix_time: i64) -> usize
    requires { AreLeapSeconds entries.now }
    ensures { result ≡ passed_count entries.now unix_time }
{
    let mut first = 0;
    let mut count = entries.len();
    while count > 0 {
        let half = count / 2;
        if is_passed(entries, first + half, unix_time) {
            first = first + half + 1;
            count = count - half - 1;
        } else {
            count = half;
        }
    }
    first
}

// Whether the entry at that place is passed at the Unix time.
#[inline(always)]
fn is_passed(entries: &[LeapSecond], place: usize, unix_time: i64) -> bool
    requires leaps { AreLeapSeconds entries.now }
    requires place { place < length entries.now }
    ensures { IsTrue result ↔ (place < passed_count entries.now unix_time) }
{
    let correction = correction_after(entries, place) as i64;
    entries[place].unix_leap_time <= unix_time.saturating_add(correction)
}

// The correction after the first `count` entries.
#[tactic(auto, using(crate::proofs::Words::ints, crate::proofs::Prefixes::last_taken))]
pub(super) fn correction_after(entries: &[LeapSecond], count: usize) -> i32
    requires { count ≤ length entries.now }
    ensures { result ≡ last_else (pos 0) (corrections (take count entries.now)) }
{
    if count == 0 {
        return 0;
    }
    entries[count - 1].correction
}

pub(in crate::zone) fn unix_time(entries: &[LeapSecond], leap_time: i64) -> Result<i64, Error>
    requires { AreLeapSeconds entries.now }
    ensures { MatchResult result
        (λ u. IsUnixTime entries.now leap_time u)
        (λ e. (e ≡ Error.OutOfRange (expected_of_leap_time leap_time))
        × IsUnixTimeRefused entries.now leap_time) }
{
    if leap_time == i64::MIN {
        return Err(Error::OutOfRange(Expected::LeapTimeAboveI64Min));
    }
    match leap_time.checked_sub(correction_before(entries, leap_time) as i64) {
        Some(difference) => Ok(difference),
        None => Err(Error::OutOfRange(Expected::UnixTimeOf64Bits)),
    }
}

// The correction of the last entry before a leap time.
fn correction_before(entries: &[LeapSecond], leap_time: i64) -> i32
    requires { AreLeapSeconds entries.now }
    ensures { result ≡ correction_before entries.now leap_time }
{
    correction_after(entries, entries_before(entries, leap_time))
}

// How many entries come before the leap time.
fn entries_before(entries: &[LeapSecond], leap_time: i64) -> usize
    requires { AreLeapSeconds entries.now }
    ensures { AreBefore entries.now leap_time result }
{
    entries.partition_point(|entry| entry.unix_leap_time < leap_time)
}
