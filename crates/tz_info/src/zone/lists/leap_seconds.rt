//! The leap seconds of a zone, and which seconds have a leap time.

ghost use Rattle.std.specs.{Int.{int_min}, Prelude.{◌≡◌, ◌↔◌, ◌≤ℤ◌, ◌<ℤ◌, ◌+ℤ◌, ◌-ℤ◌, [], neg_ℤ, pos, IsFalse, IsTrue, MatchResult, ℤ}};
ghost use Rattle.{
  tz_info.specs.Leaps.{correction_at, AreLeapSeconds, IsLeapTime, IsLeapTimeRefused},
  tz_info.specs.Steps.Starts.{IsLastWithLeapTime},
};

use crate::zone::lists::leap_time::{correction_after, passed_at};
use std::alloc::Global;
use std::marker::Model;
use tz_base::{Error, Expected, LeapSecond};

// The entries, and the last second of Unix time that has a leap time.
#[derive(Drop)]
pub(in crate::zone) struct LeapSeconds {
    entries: Vec<LeapSecond>,
    last: i64,
}

impl Model for LeapSeconds {
    ghost use Rattle.std.specs.Prelude.{List};
    ghost use Rattle.tz_info.specs.Leaps.{AreLeapSeconds};
    ghost use Rattle.tz_base.specs.declared.leap_second.LeapSecond.{LeapSecond};
    ghost use Rattle.tz_info.specs.Steps.Starts.{IsLastWithLeapTime};

    ghost Value = { List LeapSecond };

    ghost view = { λ l. l.entries.items };

    ghost invariant = { λ l. AreLeapSeconds l.entries.items
        × IsLastWithLeapTime l.entries.items l.last };
}

impl LeapSeconds {
    pub(in crate::zone) fn new(entries: Vec<LeapSecond>) -> LeapSeconds
        requires { AreLeapSeconds entries.items }
        ensures { result ≡ entries.items }
    {
        let last = last_with_leap_time(&entries);
        LeapSeconds { entries, last }
    }

    // No leap second, which takes no memory.
    pub(in crate::zone) fn none(alloc: Global) -> LeapSeconds
        ensures { result ≡ [] }
    {
        LeapSeconds::new(Vec::new(alloc))
    }

    #[inline(always)]
    pub(in crate::zone) fn entries(&self) -> &[LeapSecond]
        ensures entries { result.now ≡ self.now }
        ensures valid { AreLeapSeconds self.now }
    {
        &self.entries
    }

    // Whether the second has a leap time.
    #[inline(always)]
    pub(in crate::zone) fn has_leap_time(&self, unix_time: i64) -> bool
        ensures yes { IsTrue result → IsLeapTime self.now unix_time
            (unix_time +ℤ correction_at self.now unix_time) }
        ensures no { IsFalse result → IsLeapTimeRefused self.now unix_time }
    {
        unix_time <= self.last
    }

    // The last second that has a leap time.
    pub(in crate::zone) fn last(&self) -> i64
        ensures last { IsLastWithLeapTime self.now result }
        ensures valid { AreLeapSeconds self.now }
    {
        self.last
    }

    // The leap time of a Unix time.
    pub(in crate::zone) fn leap_time(&self, unix_time: i64) -> Result<i64, Error>
        ensures { MatchResult result
            (λ x. IsLeapTime self.now unix_time x)
            (λ e. (e ≡ Error.OutOfRange Expected.LeapTimeOf64Bits)
            × IsLeapTimeRefused self.now unix_time) }
    {
        if !self.has_leap_time(unix_time) {
            return Err(Error::OutOfRange(Expected::LeapTimeOf64Bits));
        }
        let passed = passed_at(&self.entries, unix_time);
        Ok(unix_time + correction_after(&self.entries, passed) as i64)
    }
}

// The last second that no entry refuses, or the last one of 64 bits.
#[tactic(auto, using(crate::proofs::Fits::fits, crate::proofs::Words::ints, crate::proofs::LeapStarts::since_epoch))]
fn last_with_leap_time(entries: &[LeapSecond]) -> i64
    requires { AreLeapSeconds entries.now }
    ensures { IsLastWithLeapTime entries.now result }
{
    let mut last = i64::MAX;
    let mut before = 0;
    for entry in entries {
        last = last.min(last_before(entry, before));
        before = entry.correction;
    }
    last
}

// The last second before the first one that the entry refuses, after an entry of that correction: the entry
// is passed there, and the sum with its correction leaves 64 bits. If 64 bits don't hold it, their last one.
fn last_before(entry: &LeapSecond, before: i32) -> i64
    requires { pos 0 ≤ℤ entry.now.unix_leap_time }
    ensures { (u : ℤ) → u ≤ℤ pos 9_223_372_036_854_775_807 → (result <ℤ u)
        ↔ (((entry.now.unix_leap_time -ℤ before) ≤ℤ u)
        × (pos 9_223_372_036_854_775_808 ≤ℤ (u +ℤ entry.now.correction))) }
{
    let unpassed = seconds_before(entry.unix_leap_time, i64::from(before) + 1);
    unpassed.max(seconds_before(i64::MAX, i64::from(entry.correction)))
}

// That many seconds before the second, or the last second of 64 bits if it is earlier.
fn seconds_before(second: i64, seconds: i64) -> i64
    requires second { pos 0 ≤ℤ second }
    requires seconds { neg_ℤ (pos 9_223_372_036_854_775_807) ≤ℤ seconds }
    ensures { result ≡ int_min (second -ℤ seconds) (pos 9_223_372_036_854_775_807) }
{
    match second.checked_sub(seconds) {
        Some(earlier) => earlier,
        None => i64::MAX,
    }
}
