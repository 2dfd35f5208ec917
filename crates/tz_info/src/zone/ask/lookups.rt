//! Lookups at one instant after another, which keep the span of the last ones.

ghost use Rattle.std.specs.Prelude.{◌≡◌, ◌↔◌, ◌<ℤ◌, ◌≤ℤ◌, IfSome, IsTrue, MatchResult};
ghost use Rattle.tz_info.specs.{Steps.Held.{IsHeld}, Zones.{IsTypeError, TypeAt}};

use crate::zone::ask::runs::{end_by, start_by};
use crate::zone::time_zone::TimeZone;
use std::marker::Model;
use tz_base::{Error, LocalTimeType};

// Two instants are near if they lie less than a week apart, in seconds.
const NEAR: i64 = 604_800;

const TWICE_NEAR: u64 = 1_209_600;

// A near instant outside the kept span asks for its span after two others in a row.
const NEAR_MISSES: u32 = 2;

// One in 256 far instants outside the kept span asks for its span: the first time after 16 others.
const FIRST_FAR_MISSES: u8 = 240;

/// A zone's lookups at one instant after another, from [`TimeZone::lookups`].
///
/// They keep a span that some of the last instants lie in. If instants come in order, near one
/// another, or in a zone whose clocks seldom change, most lookups only compare the instant with both
/// ends of that span.
#[derive(Drop)]
pub struct Lookups<'a> {
    zone: &'a TimeZone,
    // The last instant outside the span that was kept then.
    last: i64,
    // How many such instants in a row came near the one before, up to `NEAR_MISSES`.
    near_misses: u32,
    // How many did not, and `FIRST_FAR_MISSES` more.
    far_misses: u8,
    held: Held,
}

// Seconds from `first` on and before `end`, in which that type is in force.
#[derive(Clone, Copy)]
pub(in crate::zone) struct Held {
    pub(in crate::zone) first: i64,
    pub(in crate::zone) end: i64,
    pub(in crate::zone) local_time_type: LocalTimeType,
}

impl<'a> Model for Lookups<'a> {
    ghost use Rattle.tz_info.specs.{Steps.Held.{IsHeld}, Zones.{Zone}};

    ghost Value = { Zone };

    ghost view = { λ l. l.zone.now };

    ghost invariant = { λ l. IsHeld l.zone.now l.held };
}

impl TimeZone {
    /// Returns the zone's lookups at one instant after another.
    ///
    /// ```
    /// let mut lookups = zone.lookups();
    /// let first = lookups.find_local_time_type(1_609_459_200)?.offset(); // -18000
    /// let next = lookups.find_local_time_type(1_609_462_800)?.offset(); // -18000
    /// ```
    pub fn lookups(&self) -> Lookups<'_>
        ensures { result ≡ self.now }
    {
        Lookups {
            zone: self,
            last: 0,
            near_misses: 0,
            far_misses: FIRST_FAR_MISSES,
            held: Held {
                first: i64::MAX,
                end: 0,
                local_time_type: LocalTimeType::utc(),
            },
        }
    }

    // The span of the second.
    #[inline(never)]
    pub(super) fn held_at(&self, unix_time: i64) -> Option<Held>
        ensures { IfSome result (IsHeld self.now) }
    {
        let _ = &self.changes;
        let Ok(span) = self.span_at(unix_time) else {
            return None;
        };
        Some(Held {
            first: start_by(span.from, i64::MIN),
            end: end_by(span.until, i64::MAX),
            local_time_type: span.local_time_type,
        })
    }
}

impl<'a> Lookups<'a> {
    /// Returns the type in force at the second of Unix time, as [`TimeZone::find_local_time_type`]
    /// does.
    ///
    /// # Errors
    ///
    /// As [`TimeZone::find_local_time_type`].
    #[inline(always)]
    #[tactic(auto, using(crate::proofs::Fits::fits, crate::proofs::Words::ints))]
    pub fn find_local_time_type(&mut self, unix_time: i64) -> Result<LocalTimeType, Error>
        ensures found { MatchResult result (TypeAt self.old unix_time)
            (IsTypeError self.old unix_time) }
        ensures zone { self.new ≡ self.old }
    {
        if is_between(self.held.first, self.held.end, unix_time) {
            return Ok(self.held.local_time_type);
        }
        self.keep_if_near(unix_time);
        Ok(*self.zone.find_local_time_type(unix_time)?)
    }

    // Keeps the span of the second after some near misses in a row, or after many far ones.
    #[inline(always)]
    fn keep_if_near(&mut self, unix_time: i64)
        ensures { self.new ≡ self.old }
    {
        let is_near = is_near(self.last, unix_time);
        self.last = unix_time;
        if !is_near {
            self.near_misses = 0;
            self.far_misses = self.far_misses.wrapping_add(1);
            if self.far_misses == 0 {
                self.keep_span_at(unix_time);
            }
        } else if self.near_misses < NEAR_MISSES {
            self.near_misses += 1;
        } else {
            self.keep_span_at(unix_time);
        }
    }

    #[inline(always)]
    fn keep_span_at(&mut self, unix_time: i64)
        ensures { self.new ≡ self.old }
    {
        if let Some(held) = self.zone.held_at(unix_time) {
            self.held = held;
        }
    }
}

// Whether the second is `first` or later, and before `end`: both comparisons without a jump between.
#[inline(always)]
fn is_between(first: i64, end: i64, unix_time: i64) -> bool
    ensures { IsTrue result ↔ ((first ≤ℤ unix_time) × (unix_time <ℤ end)) }
{
    (first <= unix_time) & (unix_time < end)
}

// Whether one second lies near another. Only the time that lookups take depends on it.
#[inline(always)]
fn is_near(last: i64, unix_time: i64) -> bool {
    unix_time
        .wrapping_sub(last)
        .wrapping_add(NEAR)
        .cast_unsigned()
        < TWICE_NEAR
}
