//! Spans: the type in force at an instant, since which change, and until which one.
//!
//! One search finds the second's place between transitions, or between moments of the rule. If clocks
//! change on both sides of that place, these changes are the span's ends. The first span begins with the
//! first second that has a type, and the last one ends after the last such second.

ghost use Rattle.std.specs.Prelude.{◌≡◌, ◌<◌, ◌<ℤ◌, ◌≤ℤ◌, IfSome, MatchOption, MatchResult};
ghost use Rattle.tz_info.specs.{HeldChanges.{span_held}, Spans.{IsSpanAt}, Zones.{IsTypeError, TypeAt}};

use crate::change::HeldSpan;
use crate::zone::TimeZone;
use tz_base::{Error, Span};
use tz_search::Probes;

impl TimeZone {
    /// Returns the span of the second of Unix time: the local time type in force, the second since
    /// when it is, and the first second at which it no longer is. These are the clock changes that
    /// [`TimeZone::previous_change`] and [`TimeZone::next_change`] find, or else the ends of the
    /// seconds at which the zone has a type.
    ///
    /// ```
    /// let zone = TimeZone::from_posix_tz(alloc, "EST5EDT,M3.2.0,M11.1.0")?;
    /// let span = zone.span_at(1_609_459_200)?;          // at 2021-01-01 00:00:00 UTC
    /// let name = span.local_time_type.name();           // Some("EST")
    /// let from = span.from;                             // Some(1604210400): 1 November, 06:00 UTC
    /// let until = span.until;                           // Some(1615705200): 14 March, 07:00 UTC
    /// ```
    ///
    /// # Errors
    ///
    /// As [`TimeZone::find_local_time_type`].
    pub fn span_at(&self, unix_time: i64) -> Result<Span, Error>
        ensures { MatchResult result (IsSpanAt (TypeAt self.now) unix_time)
            (IsTypeError self.now unix_time) }
    {
        Ok(self.held_span_at(unix_time)?.copied())
    }

    /// As [`TimeZone::span_at`], with a reference to the zone's type.
    #[inline(always)]
    pub fn held_span_at(&self, unix_time: i64) -> Result<HeldSpan<'_>, Error>
        ensures { MatchResult result (λ s. IsSpanAt (TypeAt self.now) unix_time (span_held s))
            (IsTypeError self.now unix_time) }
    {
        self.span_near(unix_time, &mut usize::MAX)
    }

    // The same, with `near` as `next_change_near` takes it.
    #[inline(always)]
    pub(super) fn span_near(&self, unix_time: i64, near: &mut usize) -> Result<HeldSpan<'_>, Error>
        ensures { MatchResult result (λ s. IsSpanAt (TypeAt self.now) unix_time (span_held s))
            (IsTypeError self.now unix_time) }
    {
        if let Some(span) = self.last_span_at(unix_time) {
            return Ok(span);
        }
        if self.has_no_transition() {
            return self.span_from_last(unix_time);
        }
        self.span_by_place(unix_time, near)
    }

    // The same by the place between entries: not inlined, since a zone without any needs no search.
    #[inline(never)]
    fn span_by_place(&self, unix_time: i64, near: &mut usize) -> Result<HeldSpan<'_>, Error>
        ensures { MatchResult result (λ s. IsSpanAt (TypeAt self.now) unix_time (span_held s))
            (IsTypeError self.now unix_time) }
    {
        let changes = self.change_table();
        let Some(between) = changes.between(self.local_time_types(), unix_time, near) else {
            return self.span_from_last(unix_time);
        };
        if !between.is_span {
            return self.span_by_changes(unix_time);
        }
        Ok(HeldSpan {
            local_time_type: self.listed(between.index),
            from: Some(between.from),
            until: Some(between.until),
        })
    }

    // The same by a rule of two types, if the second lies between two of its changes.
    #[inline(never)]
    fn span_from_last(&self, unix_time: i64) -> Result<HeldSpan<'_>, Error>
        ensures { MatchResult result (λ s. IsSpanAt (TypeAt self.now) unix_time (span_held s))
            (IsTypeError self.now unix_time) }
    {
        let _ = &self.changes;
        let Some(turns) = self.turns() else {
            return self.span_by_changes(unix_time);
        };
        let Some(beside) = turns.beside(unix_time, &mut Probes::new()) else {
            return self.span_by_changes(unix_time);
        };
        let Some(from) = if_after(beside.previous, self.rule_begin()) else {
            return self.span_by_changes(unix_time);
        };
        let Some(until) = beside.next else {
            return self.span_by_changes(unix_time);
        };
        Ok(HeldSpan {
            local_time_type: turns.type_when(beside.is_dst),
            from: Some(from),
            until: Some(until),
        })
    }

    // The same by the changes on both sides, for each of which there is a search.
    #[inline(never)]
    fn span_by_changes(&self, unix_time: i64) -> Result<HeldSpan<'_>, Error>
        ensures { MatchResult result (λ s. IsSpanAt (TypeAt self.now) unix_time (span_held s))
            (IsTypeError self.now unix_time) }
    {
        let _ = &self.changes;
        let local_time_type = self.find_local_time_type(unix_time)?;
        Ok(HeldSpan {
            local_time_type,
            from: self.span_begin(self.previous_held_change(unix_time)),
            until: self.span_end(self.next_held_change(unix_time)),
        })
    }
}

// The second that was found, if it comes after that one.
fn if_after(found: Option<i64>, second: i128) -> Option<i64>
    ensures { MatchOption result (IfSome found (λ s. s ≤ℤ second))
        (λ s. (second <ℤ s) × (found ≡ Some s)) }
{
    let later = found?;
    if second < later as i128 {
        Some(later)
    } else {
        None
    }
}
