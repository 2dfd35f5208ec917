//! The spans of a zone, one after another.

ghost use Rattle.std.specs.Prelude.{◌≡◌, option_map};
ghost use Rattle.{
  tz_info.specs.HeldChanges.{span_held},
  tz_info.specs.SpanSteps.{IsSpanIfAny, begin_of, end_of, spans_most, IsNextSpan, IsPlace, IsPreviousSpan},
  tz_info.specs.Zones.{TypeAt},
};

use crate::change::HeldSpan;
use crate::zone::time_zone::TimeZone;
use std::iter::{FusedIterator, Iterator};
use std::marker::Model;
use tz_base::Span;

/// A place between two spans of a zone, from [`TimeZone::spans`]. The iterator goes forward;
/// [`Spans::previous`] goes back.
#[derive(Drop)]
pub struct Spans<'a> {
    zone: &'a TimeZone,
    // The first second after the place, or 2^63.
    at: i128,
    // How many entries of the zone's table have come by the span that is next, if that is known.
    near: usize,
}

impl<'a> Model for Spans<'a> {
    ghost use Rattle.tz_info.specs.SpanSteps.{IsPlace, SpanPlace};

    ghost Value = { SpanPlace };

    ghost view = { λ s. record { zone = s.zone.now; at = s.at } };

    ghost invariant = { λ s. IsPlace s.at };
}

impl TimeZone {
    /// Returns the zone's spans from that second of Unix time on: the first one is the span of the
    /// second, each other one begins where the one before it ended.
    ///
    /// The iterator ends where the zone has no type, as after the years of a rule, or else with the
    /// last second of 64 bits. It takes no memory, and keeps its place: a step searches nothing but
    /// the years of a rule.
    ///
    /// ```
    /// let zone = TimeZone::from_posix_tz(alloc, "EST5EDT,M3.2.0,M11.1.0")?;
    /// let mut spans = zone.spans(1_609_459_200);       // from 2021-01-01 00:00:00 UTC on
    /// let winter = spans.next()?.until;                // Some(1615705200): 14 March, 07:00 UTC
    /// let summer = spans.next()?.until;                // Some(1636264800): 7 November, 06:00 UTC
    /// let again = spans.previous()?.from;              // Some(1615705200)
    /// ```
    pub fn spans(&self, from: i64) -> Spans<'_>
        ensures { result ≡ record { zone = self.now; at = from } }
    {
        Spans {
            zone: self,
            at: from as i128,
            near: usize::MAX,
        }
    }
}

impl<'a> Spans<'a> {
    /// Returns the span of the second before the place, and goes to its begin. Right after
    /// [`Iterator::next`] that is the span that was returned last. `None` if the zone has no type at
    /// that second, or if 64 bits don't hold it; the place stays then.
    pub fn previous(&mut self) -> Option<Span>
        ensures { IsPreviousSpan self.old result self.new }
    {
        let span = self.span_of(self.at - 1)?;
        self.at = span_begin(span);
        self.near = self.near.wrapping_sub(1);
        Some(span.copied())
    }

    // The span of that second.
    fn span_of(&mut self, second: i128) -> Option<HeldSpan<'a>>
        ensures found { IsSpanIfAny (TypeAt self.old.zone) second (option_map span_held result) }
        ensures place { self.new ≡ self.old }
    {
        if second < i64::MIN as i128 || second > i64::MAX as i128 {
            return None;
        }
        let Ok(span) = self.zone.span_near(second as i64, &mut self.near) else {
            return None;
        };
        Some(span)
    }
}

impl<'a> Iterator for Spans<'a> {
    type Item = Span;

    ghost next_gives = { IsNextSpan };

    ghost remaining = { spans_most };

    fn next(&mut self) -> Option<Span> {
        let span = self.span_of(self.at)?;
        self.at = span_end(span);
        self.near = self.near.wrapping_add(1);
        Some(span.copied())
    }
}

impl<'a> FusedIterator for Spans<'a> {}

// The span's first second.
fn span_begin(span: HeldSpan<'_>) -> i128
    ensures begin { result ≡ begin_of (span_held span.entry) }
    ensures place { IsPlace result }
{
    match span.from {
        Some(from) => from as i128,
        None => i64::MIN as i128,
    }
}

// The second after its last one.
fn span_end(span: HeldSpan<'_>) -> i128
    ensures end { result ≡ end_of (span_held span.entry) }
    ensures place { IsPlace result }
{
    match span.until {
        Some(until) => until as i128,
        None => i64::MAX as i128 + 1,
    }
}
