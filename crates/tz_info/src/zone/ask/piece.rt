//! Pieces of a zone: stretches of seconds at which one local time type is in force.

ghost use Rattle.std.specs.Prelude.{◌≡◌, ◌⊎◌, ◌≤ℤ◌, ◌<ℤ◌, pos, IfSome, MatchOption};
ghost use Rattle.tz_info.specs.{Spans.{IsInForceWithin}, Zones.{TypeAt, IsTypeRefused}};

use crate::rule::{AlternateTime, TransitionRule};
use crate::zone::ask::runs::{end_by, start_by};
use crate::zone::time_zone::TimeZone;
use tz_base::LocalTimeType;

/// Unix seconds at which one local time type is in force: from `from` on and before `until`.
#[derive(Clone, Copy)]
pub struct Piece<'a> {
    /// The first of them.
    pub from: i64,
    /// The second after the last of them.
    pub until: i64,
    /// The type.
    pub local_time_type: &'a LocalTimeType,
}

impl TimeZone {
    /// Returns the local time type in force at the second of Unix time, and seconds around it at which it is in
    /// force too. It costs what a lookup costs: the piece ends at the next transition, or where the rule has its next
    /// moment, though the same type may be in force there. [`TimeZone::span_at`] has the longest such stretch.
    ///
    /// A piece without an end ends at `i64::MAX`. `None` if the zone has no type at that second, and at `i64::MAX`, which
    /// no piece has.
    ///
    /// ```
    /// let zone = TimeZone::from_posix_tz(alloc, "EST5EDT,M3.2.0,M11.1.0")?;
    /// let piece = zone.piece_at(1_609_459_200)?;       // at 2021-01-01 00:00:00 UTC
    /// let until = piece.until;                         // 1615705200: 14 March, 07:00 UTC
    /// ```
    #[inline(always)]
    pub fn piece_at(&self, unix_time: i64) -> Option<Piece<'_>>
        // At each of its seconds its type is in force.
        ensures each { IfSome result (λ p.
            IsInForceWithin (TypeAt self.now) p.from p.until p.local_time_type.now) }
        // The second is one of them.
        ensures at { MatchOption result
            (IsTypeRefused self.now unix_time ⊎ (unix_time ≡ pos 9_223_372_036_854_775_807))
            (λ p. (p.from ≤ℤ unix_time) × (unix_time <ℤ p.until)) }
    {
        let changes = self.change_table();
        match changes.between(self.local_time_types(), unix_time, &mut usize::MAX) {
            Some(between) => Some(Piece {
                from: between.from,
                until: between.until,
                local_time_type: self.listed(between.index),
            }),
            None => self.piece_after_entries(unix_time),
        }
    }

    // The same after the last entry of the table.
    fn piece_after_entries(&self, unix_time: i64) -> Option<Piece<'_>>
        ensures each { IfSome result (λ p.
            IsInForceWithin (TypeAt self.now) p.from p.until p.local_time_type.now) }
        ensures at { MatchOption result
            (IsTypeRefused self.now unix_time ⊎ (unix_time ≡ pos 9_223_372_036_854_775_807))
            (λ p. (p.from ≤ℤ unix_time) × (unix_time <ℤ p.until)) }
    {
        let Some(turns) = self.turns() else {
            return self.piece_of_span(unix_time);
        };
        match self.piece_by_rule(turns, unix_time) {
            Some(piece) => Some(piece),
            None => self.piece_of_span(unix_time),
        }
    }

    // The piece by a rule of two types, if the rule is asked at the second and answers.
    #[inline(always)]
    fn piece_by_rule<'a>(&'a self, turns: &'a AlternateTime, unix_time: i64) -> Option<Piece<'a>>
        requires { self.now.rule ≡ Some (TransitionRule.Alternate turns.now) }
        ensures each { IfSome result (λ p.
            IsInForceWithin (TypeAt self.now) p.from p.until p.local_time_type.now) }
        ensures at { IfSome result (λ p. (p.from ≤ℤ unix_time) × (unix_time <ℤ p.until)) }
    {
        let begin = self.rule_begin();
        if (unix_time as i128) < begin {
            return None;
        }
        let piece = turns.piece_at(unix_time)?.cut_at(begin as i64, unix_time);
        Some(Piece {
            from: piece.from,
            until: piece.until,
            local_time_type: turns.type_when(piece.is_dst),
        })
    }

    // The piece that is the whole span.
    fn piece_of_span(&self, unix_time: i64) -> Option<Piece<'_>>
        ensures each { IfSome result (λ p.
            IsInForceWithin (TypeAt self.now) p.from p.until p.local_time_type.now) }
        ensures at { MatchOption result
            (IsTypeRefused self.now unix_time ⊎ (unix_time ≡ pos 9_223_372_036_854_775_807))
            (λ p. (p.from ≤ℤ unix_time) × (unix_time <ℤ p.until)) }
    {
        if unix_time == i64::MAX {
            return None;
        }
        match self.held_span_at(unix_time) {
            Ok(span) => Some(Piece {
                from: start_by(span.from, i64::MIN),
                until: end_by(span.until, i64::MAX),
                local_time_type: span.local_time_type,
            }),
            Err(_) => None,
        }
    }
}
