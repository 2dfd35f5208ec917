//! Runs: of a stretch of time, the seconds of one span of the zone.

ghost use Rattle.std.specs.Prelude.{◌^◌, ◌↔◌, ◌<ℤ◌, ◌≤ℤ◌, ℤ, true, false};
ghost use Rattle.{
  tz_info.specs.{HeldChanges.{span_held}, Leaps.{IsNear}, Zones.{TypeAt}, Spans.{IsSince, IsSpanAt, IsUntil}},
  tz_info.specs.{Looks.{RoseByInstant}, Steps.Runs.{IsEndOfRun}},
  tz_search.specs.RisingCounts.{HasRoomFor},
};

use crate::change::HeldSpan;
use crate::zone::time_zone::TimeZone;
use tz_base::LocalTimeType;
use tz_search::Probes;

impl TimeZone {
    // The type in force at a second that is near enough to have one.
    pub(super) fn type_at(&self, second: i64) -> &LocalTimeType
        requires { IsNear second }
        ensures { TypeAt self.now second result.now }
    {
        let _ = &self.changes;
        match self.find_local_time_type(second) {
            Ok(local) => local,
            Err(_) => unreachable!(),
        }
    }

    // The same, counted.
    pub(super) fn near_type_counted(&self, second: i64, probes: &mut Probes) -> &LocalTimeType
        requires near { IsNear second }
        requires room { HasRoomFor (2 ^ 64) probes.old.reads }
        requires question { HasRoomFor 1 probes.old.rule_questions }
        ensures found { TypeAt self.now second result.now }
        ensures cost { RoseByInstant self.now probes.old probes.new }
    {
        let _ = &self.changes;
        match self.type_counted(second, probes) {
            Ok(local) => local,
            Err(_) => unreachable!(),
        }
    }

    // The span of such a second.
    pub(super) fn near_span_at(&self, second: i64) -> HeldSpan<'_>
        requires { IsNear second }
        ensures { IsSpanAt (TypeAt self.now) second (span_held result) }
    {
        let _ = &self.changes;
        match self.held_span_at(second) {
            Ok(span) => span,
            Err(_) => unreachable!(),
        }
    }
}

// The limit, or the second since which a span lasts, if that is later.
pub(in crate::zone) fn start_by(from: Option<i64>, limit: i64) -> i64
    ensures { (u : ℤ) → (result ≤ℤ u) ↔ ((limit ≤ℤ u) × IsSince from u) }
{
    match from {
        Some(from) => { if limit < from { from } else { limit } }
        None => limit,
    }
}

// The limit, or the second until which a span lasts, if that is earlier.
pub(super) fn end_by(until: Option<i64>, limit: i64) -> i64
    ensures { (u : ℤ) → (u <ℤ result) ↔ ((u <ℤ limit) × IsUntil until u) }
{
    match until {
        Some(until) => { if until < limit { until } else { limit } }
        None => limit,
    }
}

// The first second of a run that is `from` or later and comes before `until`.
pub(super) fn first_of_run(start: i64, end: i64, from: i64, until: i64) -> Option<i64>
    ensures { IsEndOfRun true start end from until result }
{
    let first = if start < from { from } else { start };
    if first < end && first < until {
        Some(first)
    } else {
        None
    }
}

// The last second of a run that is `from` or later and comes before `until`.
pub(super) fn last_of_run(start: i64, end: i64, from: i64, until: i64) -> Option<i64>
    ensures { IsEndOfRun false start end from until result }
{
    let beyond = if until < end { until } else { end };
    if start < beyond && from < beyond {
        Some(beyond - 1)
    } else {
        None
    }
}
