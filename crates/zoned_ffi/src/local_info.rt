//! Local times, each with the spans of the seconds that show it, or of those around its gap.
#![tactic(auto, using(crate::proofs::Words::casts))]

ghost use Rattle.std.specs.Prelude.{◌≡◌, ◌<ℤ◌, ◌+ℤ◌, ◌-ℤ◌, pos};
ghost use Rattle.{
  naive_base.specs.{NaiveDateTime.{reading}, Range.{IsInRange}},
  tz_info.specs.{WallClocks.{Shows}, Zones.{TypeAt}},
  zoned_ffi.specs.{WrittenSpans.{IsLocalInfo}, WrittenSpans.{IsWrittenSpanAt}},
};

use crate::local_result::{NEVER, ONCE, SEVERAL_TIMES};
use crate::resolved::instant_by;
use crate::span::WrittenSpan;
use naive_base::NaiveDateTime;
use tz_info::{Around, HeldChange, LocalTimeType, TimeZone};

/// How often the clocks of a zone show a local time, and the spans around.
#[repr(C)]
#[derive(Clone, Copy)]
pub struct WrittenLocalInfo {
    /// How often: 0 never, 1 once, 2 several times.
    pub shown: i32,
    /// The span of the first second that shows it; in a gap the span before it.
    pub first: WrittenSpan,
    /// The span of the last second that shows it; in a gap the span after it.
    pub last: WrittenSpan,
}

impl WrittenLocalInfo {
    /// That of the local time.
    pub fn at(zone: &TimeZone, local: NaiveDateTime) -> WrittenLocalInfo
        requires { IsInRange (reading local).s }
        ensures { IsLocalInfo zone.now (reading local).s result }
    {
        let around = zone.held_types_around(local);
        let local = local.secs_since_epoch();
        match around {
            Around::Single(only) => {
                let span = shown_span(zone, local, only);
                WrittenLocalInfo {
                    shown: ONCE,
                    first: span,
                    last: span,
                }
            }
            Around::Ambiguous(first, last) => WrittenLocalInfo {
                shown: SEVERAL_TIMES,
                first: shown_span(zone, local, first),
                last: shown_span(zone, local, last),
            },
            Around::Gap(change) => WrittenLocalInfo {
                shown: NEVER,
                first: typed_span(zone, second_before(local, change), change.before),
                last: typed_span(zone, change.at, change.after),
            },
        }
    }
}

// The second before the change, from which on clocks show more than the local time.
fn second_before(local: i64, change: HeldChange<'_>) -> i64
    requires local { IsInRange local }
    requires more { local <ℤ (change.at +ℤ change.after.now.offset) }
    ensures { result ≡ change.entry.at -ℤ pos 1 }
{
    let _ = change.after.offset();
    change.at - 1
}

// The span of the second at which a clock of that type shows the local time.
fn shown_span(zone: &TimeZone, local: i64, local_type: &LocalTimeType) -> WrittenSpan
    requires local { IsInRange local }
    requires shown { Shows (TypeAt zone.now) local (local -ℤ local_type.now.offset) local_type.now }
    ensures { IsWrittenSpanAt zone.now (local -ℤ local_type.now.offset) result }
{
    typed_span(zone, instant_by(local, local_type.offset()), local_type)
}

// The span of the second, at which that type is in force.
fn typed_span(zone: &TimeZone, second: i64, local_type: &LocalTimeType) -> WrittenSpan
    requires { TypeAt zone.now second local_type.now }
    ensures { IsWrittenSpanAt zone.now second result }
{
    let _ = local_type;
    match zone.held_span_at(second) {
        Ok(span) => WrittenSpan::of(span),
        Err(_) => unreachable!(),
    }
}
