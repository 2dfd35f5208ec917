//! Spans of a zone's time, as C reads them.

ghost use Rattle.std.specs.Prelude.{◌≡◌};
ghost use Rattle.{
  tz_info.specs.HeldChanges.{span_held},
  zoned_ffi.specs.WrittenSpans.{written_span},
};

use crate::local_type::WrittenType;
use tz_info::HeldSpan;

/// A span: the seconds at which one local time type is in force, and before and after which it isn't.
#[repr(C)]
#[derive(Clone, Copy)]
pub struct WrittenSpan {
    /// The first second, a Unix second; `i64::MIN` if the type is in force at all seconds before.
    pub from: i64,
    /// The first second after the span; `i64::MAX` if the type is in force at all seconds after.
    pub until: i64,
    /// The type in force.
    pub local_type: WrittenType,
}

impl WrittenSpan {
    /// That span.
    pub fn of(span: HeldSpan<'_>) -> WrittenSpan
        ensures { result ≡ written_span (span_held span.entry) }
    {
        WrittenSpan {
            from: span.from.unwrap_or(i64::MIN),
            until: span.until.unwrap_or(i64::MAX),
            local_type: WrittenType::of(span.local_time_type),
        }
    }
}
