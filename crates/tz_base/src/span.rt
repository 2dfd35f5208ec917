//! Spans: the longest stretches of seconds with one local time type.

use crate::local_time_type::LocalTimeType;

/// A maximal stretch of seconds in which one local time type is in force.
#[derive(Clone, Copy, Debug, PartialEq, Eq)]
pub struct Span {
    /// The type in force.
    pub local_time_type: LocalTimeType,
    /// The first second of the span as a Unix time: clocks change to its type then, or the zone has no
    /// type at the second before. `None` if the type is in force at all earlier seconds of 64 bits.
    pub from: Option<i64>,
    /// The first second after the span as a Unix time: clocks change from its type then, or the zone
    /// has no type. `None` if the type is in force at all later seconds of 64 bits.
    pub until: Option<i64>,
}
