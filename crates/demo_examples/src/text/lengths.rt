//! Lengths for people.

use std::fmt;
use zoned::{DateTime, TimeDelta, TimeZone};

/// How long before an instant another one was: `2 hours ago`, `in 5 minutes`, `now`.
#[derive(Clone, Copy, Debug, PartialEq, Eq, Hash)]
pub struct Ago {
    length: TimeDelta,
}

impl Ago {
    /// Returns how long before `now` the instant is; the zones may differ.
    pub fn between<A: TimeZone, B: TimeZone>(instant: &DateTime<A>, now: &DateTime<B>) -> Ago {
        Ago {
            length: now.signed_duration_since(instant),
        }
    }
}

impl fmt::Display for Ago {
    fn fmt<W: fmt::Write>(&self, f: &mut fmt::Formatter<W>) -> fmt::Result {
        let length = self.length.abs();
        let (count, unit) = match length.num_seconds() {
            0 => return write!(f, "now"),
            1..=59 => (length.num_seconds(), "second"),
            60..=3_599 => (length.num_minutes(), "minute"),
            3_600..=86_399 => (length.num_hours(), "hour"),
            _ => (length.num_days(), "day"),
        };
        let plural = if count == 1 { "" } else { "s" };
        if self.length < TimeDelta::zero() {
            write!(f, "in {count} {unit}{plural}")
        } else {
            write!(f, "{count} {unit}{plural} ago")
        }
    }
}
