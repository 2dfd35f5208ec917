//! Transitions.

ghost use Rattle.std.specs.Prelude.{◌≡◌};

/// A transition: from this leap time on the type of this index is in force, until the next
/// transition (RFC 8536 section 3.2, "transition times" and "transition types").
#[derive(Clone, Copy, Debug, PartialEq, Eq)]
pub struct Transition {
    /// Seconds from 1970-01-01 00:00:00 UTC, leap seconds counted.
    pub unix_leap_time: i64,
    /// Which of the zone's types, from 0.
    pub type_index: usize,
}

impl Transition {
    /// The transition at that leap time to the type of that index.
    pub fn new(unix_leap_time: i64, type_index: usize) -> Transition
        ensures { result ≡ record { unix_leap_time = unix_leap_time; type_index = type_index } }
    {
        Transition {
            unix_leap_time,
            type_index,
        }
    }
}
