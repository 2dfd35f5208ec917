//! Leap seconds.

ghost use Rattle.std.specs.Prelude.{◌≡◌};

/// A leap second entry: from this leap time on, leap time is this correction ahead of Unix time
/// (RFC 8536 section 3.2, "leap-second records").
#[derive(Clone, Copy, Debug, PartialEq, Eq)]
pub struct LeapSecond {
    /// Seconds from 1970-01-01 00:00:00 UTC, leap seconds counted.
    pub unix_leap_time: i64,
    /// How many leap seconds have been inserted by then, less those taken away.
    pub correction: i32,
}

impl LeapSecond {
    /// The entry of that leap time and that correction.
    pub fn new(unix_leap_time: i64, correction: i32) -> LeapSecond
        ensures { result ≡ record { unix_leap_time = unix_leap_time; correction = correction } }
    {
        LeapSecond {
            unix_leap_time,
            correction,
        }
    }
}
