//! Why a call returns an error.

ghost use Rattle.std.specs.Prelude.{◌≡◌, ◌≢◌};
ghost use Rattle.zoned_ffi.specs.Refusals.{detail_number, refusal_number};

use tz_info::{Error, Expected};

/// What a question by a handle returns if no zone is open.
pub const NOT_OPEN: u32 = 33;

/// What it returns if the array of answers has the wrong length.
pub const OTHER_SIZE: u32 = 32;

/// What it returns if no policy for gaps and folds has these numbers.
pub const UNKNOWN_CHOICE: u32 = 34;

/// What it returns if no change of the clocks comes after a second, or up to it, or if clocks show a local
/// time once.
pub const NO_CHANGE: u32 = 35;

/// What it returns if no unit of time has that count in a second.
pub const UNKNOWN_UNIT: u32 = 36;

/// What it returns if an instant has no local time.
pub const NO_LOCAL_TIME: u32 = 37;

/// What it returns if the calendar has no such date, or a clock no such time.
pub const NO_DATE_TIME: u32 = 39;

/// What it returns if an offset of the zone is a day or more, and its clocks are to be compared.
pub const WIDE_ZONE: u32 = 40;

/// What it returns if no step of the local clock has that number.
pub const UNKNOWN_STEP: u32 = 47;

/// What it returns if a file has more transitions or leap seconds than its caller allows.
pub const ABOVE_LIMITS: u32 = 48;

/// The number of a local time in a gap for which no instant is taken.
pub const IN_GAP: u32 = 21;

/// That of a local time in a fold.
pub const IN_FOLD: u32 = 22;

/// The number of a local time that is outside the calendar's range, or whose instant is.
pub const INSTANT_OUT_OF_RANGE: u32 = 23;

/// What a call returns for an offset that no local time type can have.
pub const LOCAL_TIME_TYPE: u32 = 3;

/// What a call returns where memory runs out.
pub const OUT_OF_MEMORY: u32 = 17;

/// Why a call returns an error.
#[derive(Clone, Copy)]
pub enum Refusal {
    /// The reader rejects a TZif file, with a number from 1 to 17 or from 41 to 44.
    File(Error),
    /// The reader rejects a TZ string, with a number from 1 to 17.
    Reader(Error),
    /// A TZ string is not UTF-8.
    TextNotUtf8,
    /// No kind of bytes has that number.
    UnknownKind,
}

impl Refusal {
    /// The number that a call returns: from 1 to 17 or from 41 to 44 for bytes that are rejected, 31 for
    /// a kind.
    pub fn number(self) -> u32
        ensures value { result ≡ refusal_number self }
        ensures some { result ≢ 0 }
    {
        match self {
            Refusal::File(error) => detail_number(error),
            Refusal::Reader(error) => u32::from(error.number()),
            Refusal::TextNotUtf8 => 16,
            Refusal::UnknownKind => 31,
        }
    }
}

// The number of a file's error: what is wrong with lists that make no zone has one of its own.
fn detail_number(error: Error) -> u32
    ensures value { result ≡ detail_number error }
    ensures some { result ≢ 0 }
{
    match error {
        Error::TimeZone(Expected::TypeIndexesWithinTypes) => 41,
        Error::TimeZone(Expected::TransitionTimesThatRise) => 42,
        Error::TimeZone(Expected::LeapSecondsInOrder) => 43,
        Error::TimeZone(Expected::RuleThatAgreesWithLastTransition) => 44,
        other => u32::from(other.number()),
    }
}
