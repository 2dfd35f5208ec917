//! Why bytes, values or instants give an error.

ghost use Rattle.std.specs.Prelude.{◌≡◌};
ghost use Rattle.tz_base.specs.{Errors.{error_number}, declared.error.Error.TheVariants.{OutOfMemory}};

use std::alloc::{AllocError, AllocFailed};
use std::fmt;
use thiserror::Error;

/// What was expected in place of what was rejected. It prints as a short text, and by `{:?}` as that
/// text in double quotes.
#[derive(Clone, Copy, PartialEq, Eq)]
pub enum Expected {
    /// More bytes.
    MoreBytes,
    /// A tag.
    Tag,
    /// Other bytes than those that are there.
    OtherBytes,
    /// A digit.
    Digit,
    /// A number within its limit.
    NumberWithinItsLimit,
    /// A standard indicator of 1 if the UT indicator is 1.
    StandardTimeWhereTimeIsUt,
    /// A footer in UTF-8.
    FooterInUtf8,
    /// A footer between newlines.
    FooterBetweenNewlines,
    /// A TZ string in the footer.
    TzTextInFooter,
    /// Counts that agree.
    CountsThatAgree,
    /// TZif at the front of a header.
    TZifAtFrontOfHeader,
    /// Version 2 or 3 in a second header.
    Version2Or3InSecondHeader,
    /// Version 1, 2 or 3.
    Version1To3,
    /// Nothing after a block of version 1.
    NothingAfterBlockOfVersion1,
    /// 0 or 1 as a type's isdst.
    ZeroOrOneAsIsDst,
    /// A name within the designations.
    NameWithinDesignations,
    /// A 0 byte after a name.
    ZeroByteAfterName,
    /// An offset above i32::MIN.
    OffsetAboveI32Min,
    /// A name of three to seven bytes.
    NameOfThreeToSevenBytes,
    /// Letters, digits, + or - in a name.
    LettersDigitsPlusOrMinusInName,
    /// Offsets within a day.
    OffsetsWithinDay,
    /// A start within a week.
    StartWithinWeek,
    /// An end within a week.
    EndWithinWeek,
    /// A year that the rule answers in.
    YearThatRuleAnswersIn,
    /// A day from J1 to J365.
    DayFromJ1ToJ365,
    /// A day from 0 to 365.
    DayFrom0To365,
    /// A month from 1 to 12.
    MonthFrom1To12,
    /// A week from 1 to 5.
    WeekFrom1To5,
    /// A weekday from 0 to 6.
    WeekdayFrom0To6,
    /// Hours, minutes and seconds within their limits.
    HoursMinutesAndSecondsWithinTheirLimits,
    /// An offset of daylight saving time within a day.
    OffsetOfDaylightSavingTimeWithinDay,
    /// Days when daylight saving time starts and ends.
    DaysWhenDaylightSavingTimeStartsAndEnds,
    /// Nothing after the text.
    NothingAfterText,
    /// A leap time of 64 bits.
    LeapTimeOf64Bits,
    /// A leap time above i64::MIN.
    LeapTimeAboveI64Min,
    /// A Unix time of 64 bits.
    UnixTimeOf64Bits,
    /// At least one local time type.
    AtLeastOneLocalTimeType,
    /// Type indexes within the local time types.
    TypeIndexesWithinTypes,
    /// Transition times that rise.
    TransitionTimesThatRise,
    /// Leap seconds that can follow one another.
    LeapSecondsInOrder,
    /// A rule that agrees with the last transition.
    RuleThatAgreesWithLastTransition,
}

impl Expected {
    /// Returns what was expected, as a short text without a capital or a full stop.
    pub fn as_str(self) -> &'static str {
        match self {
            Expected::MoreBytes => "more bytes",
            Expected::Tag => "a tag",
            Expected::OtherBytes => "other bytes",
            Expected::Digit => "a digit",
            Expected::NumberWithinItsLimit => "a number within its limit",
            Expected::StandardTimeWhereTimeIsUt => "standard time where the time is UT",
            Expected::FooterInUtf8 => "a footer in UTF-8",
            Expected::FooterBetweenNewlines => "a footer between newlines",
            Expected::TzTextInFooter => "a TZ string in the footer",
            Expected::CountsThatAgree => "counts that agree",
            Expected::TZifAtFrontOfHeader => "TZif at the front of a header",
            Expected::Version2Or3InSecondHeader => "version 2 or 3 in a second header",
            Expected::Version1To3 => "version 1, 2 or 3",
            Expected::NothingAfterBlockOfVersion1 => "nothing after a block of version 1",
            Expected::ZeroOrOneAsIsDst => "0 or 1 as a type's isdst",
            Expected::NameWithinDesignations => "a name within the designations",
            Expected::ZeroByteAfterName => "a 0 byte after a name",
            Expected::OffsetAboveI32Min => "an offset above i32::MIN",
            Expected::NameOfThreeToSevenBytes => "a name of three to seven bytes",
            Expected::LettersDigitsPlusOrMinusInName => "letters, digits, + or - in a name",
            Expected::OffsetsWithinDay => "offsets within a day",
            Expected::StartWithinWeek => "a start within a week",
            Expected::EndWithinWeek => "an end within a week",
            Expected::YearThatRuleAnswersIn => "a year that the rule answers in",
            Expected::DayFromJ1ToJ365 => "a day from J1 to J365",
            Expected::DayFrom0To365 => "a day from 0 to 365",
            Expected::MonthFrom1To12 => "a month from 1 to 12",
            Expected::WeekFrom1To5 => "a week from 1 to 5",
            Expected::WeekdayFrom0To6 => "a weekday from 0 to 6",
            Expected::HoursMinutesAndSecondsWithinTheirLimits =>
                "hours, minutes and seconds within their limits",
            Expected::OffsetOfDaylightSavingTimeWithinDay =>
                "an offset of daylight saving time within a day",
            Expected::DaysWhenDaylightSavingTimeStartsAndEnds =>
                "days when daylight saving time starts and ends",
            Expected::NothingAfterText => "nothing after the text",
            Expected::LeapTimeOf64Bits => "a leap time of 64 bits",
            Expected::LeapTimeAboveI64Min => "a leap time above i64::MIN",
            Expected::UnixTimeOf64Bits => "a Unix time of 64 bits",
            Expected::AtLeastOneLocalTimeType => "at least one local time type",
            Expected::TypeIndexesWithinTypes => "type indexes within the local time types",
            Expected::TransitionTimesThatRise => "transition times that rise",
            Expected::LeapSecondsInOrder => "leap seconds in order",
            Expected::RuleThatAgreesWithLastTransition =>
                "a rule that agrees with the last transition",
        }
    }
}

impl fmt::Display for Expected {
    fn fmt<W: fmt::Write>(&self, f: &mut fmt::Formatter<W>) -> fmt::Result {
        f.write_str(self.as_str())
    }
}

impl fmt::Debug for Expected {
    fn fmt<W: fmt::Write>(&self, f: &mut fmt::Formatter<W>) -> fmt::Result {
        write!(f, "\"{}\"", self.as_str())
    }
}

/// An error of this crate and those above it. Each variant except the last says what was expected.
/// A variant's first sentence is the text of its number (`number`) in docs/PROGRAMS.md, in C and in
/// Python.
#[derive(Clone, Copy, Debug, PartialEq, Eq, Error)]
pub enum Error {
    /// A date or time that does not exist; never returned.
    #[error("invalid date time: expected {0}")]
    DateTime(Expected),
    /// The zone has no local time type at that instant. Its leap time leaves 64 bits, or its year is
    /// one in which the rule, one of two types, does not answer.
    #[error("no local time type: expected {0}")]
    FindLocalTimeType(Expected),
    /// An offset or abbreviation that no local time type can have.
    #[error("invalid local time type: expected {0}")]
    LocalTimeType(Expected),
    /// A slice out of bounds; never returned.
    #[error("invalid slice: expected {0}")]
    InvalidSlice(Expected),
    /// A fault in the form of a TZif file.
    #[error("invalid TZif file: expected {0}")]
    InvalidTzFile(Expected),
    /// A time or offset of a TZ string is out of its limits, or extra bytes follow the string.
    #[error("invalid TZ string: expected {0}")]
    InvalidTzString(Expected),
    /// Unexpected end of input.
    #[error("unexpected end: expected {0}")]
    UnexpectedEnd(Expected),
    /// Unexpected byte in a TZ string. `Cursor::read_tag` returns it for any bytes.
    #[error("missing tag: expected {0}")]
    MissingTag(Expected),
    /// An instant out of range.
    #[error("out of range: expected {0}")]
    OutOfRange(Expected),
    /// A number of a TZ string is missing or too large. `Cursor::read_int` returns it for any bytes.
    #[error("invalid number: expected {0}")]
    ParseInt(Expected),
    /// A date-time that cannot be projected; never returned.
    #[error("cannot project date time: expected {0}")]
    ProjectDateTime(Expected),
    /// The lists of a TZif file make no valid zone. `TimeZone::new` returns it for any lists.
    #[error("invalid time zone: expected {0}")]
    TimeZone(Expected),
    /// A month, week, weekday or day of a TZ string is out of its limits. `AlternateTime::new` returns
    /// it for an offset or a time of day out of its limits too.
    #[error("invalid transition rule: expected {0}")]
    TransitionRule(Expected),
    /// A TZif version other than 1, 2 and 3.
    #[error("unsupported TZif version: expected {0}")]
    UnsupportedTzFile(Expected),
    /// A TZ string names daylight saving time but has no rule for it.
    #[error("unsupported TZ string: expected {0}")]
    UnsupportedTzString(Expected),
    /// A TZ string that is not UTF-8.
    #[error("invalid UTF-8: expected {0}")]
    Utf8(Expected),
    /// Out of memory.
    #[error("out of memory")]
    OutOfMemory,
}

impl Error {
    /// Returns the number of the error, from 1 to 17 in the order of the variants.
    pub fn number(&self) -> u8
        ensures { result ≡ error_number self.now }
    {
        match self {
            Error::DateTime(_) => 1,
            Error::FindLocalTimeType(_) => 2,
            Error::LocalTimeType(_) => 3,
            Error::InvalidSlice(_) => 4,
            Error::InvalidTzFile(_) => 5,
            Error::InvalidTzString(_) => 6,
            Error::UnexpectedEnd(_) => 7,
            Error::MissingTag(_) => 8,
            Error::OutOfRange(_) => 9,
            Error::ParseInt(_) => 10,
            Error::ProjectDateTime(_) => 11,
            Error::TimeZone(_) => 12,
            Error::TransitionRule(_) => 13,
            Error::UnsupportedTzFile(_) => 14,
            Error::UnsupportedTzString(_) => 15,
            Error::Utf8(_) => 16,
            Error::OutOfMemory => 17,
        }
    }
}

impl From<AllocError> for Error {
    ghost from_gives = { λ _ e. e ≡ OutOfMemory };

    fn from(_: AllocError) -> Error {
        Error::OutOfMemory
    }
}

impl<T: Drop> From<AllocFailed<T>> for Error {
    ghost from_gives = { λ _ e. e ≡ OutOfMemory };

    fn from(_: AllocFailed<T>) -> Error {
        Error::OutOfMemory
    }
}
