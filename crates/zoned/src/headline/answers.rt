//! What the headline asks, and what is answered: each field of an answer has the name of the call that gives it.

use crate::{
    Choice, DateTime, Days, FixedOffset, Instant, IsoWeek, LocalResult, Months, NaiveDate,
    NaiveDateTime, NaiveTime, Offset, ResolveError, RoundingError, TimeDelta, TimeZoneRef, Utc,
    Weekday,
};
use std::cmp::Ordering;
use std::time::Duration;
use tz_info::{Error, LocalTimeType, Probes};

/// The arguments of the calls, of any value.
#[derive(Clone, Copy)]
pub struct Asked {
    /// The second of Unix time that parsed zones are asked for, and the number of seconds, milliseconds,
    /// microseconds or nanoseconds of a timestamp.
    pub stamp: i64,
    /// The local time that clocks are asked for.
    pub local: NaiveDateTime,
    /// The policy for gaps and folds.
    pub choice: Choice,
    /// How far an instant moves, and the length to whose multiples it is rounded.
    pub length: TimeDelta,
    /// How far it moves too.
    pub duration: Duration,
    /// How many seconds it moves by a fixed offset.
    pub offset: FixedOffset,
    /// How many months an instant moves.
    pub months: Months,
    /// How many days an instant moves.
    pub days: Days,
    /// The time of day that an instant is set to.
    pub time: NaiveTime,
    /// A date, as numbers. The day is also that of a year.
    pub year: i32,
    pub month: u32,
    pub day: u32,
    /// A time of day, as numbers. The nanoseconds are also those of a timestamp.
    pub hour: u32,
    pub minute: u32,
    pub second: u32,
    pub nanosecond: u32,
    /// The digits of a second that are kept.
    pub digits: u16,
}

/// The zone that bytes spell, and what it answers.
#[derive(Drop)]
pub struct InZone {
    pub zone: tz_info::TimeZone,
    pub by_instant: ByInstant,
    pub by_wall_clock: ByWallClock,
}

/// The lookups by instant, and the counts of the counted one.
#[derive(Drop)]
pub struct ByInstant {
    pub find_local_time_type: Result<LocalTimeType, Error>,
    pub find_local_time_type_counted: Result<LocalTimeType, Error>,
    pub probes: Probes,
}

/// The lookups by wall clock, and the counts of the counted one and of the walk.
#[derive(Drop)]
pub struct ByWallClock {
    pub find_local_time_type_from_local: Result<LocalResult<LocalTimeType>, Error>,
    pub find_local_time_type_from_local_counted: Result<LocalResult<LocalTimeType>, Error>,
    pub probes: Probes,
    pub find_local_time_type_from_local_by_walk: Result<LocalResult<LocalTimeType>, Error>,
    pub walked: Probes,
}

/// The same of the rule that a TZ string spells.
#[derive(Drop)]
pub struct ByRule {
    pub rule: tz_info::TransitionRule,
    pub find_local_time_type: Result<LocalTimeType, Error>,
    pub find_local_time_type_from_local: Result<LocalResult<LocalTimeType>, Error>,
}

/// What a lawful zone answers: offsets.
#[derive(Clone, Copy)]
pub struct InLaw<O> {
    pub offset_from_utc_datetime: O,
    pub offset_from_local_datetime: LocalResult<O>,
    pub offset_before_gap: Option<O>,
}

/// Instants in a zone, from a local time.
pub struct ByClock<Tz, O: Offset> {
    pub from_local_datetime: LocalResult<Instant<Tz, O>>,
    pub and_local_timezone: LocalResult<Instant<Tz, O>>,
    pub resolve: Result<Instant<Tz, O>, ResolveError>,
    pub with_ymd_and_hms: LocalResult<Instant<Tz, O>>,
}

/// Instants in a zone, from a UTC date-time or a timestamp.
pub struct ByStamp<Tz, O: Offset> {
    pub from_utc_datetime: Instant<Tz, O>,
    pub timestamp_opt: LocalResult<Instant<Tz, O>>,
    pub timestamp_millis_opt: LocalResult<Instant<Tz, O>>,
    pub timestamp_micros: LocalResult<Instant<Tz, O>>,
    pub timestamp_nanos: Instant<Tz, O>,
}

/// Instants of a date-time and an offset.
pub struct OfParts<Tz, O: Offset> {
    pub from_naive_utc_and_offset: Instant<Tz, O>,
    pub from_utc: Instant<Tz, O>,
    pub from_local: Instant<Tz, O>,
}

/// Instants in UTC, from a UTC date-time or a timestamp.
#[derive(Clone, Copy)]
pub struct InUtc {
    pub and_utc: DateTime<Utc>,
    pub from_timestamp: Option<DateTime<Utc>>,
    pub from_timestamp_secs: Option<DateTime<Utc>>,
    pub from_timestamp_millis: Option<DateTime<Utc>>,
    pub from_timestamp_micros: Option<DateTime<Utc>>,
    pub from_timestamp_nanos: DateTime<Utc>,
}

/// Instants that have names.
#[derive(Clone, Copy)]
pub struct Named {
    pub min_utc: DateTime<Utc>,
    pub max_utc: DateTime<Utc>,
    pub unix_epoch: DateTime<Utc>,
    pub min_datetime: DateTime<Utc>,
    pub max_datetime: DateTime<Utc>,
    pub default_in_utc: DateTime<Utc>,
    pub default_at_offset: DateTime<FixedOffset>,
}

/// The parts of an instant, and the instant in another zone.
pub struct Parts<Tz, O: Offset> {
    pub naive_utc: NaiveDateTime,
    pub offset: O,
    pub timezone: Tz,
    pub naive_local: NaiveDateTime,
    pub date_naive: NaiveDate,
    pub time: NaiveTime,
    pub with_timezone: Instant<Tz, O>,
    pub to_utc: DateTime<Utc>,
    pub fixed_offset: DateTime<FixedOffset>,
    pub fixed_from_utc: DateTime<FixedOffset>,
    pub utc_from_fixed: DateTime<Utc>,
}

/// The fields of what its clock shows.
#[derive(Clone, Copy)]
pub struct Fields {
    pub year: i32,
    pub month: u32,
    pub month0: u32,
    pub day: u32,
    pub day0: u32,
    pub ordinal: u32,
    pub ordinal0: u32,
    pub weekday: Weekday,
    pub iso_week: IsoWeek,
    pub hour: u32,
    pub minute: u32,
    pub second: u32,
    pub nanosecond: u32,
}

/// The only instant with one of them changed.
pub struct Changed<Tz, O: Offset> {
    pub with_year: Option<Instant<Tz, O>>,
    pub with_month: Option<Instant<Tz, O>>,
    pub with_month0: Option<Instant<Tz, O>>,
    pub with_day: Option<Instant<Tz, O>>,
    pub with_day0: Option<Instant<Tz, O>>,
    pub with_ordinal: Option<Instant<Tz, O>>,
    pub with_ordinal0: Option<Instant<Tz, O>>,
    pub with_hour: Option<Instant<Tz, O>>,
    pub with_minute: Option<Instant<Tz, O>>,
    pub with_second: Option<Instant<Tz, O>>,
    pub with_nanosecond: Option<Instant<Tz, O>>,
}

/// The instant moved, by checked calls.
pub struct Moved<Tz, O: Offset> {
    pub checked_add_signed: Option<Instant<Tz, O>>,
    pub checked_sub_signed: Option<Instant<Tz, O>>,
    pub checked_add_months: Option<Instant<Tz, O>>,
    pub checked_sub_months: Option<Instant<Tz, O>>,
    pub checked_add_days: Option<Instant<Tz, O>>,
    pub checked_sub_days: Option<Instant<Tz, O>>,
    pub with_time: LocalResult<Instant<Tz, O>>,
}

/// The instant moved by `+`, `-`, `+=` and `-=`, if the checked form answers.
pub struct Operated<Tz, O: Offset> {
    pub add_length: Option<Instant<Tz, O>>,
    pub sub_length: Option<Instant<Tz, O>>,
    pub add_assign_length: Option<Instant<Tz, O>>,
    pub sub_assign_length: Option<Instant<Tz, O>>,
    pub add_duration: Option<Instant<Tz, O>>,
    pub sub_duration: Option<Instant<Tz, O>>,
    pub add_assign_duration: Option<Instant<Tz, O>>,
    pub sub_assign_duration: Option<Instant<Tz, O>>,
    pub add_offset: Option<Instant<Tz, O>>,
    pub sub_offset: Option<Instant<Tz, O>>,
    pub add_months: Option<Instant<Tz, O>>,
    pub sub_months: Option<Instant<Tz, O>>,
    pub add_days: Option<Instant<Tz, O>>,
    pub sub_days: Option<Instant<Tz, O>>,
}

/// The instant compared with another one.
#[derive(Clone, Copy)]
pub struct Compared {
    pub signed_duration_since: TimeDelta,
    pub sub: TimeDelta,
    pub sub_reference: TimeDelta,
    pub years_since: Option<u32>,
    pub eq: bool,
    pub cmp: Ordering,
    pub partial_cmp: Option<Ordering>,
    pub same_instant: bool,
    pub cmp_instant: Ordering,
}

/// Its timestamps.
#[derive(Clone, Copy)]
pub struct Stamps {
    pub timestamp: i64,
    pub timestamp_millis: i64,
    pub timestamp_micros: i64,
    pub timestamp_nanos_opt: Option<i64>,
    pub timestamp_subsec_millis: u32,
    pub timestamp_subsec_micros: u32,
    pub timestamp_subsec_nanos: u32,
}

/// The instant rounded.
pub struct Rounded<Tz, O: Offset> {
    pub duration_trunc: Result<Instant<Tz, O>, RoundingError>,
    pub duration_round: Result<Instant<Tz, O>, RoundingError>,
    pub duration_round_up: Result<Instant<Tz, O>, RoundingError>,
    pub trunc_subsecs: Instant<Tz, O>,
}

/// All of that.
pub struct Answers<'a, Tz, O: Offset> {
    /// In the zone of a file, and of a TZ string that `from_posix_tz` reads.
    pub from_tz_data: Result<InZone, Error>,
    pub from_posix_tz: Result<InZone, Error>,
    /// By the rule of a TZ string.
    pub from_tz_string: Result<ByRule, Error>,
    /// `TimeZoneRef::new` of a parsed zone.
    pub time_zone_ref: Option<TimeZoneRef<'a>>,
    /// In a lawful zone, and of an instant.
    pub lawful: InLaw<O>,
    pub by_clock: ByClock<Tz, O>,
    pub by_stamp: ByStamp<Tz, O>,
    pub of_parts: OfParts<Tz, O>,
    pub in_utc: InUtc,
    pub named: Named,
    pub parts: Parts<Tz, O>,
    pub fields: Fields,
    pub changed: Changed<Tz, O>,
    pub moved: Moved<Tz, O>,
    pub operated: Operated<Tz, O>,
    pub compared: Compared,
    pub stamps: Stamps,
    pub rounded: Rounded<Tz, O>,
}
