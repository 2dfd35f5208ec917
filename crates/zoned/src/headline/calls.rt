//! The calls of the headline, by groups.

ghost use Rattle.std.specs.Prelude.{◌≡◌, ◌↔◌, IsTrue};
ghost use Rattle.{
  naive_base.specs.Fields.{time_at},
  zoned.specs.Headline.{AreByClock, AreByStamp, AreChanged, AreCompared, AreFields, AreInUtc, AreMoved},
  zoned.specs.Headline.{AreNamed, AreOfParts, AreParts, AreRounded, AreStamps},
  zoned_time.specs.DateTime.{day_shown_by, wall_of, zoned},
};

use super::answers::{
    Asked, ByClock, ByStamp, Changed, Compared, Fields, InUtc, Moved, Named, OfParts, Parts,
    Rounded, Stamps,
};
use crate::{
    DateTime, Datelike, DurationRound, FixedOffset, MAX_DATETIME, MIN_DATETIME, NaiveZoned,
    SubsecRound, TimeZone, Timelike, Utc,
};

pub(super) fn by_clock<Tz: TimeZone>(zone: &Tz, asked: &Asked) -> ByClock<Tz, Tz::Offset>
    ensures { AreByClock (Tz.law zone.now) asked.now result }
{
    ByClock {
        from_local_datetime: zone.from_local_datetime(&asked.local),
        and_local_timezone: asked.local.and_local_timezone(*zone),
        resolve: zone.resolve(&asked.local, asked.choice),
        with_ymd_and_hms: zone.with_ymd_and_hms(
            asked.year,
            asked.month,
            asked.day,
            asked.hour,
            asked.minute,
            asked.second,
        ),
    }
}

pub(super) fn by_stamp<Tz: TimeZone>(
    zone: &Tz,
    instant: &DateTime<Tz>,
    asked: &Asked,
) -> ByStamp<Tz, Tz::Offset>
    ensures { AreByStamp (Tz.law zone.now) (zoned instant.now).utc asked.now result }
{
    ByStamp {
        from_utc_datetime: zone.from_utc_datetime(&instant.naive_utc()),
        timestamp_opt: zone.timestamp_opt(asked.stamp, asked.nanosecond),
        timestamp_millis_opt: zone.timestamp_millis_opt(asked.stamp),
        timestamp_micros: zone.timestamp_micros(asked.stamp),
        timestamp_nanos: zone.timestamp_nanos(asked.stamp),
    }
}

pub(super) fn of_parts<Tz: TimeZone>(
    instant: &DateTime<Tz>,
    other: &DateTime<Tz>,
) -> OfParts<Tz, Tz::Offset>
    ensures { AreOfParts instant.now other.now result }
{
    OfParts {
        from_naive_utc_and_offset: DateTime::from_naive_utc_and_offset(
            instant.naive_utc(),
            *other.offset(),
        ),
        from_utc: DateTime::from_utc(instant.naive_utc(), *other.offset()),
        from_local: DateTime::from_local(instant.naive_local(), *instant.offset()),
    }
}

pub(super) fn in_utc<Tz: TimeZone>(instant: &DateTime<Tz>, asked: &Asked) -> InUtc
    ensures { AreInUtc (zoned instant.now).utc asked.now result }
{
    InUtc {
        and_utc: instant.naive_utc().and_utc(),
        from_timestamp: DateTime::<Utc>::from_timestamp(asked.stamp, asked.nanosecond),
        from_timestamp_secs: DateTime::<Utc>::from_timestamp_secs(asked.stamp),
        from_timestamp_millis: DateTime::<Utc>::from_timestamp_millis(asked.stamp),
        from_timestamp_micros: DateTime::<Utc>::from_timestamp_micros(asked.stamp),
        from_timestamp_nanos: DateTime::<Utc>::from_timestamp_nanos(asked.stamp),
    }
}

pub(super) fn named() -> Named
    ensures { AreNamed result }
{
    Named {
        min_utc: DateTime::<Utc>::MIN_UTC(),
        max_utc: DateTime::<Utc>::MAX_UTC(),
        unix_epoch: DateTime::<Utc>::UNIX_EPOCH(),
        min_datetime: MIN_DATETIME(),
        max_datetime: MAX_DATETIME(),
        default_in_utc: DateTime::<Utc>::default(),
        default_at_offset: DateTime::<FixedOffset>::default(),
    }
}

pub(super) fn parts<Tz: TimeZone>(zone: &Tz, instant: &DateTime<Tz>) -> Parts<Tz, Tz::Offset>
    ensures { AreParts Tz.law zone.now instant.now result }
{
    Parts {
        naive_utc: instant.naive_utc(),
        offset: *instant.offset(),
        timezone: instant.timezone(),
        naive_local: instant.naive_local(),
        date_naive: instant.date_naive(),
        time: instant.time(),
        with_timezone: instant.with_timezone(zone),
        to_utc: instant.to_utc(),
        fixed_offset: instant.fixed_offset(),
        fixed_from_utc: DateTime::<FixedOffset>::from(instant.to_utc()),
        utc_from_fixed: DateTime::<Utc>::from(instant.fixed_offset()),
    }
}

pub(super) fn fields<Tz: TimeZone>(instant: &DateTime<Tz>) -> Fields
    ensures { AreFields (day_shown_by instant.now) (time_at (wall_of instant.now)) result }
{
    Fields {
        year: instant.year(),
        month: instant.month(),
        month0: instant.month0(),
        day: instant.day(),
        day0: instant.day0(),
        ordinal: instant.ordinal(),
        ordinal0: instant.ordinal0(),
        weekday: instant.weekday(),
        iso_week: instant.iso_week(),
        hour: instant.hour(),
        minute: instant.minute(),
        second: instant.second(),
        nanosecond: instant.nanosecond(),
    }
}

pub(super) fn changed<Tz: TimeZone>(
    instant: &DateTime<Tz>,
    asked: &Asked,
) -> Changed<Tz, Tz::Offset>
    ensures { AreChanged Tz.meaning instant.now (day_shown_by instant.now)
        (time_at (wall_of instant.now)) asked.now result }
{
    Changed {
        with_year: instant.with_year(asked.year),
        with_month: instant.with_month(asked.month),
        with_month0: instant.with_month0(asked.month),
        with_day: instant.with_day(asked.day),
        with_day0: instant.with_day0(asked.day),
        with_ordinal: instant.with_ordinal(asked.day),
        with_ordinal0: instant.with_ordinal0(asked.day),
        with_hour: instant.with_hour(asked.hour),
        with_minute: instant.with_minute(asked.minute),
        with_second: instant.with_second(asked.second),
        with_nanosecond: instant.with_nanosecond(asked.nanosecond),
    }
}

pub(super) fn moved<Tz: TimeZone>(instant: &DateTime<Tz>, asked: &Asked) -> Moved<Tz, Tz::Offset>
    ensures { AreMoved Tz.meaning instant.now asked.now result }
{
    Moved {
        checked_add_signed: instant.checked_add_signed(asked.length),
        checked_sub_signed: instant.checked_sub_signed(asked.length),
        checked_add_months: instant.checked_add_months(asked.months),
        checked_sub_months: instant.checked_sub_months(asked.months),
        checked_add_days: instant.checked_add_days(asked.days),
        checked_sub_days: instant.checked_sub_days(asked.days),
        with_time: instant.with_time(asked.time),
    }
}

pub(super) fn compared<Tz: TimeZone>(instant: &DateTime<Tz>, other: &DateTime<Tz>) -> Compared
    ensures { AreCompared instant.now other.now result }
{
    Compared {
        signed_duration_since: instant.signed_duration_since(other),
        sub: *instant - *other,
        sub_reference: *instant - other,
        years_since: instant.years_since(*other),
        eq: is_equal(instant, other),
        cmp: instant.cmp(other),
        partial_cmp: instant.partial_cmp(other),
        same_instant: instant.same_instant(other),
        cmp_instant: instant.cmp_instant(other),
    }
}

fn is_equal<Tz: TimeZone>(instant: &DateTime<Tz>, other: &DateTime<Tz>) -> bool
    ensures { IsTrue result ↔ ((zoned instant.now).utc ≡ (zoned other.now).utc) }
{
    *instant == *other
}

pub(super) fn stamps<Tz: TimeZone>(instant: &DateTime<Tz>) -> Stamps
    ensures { AreStamps (zoned instant.now).utc result }
{
    Stamps {
        timestamp: instant.timestamp(),
        timestamp_millis: instant.timestamp_millis(),
        timestamp_micros: instant.timestamp_micros(),
        timestamp_nanos_opt: instant.timestamp_nanos_opt(),
        timestamp_subsec_millis: instant.timestamp_subsec_millis(),
        timestamp_subsec_micros: instant.timestamp_subsec_micros(),
        timestamp_subsec_nanos: instant.timestamp_subsec_nanos(),
    }
}

pub(super) fn rounded<Tz: TimeZone>(
    instant: &DateTime<Tz>,
    asked: &Asked,
) -> Rounded<Tz, Tz::Offset>
    ensures { AreRounded Tz.meaning instant.now asked.now result }
{
    Rounded {
        duration_trunc: (*instant).duration_trunc(asked.length),
        duration_round: (*instant).duration_round(asked.length),
        duration_round_up: (*instant).duration_round_up(asked.length),
        trunc_subsecs: (*instant).trunc_subsecs(asked.digits),
    }
}
