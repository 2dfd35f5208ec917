//! The operators of the headline, each if the checked form answers.

ghost use Rattle.std.specs.{Duration.{as_nanos}, Prelude.{neg_ℤ, pos}};
ghost use Rattle.{
  naive_base.specs.{Months.{days_of, months_of}, Reading.{ahead, behind}},
  offset_core.specs.{FixedOffset.{seconds_of}, Nanoseconds.{FitsTimeDelta}, TimeDelta.{nanos_of}},
  zoned.specs.Headline.{AreOperated, IsLater, IsSet},
  zoned_time.specs.DateTime.{zoned, IsDaysAdded, IsOnlyDaysLater, IsOnlyMonthsLater},
};

use super::answers::{Asked, Operated};
use crate::{DateTime, Days, FixedOffset, Months, TimeDelta, TimeZone};
use std::time::Duration;

pub(super) fn operated<Tz: TimeZone>(d: &DateTime<Tz>, asked: &Asked) -> Operated<Tz, Tz::Offset>
    ensures { AreOperated Tz.meaning d.now asked.now result }
{
    Operated {
        add_length: add_length(d, asked.length),
        sub_length: sub_length(d, asked.length),
        add_assign_length: add_assign_length(d, asked.length),
        sub_assign_length: sub_assign_length(d, asked.length),
        add_duration: add_duration(d, asked.duration),
        sub_duration: sub_duration(d, asked.duration),
        add_assign_duration: add_assign_duration(d, asked.duration),
        sub_assign_duration: sub_assign_duration(d, asked.duration),
        add_offset: add_offset(d, asked.offset),
        sub_offset: sub_offset(d, asked.offset),
        add_months: add_months(d, asked.months),
        sub_months: sub_months(d, asked.months),
        add_days: add_days(d, asked.days),
        sub_days: sub_days(d, asked.days),
    }
}

fn add_length<Tz: TimeZone>(d: &DateTime<Tz>, length: TimeDelta) -> Option<DateTime<Tz>>
    ensures { IsLater Tz.meaning d.now (nanos_of length) result }
{
    d.checked_add_signed(length)?;
    Some(*d + length)
}

fn sub_length<Tz: TimeZone>(d: &DateTime<Tz>, length: TimeDelta) -> Option<DateTime<Tz>>
    ensures { IsLater Tz.meaning d.now (neg_ℤ (nanos_of length)) result }
{
    d.checked_sub_signed(length)?;
    Some(*d - length)
}

fn add_assign_length<Tz: TimeZone>(d: &DateTime<Tz>, length: TimeDelta) -> Option<DateTime<Tz>>
    ensures { IsLater Tz.meaning d.now (nanos_of length) result }
{
    d.checked_add_signed(length)?;
    let mut new = *d;
    new += length;
    Some(new)
}

fn sub_assign_length<Tz: TimeZone>(d: &DateTime<Tz>, length: TimeDelta) -> Option<DateTime<Tz>>
    ensures { IsLater Tz.meaning d.now (neg_ℤ (nanos_of length)) result }
{
    d.checked_sub_signed(length)?;
    let mut new = *d;
    new -= length;
    Some(new)
}

fn add_duration<Tz: TimeZone>(d: &DateTime<Tz>, duration: Duration) -> Option<DateTime<Tz>>
    ensures { let by = pos (as_nanos duration) in
        FitsTimeDelta by → IsLater Tz.meaning d.now by result }
{
    d.checked_add_signed(TimeDelta::from_std(duration)?)?;
    Some(*d + duration)
}

fn sub_duration<Tz: TimeZone>(d: &DateTime<Tz>, duration: Duration) -> Option<DateTime<Tz>>
    ensures { let by = pos (as_nanos duration) in
        FitsTimeDelta by → IsLater Tz.meaning d.now (neg_ℤ by) result }
{
    d.checked_sub_signed(TimeDelta::from_std(duration)?)?;
    Some(*d - duration)
}

fn add_assign_duration<Tz: TimeZone>(d: &DateTime<Tz>, duration: Duration) -> Option<DateTime<Tz>>
    ensures { let by = pos (as_nanos duration) in
        FitsTimeDelta by → IsLater Tz.meaning d.now by result }
{
    d.checked_add_signed(TimeDelta::from_std(duration)?)?;
    let mut new = *d;
    new += duration;
    Some(new)
}

fn sub_assign_duration<Tz: TimeZone>(d: &DateTime<Tz>, duration: Duration) -> Option<DateTime<Tz>>
    ensures { let by = pos (as_nanos duration) in
        FitsTimeDelta by → IsLater Tz.meaning d.now (neg_ℤ by) result }
{
    d.checked_sub_signed(TimeDelta::from_std(duration)?)?;
    let mut new = *d;
    new -= duration;
    Some(new)
}

fn add_offset<Tz: TimeZone>(d: &DateTime<Tz>, offset: FixedOffset) -> Option<DateTime<Tz>>
    ensures { IsSet d.now (ahead (zoned d.now).utc (seconds_of offset)) result }
{
    d.naive_utc().checked_add_offset(offset)?;
    Some(*d + offset)
}

fn sub_offset<Tz: TimeZone>(d: &DateTime<Tz>, offset: FixedOffset) -> Option<DateTime<Tz>>
    ensures { IsSet d.now (behind (zoned d.now).utc (seconds_of offset)) result }
{
    d.naive_utc().checked_sub_offset(offset)?;
    Some(*d - offset)
}

fn add_months<Tz: TimeZone>(d: &DateTime<Tz>, months: Months) -> Option<DateTime<Tz>>
    ensures { IsOnlyMonthsLater Tz.meaning d.now (pos (months_of months)) result }
{
    d.checked_add_months(months)?;
    Some(*d + months)
}

fn sub_months<Tz: TimeZone>(d: &DateTime<Tz>, months: Months) -> Option<DateTime<Tz>>
    ensures { IsOnlyMonthsLater Tz.meaning d.now (neg_ℤ (pos (months_of months))) result }
{
    d.checked_sub_months(months)?;
    Some(*d - months)
}

fn add_days<Tz: TimeZone>(d: &DateTime<Tz>, days: Days) -> Option<DateTime<Tz>>
    ensures { IsDaysAdded Tz.meaning d.now (days_of days) result }
{
    d.checked_add_days(days)?;
    Some(*d + days)
}

fn sub_days<Tz: TimeZone>(d: &DateTime<Tz>, days: Days) -> Option<DateTime<Tz>>
    ensures { IsOnlyDaysLater Tz.meaning d.now (neg_ℤ (pos (days_of days))) result }
{
    d.checked_sub_days(days)?;
    Some(*d - days)
}
