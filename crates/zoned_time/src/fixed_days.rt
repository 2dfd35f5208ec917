//! The days of zones of one offset.
ghost use Rattle.std.specs.Prelude.{◌≡◌, ◌+ℤ◌};
ghost use Rattle.{
  naive_base.specs.{NaiveDate.{day_of}, NaiveDateTime.{reading}},
  zoned_time.specs.{Days.{AreEndsOfDay, IsFirstToReach}, Zone.{IsOffsetStretch}, Zone.{IsFixed}},
};

use crate::{Offset, OffsetStretch, ShownDay, TimeZone, Utc, ZoneDays};
use naive_base::{NaiveDate, NaiveDateTime, NaiveTime};
use offset_core::FixedOffset;

impl ZoneDays for Utc {
    fn seconds_of_day(&self, date: NaiveDate) -> Option<ShownDay<i64>> {
        Some(fixed_day(self, date))
    }

    fn first_second_at_or_after(&self, local: &NaiveDateTime) -> i64 {
        fixed_second(self, local)
    }

    fn offset_stretch_at(&self, utc: &NaiveDateTime) -> OffsetStretch {
        fixed_stretch(self, utc)
    }
}

impl ZoneDays for FixedOffset {
    fn seconds_of_day(&self, date: NaiveDate) -> Option<ShownDay<i64>> {
        Some(fixed_day(self, date))
    }

    fn first_second_at_or_after(&self, local: &NaiveDateTime) -> i64 {
        fixed_second(self, local)
    }

    fn offset_stretch_at(&self, utc: &NaiveDateTime) -> OffsetStretch {
        fixed_stretch(self, utc)
    }
}

// The day of a zone whose clocks are never set: 86,400 seconds.
fn fixed_day<Tz: TimeZone>(zone: &Tz, date: NaiveDate) -> ShownDay<i64>
    requires { IsFixed (Tz.law zone.now) }
    ensures { AreEndsOfDay (Tz.law zone.now).off (day_of date) result.first result.last }
{
    let first = fixed_second(zone, &date.and_time(NaiveTime::MIN));
    ShownDay {
        first,
        last: first + 86_399,
    }
}

// The only second at which the clocks of such a zone show the local time.
fn fixed_second<Tz: TimeZone>(zone: &Tz, local: &NaiveDateTime) -> i64
    requires { IsFixed (Tz.law zone.now) }
    ensures shown { result +ℤ (Tz.law zone.now).off result ≡ (reading local.now).s }
    ensures first { IsFirstToReach (Tz.law zone.now).off (reading local.now).s result }
{
    let offset = zone.offset_from_utc_datetime(local).fix();
    local.secs_since_epoch() - offset.local_minus_utc() as i64
}

// The stretch of a zone whose clocks are never set.
fn fixed_stretch<Tz: TimeZone>(zone: &Tz, utc: &NaiveDateTime) -> OffsetStretch
    requires { IsFixed (Tz.law zone.now) }
    ensures { IsOffsetStretch (Tz.law zone.now).off (reading utc.now).s
        result.from result.until result.offset }
{
    OffsetStretch {
        from: i64::MIN,
        until: i64::MAX,
        offset: zone.offset_from_utc_datetime(utc).fix().local_minus_utc(),
    }
}
