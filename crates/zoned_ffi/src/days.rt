//! The days that instants lie in.

ghost use Rattle.std.specs.Prelude.{MatchResult};
ghost use Rattle.zoned_ffi.specs.WholeSeconds.{IsDayAt, IsNoDayAt};

use crate::refusal::{INSTANT_OUT_OF_RANGE, WIDE_ZONE};
use naive_base::NaiveTime;
use naive_plans::ClockStep;
use tz_info::TimeZone;
use zoned_plans::ZonePlans;
use zoned_ref::TimeZoneRef;
use zoned_time::{DateTime, Utc, ZoneDays};

/// The day that an instant lies in.
#[repr(C)]
#[derive(Clone, Copy)]
pub struct WrittenDay {
    /// Its date, as the local time of its midnight.
    pub date: i64,
    /// The first second of it.
    pub begin: i64,
    /// The first second of the next day.
    pub end: i64,
}

impl WrittenDay {
    /// The day of the instant, or the number of an error.
    pub fn at(zone: &TimeZone, instant: i64) -> Result<WrittenDay, u32>
        ensures { MatchResult result (IsDayAt zone.now instant) (IsNoDayAt zone.now instant) }
    {
        let Some(narrow) = TimeZoneRef::new(zone) else {
            return Err(WIDE_ZONE);
        };
        let Some(at) = DateTime::<Utc>::from_timestamp_secs(instant) else {
            return Err(INSTANT_OUT_OF_RANGE);
        };
        let Some(day) = narrow.step_at(&at, ClockStep::Day) else {
            return Err(INSTANT_OUT_OF_RANGE);
        };
        let midnight = narrow.date_of(&at).and_time(NaiveTime::MIN);
        Ok(WrittenDay {
            date: midnight.secs_since_epoch(),
            begin: day.begin.timestamp(),
            end: day.end.timestamp(),
        })
    }
}
