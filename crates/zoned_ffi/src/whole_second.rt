//! Whole seconds that are found for instants.

ghost use Rattle.std.specs.Prelude.{◌≡◌, ◌<◌, MatchOption, MatchResult};
ghost use Rattle.{
  naive_base.specs.Stamp.{of_secs},
  zoned_ffi.specs.WholeSeconds.{step_number, IsFound, IsFoundBy, IsNoneFoundBy, IsNotFound, IsStep},
  zoned_plans.specs.Fires.{second_before},
  zoned_ref.specs.TimeZoneRef.{off_of},
  zoned_time.specs.DateTime.{zoned},
};

use crate::refusal::{INSTANT_OUT_OF_RANGE, WIDE_ZONE};
use naive_base::Weekday;
use naive_plans::ClockStep;
use tz_info::TimeZone;
use zoned_plans::ZonePlans;
use zoned_ref::TimeZoneRef;
use zoned_time::{DateTime, Utc, ZoneDays};

/// Which whole second to find for an instant.
#[derive(Clone, Copy)]
pub enum WholeSecond {
    /// The last local time that clocks have shown.
    Reached,
    /// The second at which the step that the instant lies in begins.
    Floor(ClockStep),
    /// The first second from the instant on at which a step begins.
    Ceil(ClockStep),
}

impl WholeSecond {
    /// What is found for an instant that has nanoseconds beyond that second, or the number that says why
    /// there is nothing.
    pub fn find(self, zone: &TimeZone, second: i64, nanos: u32) -> Result<i64, u32>
        requires { nanos < 1_000_000_000 }
        ensures { let before = second_before (of_secs second nanos) in
            MatchResult result (IsFound zone.now self second before)
            (IsNotFound zone.now self second before) }
    {
        let Some(narrow) = TimeZoneRef::new(zone) else {
            return Err(WIDE_ZONE);
        };
        let Some(at) = DateTime::<Utc>::from_timestamp(second, nanos) else {
            return Err(INSTANT_OUT_OF_RANGE);
        };
        match self.find_by(narrow, &at) {
            Some(found) => Ok(found),
            None => Err(INSTANT_OUT_OF_RANGE),
        }
    }

    // The same of an instant in range, by a zone whose offsets are less than a day.
    fn find_by(self, zone: TimeZoneRef<'_>, at: &DateTime<Utc>) -> Option<i64>
        ensures { let r = (zoned at.now).utc in
            MatchOption result (IsNoneFoundBy (off_of zone.entry) self r.s (second_before r))
            (IsFoundBy (off_of zone.entry) self r.s (second_before r)) }
    {
        match self {
            WholeSecond::Reached => Some(zone.reached(at).secs_since_epoch()),
            WholeSecond::Floor(step) => Some(zone.floor(at, step)?.timestamp()),
            WholeSecond::Ceil(step) => Some(zone.ceil(at, step)?.timestamp()),
        }
    }
}

/// The step of that number: its seconds, if it is a part of a day; 100,000 and a weekday from 0, Sunday,
/// for a week that begins on it; 200,000 for a month and 300,000 for a year.
pub fn step_of(number: u32) -> Option<ClockStep>
    ensures { MatchOption result (¬ (IsStep number)) (λ step. number ≡ step_number step) }
{
    match number {
        100_000 => Some(ClockStep::Week(Weekday::Sun)),
        100_001 => Some(ClockStep::Week(Weekday::Mon)),
        100_002 => Some(ClockStep::Week(Weekday::Tue)),
        100_003 => Some(ClockStep::Week(Weekday::Wed)),
        100_004 => Some(ClockStep::Week(Weekday::Thu)),
        100_005 => Some(ClockStep::Week(Weekday::Fri)),
        100_006 => Some(ClockStep::Week(Weekday::Sat)),
        200_000 => Some(ClockStep::Month),
        300_000 => Some(ClockStep::Year),
        seconds => ClockStep::seconds(seconds),
    }
}
