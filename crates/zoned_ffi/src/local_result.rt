//! When wall clocks show local times.

ghost use Rattle.std.specs.Prelude.{◌≡◌, ◌-ℤ◌, length, pos};
ghost use Rattle.{
  naive_base.specs.Range.{IsInRange},
  offset_core.specs.LocalResult.{map_of},
  zoned_ffi.specs.{Steps.Told.{told_of}, WallClocks.{written, AreWallClocks, IsWallClockAt}},
};

use crate::local_lookups::LocalLookups;
use naive_base::NaiveDateTime;
use offset_core::MappedLocalTime;
use tz_info::{LocalTimeType, TimeZone};

/// The number of seconds that show a local time, as [`WrittenLocalResult::shown`] has it: none.
pub const NEVER: i32 = 0;

/// One.
pub const ONCE: i32 = 1;

/// Two or more.
pub const SEVERAL_TIMES: i32 = 2;

// Not known: the local time is outside the calendar's range.
const OUT_OF_RANGE: i32 = 3;

/// When the clocks of a zone show a local time.
#[repr(C)]
#[derive(Clone, Copy)]
pub struct WrittenLocalResult {
    /// How often: 0 never, 1 once, 2 several times. 3: the local time is outside the calendar's
    /// range.
    pub shown: i32,
    /// The offset in force at the first of these seconds, in seconds east of UTC; 0 if there isn't
    /// one.
    pub first_offset: i32,
    /// The offset in force at the last of them.
    pub last_offset: i32,
    /// The first of them, in Unix seconds; 0 if there isn't one.
    pub first: i64,
    /// The last of them.
    pub last: i64,
}

impl WrittenLocalResult {
    /// When the zone's clocks show the local time: seconds after 1970-01-01 00:00:00 on a
    /// clock, every day counted as 86,400.
    #[tactic(auto, using(crate::proofs::Casts::passed_on, crate::proofs::Telling::told_answer))]
    #[inline(always)]
    pub fn at(zone: &TimeZone, local: i64) -> WrittenLocalResult
        ensures { IsWallClockAt zone.now local result }
    {
        let Some(reading) = NaiveDateTime::from_timestamp_opt(local, 0) else {
            return WrittenLocalResult::nowhere(OUT_OF_RANGE);
        };
        WrittenLocalResult::of_types(local, zone.local_time_types_at(reading))
    }

    // The same of the next local time.
    #[inline(always)]
    fn next(lookups: &mut LocalLookups<'_>, local: i64) -> WrittenLocalResult
        ensures written { IsWallClockAt lookups.old local result }
        ensures zone { lookups.new ≡ lookups.old }
    {
        match lookups.offset_of(local) {
            Some(offset) => WrittenLocalResult::between(ONCE, local, offset, offset),
            None => WrittenLocalResult::at(lookups.zone(), local),
        }
    }

    // That of the types in force at the first and the last second that show it.
    fn of_types(local: i64, types: MappedLocalTime<&LocalTimeType>) -> WrittenLocalResult
        requires { IsInRange local }
        ensures { result ≡ written (told_of local (map_of (λ r. r.now) types.entry)) }
    {
        match types {
            MappedLocalTime::None => WrittenLocalResult::nowhere(NEVER),
            MappedLocalTime::Single(only) => {
                WrittenLocalResult::between(ONCE, local, only.offset(), only.offset())
            }
            MappedLocalTime::Ambiguous(first, last) => {
                WrittenLocalResult::between(SEVERAL_TIMES, local, first.offset(), last.offset())
            }
        }
    }

    // That of the offsets at these seconds: each second is the local time less its offset.
    fn between(shown: i32, local: i64, first_offset: i32, last_offset: i32) -> WrittenLocalResult
        requires { IsInRange local }
        ensures { result ≡ record {
          shown = shown;
          first_offset = first_offset;
          last_offset = last_offset;
          first = local -ℤ first_offset;
          last = local -ℤ last_offset;
        } }
    {
        WrittenLocalResult {
            shown,
            first_offset,
            last_offset,
            first: local - i64::from(first_offset),
            last: local - i64::from(last_offset),
        }
    }

    // That of no second, and the number that says why.
    fn nowhere(shown: i32) -> WrittenLocalResult
        ensures { result ≡ record {
          shown = shown;
          first_offset = pos 0;
          last_offset = pos 0;
          first = pos 0;
          last = pos 0;
        } }
    {
        WrittenLocalResult {
            shown,
            first_offset: 0,
            last_offset: 0,
            first: 0,
            last: 0,
        }
    }
}

/// Writes the answer for each local time.
#[tactic(auto, using(crate::proofs::Slices::written_rows))]
pub fn write_local_results(zone: &TimeZone, locals: &[i64], clocks: &mut [WrittenLocalResult])
    requires { length locals.now ≡ length clocks.old }
    ensures { AreWallClocks zone.now locals.now clocks.new }
{
    let mut lookups = LocalLookups::new(zone);
    for (i, local) in locals.iter().enumerate() {
        clocks[i] = WrittenLocalResult::next(&mut lookups, *local);
    }
}
