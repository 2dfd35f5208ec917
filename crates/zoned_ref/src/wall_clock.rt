//! When the clocks of a zone show a local time: from the bytes of a file, or a TZ string, to the
//! instants.
ghost use Rattle.std.specs.Prelude.{◌≡◌, ◌⊎◌, option_map, IfErr, IfOk, MatchResult, SomeIff};
ghost use Rattle.{
  naive_base.specs.NaiveDateTime.{reading},
  offset_core.specs.{FixedOffset.{seconds_of}, LocalResult.{map_of}, Offset.{IsWithinDay}},
  tz_base.specs.Errors.{error_number},
  tz_file.specs.FilePieces.{FilePieces, HasPieces},
  tz_info.specs.PosixZones.{IsPosixFault, IsPosixZone},
  tz_info.specs.{Looks.{RoseByWallClock}, TzFiles.{IsTzFile, IsZoneFault}, Zones.{IsValid, Zone}},
  tz_search.specs.Counts.{HasRoom},
  zoned_ref.specs.Instants.{AreInstantsAt, AreInstantsFor, AreTypesFor},
  zoned_time.specs.{DateTime.{zoned}, Relocal.{instant_of, HasInstant}, Zone.{Each}, Zoned.{in_seconds}},
};

use crate::TimeZoneRef;
use naive_base::NaiveDateTime;
use offset_core::{FixedOffset, LocalResult};
use std::alloc::Global;
use tz_info::{Error, LocalTimeType, Probes};
use zoned_time::{DateTime, TimeZone};

/// When the clocks of a zone show a local time.
///
/// In New York clocks were set back from 02:00 to 01:00 on 7 November 2021. For 01:30 that day it
/// has EDT and EST, and the instants `2021-11-07 01:30:00 -04:00` and `2021-11-07 01:30:00 -05:00`;
/// for 02:30 on 14 March, which lies in a gap, no instant.
#[derive(Clone, Copy, Debug)]
pub struct WallClock {
    /// The types in force when they show it.
    pub types: LocalResult<LocalTimeType>,
    /// The instants when they show it, at the offsets of those types; none if one of them is out of
    /// the range of [`DateTime`]. `None` if an offset of the zone is a day or more, as for
    /// [`TimeZoneRef::new`].
    pub instants: Option<LocalResult<DateTime<FixedOffset>>>,
}

impl WallClock {
    ghost use Rattle.zoned_ref.specs.Instants.{IsWallClockOf};

    /// Returns when the clocks of a TZif file's zone show a local time. The probes that find the
    /// types are counted, as by [`WallClock::in_zone`].
    ///
    /// Requires: `probes` has room for more counts ([`Probes::has_room`]).
    ///
    /// # Errors
    ///
    /// Those of [`TimeZone::from_tz_data`](tz_info::TimeZone::from_tz_data).
    pub fn from_tz_data(
        alloc: Global,
        bytes: &[u8],
        local: &NaiveDateTime,
        probes: &mut Probes,
    ) -> Result<WallClock, Error>
        requires { HasRoom probes.old }
        // The answer, and how many probes it took, are those of the file's zone.
        ensures found { IfOk result (λ told. (z : Zone) × IsTzFile bytes.now z × IsValid z
            × IsWallClockOf z (reading local.now) told × RoseByWallClock z probes.old probes.new) }
        // A file that has a valid zone has an answer, unless memory runs out.
        ensures only { (z : Zone) → IsTzFile bytes.now z → IsValid z
            → MatchResult result (λ told. IsWallClockOf z (reading local.now) told) (λ e. e ≡ Error.OutOfMemory) }
        // An error is the first fault of the file, or says that memory ran out.
        ensures fault { IfErr result (λ e. IsZoneFault bytes.now e) }
        // Memory runs out only where every piece of the file is there.
        ensures memory { IfErr result (λ e. e ≡ Error.OutOfMemory
            → (p : FilePieces) × HasPieces bytes.now p) }
        ensures kept { IfErr result (λ _. probes.new ≡ probes.old) }
    {
        match tz_info::TimeZone::from_tz_data(alloc, bytes) {
            Ok(zone) => Ok(WallClock::in_zone(&zone, local, probes)),
            Err(e) => Err(e),
        }
    }

    /// Returns when the clocks of a TZ string's zone show a local time. The probes that find the
    /// types are counted, as by [`WallClock::in_zone`].
    ///
    /// Requires: `probes` has room for more counts ([`Probes::has_room`]).
    ///
    /// # Errors
    ///
    /// Those of [`TimeZone::from_posix_tz`](tz_info::TimeZone::from_posix_tz).
    pub fn from_posix_tz(
        alloc: Global,
        text: &str,
        local: &NaiveDateTime,
        probes: &mut Probes,
    ) -> Result<WallClock, Error>
        requires { HasRoom probes.old }
        // The answer, and how many probes it took, are those of the string's zone.
        ensures found { IfOk result (λ told. (z : Zone) × IsPosixZone text.now z
            × IsWallClockOf z (reading local.now) told × RoseByWallClock z probes.old probes.new) }
        // A string that has a zone has an answer, unless memory runs out.
        ensures only { (z : Zone) → IsPosixZone text.now z
            → MatchResult result
            (λ told. IsWallClockOf z (reading local.now) told)
            (λ e. error_number e ≡ 17) }
        // An error is the first fault of the text, or says that memory ran out.
        ensures fault { IfErr result
            (λ e. (error_number e ≡ 17) ⊎ IsPosixFault text.now e) }
        // Memory runs out only for a text that has a zone.
        ensures memory { IfErr result
            (λ e. error_number e ≡ 17 → (z : Zone) × IsPosixZone text.now z) }
        ensures kept { IfErr result (λ _. probes.new ≡ probes.old) }
    {
        match tz_info::TimeZone::from_posix_tz(alloc, text) {
            Ok(zone) => Ok(WallClock::in_zone(&zone, local, probes)),
            Err(e) => Err(e),
        }
    }

    /// Returns when the clocks of the zone show a local time. `probes` counts at most two questions
    /// to the rule and, with `digits` for the number of binary digits, `digits(2 * transitions +
    /// 1)` probes of pieces of the zone's index.
    ///
    /// Requires: `probes` has room for more counts ([`Probes::has_room`]).
    pub fn in_zone(
        zone: &tz_info::TimeZone,
        local: &NaiveDateTime,
        probes: &mut Probes,
    ) -> WallClock
        requires { HasRoom probes.old }
        ensures told { IsWallClockOf zone.now (reading local.now) result }
        ensures cost { RoseByWallClock zone.now probes.old probes.new }
    {
        let types = match zone.find_local_time_type_from_local_counted(*local, probes) {
            Ok(types) => types,
            Err(_) => unreachable!(),
        };
        let instants = instants(zone, local, &types);
        WallClock { types, instants }
    }
}

// The instants at which clocks of those types show the local date-time, if the zone is narrow.
#[tactic(auto, using(crate::proofs::Instants::instants_for, crate::proofs::Walls::each_within))]
fn instants(
    zone: &tz_info::TimeZone,
    local: &NaiveDateTime,
    types: &LocalResult<LocalTimeType>,
) -> Option<LocalResult<DateTime<FixedOffset>>>
    requires { AreTypesFor zone.now (reading local.now) types.now }
    ensures { AreInstantsFor zone.now (reading local.now)
        (option_map (map_of (λ d. in_seconds seconds_of (zoned d))) result) }
{
    let _narrow = TimeZoneRef::new(zone)?;
    Some(instants_of(local, types))
}

// The instant of each type, or `None` if one of them is out of range.
fn instants_of(
    local: &NaiveDateTime,
    types: &LocalResult<LocalTimeType>,
) -> LocalResult<DateTime<FixedOffset>>
    requires { Each (λ t. IsWithinDay t.offset) types.now }
    ensures { AreInstantsAt (reading local.now) types.now
        (map_of (λ d. in_seconds seconds_of (zoned d)) result) }
{
    match types {
        LocalResult::None => LocalResult::None,
        LocalResult::Single(only) => match instant_of(local, only) {
            Some(instant) => LocalResult::Single(instant),
            None => LocalResult::None,
        },
        LocalResult::Ambiguous(first, last) => instants_of_two(local, first, last),
    }
}

fn instants_of_two(
    local: &NaiveDateTime,
    first: &LocalTimeType,
    last: &LocalTimeType,
) -> LocalResult<DateTime<FixedOffset>>
    requires first { IsWithinDay first.now.offset }
    requires last { IsWithinDay last.now.offset }
    ensures { AreInstantsAt (reading local.now) (LocalResult.Ambiguous first.now last.now)
        (map_of (λ d. in_seconds seconds_of (zoned d)) result) }
{
    let one = instant_of(local, first);
    let other = instant_of(local, last);
    match one {
        Some(one) => match other {
            Some(other) => LocalResult::Ambiguous(one, other),
            None => LocalResult::None,
        },
        None => LocalResult::None,
    }
}

// The instant at which a clock of that type shows the local date-time, if it is in range.
fn instant_of(local: &NaiveDateTime, local_type: &LocalTimeType) -> Option<DateTime<FixedOffset>>
    requires { IsWithinDay local_type.now.offset }
    ensures { let k = local_type.now.offset in let l = reading local.now in
        SomeIff (option_map (λ d. in_seconds seconds_of (zoned d)) result)
        (HasInstant (λ k. k) l k) (instant_of (λ k. k) l k) }
{
    let offset = FixedOffset::east(local_type.offset());
    let utc = local.checked_sub_offset(offset)?;
    Some(DateTime::from_naive_utc_and_offset(utc, offset))
}
