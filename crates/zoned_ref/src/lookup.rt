//! A borrowed zone's lookups: those of the parsed zone, as offsets.
ghost use Rattle.std.specs.Prelude.{◌≡◌, refl, MatchOption};
ghost use Rattle.{
  naive_base.specs.NaiveDateTime.{reading},
  offset_core.specs.{LocalResult.{map_of}, WallAnswer.{IsWallAnswer}},
  tz_info.specs.{Around.{map_both, IsAroundOrBefore}, Gaps.{IsShown, IsTypeBeforeGap}, Zones.{TypeAt}},
  tz_info.specs.WallClocks.{Shows},
  zoned_ref.specs.{Offsets.{AreOffsetsOf}, TimeZoneRef.{off_of, zone_of}, ZoneOffset.{law_of, meaning_of, type_of}},
  zoned_time.specs.Choice.{AreOffsetsAround, IsOffsetBeforeGap},
  zoned_time.specs.Zone.{midnight_of, AreOffsetsFor, IsOffsetAt, IsZoneSecond},
};

use crate::{TimeZoneRef, ZoneOffset};
use naive_base::{NaiveDate, NaiveDateTime, NaiveTime};
use offset_core::{Around, LocalResult};
use tz_info::LocalTimeType;
use zoned_time::TimeZone;

impl<'a> TimeZone for TimeZoneRef<'a> {
    type Offset = ZoneOffset<'a>;

    ghost meaning = { meaning_of };

    ghost law = { law_of };

    ghost within_day = { λ zone. zone.within_day };

    ghost told = { λ _. refl };

    fn from_offset(offset: &ZoneOffset<'a>) -> TimeZoneRef<'a> {
        offset.zone()
    }

    fn offset_from_utc_datetime(&self, utc: &NaiveDateTime) -> ZoneOffset<'a>
        ensures offset { IsOffsetAt (law_of self.now) (reading utc.now).s result }
        // It is the offset of the type in force.
        ensures local_type { TypeAt (zone_of self.now) (reading utc.now).s (type_of result) }
    {
        self.offset_at(utc.secs_since_epoch())
    }

    fn offset_from_utc_date(&self, utc: &NaiveDate) -> ZoneOffset<'a>
        ensures offset { IsOffsetAt (law_of self.now) (midnight_of utc.now) result }
        ensures local_type { TypeAt (zone_of self.now) (midnight_of utc.now) (type_of result) }
    {
        self.offset_from_utc_datetime(&midnight(utc))
    }

    #[tactic(auto, using(crate::proofs::Walls::each_within))]
    fn offset_from_local_datetime(&self, local: &NaiveDateTime) -> LocalResult<ZoneOffset<'a>>
        ensures offsets { AreOffsetsFor (law_of self.now) (reading local.now).s result }
        // They are the offsets of the types in force.
        ensures local_types { IsWallAnswer (Shows (TypeAt (zone_of self.now)) (reading local.now).s)
            (map_of type_of result) }
    {
        match self.zone().local_time_types_at(*local) {
            LocalResult::None => LocalResult::None,
            LocalResult::Single(only) => LocalResult::Single(ZoneOffset::new(*self, only)),
            LocalResult::Ambiguous(first, last) => LocalResult::Ambiguous(
                ZoneOffset::new(*self, first),
                ZoneOffset::new(*self, last),
            ),
        }
    }

    fn offset_from_local_date(&self, local: &NaiveDate) -> LocalResult<ZoneOffset<'a>>
        ensures offsets { AreOffsetsFor (law_of self.now) (midnight_of local.now) result }
        ensures local_types { IsWallAnswer (Shows (TypeAt (zone_of self.now)) (midnight_of local.now))
            (map_of type_of result) }
    {
        self.offset_from_local_datetime(&midnight(local))
    }

    fn offsets_around(&self, local: &NaiveDateTime) -> Around<ZoneOffset<'a>, ZoneOffset<'a>>
        ensures offsets { AreOffsetsAround (law_of self.now) (reading local.now).s result }
        // They are the offsets of the types in force, or of the type before the gap.
        ensures local_types { IsAroundOrBefore (TypeAt (zone_of self.now)) (reading local.now).s
            (map_both type_of type_of result) }
    {
        match self.zone().local_time_types_around(*local) {
            Around::Single(only) => Around::Single(ZoneOffset::new(*self, only)),
            Around::Ambiguous(first, last) => Around::Ambiguous(
                ZoneOffset::new(*self, first),
                ZoneOffset::new(*self, last),
            ),
            Around::Gap(before) => Around::Gap(ZoneOffset::new(*self, before)),
        }
    }

    fn offset_before_gap(&self, local: &NaiveDateTime) -> Option<ZoneOffset<'a>>
        ensures offset { IsOffsetBeforeGap (law_of self.now) (reading local.now).s result }
        // It is the offset of the type before the gap.
        ensures local_type { MatchOption result
            (IsShown (TypeAt (zone_of self.now)) (reading local.now).s)
            (λ o. IsTypeBeforeGap (TypeAt (zone_of self.now)) (reading local.now).s (type_of o)) }
    {
        match self.zone().local_time_types_around(*local) {
            Around::Gap(before) => Some(ZoneOffset::new(*self, before)),
            Around::Single(_) => None,
            Around::Ambiguous(_, _) => None,
        }
    }
}

impl<'a> TimeZoneRef<'a> {
    // The offset of the type in force.
    fn offset_at(&self, second: i64) -> ZoneOffset<'a>
        requires { IsZoneSecond second }
        ensures offset { IsOffsetAt (law_of self.now) second result }
        ensures local_type { TypeAt (zone_of self.now) second (type_of result) }
    {
        match self.zone().find_local_time_type(second) {
            Ok(found) => self.offset_of(second, found),
            Err(_) => unreachable!(),
        }
    }

    // The offset of that type, which is in force at the second.
    pub(crate) fn offset_of(&self, second: i64, local_type: &'a LocalTimeType) -> ZoneOffset<'a>
        requires second { IsZoneSecond second }
        requires in_force { TypeAt (zone_of self.now) second local_type.now }
        requires offsets { AreOffsetsOf (zone_of self.now) (off_of self.now) }
        ensures offset { IsOffsetAt (law_of self.now) second result }
        ensures local_type { type_of result ≡ local_type.now }
    {
        ZoneOffset::new(*self, local_type)
    }
}

// The local time at which a date begins.
fn midnight(date: &NaiveDate) -> NaiveDateTime
    ensures { (reading result).s ≡ midnight_of date.now }
{
    date.and_time(NaiveTime::MIN)
}
