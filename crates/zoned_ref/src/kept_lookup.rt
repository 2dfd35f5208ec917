//! A kept zone's lookups and its days: those of the borrowed one.
ghost use Rattle.{
  naive_base.specs.NaiveDateTime.{reading},
  offset_core.specs.{LocalResult.{map_of}, WallAnswer.{IsWallAnswer}},
  std.specs.Prelude.{refl, MatchOption},
  tz_info.specs.{Around.{map_both, IsAroundOrBefore}, Gaps.{IsShown, IsTypeBeforeGap}, Zones.{TypeAt}},
  tz_info.specs.WallClocks.{Shows},
  zoned_ref.specs.{KeptZone.{law_of, zone_of}, ZoneOffset.{meaning_of, type_of}},
  zoned_time.specs.{Choice.{AreOffsetsAround, IsOffsetBeforeGap}, Zone.{midnight_of, AreOffsetsFor, IsOffsetAt}},
};

use crate::{KeptZone, ZoneOffset};
use naive_base::{NaiveDate, NaiveDateTime};
use offset_core::{Around, LocalResult};
use zoned_time::{DateTime, OffsetStretch, ShownDay, TimeZone, ZoneDays};

impl TimeZone for KeptZone {
    type Offset = ZoneOffset<'static>;

    ghost meaning = { meaning_of };

    ghost law = { law_of };

    ghost within_day = { λ zone. zone.borrowed.within_day };

    ghost told = { λ _. refl };

    fn from_offset(offset: &ZoneOffset<'static>) -> KeptZone {
        KeptZone {
            borrowed: offset.zone(),
        }
    }

    fn offset_from_utc_datetime(&self, utc: &NaiveDateTime) -> ZoneOffset<'static>
        ensures offset { IsOffsetAt (law_of self.now) (reading utc.now).s result }
        // It is the offset of the type in force.
        ensures local_type { TypeAt (zone_of self.now) (reading utc.now).s (type_of result) }
    {
        self.borrowed.offset_from_utc_datetime(utc)
    }

    fn offset_from_utc_date(&self, utc: &NaiveDate) -> ZoneOffset<'static>
        ensures offset { IsOffsetAt (law_of self.now) (midnight_of utc.now) result }
        ensures local_type { TypeAt (zone_of self.now) (midnight_of utc.now) (type_of result) }
    {
        self.borrowed.offset_from_utc_date(utc)
    }

    fn offset_from_local_datetime(&self, local: &NaiveDateTime) -> LocalResult<ZoneOffset<'static>>
        ensures offsets { AreOffsetsFor (law_of self.now) (reading local.now).s result }
        // They are the offsets of the types in force.
        ensures local_types { IsWallAnswer (Shows (TypeAt (zone_of self.now)) (reading local.now).s)
            (map_of type_of result) }
    {
        self.borrowed.offset_from_local_datetime(local)
    }

    fn offset_from_local_date(&self, local: &NaiveDate) -> LocalResult<ZoneOffset<'static>>
        ensures offsets { AreOffsetsFor (law_of self.now) (midnight_of local.now) result }
        ensures local_types { IsWallAnswer (Shows (TypeAt (zone_of self.now)) (midnight_of local.now))
            (map_of type_of result) }
    {
        self.borrowed.offset_from_local_date(local)
    }

    fn offsets_around(
        &self,
        local: &NaiveDateTime,
    ) -> Around<ZoneOffset<'static>, ZoneOffset<'static>>
        ensures offsets { AreOffsetsAround (law_of self.now) (reading local.now).s result }
        // They are the offsets of the types in force, or of the type before the gap.
        ensures local_types { IsAroundOrBefore (TypeAt (zone_of self.now)) (reading local.now).s
            (map_both type_of type_of result) }
    {
        self.borrowed.offsets_around(local)
    }

    fn offset_before_gap(&self, local: &NaiveDateTime) -> Option<ZoneOffset<'static>>
        ensures offset { IsOffsetBeforeGap (law_of self.now) (reading local.now).s result }
        // It is the offset of the type before the gap.
        ensures local_type { MatchOption result
            (IsShown (TypeAt (zone_of self.now)) (reading local.now).s)
            (λ o. IsTypeBeforeGap (TypeAt (zone_of self.now)) (reading local.now).s (type_of o)) }
    {
        self.borrowed.offset_before_gap(local)
    }
}

impl ZoneDays for KeptZone {
    fn seconds_of_day(&self, date: NaiveDate) -> Option<ShownDay<i64>> {
        self.borrowed.seconds_of_day(date)
    }

    fn first_second_at_or_after(&self, local: &NaiveDateTime) -> i64 {
        self.borrowed.first_second_at_or_after(local)
    }

    fn whole_second_at_or_after(&self, local: &NaiveDateTime) -> Option<DateTime<KeptZone>> {
        let found = self.borrowed.whole_second_at_or_after(local)?;
        Some(DateTime::of_parts(&found.naive_utc(), found.offset()))
    }

    fn reached_offset(&self, utc: &NaiveDateTime) -> Option<i32> {
        self.borrowed.reached_offset(utc)
    }

    fn offset_stretch_at(&self, utc: &NaiveDateTime) -> OffsetStretch {
        self.borrowed.offset_stretch_at(utc)
    }
}
