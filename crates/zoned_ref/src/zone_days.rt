//! The days of a borrowed zone: those of the parsed zone.

use crate::TimeZoneRef;
use naive_base::{NaiveDate, NaiveDateTime};
use zoned_time::{DateTime, OffsetStretch, ShownDay, ZoneDays};

impl<'a> ZoneDays for TimeZoneRef<'a> {
    fn seconds_of_day(&self, date: NaiveDate) -> Option<ShownDay<i64>> {
        let zone = self.zone();
        match zone.find_seconds_of_day(date) {
            Some(found) => Some(ShownDay {
                first: found.first.at,
                last: found.last.at,
            }),
            None => None,
        }
    }

    fn first_second_at_or_after(&self, local: &NaiveDateTime) -> i64 {
        let zone = self.zone();
        zone.held_first_at_or_after(*local).at
    }

    fn whole_second_at_or_after(&self, local: &NaiveDateTime) -> Option<DateTime<TimeZoneRef<'a>>> {
        let zone = self.zone();
        let found = zone.held_first_at_or_after(*local);
        self.instant_of(found.at, found.local_time_type)
    }

    fn reached_offset(&self, utc: &NaiveDateTime) -> Option<i32> {
        let zone = self.zone();
        let reached = zone.find_reached(*utc);
        Some((reached - utc.secs_since_epoch()) as i32)
    }

    fn offset_stretch_at(&self, utc: &NaiveDateTime) -> OffsetStretch {
        let zone = self.zone();
        zone.valid_law();
        match zone.offset_stretch_at(utc.secs_since_epoch()) {
            Some(
                tz_info::OffsetStretch {
                    from,
                    until,
                    offset,
                },
            ) => OffsetStretch {
                from,
                until,
                offset,
            },
            None => unreachable!(),
        }
    }
}
