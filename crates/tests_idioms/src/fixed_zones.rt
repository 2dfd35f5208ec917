//! Parsed zones of one offset.

use std::alloc::Global;
use tz_info::Error;
use zoned_ref::TimeZoneRef;
use zoned_time::TimeZone;

/// The Unix time of 2020-01-01 00:00:00 five hours west of UTC. The zone's clocks show each time
/// once, so that there is no gap and no fold to ask for.
pub fn new_year_five_hours_west(alloc: Global) -> Result<Option<i64>, Error> {
    let parsed = tz_info::TimeZone::fixed(alloc, -18_000)?;
    let Some(zone) = TimeZoneRef::new(&parsed) else {
        return Ok(None);
    };
    let midnight = zone.with_ymd_and_hms(2020, 1, 1, 0, 0, 0).unwrap();
    Ok(Some(midnight.timestamp()))
}
