//! Parsed time zones, borrowed: [`TimeZoneRef`] is a [`TimeZone`](zoned_time::TimeZone).
//!
//! It borrows a zone that `tz_info` parsed. What `zoned_time` proves of every lawful zone holds for
//! it, with the offsets of the local time types in force. A [`ZoneChange`] is a change of its clocks.
//! [`WallClock`] goes the whole way, from bytes to the instants at which a clock shows a local time.
#![tactic(auto)]

mod keep_error;
mod kept_change;
mod kept_lookup;
mod kept_zone;
pub mod laws;
mod lookup;
mod time_zone_ref;
mod wall_clock;
mod zone_change;
mod zone_days;
mod zone_offset;

pub use keep_error::{KeepError, OpenError};
pub use kept_change::KeptChange;
pub use kept_zone::KeptZone;
pub use time_zone_ref::TimeZoneRef;
pub use wall_clock::WallClock;
pub use zone_change::ZoneChange;
pub use zone_offset::ZoneOffset;
