//! Zoned time: the traits that every time zone implements, UTC and fixed offsets, and `DateTime`.
#![tactic(auto)]

mod calendar_length;
mod datetime;
mod fixed;
mod fixed_days;
pub mod laws;
mod naive_zoned;
mod offset;
mod reached;
mod resolve;
mod time_zone;
mod utc;
mod zone_days;

pub use calendar_length::CalendarLength;
pub use datetime::{AsInstant, DateTime, Instant, MAX_DATETIME, MIN_DATETIME};
pub use naive_zoned::NaiveZoned;
pub use offset::Offset;
pub use offset_core::{Around, ResolveError, Taken};
pub use time_zone::TimeZone;
pub use utc::Utc;
pub use zone_days::{OffsetStretch, ShownDay, ZoneDays};
