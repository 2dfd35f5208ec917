//! Time zones.

pub(crate) mod ask;
pub(crate) mod lists;
pub(crate) mod made;
mod making;
mod parts;
mod posix;
mod time_zone;

pub use time_zone::TimeZone;
