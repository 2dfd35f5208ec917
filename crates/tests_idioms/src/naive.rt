//! Dates, times of day, local date-times and lengths of time, without a zone.

pub mod dates;
pub mod lengths;
pub mod times;
pub mod weekdays;
