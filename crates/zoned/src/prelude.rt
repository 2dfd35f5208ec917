//! What most programs use, in one line: `use zoned::prelude::*;`. The names are those of chrono's
//! prelude, `NaiveZoned`, whose call `and_utc` is one of `NaiveDateTime` there, and the traits of days
//! and plans in a zone.

pub use crate::{
    DateTime, Datelike, FixedOffset, Month, NaiveDate, NaiveDateTime, NaiveTime, NaiveZoned,
    Offset, SubsecRound, TimeZone, Timelike, Utc, Weekday, ZoneDays, ZonePlans,
};
