//! What a zone is made from: its transitions and leap seconds, whether they are valid, and when they come.

pub(crate) mod kept;
pub(super) mod leap_seconds;
pub(super) mod leap_time;
pub(super) mod starts;
pub(super) mod table;
pub(crate) mod valid;
