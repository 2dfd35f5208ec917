//! The pieces of a TZ string.

mod clock;
pub(crate) mod day;
pub(crate) mod name;
pub(crate) mod offset;
