//! Clock changes.

use crate::local_time_type::LocalTimeType;

/// A clock change: up to the second before `at` one local time type is in force, and from `at` on
/// another one, which differs in its offset, its DST flag or its abbreviation.
#[derive(Clone, Copy, Debug, PartialEq, Eq)]
pub struct Change {
    /// The first second at which the new type is in force, as a Unix time.
    pub at: i64,
    /// The type in force at the second before.
    pub before: LocalTimeType,
    /// The type in force at that second.
    pub after: LocalTimeType,
}
