//! The differences of two zones: the stretches of time in which they have different local time
//! types.

ghost use Rattle.std.specs.Prelude.{◌≡◌, ◌<ℤ◌, MatchResult};
ghost use Rattle.{
  tz_info.specs.{Differences.{AreDifferences}, Steps.Differences.{IsListedIf, IsPairUntil}, Leaps.{IsNear}},
  tz_info.specs.Zones.{TypeAt},
};

use crate::change::is_same_type;
use crate::zone::ask::runs::end_by;
use crate::zone::time_zone::TimeZone;
use std::alloc::Global;
use tz_base::{Error, LocalTimeType};

/// A stretch of time in which two zones, such as two versions of one zone, have types that differ in
/// offset, DST flag or abbreviation.
#[derive(Clone, Copy, Debug, PartialEq, Eq)]
pub struct Difference {
    /// The first second of the stretch.
    pub from: i64,
    /// The second after its last one.
    pub until: i64,
    /// The type of the zone whose differences these are.
    pub old: LocalTimeType,
    /// The type of the zone that it is compared with.
    pub new: LocalTimeType,
}

impl TimeZone {
    /// Returns the stretches of time from the second `from` to before the second `until` in which
    /// this zone and another one have different types, in order of time.
    ///
    /// A stretch has one type of each zone: if either type changes and the two still differ,
    /// another stretch begins. Clocks are moved by the difference of the two offsets.
    ///
    /// Requires: both seconds are within 10^13 of 1970.
    ///
    /// # Errors
    ///
    /// [`Error::OutOfMemory`] if there is no memory for the list.
    ///
    /// ```
    /// let old = TimeZone::from_posix_tz(alloc, "<+06>-6")?;
    /// let new = TimeZone::from_posix_tz(alloc, "<+05>-5")?;
    /// let found = old.differences(alloc, &new, 1_709_229_600, 1_709_233_200)?;
    /// let ahead = found[0].new.offset(); // 18000
    /// ```
    pub fn differences(
        &self,
        alloc: Global,
        other: &TimeZone,
        from: i64,
        until: i64,
    ) -> Result<Vec<Difference>, Error>
        requires from { IsNear from }
        requires until { IsNear until }
        ensures { MatchResult result
            (λ ds. AreDifferences (TypeAt self.now) (TypeAt other.now) from until ds.items)
            (λ e. e ≡ Error.OutOfMemory) }
    {
        let mut found = Vec::new(alloc);
        let mut at = from;
        while at < until {
            let pair = self.pair_at(other, at, until);
            let end = pair.until;
            list_if_differing(&mut found, pair)?;
            at = end;
        }
        Ok(found)
    }

    // Both types at the second, up to the first later second at which either zone has another one in
    // force, or to `limit` if that comes first.
    fn pair_at(&self, other: &TimeZone, second: i64, limit: i64) -> Difference
        requires near { IsNear second }
        requires limit { IsNear limit }
        requires ahead { second <ℤ limit }
        ensures from { result.from ≡ second }
        ensures until { IsPairUntil (TypeAt self.now) (TypeAt other.now) second limit result.until }
        ensures types { TypeAt self.now second result.old × TypeAt other.now second result.new }
    {
        let old = self.near_span_at(second);
        let new = other.near_span_at(second);
        let own = end_by(old.until, limit);
        Difference {
            from: second,
            until: end_by(new.until, own),
            old: *old.local_time_type,
            new: *new.local_time_type,
        }
    }
}

// Lists it if its types differ.
fn list_if_differing(found: &mut Vec<Difference>, one: Difference) -> Result<(), Error>
    ensures { MatchResult result
        (λ _. IsListedIf found.old.items one found.new.items)
        (λ e. e ≡ Error.OutOfMemory) }
{
    if is_same_type(&one.old, &one.new) {
        return Ok(());
    }
    found.push(one)?;
    Ok(())
}
