//! When the clocks of a borrowed zone change, as instants.
ghost use Rattle.std.specs.Prelude.{◌≡◌, ◌<ℤ◌, ◌≤ℤ◌, ◌-ℤ◌, option_map, pos, IfSome, MatchOption};
ghost use Rattle.{
  naive_base.specs.{Range.{IsInRange}, Stamp.{of_secs}},
  tz_info.specs.{Changes.{IsChange, IsFirst, IsLast}, HeldChanges.{change_held}, Zones.{TypeAt}},
  zoned_ref.specs.{Offsets.{AreOffsetsOf}, TimeZoneRef.{off_of, zone_of}, ZoneOffset.{law_of, type_of}},
  zoned_ref.specs.ZoneChange.{change_of, IsAfter, IsOfZone, IsUpTo, StandWithin},
  zoned_time.specs.{DateTime.{zoned}, Zoned.{IsAt}},
};

use crate::TimeZoneRef;
use naive_base::NaiveDateTime;
use tz_info::{HeldChange, LocalTimeType};
use zoned_time::{DateTime, TimeZone};

/// A clock change of a borrowed zone: the last second before it, and its first one.
///
/// Their offsets show what changes: how far clocks are from UTC, whether it is daylight saving
/// time, or the abbreviation. Their local times are the last second that the clocks showed before,
/// and the first one that they showed after it.
///
/// ```
/// let change = new_york.next_change(&new_year)?; // from 2021-01-01 00:00:00 UTC on
/// change.before; // 2021-03-14 01:59:59 -05:00
/// change.at; // 2021-03-14 03:00:00 -04:00
/// change.at.offset().name(); // Some("EDT")
/// ```
#[derive(Clone, Copy, Debug)]
pub struct ZoneChange<'a> {
    /// The second before the change, with the offset that ends.
    pub before: DateTime<TimeZoneRef<'a>>,
    /// The second at which clocks change, with the offset that begins.
    pub at: DateTime<TimeZoneRef<'a>>,
}

impl<'a> TimeZoneRef<'a> {
    /// Returns the first clock change after an instant, which may be one of any zone. `None` if
    /// none comes up to the last second of the range of [`DateTime`].
    ///
    /// Clocks change at whole seconds, so an instant counts by its
    /// [`timestamp`](zoned_time::DateTime::timestamp): a leap second by the second before it. A
    /// change at the instant itself doesn't come after it.
    ///
    /// A transition that changes nothing doesn't count; changes made by the rule after the last
    /// transition do. It takes no memory.
    ///
    /// ```
    /// let new_year = Utc.timestamp(1_609_459_200, 0); // 2021-01-01 00:00:00 UTC
    /// let forward = new_york.next_change(&new_year)?.at; // 2021-03-14 03:00:00 -04:00
    /// let back = new_york.next_change(&forward)?.at; // 2021-11-07 01:00:00 -05:00
    /// ```
    pub fn next_change<Tz: TimeZone>(&self, after: &DateTime<Tz>) -> Option<ZoneChange<'a>>
        ensures change { IsFirst (TypeAt (zone_of self.now))
            (IsAfter (zoned after.now).utc.s)
            (option_map change_of result) }
        ensures instants { IfSome result (IsOfZone self.now) }
        // Until then the clocks keep that instant's offset and type; if there is no change, to the
        // end of the range.
        ensures until { let s = (zoned after.now).utc.s in
            StandWithin (zone_of self.now) (off_of self.now) s
            (λ u. (s ≤ℤ u) × IfSome result (λ c. u <ℤ (zoned c.at).utc.s)) }
    {
        let zone = self.zone();
        let change = zone.next_held_change(after.timestamp())?;
        self.instants_around(change)
    }

    /// Returns the last clock change at an instant or before it, which may be one of any zone.
    /// `None` if none comes after the first second of the range of [`DateTime`] and up to it.
    ///
    /// An instant counts by its second, as for [`TimeZoneRef::next_change`]. A change at the
    /// instant itself is its answer.
    ///
    /// ```
    /// let new_year = Utc.timestamp(1_609_459_200, 0); // 2021-01-01 00:00:00 UTC
    /// new_york.previous_change(&new_year)?.at; // 2020-11-01 01:00:00 -05:00
    /// ```
    pub fn previous_change<Tz: TimeZone>(
        &self,
        before_or_at: &DateTime<Tz>,
    ) -> Option<ZoneChange<'a>>
        ensures change { IsLast (TypeAt (zone_of self.now))
            (IsUpTo (zoned before_or_at.now).utc.s)
            (option_map change_of result) }
        ensures instants { IfSome result (IsOfZone self.now) }
        // From then on the clocks have had that instant's offset and type; if there is no change,
        // from the start of the range.
        ensures since { let s = (zoned before_or_at.now).utc.s in
            StandWithin (zone_of self.now) (off_of self.now) s
            (λ u. (u ≤ℤ s) × IfSome result (λ c. (zoned c.at).utc.s ≤ℤ u)) }
    {
        let zone = self.zone();
        let change = zone.previous_held_change(before_or_at.timestamp())?;
        self.instants_around(change)
    }

    // A change of the zone's types as instants, if both are in range.
    #[inline(always)]
    fn instants_around(&self, change: HeldChange<'a>) -> Option<ZoneChange<'a>>
        requires change { IsChange (TypeAt (zone_of self.now)) (change_held change) }
        requires offsets { AreOffsetsOf (zone_of self.now) (off_of self.now) }
        ensures { let told = change_held change.entry in
            MatchOption result (IsInRange (told.at -ℤ pos 1) → IsInRange told.at → ⊥)
            (λ c. (change_of c ≡ told) × IsOfZone self.now c
            × IsInRange (told.at -ℤ pos 1) × IsInRange told.at) }
    {
        let before = self.instant_of(change.at - 1, change.before)?;
        let at = self.instant_of(change.at, change.after)?;
        Some(ZoneChange { before, at })
    }

    // The instant of a second, if it is in range; that type is in force then.
    pub(crate) fn instant_of(
        &self,
        second: i64,
        local_type: &'a LocalTimeType,
    ) -> Option<DateTime<TimeZoneRef<'a>>>
        requires in_force { TypeAt (zone_of self.now) second local_type.now }
        requires offsets { AreOffsetsOf (zone_of self.now) (off_of self.now) }
        ensures { MatchOption result (IsInRange second → ⊥)
            (λ d. IsInRange second × IsAt (law_of self.now) (of_secs second 0) (zoned d)
            × (type_of (zoned d).offset ≡ local_type.now)) }
    {
        let utc = NaiveDateTime::from_timestamp_opt(second, 0)?;
        let offset = self.offset_of(second, local_type);
        Some(DateTime::of_parts(&utc, &offset))
    }
}
