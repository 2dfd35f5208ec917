//! When the clocks of a kept zone change, as instants.
ghost use Rattle.std.specs.Prelude.{◌≡◌, ◌<ℤ◌, ◌≤ℤ◌, option_map, IfSome};
ghost use Rattle.{
  tz_info.specs.{Changes.{IsFirst, IsLast}, Zones.{TypeAt}},
  zoned_ref.specs.{KeptZone.{change_of, off_of, zone_of, IsOfZone}, ZoneChange.{IsAfter, IsUpTo, StandWithin}},
  zoned_time.specs.DateTime.{zoned},
};
ghost use Rattle.zoned_ref.specs.ZoneChange as borrowed;

use crate::{KeptZone, TimeZoneRef, ZoneChange};
use zoned_time::{DateTime, TimeZone};

/// A change of the clocks of a kept zone: the last second before it, and its first one.
///
/// It is the [`ZoneChange`] of that zone, without a lifetime.
///
/// ```
/// let change = new_york.next_change(&new_year)?; // from 2021-01-01 00:00:00 UTC on
/// change.before; // 2021-03-14 01:59:59 -05:00
/// change.at; // 2021-03-14 03:00:00 -04:00
/// change.at.offset().name(); // Some("EDT")
/// ```
#[derive(Clone, Copy, Debug)]
pub struct KeptChange {
    /// The second before the change, with the offset that ends.
    pub before: DateTime<KeptZone>,
    /// The second at which clocks change, with the offset that begins.
    pub at: DateTime<KeptZone>,
}

impl KeptZone {
    /// Returns the first clock change after an instant, as
    /// [`TimeZoneRef::next_change`](crate::TimeZoneRef::next_change) does. `None` if there isn't
    /// one up to the last second of the range of [`DateTime`].
    ///
    /// ```
    /// let new_year = Utc.timestamp(1_609_459_200, 0); // 2021-01-01 00:00:00 UTC
    /// let forward = new_york.next_change(&new_year)?.at; // 2021-03-14 03:00:00 -04:00
    /// let back = new_york.next_change(&forward)?.at; // 2021-11-07 01:00:00 -05:00
    /// ```
    pub fn next_change<Tz: TimeZone>(&self, after: &DateTime<Tz>) -> Option<KeptChange>
        ensures change { IsFirst (TypeAt (zone_of self.now))
            (IsAfter (zoned after.now).utc.s)
            (option_map change_of result) }
        ensures instants { IfSome result (IsOfZone self.now) }
        // Until then the clocks keep that instant's offset and type; if there is no change, to the
        // end of the range.
        ensures until { let s = (zoned after.now).utc.s in
            StandWithin (zone_of self.now) (off_of self.now) s
            (λ u. (s ≤ℤ u) × IfSome result (λ c. u <ℤ (zoned c.at).utc.s)) }
    {
        let change = self.borrowed.next_change(after)?;
        Some(self.kept(&change))
    }

    /// Returns the last clock change at an instant or before it, as
    /// [`TimeZoneRef::previous_change`](crate::TimeZoneRef::previous_change) does. `None` if
    /// there isn't one after the first second of the range of [`DateTime`] and up to the instant.
    ///
    /// ```
    /// let new_year = Utc.timestamp(1_609_459_200, 0); // 2021-01-01 00:00:00 UTC
    /// new_york.previous_change(&new_year)?.at; // 2020-11-01 01:00:00 -05:00
    /// ```
    pub fn previous_change<Tz: TimeZone>(&self, before_or_at: &DateTime<Tz>) -> Option<KeptChange>
        ensures change { IsLast (TypeAt (zone_of self.now))
            (IsUpTo (zoned before_or_at.now).utc.s)
            (option_map change_of result) }
        ensures instants { IfSome result (IsOfZone self.now) }
        // From then on the clocks have had that instant's offset and type; if there is no change,
        // from the start of the range.
        ensures since { let s = (zoned before_or_at.now).utc.s in
            StandWithin (zone_of self.now) (off_of self.now) s
            (λ u. (u ≤ℤ s) × IfSome result (λ c. (zoned c.at).utc.s ≤ℤ u)) }
    {
        let change = self.borrowed.previous_change(before_or_at)?;
        Some(self.kept(&change))
    }

    // The change of the borrowed zone as one of this zone.
    fn kept(&self, change: &ZoneChange<'static>) -> KeptChange
        requires { borrowed.IsOfZone self.now.borrowed change.now }
        ensures change { change_of result ≡ borrowed.change_of change.now }
        ensures instants { IsOfZone self.now result }
    {
        KeptChange {
            before: kept_instant(&change.before),
            at: kept_instant(&change.at),
        }
    }
}

// The instant of a borrowed zone that is kept.
fn kept_instant(instant: &DateTime<TimeZoneRef<'static>>) -> DateTime<KeptZone>
    ensures utc { (zoned result).utc ≡ (zoned instant.now).utc }
    ensures offset { (zoned result).offset ≡ (zoned instant.now).offset }
{
    DateTime::of_parts(&instant.naive_utc(), instant.offset())
}
