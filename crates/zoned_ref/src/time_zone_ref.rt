//! Parsed zones, borrowed.
ghost use Rattle.std.specs.{Ordering.{on}, Prelude.{◌≡◌, ◌↔◌, option_map, slice_get, IfSome, IsSome, IsTrue, ℤ}};
ghost use Rattle.{
  offset_core.specs.Offset.{IsWithinDay},
  zoned_ref.specs.{OffsetAt.{offset_at}, Offsets.{AreOffsetsOf, HasOffsets, HasOneOffset, IsNarrow}},
  zoned_time.specs.Zone.{IsFixed, IsZoneSecond},
};

use offset_core::FixedOffset;
use std::fmt;
use std::hash::{Hash, Hasher};

/// A parsed time zone as a zone of [`DateTime`](zoned_time::DateTime)s: at each instant it has the
/// offset of the local time type in force then.
///
/// It borrows the parsed zone, and so does each instant that it gives: none of them can be used
/// once that zone is gone. [`DateTime::fixed_offset`](zoned_time::DateTime::fixed_offset) gives an
/// instant that prints alike and borrows nothing: that is the one to keep. Instants of a borrowed
/// zone compare, sort and print as any other. What the checker doesn't cover of them yet is a copy
/// in place (write `clone` or `iter().copied()`), a closure that asks the zone, and one that
/// captures an instant: write such closures in a function that is generic over the zone.
///
/// ```
/// let parsed = tz_info::TimeZone::from_tz_data(alloc, bytes)?; // the file of New York
/// let new_york = TimeZoneRef::new(&parsed).ok_or(MyError::WideZone)?;
/// let instant = new_york.timestamp(1_636_266_600, 0); // 2021-11-07 01:30:00 -05:00
/// instant.offset().name(); // Some("EST")
/// let kept = instant.fixed_offset(); // a DateTime<FixedOffset>
/// new_york.with_ymd_and_hms(2021, 3, 14, 2, 30, 0); // None: it lies in a gap
/// new_york.with_ymd_and_hms(2021, 11, 7, 1, 30, 0); // Ambiguous(2021-11-07 01:30:00 -04:00, 2021-11-07 01:30:00 -05:00)
/// ```
#[derive(Clone, Copy)]
pub struct TimeZoneRef<'a> {
    zone: &'a tz_info::TimeZone,
    // Every zone has the second of these facts. It is a fact here so that the third one, and all
    // that is said of a zone of `DateTime`s, can speak of its offset at a second.
    pub ghost narrow: { IsNarrow zone.now },
    pub ghost offsets: { ∥ HasOffsets zone.now ∥₁ },
    pub ghost within_day: { (u : ℤ) → IsZoneSecond u → IsWithinDay (offset_at zone.now offsets u) },
}

impl<'a> TimeZoneRef<'a> {
    ghost use Rattle.zoned_ref.specs.{TimeZoneRef.{off_of, zone_of}, ZoneOffset.{law_of}};

    /// Returns that zone, or `None` if a type that it lists, or a type of its rule, is a day
    /// (86,400 seconds) or more away from UTC. A rule of one type may have one that the zone
    /// doesn't list.
    pub fn new(zone: &'a tz_info::TimeZone) -> Option<TimeZoneRef<'a>>
        ensures some { IsSome result ↔ IsNarrow zone.now }
        ensures zone { IfSome result (λ r. zone_of r ≡ zone.now) }
        // Its offsets are those of the types in force.
        ensures offsets { IfSome result (λ r. AreOffsetsOf zone.now (off_of r)) }
        // If each of its types has the offset k, that is its offset at each second,
        ensures one_offset { IfSome result (λ r. (k : ℤ) → HasOneOffset zone.now k
            → (u : ℤ) → IsZoneSecond u → off_of r u ≡ k) }
        // and its clocks are never set.
        ensures fixed { IfSome result (λ r. (k : ℤ) → HasOneOffset zone.now k
            → IsFixed (law_of r)) }
    {
        has_offsets(zone);
        if is_narrow(zone) {
            Some(TimeZoneRef { zone })
        } else {
            None
        }
    }

    /// Returns the parsed zone.
    #[tactic(auto, using(crate::proofs::Offsets::are_offsets))]
    pub fn zone(&self) -> &'a tz_info::TimeZone
        ensures zone { result.now ≡ zone_of self.now }
        ensures narrow { IsNarrow result.now }
        // The offsets of any borrowed zone are those of the types in force.
        ensures offsets { AreOffsetsOf result.now (off_of self.now) }
    {
        has_offsets(self.zone);
        self.zone
    }

    // The offset of the first type that the zone lists; there is one.
    fn first_offset(&self) -> Option<i32>
        ensures { result ≡ option_map (λ t. t.offset) (slice_get (zone_of self.now).types 0) }
    {
        let first = self.zone.local_time_types().first()?;
        Some(first.offset())
    }
}

// It compares lists, and two that borrow one zone have the same.
impl PartialEq for TimeZoneRef<'_> {
    ghost use Rattle.std.specs.Cmp.{on_per};
    ghost use Rattle.tz_info.specs.contracts.zone.time_zone.TimeZonePartialEq.TheImpl.Laws.{laws-law};
    ghost use Rattle.zoned_ref.specs.TimeZoneRef.{zone_of};

    ghost eq = { on zone_of ⟦<tz_info::TimeZone as PartialEq>⟧.eq };

    ghost laws = { on_per zone_of laws-law };

    fn eq(&self, other: &TimeZoneRef<'_>) -> bool {
        *self.zone == *other.zone
    }
}

impl Eq for TimeZoneRef<'_> {
    ghost use Rattle.std.specs.Cmp.{on_equiv};
    ghost use Rattle.tz_info.specs.contracts.zone.time_zone.TimeZoneEq.TheImpl.Laws.{laws-law};
    ghost use Rattle.zoned_ref.specs.TimeZoneRef.{zone_of};

    ghost laws = { on_equiv zone_of laws-law };
}

// By the count of transitions and the first type's offset, mostly that of local mean time: few zones
// share both.
impl Hash for TimeZoneRef<'_> {
    ghost use Rattle.std.proofs.Common.{ap};
    ghost use Rattle.tz_info.proofs.ForCallers.{zone_exact};
    ghost use Rattle.zoned_ref.specs.TimeZoneRef.{zone_of, writes_of};

    ghost hash_input = { λ r. writes_of (zone_of r) };

    ghost respects_eq = { λ a b same. ap writes_of ((zone_exact (zone_of a) (zone_of b)).0 same) };

    fn hash<H: Hasher>(&self, state: &mut H) {
        self.zone.transition_count().hash(state);
        self.first_offset().hash(state);
    }
}

impl fmt::Debug for TimeZoneRef<'_> {
    fn fmt<W: fmt::Write>(&self, f: &mut fmt::Formatter<W>) -> fmt::Result {
        f.debug_tuple("TimeZoneRef").field(self.zone).finish()
    }
}

// Leap times that leave 64 bits, and years that no rule answers in, are far away from the seconds
// that a zone of `DateTime`s answers at. This does nothing: its contract is a law.
#[tactic(auto, using(crate::proofs::Offsets::zone_has_offsets))]
fn has_offsets(zone: &tz_info::TimeZone)
    ensures { HasOffsets zone.now }
{
    zone.valid_law();
}

fn is_narrow(zone: &tz_info::TimeZone) -> bool
    ensures { IsTrue result ↔ IsNarrow zone.now }
{
    is_within_day(zone.least_offset()) && is_within_day(zone.greatest_offset())
}

fn is_within_day(offset: i32) -> bool
    ensures { IsTrue result ↔ IsWithinDay offset }
{
    FixedOffset::east_opt(offset).is_some()
}
