//! Theorems: functions that only have a contract, and are never called.

pub mod days;
pub mod since;

ghost use Rattle.std.specs.{Int.{w64}, Prelude.{◌≡◌, ◌↔◌, ◌⊎◌, ◌++◌, [], FitsSigned, IsTrue, Option, SomeIff, ℕ, ℤ}};
ghost use Rattle.{
  naive_base.specs.{Fields.{TimeOfDay}, NaiveDateTime.{reading}, Range.{IsInRange}},
  naive_base.specs.{Reading.{of_total, total, IsEarlier, Reading}, Stamp.{of_secs, IsStamp}},
  offset_core.specs.{FixedOffset.{seconds_of}, LocalResult.{map_of}},
  zoned_time.specs.Choice.{IsBeforeGap, IsResolved, IsUnresolved},
  zoned_time.specs.{DateTime.{home_law_of, zoned, IsIn, IsOnlyAtTime, IsOnlyOnDay}, DateTime.{compared}},
  zoned_time.specs.Relocal.{instant_of, HasInstant, IsRelocal, SingleIff},
  zoned_time.specs.Stamps.{in_utc, micros_of, millis_of, of_micros, of_millis},
  zoned_time.specs.Zone.{seconds_alone, Each, SameLaw, SameOffsets},
  zoned_time.specs.Zoned.{in_seconds, local_of, IsAt, IsFixedFrom, Zoned},
};
ghost use Rattle.std.specs.Hash as fed;

use crate::{DateTime, Offset, TimeZone, Utc};
use naive_base::NaiveDateTime;
use offset_core::{Choice, FixedOffset, LocalResult, ResolveError};
use std::cmp::Ordering;
use std::hash::Hash;

/// A change of zone keeps the UTC date-time: `with_timezone`, `fixed_offset` and `to_utc`.
pub fn zone_changes_keep_the_instant<Tz: TimeZone, Tz2: TimeZone>()
    ensures with_timezone { (zone : Tz2) (before : Zoned Tz.Offset) (after : Zoned Tz2.Offset)
        → IsAt (Tz2.law zone) before.utc after → after.utc ≡ before.utc }
    ensures fixed_offset { (before : Zoned Tz.Offset) (after : Zoned FixedOffset)
        → IsFixedFrom Tz.Offset.seconds before after → after.utc ≡ before.utc }
    ensures to_utc { (before : Zoned Tz.Offset) (after : Zoned Utc)
        → after ≡ in_utc before.utc → after.utc ≡ before.utc }
{}

/// Instants compare and hash only by their UTC date-times, whatever their offsets, and a clone is
/// the instant.
pub fn instants_compare_by_utc<Tz: TimeZone>(a: &DateTime<Tz>, b: &DateTime<Tz>)
    ensures equal { IsTrue (⟦<DateTime<Tz> as PartialEq>⟧.eq a.now b.now)
        ↔ ((zoned a.now).utc ≡ (zoned b.now).utc) }
    ensures ordered { ⟦<DateTime<Tz> as Ord>⟧.cmp a.now b.now
        ≡ compared (zoned a.now).utc (zoned b.now).utc }
    ensures part_ordered { ⟦<DateTime<Tz> as PartialOrd>⟧.partial_cmp a.now b.now
        ≡ Some (compared (zoned a.now).utc (zoned b.now).utc) }
    ensures hashed { ⟦<DateTime<Tz> as Hash>⟧.hash_input a.now
        ≡ fed.i64 (zoned a.now).utc.s ++ fed.u32 (zoned a.now).utc.f }
    ensures cloned { ⟦<DateTime<Tz> as Clone>⟧.is_clone a.now b.now → b.now ≡ a.now }
    ensures infallible { ⟦<DateTime<Tz> as Clone>⟧.is_infallible a.now }
{}

/// That order is the one of local date-times: by the second, then by the nanoseconds.
pub fn earlier_is_less()
    ensures less { (a b : Reading) → (compared a b ≡ Ordering.Less) ↔ IsEarlier a b }
    ensures equal { (a b : Reading) → (compared a b ≡ Ordering.Equal) ↔ (a ≡ b) }
{}

/// UTC is one zone, of which a hash writes nothing.
pub fn one_utc(a: &Utc, b: &Utc)
    ensures equal { IsTrue (⟦<Utc as PartialEq>⟧.eq a.now b.now) }
    ensures hashed { ⟦<Utc as Hash>⟧.hash_input a.now ≡ [] }
    ensures one { a.now ≡ b.now }
    ensures infallible { ⟦<Utc as Clone>⟧.is_infallible a.now }
{}

/// What a zone gives depends only on its law, and in seconds on its offsets in seconds.
#[tactic(auto, using(crate::proofs::Homes::homes, crate::proofs::Homes::relocal_seconds))]
pub fn zones_of_the_same_offsets<Tz: TimeZone>()
    ensures at { (zone other : Tz) (r : Reading) (d : Zoned Tz.Offset)
        → SameLaw (Tz.law zone) (Tz.law other) → IsInRange r.s
        → IsAt (Tz.law zone) r d → IsAt (Tz.law other) r d }
    ensures relocal { (zone other : Tz) (l : Reading) (answer : LocalResult (Zoned Tz.Offset))
        → SameLaw (Tz.law zone) (Tz.law other)
        → IsRelocal (Tz.law zone) l answer → IsRelocal (Tz.law other) l answer }
    ensures at_in_seconds { (zone other : Tz) (r : Reading) (d : Zoned Tz.Offset)
        → SameOffsets (Tz.law zone).off (Tz.law other).off → IsInRange r.s
        → IsAt (Tz.law zone) r d → IsAt (seconds_alone (Tz.law other)) r d }
    ensures relocal_in_seconds { (zone other : Tz) (l : Reading)
        → (answer : LocalResult (Zoned Tz.Offset))
        → SameOffsets (Tz.law zone).off (Tz.law other).off
        → IsRelocal (Tz.law zone) l answer → IsRelocal (seconds_alone (Tz.law other)) l answer }
{}

/// The instant of a timestamp has that timestamp.
pub fn stamps_come_back()
    ensures seconds { (secs : ℤ) (nanos : ℕ) (instant : Zoned Utc)
        → SomeIff (Some instant) (IsStamp (of_secs secs nanos)) (in_utc (of_secs secs nanos))
        → (instant.utc.s ≡ secs) × (instant.utc.f ≡ nanos) }
    ensures whole_seconds { (secs : ℤ) (instant : Zoned Utc)
        → SomeIff (Some instant) (IsInRange secs) (in_utc (of_secs secs 0))
        → (instant.utc.s ≡ secs) × (instant.utc.f ≡ 0) }
    ensures millis { (millis : ℤ) (instant : Zoned Utc)
        → SomeIff (Some instant) (IsInRange (of_millis millis).s) (in_utc (of_millis millis))
        → millis_of instant.utc ≡ millis }
    ensures micros { (micros : ℤ) (instant : Zoned Utc)
        → SomeIff (Some instant) (IsInRange (of_micros micros).s) (in_utc (of_micros micros))
        → micros_of instant.utc ≡ micros }
    ensures nanos { (nanos : ℤ) (instant : Zoned Utc) (stamp : Option ℤ)
        → FitsSigned w64 nanos → instant ≡ in_utc (of_total nanos)
        → SomeIff stamp (FitsSigned w64 (total instant.utc)) (total instant.utc)
        → stamp ≡ Some nanos }
{}

/// Each instant that a zone gives for a wall clock is one at which its clocks show that wall clock,
/// and has the offset that the zone gives there.
pub fn local_times_come_back<Tz: TimeZone>()
    ensures { (zone : Tz) (l : Reading) (answer : LocalResult (Zoned Tz.Offset))
        → IsRelocal (Tz.law zone) l answer
        → Each (λ d. (local_of Tz.Offset.seconds d ≡ l) × IsAt (Tz.law zone) d.utc d) answer }
{}

/// An instant of a zone that is moved is one of that zone: its offset is in force there, with its
/// abbreviation and its DST flag. That holds after `+`, and after each call that looks up the offset in
/// the zone that the offset came from.
pub fn in_zone_after_move<Tz: TimeZone>(zone: &Tz, before: &DateTime<Tz>, after: &DateTime<Tz>)
    requires before { IsIn (Tz.law zone.now) before.now }
    requires after { IsIn (home_law_of Tz.meaning before.now) after.now }
    ensures { IsIn (Tz.law zone.now) after.now }
{}

/// So is one that shows another day at its time: after `checked_add_months`, `checked_add_days` or
/// a change of a field of its date.
#[tactic(auto, using(crate::proofs::Stays::in_zone))]
pub fn in_zone_on_day<Tz: TimeZone>(zone: &Tz, before: &DateTime<Tz>, after: &DateTime<Tz>)
    requires before { IsIn (Tz.law zone.now) before.now }
    requires after { (day : Option ℤ)
        × IsOnlyOnDay Tz.meaning before.now day (Some after.now) }
    ensures { IsIn (Tz.law zone.now) after.now }
{}

/// And so is one that shows another time on its day: after a change of a field of its time.
#[tactic(auto, using(crate::proofs::Stays::in_zone))]
pub fn in_zone_at_time<Tz: TimeZone>(zone: &Tz, before: &DateTime<Tz>, after: &DateTime<Tz>)
    requires before { IsIn (Tz.law zone.now) before.now }
    requires after { (time : Option TimeOfDay)
        × IsOnlyAtTime Tz.meaning before.now time (Some after.now) }
    ensures { IsIn (Tz.law zone.now) after.now }
{}

/// The clocks of UTC and of a fixed offset show each local time once: `from_local_datetime` gives its
/// only instant, or none if that is out of range.
pub fn one_instant_where_the_offset_is_fixed()
    ensures utc { (zone : Utc) (l : Reading) (answer : LocalResult (Zoned Utc))
        → IsRelocal (⟦<Utc as TimeZone>⟧.law zone) l answer
        → SingleIff answer (IsInRange l.s) (in_utc l) }
    ensures fixed { (zone : FixedOffset) (l : Reading) (answer : LocalResult (Zoned FixedOffset))
        → IsRelocal (⟦<FixedOffset as TimeZone>⟧.law zone) l answer
        → SingleIff answer (HasInstant seconds_of l zone) (instant_of seconds_of l zone) }
{}

/// What a zone gives for a wall clock is determined: two answers are the same instants, at offsets
/// of the same seconds.
pub fn one_relocal<Tz: TimeZone>()
    ensures { (zone : Tz) (l : Reading) (a b : LocalResult (Zoned Tz.Offset))
        → IsRelocal (Tz.law zone) l a → IsRelocal (Tz.law zone) l b
        → map_of (in_seconds Tz.Offset.seconds) a ≡ map_of (in_seconds Tz.Offset.seconds) b }
{}

/// A gap has one offset before it.
pub fn one_offset_before_gap<Tz: TimeZone>()
    ensures { (zone : Tz) (l j k : ℤ) → IsBeforeGap (Tz.law zone).off l j
        → IsBeforeGap (Tz.law zone).off l k → j ≡ k }
{}

/// For a local time and a policy there is one instant, at one offset in seconds, or one error, and
/// never both.
pub fn one_resolution<Tz: TimeZone>()
    ensures resolved { (zone : Tz) (l : Reading) (choice : Choice) (a b : Zoned Tz.Offset)
        → IsResolved (Tz.law zone) l choice a → IsResolved (Tz.law zone) l choice b
        → in_seconds Tz.Offset.seconds a ≡ in_seconds Tz.Offset.seconds b }
    ensures unresolved { (zone : Tz) (l : Reading) (choice : Choice) (e f : ResolveError)
        → IsUnresolved (Tz.law zone).off l.s choice e
        → IsUnresolved (Tz.law zone).off l.s choice f → e ≡ f }
    ensures not_both { (zone : Tz) (l : Reading) (choice : Choice)
        → (a : Zoned Tz.Offset) (e : ResolveError)
        → IsResolved (Tz.law zone) l choice a → IsUnresolved (Tz.law zone).off l.s choice e → ⊥ }
{}

/// And one of the two there always is.
pub fn resolution_decided<Tz: TimeZone>(zone: &Tz, local: &NaiveDateTime, choice: Choice)
    ensures { let law = Tz.law zone.now in let l = reading local.now in
        ((d : Zoned Tz.Offset) × IsResolved law l choice d)
        ⊎ ((e : ResolveError) × IsUnresolved law.off l.s choice e) }
{
    match zone.resolve(local, choice) {
        Ok(_) => {}
        Err(_) => {}
    }
}
