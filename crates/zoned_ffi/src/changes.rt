//! The changes of a zone's clocks, and the calls by which C asks for them.
#![tactic(auto, using(crate::proofs::Casts::passed_on))]

ghost use Rattle.std.specs.Prelude.{◌≡◌, ◌≢◌, ◌⊎◌, ◌<ℤ◌, ◌≤ℤ◌, slice_set};
ghost use Rattle.{
  tz_info.specs.{Changes.{HasNoChange}, HeldChanges.{change_held}, OffsetChanges.{KeepsOffset}, Zones.{TypeAt, Zone}},
  zoned_ffi.specs.Handles.{IsLent, IsNoneLent},
  zoned_ffi.specs.WrittenChanges.{written_change, AreFirstWritten, IsFirstOffsetWritten, IsFirstWritten},
  zoned_ffi.specs.WrittenChanges.{IsLastOffsetWritten, IsLastWritten},
};

use crate::lent::Lent;
use crate::local_type::WrittenType;
use crate::refusal::{NO_CHANGE, NOT_OPEN};
use tz_info::{Change, HeldChange, TimeZone};

/// A change of the clocks.
#[repr(C)]
#[derive(Clone, Copy)]
pub struct WrittenChange {
    /// The first second at which the new type is in force, a Unix second.
    pub at: i64,
    /// The type in force at the second before.
    pub before: WrittenType,
    /// The type in force at that second.
    pub after: WrittenType,
}

impl WrittenChange {
    /// That change.
    pub fn of(change: &Change) -> WrittenChange
        ensures { result ≡ written_change change.now }
    {
        WrittenChange {
            at: change.at,
            before: WrittenType::of(&change.before),
            after: WrittenType::of(&change.after),
        }
    }

    // That change, whose types the zone holds: they are copied only here.
    #[inline(always)]
    fn held(change: HeldChange<'_>) -> WrittenChange
        ensures { result ≡ written_change (change_held change.entry) }
    {
        WrittenChange {
            at: change.at,
            before: WrittenType::of(change.before),
            after: WrittenType::of(change.after),
        }
    }
}

/// Writes the first change of the zone's clocks after that second.
#[unsafe(no_mangle)]
pub extern "C" fn zoned_zone_next_change(zone: &Lent, after: i64, change: &mut WrittenChange) -> u32
    // 0: it is written.
    ensures answered { result ≡ 0
        → (z : Zone) × IsLent zone.now z × IsFirstWritten z (λ u. after <ℤ u) change.new }
    // 33: no zone is open. 35: there is no such change. Nothing is written.
    ensures refused { result ≢ 0 → (((result ≡ 33) × IsNoneLent zone.now)
        ⊎ ((result ≡ 35) × ((z : Zone) × IsLent zone.now z × HasNoChange (TypeAt z) (λ u. after <ℤ u))))
        × (change.new ≡ change.old) }
{
    let Some(share) = zone.share() else {
        return NOT_OPEN;
    };
    match share.next_held_change(after) {
        Some(found) => {
            *change = WrittenChange::held(found);
            0
        }
        None => NO_CHANGE,
    }
}

/// Writes the last change of the zone's clocks at that second or before it.
#[unsafe(no_mangle)]
pub extern "C" fn zoned_zone_previous_change(
    zone: &Lent,
    before_or_at: i64,
    change: &mut WrittenChange,
) -> u32
    // 0: it is written.
    ensures answered { result ≡ 0
        → (z : Zone) × IsLent zone.now z × IsLastWritten z (λ u. u ≤ℤ before_or_at) change.new }
    // 33: no zone is open. 35: there is no such change. Nothing is written.
    ensures refused { result ≢ 0 → (((result ≡ 33) × IsNoneLent zone.now)
        ⊎ ((result ≡ 35)
        × ((z : Zone) × IsLent zone.now z × HasNoChange (TypeAt z) (λ u. u ≤ℤ before_or_at))))
        × (change.new ≡ change.old) }
{
    let Some(share) = zone.share() else {
        return NOT_OPEN;
    };
    match share.previous_held_change(before_or_at) {
        Some(found) => {
            *change = WrittenChange::held(found);
            0
        }
        None => NO_CHANGE,
    }
}

/// Writes the first change of the zone's clocks after that second at which the offset changes.
#[unsafe(no_mangle)]
pub extern "C" fn zoned_zone_next_offset_change(
    zone: &Lent,
    after: i64,
    change: &mut WrittenChange,
) -> u32
    // 0: it is written.
    ensures answered { result ≡ 0
        → (z : Zone) × IsLent zone.now z × IsFirstOffsetWritten z (λ u. after <ℤ u) change.new }
    // 33: no zone is open. 35: there is no such change. Nothing is written.
    ensures refused { result ≢ 0 → (((result ≡ 33) × IsNoneLent zone.now)
        ⊎ ((result ≡ 35) × ((z : Zone) × IsLent zone.now z × KeepsOffset (TypeAt z) (λ u. after <ℤ u))))
        × (change.new ≡ change.old) }
{
    let Some(share) = zone.share() else {
        return NOT_OPEN;
    };
    match share.next_offset_change(after) {
        Some(found) => {
            *change = WrittenChange::of(&found);
            0
        }
        None => NO_CHANGE,
    }
}

/// Writes the last change of the zone's clocks at that second or before it at which the offset changes.
#[unsafe(no_mangle)]
pub extern "C" fn zoned_zone_previous_offset_change(
    zone: &Lent,
    before_or_at: i64,
    change: &mut WrittenChange,
) -> u32
    // 0: it is written.
    ensures answered { result ≡ 0
        → (z : Zone) × IsLent zone.now z × IsLastOffsetWritten z (λ u. u ≤ℤ before_or_at) change.new }
    // 33: no zone is open. 35: there is no such change. Nothing is written.
    ensures refused { result ≢ 0 → (((result ≡ 33) × IsNoneLent zone.now)
        ⊎ ((result ≡ 35)
        × ((z : Zone) × IsLent zone.now z × KeepsOffset (TypeAt z) (λ u. u ≤ℤ before_or_at))))
        × (change.new ≡ change.old) }
{
    let Some(share) = zone.share() else {
        return NOT_OPEN;
    };
    match share.previous_offset_change(before_or_at) {
        Some(found) => {
            *change = WrittenChange::of(&found);
            0
        }
        None => NO_CHANGE,
    }
}

/// Writes the changes of the zone's clocks from the second `from` on and before `until`, as many as
/// there is room for, and how many there are, or `most` if there are more.
#[unsafe(no_mangle)]
pub extern "C" fn zoned_zone_changes(
    zone: &Lent,
    from: i64,
    until: i64,
    most: usize,
    changes: &mut [WrittenChange],
    count: &mut usize,
) -> u32
    // 0: they are written, in their order, and counted. The elements after them are as they were.
    ensures answered { result ≡ 0 → (z : Zone) × IsLent zone.now z
        × AreFirstWritten z from until most changes.old changes.new count.new }
    // 33: no zone is open, and nothing is written.
    ensures refused { result ≢ 0 → (result ≡ 33) × IsNoneLent zone.now
        × (changes.new ≡ changes.old) × (count.new ≡ count.old) }
{
    let Some(share) = zone.share() else {
        return NOT_OPEN;
    };
    *count = write_changes(share, from, until, most, changes);
    0
}

/// Writes the changes from the second `from` on and before `until`, in their order and at most that
/// many, as far as there is room. Returns how many there are, and no more than that many.
pub fn write_changes(
    zone: &TimeZone,
    from: i64,
    until: i64,
    most: usize,
    changes: &mut [WrittenChange],
) -> usize
    ensures { AreFirstWritten zone.now from until most changes.old changes.new result }
{
    let mut count = 0;
    for change in zone.changes(from, until) {
        if count == most {
            return count;
        }
        write_at(changes, count, &change);
        count += 1;
    }
    count
}

// Writes the change at that place, if there is room.
fn write_at(changes: &mut [WrittenChange], place: usize, change: &Change)
    ensures { changes.new ≡ slice_set changes.old place (written_change change.now) }
{
    if place < changes.len() {
        changes[place] = WrittenChange::of(change);
    }
}
