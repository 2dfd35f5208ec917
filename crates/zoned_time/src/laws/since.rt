//! Theorems of stored offsets and of lengths of time in calendar units: each function is empty, its contract is
//! proved; never called.
ghost use Rattle.std.specs.Prelude.{◌≡◌, ◌<◌, ℕ, ℤ};
ghost use Rattle.{
  naive_base.specs.{Range.{IsInRange}, Reading.{Reading}, Since.{AreDaysCounted, AreMonthsCounted}},
  offset_core.specs.{TimeDelta.{nanos_of}},
  zoned_time.specs.Calendar.{AreCounts, IsAtOffset, IsCalendarLength, IsCalendarSum, NoneAtOffset},
  zoned_time.specs.{Zone.{IsOffsetAt, IsUtc}, Zoned.{local_of, Zoned}},
};

use crate::{CalendarLength, TimeZone};

/// While one offset is in force clocks show a local time once at most.
pub fn one_instant_at_offset<Tz: TimeZone>()
    ensures { (zone : Tz) (l : Reading) (k : ℤ) (d e : Zoned Tz.Offset)
        → IsAtOffset (Tz.law zone) l k d → IsAtOffset (Tz.law zone) l k e → d.utc ≡ e.utc }
{}

/// An instant whose offset is in force is that of its own local time at its own offset: so
/// `with_naive_local` of its own local date-time is the instant itself.
pub fn own_local_time<Tz: TimeZone>()
    ensures itself { (zone : Tz) (d : Zoned Tz.Offset) → IsInRange d.utc.s
        → IsOffsetAt (Tz.law zone) d.utc.s d.offset
        → IsAtOffset (Tz.law zone) (local_of Tz.meaning.seconds d) (Tz.meaning.seconds d.offset) d }
    ensures exists { (zone : Tz) (d : Zoned Tz.Offset) → IsInRange d.utc.s
        → IsOffsetAt (Tz.law zone) d.utc.s d.offset
        → NoneAtOffset (Tz.law zone).off (local_of Tz.meaning.seconds d).s
        (Tz.meaning.seconds d.offset)
        → ⊥ }
{}

/// The length from one instant to another is determined.
pub fn one_length()
    ensures { (off : ℤ → ℤ) (e m t : Reading) (a b : CalendarLength) → IsCalendarLength off e m t a
        → IsCalendarLength off e m t b
        → (a.months ≡ b.months) × (a.days ≡ b.days) × (nanos_of a.time ≡ nanos_of b.time) }
{}

/// If neither instant lies in a leap second, the length from the one to the other, added to the one, leads
/// to the other.
pub fn lengths_lead_back<Tz: TimeZone>()
    ensures { (zone : Tz) (e t : Zoned Tz.Offset) (length : CalendarLength) (sum : Zoned Tz.Offset)
        → e.utc.f < 1_000_000_000 → t.utc.f < 1_000_000_000
        → IsCalendarLength (Tz.law zone).off e.utc (local_of Tz.Offset.seconds e) t.utc length
        → IsCalendarSum (Tz.law zone) e.utc (local_of Tz.Offset.seconds e) length.months length.days
        (nanos_of length.time) sum
        → sum.utc ≡ t.utc }
{}

/// The length between two instants of UTC is that of their dates and times: its months and days are those that
/// [`NaiveDateTime::months_and_days_since`](naive_base::NaiveDateTime) counts.
pub fn lengths_in_utc<Tz: TimeZone>()
    ensures months { (zone : Tz) (e t r : Reading) (n d : ℕ) → IsUtc (Tz.law zone)
        → t.f < 2_000_000_000 → IsInRange t.s → AreCounts (Tz.law zone).off e e t n d r
        → AreMonthsCounted t e n }
    ensures days { (zone : Tz) (e t r : Reading) (n d : ℕ) → IsUtc (Tz.law zone)
        → e.f < 2_000_000_000 → t.f < 2_000_000_000 → IsInRange e.s → IsInRange t.s
        → AreCounts (Tz.law zone).off e e t n d r → AreDaysCounted t e n d }
{}
