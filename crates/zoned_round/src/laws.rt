//! Theorems: each function is empty, its contract is proved; never called.
ghost use Rattle.std.specs.{Int.{w64}, Prelude.{◌≡◌, ◌↔◌, ◌⊎◌, ◌<◌, ◌≤◌, ◌≤ℤ◌, FitsSigned, IsTrue, ℕ, ℤ}};
ghost use Rattle.{
  naive_base.specs.{NaiveDateTime.{reading}, Range.{IsInRange}, Reading.{total, Reading}},
  zoned_round.specs.{Durations.{IsRoundedTo}, Subseconds.{MayRound}},
  zoned_round.specs.Laws.{apart, IsGreatestWith, IsLeastWith, IsMultiple, IsShortOf, IsWithinHalf},
  zoned_round.specs.Multiples.{multiple_above, multiple_below, nearest_multiple},
  zoned_time.specs.DateTime.{wall_of, zoned},
};

use crate::{DurationRound, RoundingError, SubsecRound};
use naive_base::{NaiveDateTime, NaiveTime};
use zoned_time::{DateTime, TimeZone};

/// Outside leap seconds, `duration_trunc` gives an instant that isn't later than the value,
/// `duration_round_up` one that isn't earlier, and each is less than the length away.
/// `duration_round` gives one of the two instants, at most half the length away. (All in
/// nanoseconds of UTC, or of the local date-time if the value has no offset.)
pub fn rounded_instants<T: DurationRound>()
    ensures trunc { (value answer : T) (span : ℤ) → (T.instant value).f < 1_000_000_000
        → IsRoundedTo multiple_below T.fault (T.IsMoved value) (total (T.clock value)) span value
        (Ok answer)
        → IsShortOf (total (T.instant answer)) (total (T.instant value)) span }
    ensures up { (value answer : T) (span : ℤ) → (T.instant value).f < 1_000_000_000
        → IsRoundedTo multiple_above T.fault (T.IsMoved value) (total (T.clock value)) span value
        (Ok answer)
        → IsShortOf (total (T.instant value)) (total (T.instant answer)) span }
    ensures round { (value down up near : T) (span : ℤ) → (T.instant value).f < 1_000_000_000
        → IsRoundedTo multiple_below T.fault (T.IsMoved value) (total (T.clock value)) span value
        (Ok down)
        → IsRoundedTo multiple_above T.fault (T.IsMoved value) (total (T.clock value)) span value
        (Ok up)
        → IsRoundedTo nearest_multiple T.fault (T.IsMoved value) (total (T.clock value)) span value
        (Ok near)
        → ((total (T.instant near) ≡ total (T.instant down))
        ⊎ (total (T.instant near) ≡ total (T.instant up)))
        × IsWithinHalf (total (T.instant near)) (total (T.instant value)) span }
{}

/// A local date-time whose nanoseconds fit a signed 64-bit number is in range: a stamp that fits
/// has no other fault.
pub fn stamps_are_in_range()
    ensures { (r : Reading) → r.f < 2_000_000_000 → FitsSigned w64 (total r) → IsInRange r.s }
{}
/// The multiples of a span about a number: the greatest that isn't above it, the least that isn't
/// below, and the nearest, of two as near the greater.
pub fn multiples()
    ensures below { (n : ℤ) (span : ℕ) → 0 < span
        → IsGreatestWith (λ m. IsMultiple span m × (m ≤ℤ n)) (multiple_below n span) }
    ensures above { (n : ℤ) (span : ℕ) → 0 < span
        → IsLeastWith (λ m. IsMultiple span m × (n ≤ℤ m)) (multiple_above n span) }
    ensures nearest { (n m : ℤ) (span : ℕ) → 0 < span → IsMultiple span m
        → apart n (nearest_multiple n span) ≤ apart n m }
    ensures tie { (n m : ℤ) (span : ℕ) → 0 < span → IsMultiple span m
        → apart n (nearest_multiple n span) ≡ apart n m → m ≤ℤ nearest_multiple n span }
{}

/// Errors are equal if and only if they are the same, and a clone is the error.
pub fn errors()
    ensures equal { (a b : RoundingError) → IsTrue (⟦<RoundingError as PartialEq>⟧.eq a b) ↔ (a ≡ b) }
    ensures cloned { (a b : RoundingError) → ⟦<RoundingError as Clone>⟧.is_clone a b ↔ (a ≡ b) }
    ensures infallible { (a : RoundingError) → ⟦<RoundingError as Clone>⟧.is_infallible a }
{}

/// A value and a length have one rounded local date-time or one error, never both.
pub fn one_rounded_value<T: DurationRound>()
    ensures rounded { (choose : ℤ → ℕ → ℤ) (value a b : T) (stamp span : ℤ)
        → IsRoundedTo choose T.fault (T.IsMoved value) stamp span value (Ok a)
        → IsRoundedTo choose T.fault (T.IsMoved value) stamp span value (Ok b)
        → T.instant a ≡ T.instant b }
    ensures refused { (choose : ℤ → ℕ → ℤ) (value : T) (e f : T.Err) (stamp span : ℤ)
        → IsRoundedTo choose T.fault (T.IsMoved value) stamp span value (Err e)
        → IsRoundedTo choose T.fault (T.IsMoved value) stamp span value (Err f)
        → T.fault e ≡ T.fault f }
    ensures not_both { (choose : ℤ → ℕ → ℤ) (value a : T) (e : T.Err) (stamp span : ℤ)
        → IsRoundedTo choose T.fault (T.IsMoved value) stamp span value (Ok a)
        → IsRoundedTo choose T.fault (T.IsMoved value) stamp span value (Err e) → ⊥ }
{}

/// Rounding counts by what a value's clock shows, and moves its UTC date-time. A time of day may
/// always be rounded to digits.
pub fn clocks_of_values<Tz: TimeZone>(
    instant: &DateTime<Tz>,
    local: &NaiveDateTime,
    time: &NaiveTime,
)
    ensures clock { ⟦<DateTime<Tz> as DurationRound>⟧.clock instant.now ≡ wall_of instant.now }
    ensures moves { ⟦<DateTime<Tz> as DurationRound>⟧.instant instant.now
        ≡ (zoned instant.now).utc }
    ensures reading { ⟦<NaiveDateTime as DurationRound>⟧.clock local.now ≡ reading local.now }
    ensures time { (digits : ℕ) → MayRound (⟦<NaiveTime as SubsecRound>⟧.MayShow time.now)
        (⟦<NaiveTime as SubsecRound>⟧.shown time.now) digits }
{}
