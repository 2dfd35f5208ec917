//! Rounding to multiples of a length of time.
ghost use Rattle.std.specs.{Int.{w64}, Prelude.{◌≡◌, FitsSigned, ℤ}};
ghost use Rattle.{
  naive_base.specs.{NaiveDateTime.{reading}, Reading.{moved, total, Reading}},
  offset_core.specs.TimeDelta.{nanos_of},
  zoned_round.specs.Durations.{IsGone, IsReadingMoved, IsRoundedTo},
  zoned_round.specs.{Multiples.{multiple_above, multiple_below, nearest_multiple}, Steps.Stamps.{IsNearRange}},
  zoned_round.specs.declared.error.RoundingError.{RoundingError as Fault},
  zoned_time.specs.{DateTime.{home_law_of, wall_of, zoned}, Zoned.{IsAt}},
};

use crate::RoundingError;
use crate::stamp::Stamp;
use naive_base::NaiveDateTime;
use offset_core::TimeDelta;
use std::error::Error;
use zoned_time::{DateTime, Offset, TimeZone};

/// Values that are rounded to multiples of a length of time.
///
/// The stamp of a value is what its clock shows, in nanoseconds from 1970-01-01 00:00:00, whatever
/// its offset; the nanoseconds of a leap second count on. A call returns the value moved by the time
/// from its stamp to a multiple of the length, or the value itself if its stamp is a multiple.
///
/// So the clock of the result shows that multiple, except in two cases. From a leap second the way
/// counts that second: 00:00:60.900, rounded up to 7 seconds, is 00:01:02. And an instant may be
/// moved across a change of offset: in New York 2021-03-14 03:30 -04:00, cut to a day, is
/// 2021-03-13 23:00 -05:00.
///
/// # Errors
///
/// [`RoundingError::DurationExceedsLimit`] if the length isn't positive, or if its nanoseconds don't
/// fit an `i64`; else [`RoundingError::TimestampExceedsLimit`] if the stamp doesn't fit one.
pub trait DurationRound: Sized {
    /// Why a value is not rounded.
    type Err: Error;

    // the variant of an error
    ghost fault: { Self.Err → Fault };

    // what the value's clock shows
    ghost clock: { Self → Reading };

    // the local date-time or the UTC date-time that moves
    ghost instant: { Self → Reading };

    // the value that number of nanoseconds later
    ghost IsMoved: { Self → ℤ → Self → Type 0 };

    /// Returns the value at the nearest multiple; if two are as near, at the later one.
    ///
    /// ```
    /// let noon = date.and_hms_nano_opt(12, 0, 0, 154_000_000)?; // 2018-01-11 12:00:00.154
    /// let near = noon.duration_round(TimeDelta::milliseconds(10)); // Ok(2018-01-11 12:00:00.150)
    /// let day = noon.duration_round(TimeDelta::days(1)); // Ok(2018-01-12 00:00:00)
    /// ```
    ///
    /// # Errors
    ///
    /// Those of the trait.
    fn duration_round(self, duration: TimeDelta) -> Result<Self, Self::Err>
        ensures { let stamp = total (clock self) in
            IsRoundedTo nearest_multiple fault (IsMoved self) stamp (nanos_of duration) self
            result };

    /// Returns the value at the greatest multiple that isn't later.
    ///
    /// ```
    /// let noon = date.and_hms_nano_opt(12, 0, 0, 154_000_000)?; // 2018-01-11 12:00:00.154
    /// let before = noon.duration_trunc(TimeDelta::milliseconds(10)); // Ok(2018-01-11 12:00:00.150)
    /// let day = noon.duration_trunc(TimeDelta::days(1)); // Ok(2018-01-11 00:00:00)
    /// ```
    ///
    /// # Errors
    ///
    /// Those of the trait.
    fn duration_trunc(self, duration: TimeDelta) -> Result<Self, Self::Err>
        ensures { let stamp = total (clock self) in
            IsRoundedTo multiple_below fault (IsMoved self) stamp (nanos_of duration) self result };

    /// Returns the value at the least multiple that isn't earlier.
    ///
    /// ```
    /// let noon = date.and_hms_nano_opt(12, 0, 0, 154_000_000)?; // 2018-01-11 12:00:00.154
    /// let after = noon.duration_round_up(TimeDelta::milliseconds(10)); // Ok(2018-01-11 12:00:00.160)
    /// let day = noon.duration_round_up(TimeDelta::days(1)); // Ok(2018-01-12 00:00:00)
    /// ```
    ///
    /// # Errors
    ///
    /// Those of the trait.
    fn duration_round_up(self, duration: TimeDelta) -> Result<Self, Self::Err>
        ensures { let stamp = total (clock self) in
            IsRoundedTo multiple_above fault (IsMoved self) stamp (nanos_of duration) self result };

    // what moves is the local date-time
    ghost moves: { (value : Self) (way : ℤ) (answer : Self)
        → IsMoved value way answer → instant answer ≡ moved (instant value) way };
}

impl DurationRound for NaiveDateTime {
    type Err = RoundingError;

    ghost fault = { λ error. error };

    ghost clock = { reading };

    ghost instant = { reading };

    ghost IsMoved = { IsReadingMoved };

    ghost moves = { λ _ _ _ is. is };

    #[tactic(auto, using(crate::proofs::Ways::gone))]
    fn duration_round(self, duration: TimeDelta) -> Result<NaiveDateTime, RoundingError> {
        let stamp = Stamp::of(self, duration)?;
        Ok(reading_after(self, stamp.way_to_nearest()))
    }

    #[tactic(auto, using(crate::proofs::Ways::gone))]
    fn duration_trunc(self, duration: TimeDelta) -> Result<NaiveDateTime, RoundingError> {
        let stamp = Stamp::of(self, duration)?;
        Ok(reading_after(self, stamp.way_below()))
    }

    #[tactic(auto, using(crate::proofs::Ways::gone))]
    fn duration_round_up(self, duration: TimeDelta) -> Result<NaiveDateTime, RoundingError> {
        let stamp = Stamp::of(self, duration)?;
        Ok(reading_after(self, stamp.way_above()))
    }
}

impl<Tz: TimeZone> DurationRound for DateTime<Tz> {
    type Err = RoundingError;

    ghost fault = { λ error. error };

    ghost clock = { wall_of };

    ghost instant = { λ d. (zoned d).utc };

    ghost IsMoved = { λ d way answer.
        IsAt (home_law_of Tz.meaning d) (moved (zoned d).utc way) (zoned answer) };

    ghost moves = { λ _ _ _ is. is.utc };

    fn duration_round(self, duration: TimeDelta) -> Result<DateTime<Tz>, RoundingError> {
        let stamp = Stamp::of(clock_of(&self), duration)?;
        Ok(instant_after(self, stamp.way_to_nearest()))
    }

    fn duration_trunc(self, duration: TimeDelta) -> Result<DateTime<Tz>, RoundingError> {
        let stamp = Stamp::of(clock_of(&self), duration)?;
        Ok(instant_after(self, stamp.way_below()))
    }

    fn duration_round_up(self, duration: TimeDelta) -> Result<DateTime<Tz>, RoundingError> {
        let stamp = Stamp::of(clock_of(&self), duration)?;
        Ok(instant_after(self, stamp.way_above()))
    }
}

// The local date-time later by that length.
fn reading_after(here: NaiveDateTime, way: TimeDelta) -> NaiveDateTime
    requires near { IsNearRange (reading here) }
    requires short { FitsSigned w64 (nanos_of way) }
    ensures { IsGone (IsReadingMoved here) (nanos_of way) here result }
{
    if way.whole_nanoseconds() == 0 {
        return here;
    }
    here.checked_add_signed(way).unwrap()
}

// What the instant's clock shows. It is less than a day from UTC.
fn clock_of<Tz: TimeZone>(here: &DateTime<Tz>) -> NaiveDateTime
    ensures is { reading result ≡ wall_of here.now }
    ensures near { FitsSigned w64 (total (wall_of here.now)) → IsNearRange (zoned here.now).utc }
{
    here.naive_utc().overflowing_add_offset(here.offset().fix())
}

// The instant moved by that length.
fn instant_after<Tz: TimeZone>(instant: DateTime<Tz>, way: TimeDelta) -> DateTime<Tz>
    requires near { IsNearRange (zoned instant).utc }
    requires short { FitsSigned w64 (nanos_of way) }
    ensures { let utc = (zoned instant).utc in
        IsGone (λ d answer. IsAt (home_law_of Tz.meaning instant) (moved utc d) (zoned answer))
        (nanos_of way) instant result }
{
    if way.whole_nanoseconds() == 0 {
        return instant;
    }
    instant.checked_add_signed(way).unwrap()
}
