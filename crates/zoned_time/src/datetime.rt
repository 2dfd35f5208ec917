//! Instants as a zone's clocks show them.
ghost use Rattle.std.specs.Prelude.{◌≡◌, ⊤};
ghost use Rattle.naive_base.specs.{NaiveDateTime.{reading}, Range.{IsInRange}};

mod arithmetic;
mod calendar;
mod constants;
mod convert;
mod days;
mod fields;
mod operators;
mod order;
mod parts;
mod print;
mod since;
mod stamps;

use crate::{Offset, TimeZone};
pub use arithmetic::AsInstant;
pub use constants::{MAX_DATETIME, MIN_DATETIME};
use naive_base::NaiveDateTime;
use std::alloc::AllocError;
use std::marker::PhantomData;

/// An instant, and how far the clocks of its zone are from UTC then.
///
/// It is a UTC date-time in range, and an offset, which may be any: that it is the offset of the
/// zone at that instant holds if a zone's call made the value. Two instants of one zone type are
/// equal where their UTC date-times are, whatever their offsets.
///
/// It prints as what a clock with its offset shows, and the offset: `2021-11-07 01:00:00 -05:00`,
/// and by `{:?}` `2021-11-07T01:00:00-05:00`, whatever width, fill or flags the formatter has.
///
/// ```
/// let there = Utc.timestamp(1_636_264_800, 0); // 2021-11-07 06:00:00 UTC
/// let here = there.with_timezone(&FixedOffset::west(5 * 3600)); // 2021-11-07 01:00:00 -05:00
/// ```
///
/// An instant of a borrowed zone, such as `TimeZoneRef` of `zoned_ref`, can be used no longer than that
/// zone; [`DateTime::fixed_offset`] of it prints alike and borrows nothing. It compares, sorts and
/// prints as any other. Today's checker doesn't cover three things there: a copy (write `clone` or
/// `iter().copied()`); a closure that asks the zone, such as `|instant| instant.hour()`; and one that
/// captures another instant. Put such closures into a function that is generic in the zone.
pub type DateTime<Tz> = Instant<Tz, <Tz as TimeZone>::Offset>;

/// What a [`DateTime`] is: an instant with the offset of a zone of type `Tz`.
///
/// It has no bound on that type, and neither have the calls and the traits that need no zone, such as
/// the order and [`DateTime::timestamp`]. So they work in a borrowed zone too.
pub struct Instant<Tz, O: Offset> {
    datetime: NaiveDateTime,
    offset: O,
    zone: PhantomData<Tz>,
    pub ghost in_range: { IsInRange (reading datetime).s },
}

impl<Tz: Copy, O: Offset + Copy> Clone for Instant<Tz, O> {
    ghost is_clone = { λ x y. y ≡ x };

    ghost is_infallible = { λ _. ⊤ };

    fn clone(&self) -> Result<Instant<Tz, O>, AllocError> {
        Ok(*self)
    }
}

impl<Tz: Copy, O: Offset + Copy> Copy for Instant<Tz, O> {}
