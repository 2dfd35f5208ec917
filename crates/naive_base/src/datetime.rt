//! Local date-times.
ghost use Rattle.std.specs.Prelude.{◌≡◌, ◌↔◌, ◌<◌, ◌+ℤ◌, ◌-ℤ◌, option_map, pos, IsTrue, SomeIff};
ghost use Rattle.{
  naive_base.specs.{Range.{IsInRange, IsReading}, Reading.{ahead, behind, day_at, reading_at, second_at}},
  naive_base.specs.Stamp.{of_secs, IsStamp},
  offset_core.specs.FixedOffset.{seconds_of},
};

mod fields;
mod moves;
mod operators;
mod since;

use crate::range::{FIRST_SECOND, LAST_SECOND};
use crate::{NaiveDate, NaiveTime, Timelike};
use offset_core::FixedOffset;

/// What a clock shows, without a time zone: the seconds from 1970-01-01 00:00:00, every day counted
/// as 86,400, and nanoseconds, which from 10^9 on are those of a leap second after that second.
///
/// A local date-time is in range in the years -262143 to 262142, or it is on a buffer day, the one
/// before or the one after them, where an offset may lead. Local date-times compare and hash by the
/// seconds, then the nanoseconds. One prints as its date, a space and its time, whatever width,
/// fill or flags the formatter has, and by `{:?}` with a `T` between them.
#[derive(Clone, Copy, PartialEq, Eq, PartialOrd, Ord, Hash)]
pub struct NaiveDateTime {
    secs: i64,
    frac: u32,
    pub ghost in_range: { IsReading secs frac },
}

impl NaiveDateTime {
    ghost use Rattle.naive_base.specs.NaiveDate.{day_of};
    ghost use Rattle.naive_base.specs.{NaiveDateTime.{reading, IsReadingOf}, NaiveTime.{fraction_of, second_of}};

    /// The first local date-time in range, the start of the year -262143.
    pub const MIN: NaiveDateTime = NaiveDateTime {
        secs: FIRST_SECOND,
        frac: 0,
    };

    /// 1970-01-01 00:00:00.
    pub const UNIX_EPOCH: NaiveDateTime = NaiveDateTime { secs: 0, frac: 0 };

    /// The last local date-time in range that is no leap second, the last nanosecond of the year
    /// 262142.
    pub const MAX: NaiveDateTime = NaiveDateTime {
        secs: LAST_SECOND,
        frac: 999_999_999,
    };

    /// Returns the local date-time of a date and a time of day, as [`NaiveDate::and_time`] does.
    ///
    /// ```
    /// let date = NaiveDate::from_ymd_opt(2021, 3, 14)?;
    /// let noon = NaiveDateTime::new(date, NaiveTime::from_hms_opt(12, 0, 0)?); // 2021-03-14T12:00:00
    /// ```
    pub fn new(date: NaiveDate, time: NaiveTime) -> NaiveDateTime
        ensures value { reading result ≡ reading_at (day_of date) (second_of time)
            (fraction_of time) }
        ensures day { day_at (reading result) ≡ day_of date }
        ensures second { second_at (reading result) ≡ second_of time }
    {
        NaiveDateTime {
            secs: date.midnight() + time.num_seconds_from_midnight() as i64,
            frac: time.nanosecond(),
        }
    }

    /// Returns the local date-time that many seconds after 1970-01-01 00:00:00, or before it for a
    /// negative number, and that many nanoseconds later. `None` if it isn't in range, or the
    /// nanoseconds are 2*10^9 or more, or, being 10^9 or more, don't follow the last second of a
    /// minute.
    ///
    /// ```
    /// let before = NaiveDateTime::from_timestamp_opt(-1, 5); // Some(1969-12-31T23:59:59.000000005)
    /// let leap_second = NaiveDateTime::from_timestamp_opt(1_483_228_799, 1_500_000_000)?; // 2016-12-31T23:59:60.500
    /// let none = NaiveDateTime::from_timestamp_opt(0, 1_000_000_000); // None
    /// ```
    #[inline(always)]
    pub fn from_timestamp_opt(secs: i64, nsecs: u32) -> Option<NaiveDateTime>
        ensures { let r = of_secs secs nsecs in SomeIff (option_map reading result) (IsStamp r) r }
    {
        if nsecs >= 2_000_000_000 || (nsecs >= 1_000_000_000 && secs.rem_euclid(60) != 59) {
            return None;
        }
        NaiveDateTime::at_second(secs, nsecs)
    }

    // The local date-time at a second, if it is in range.
    #[inline(always)]
    fn at_second(secs: i64, frac: u32) -> Option<NaiveDateTime>
        requires { frac < 2_000_000_000 }
        ensures { IsReadingOf (record { s = secs; f = frac }) result }
    {
        if secs < FIRST_SECOND || secs > LAST_SECOND {
            return None;
        }
        Some(NaiveDateTime { secs, frac })
    }

    /// Returns the day that the clock shows.
    ///
    /// ```
    /// let day = NaiveDate::from_ymd_opt(2021, 3, 14)?.and_hms_opt(12, 0, 0)?.date(); // 2021-03-14
    /// ```
    pub fn date(&self) -> NaiveDate
        ensures { day_of result ≡ day_at (reading self.now) }
    {
        NaiveDate::of_second(self.secs)
    }

    /// Returns the time of day that the clock shows.
    ///
    /// ```
    /// let noon = NaiveDate::from_ymd_opt(2021, 3, 14)?.and_hms_opt(12, 0, 0)?.time(); // 12:00:00
    /// ```
    pub fn time(&self) -> NaiveTime
        ensures second { second_of result ≡ second_at (reading self.now) }
        ensures fraction { fraction_of result ≡ (reading self.now).f }
    {
        NaiveTime::of_second(self.secs, self.frac)
    }

    /// Returns whether the local date-time is in range, not on a buffer day.
    pub fn is_in_range(&self) -> bool
        ensures { IsTrue result ↔ IsInRange (reading self.now).s }
    {
        FIRST_SECOND <= self.secs && self.secs <= LAST_SECOND
    }

    /// Returns the whole seconds from 1970-01-01 00:00:00, negative before it.
    pub fn secs_since_epoch(&self) -> i64
        ensures { result ≡ (reading self.now).s }
    {
        self.secs
    }

    /// Returns the local date-time with an offset added, or `None` if that isn't in range.
    pub fn checked_add_offset(self, offset: FixedOffset) -> Option<NaiveDateTime>
        ensures { IsReadingOf (ahead (reading self) (seconds_of offset)) result }
    {
        NaiveDateTime::at_second(self.second_ahead(offset), self.frac)
    }

    /// Returns the local date-time with an offset subtracted, or `None` if that isn't in range.
    pub fn checked_sub_offset(self, offset: FixedOffset) -> Option<NaiveDateTime>
        ensures { IsReadingOf (behind (reading self) (seconds_of offset)) result }
    {
        NaiveDateTime::at_second(self.second_behind(offset), self.frac)
    }

    /// Returns the local date-time with an offset added, on a buffer day too. Requires: this local
    /// date-time is in range.
    ///
    /// `NaiveDateTime::MAX` an hour ahead shows 00:59:59.999999999 on 262143-01-01, which is a
    /// buffer day.
    pub fn overflowing_add_offset(self, offset: FixedOffset) -> NaiveDateTime
        requires { IsInRange (reading self).s }
        ensures { reading result ≡ ahead (reading self) (seconds_of offset) }
    {
        NaiveDateTime {
            secs: self.second_ahead(offset),
            frac: self.frac,
        }
    }

    fn second_ahead(self, offset: FixedOffset) -> i64
        ensures { result ≡ (reading self).s +ℤ seconds_of offset }
    {
        self.secs + offset.local_minus_utc() as i64
    }

    fn second_behind(self, offset: FixedOffset) -> i64
        ensures { result ≡ (reading self).s -ℤ seconds_of offset }
    {
        self.secs - offset.local_minus_utc() as i64
    }
}

impl Default for NaiveDateTime {
    ghost use Rattle.naive_base.specs.NaiveDateTime.{reading};

    ghost is_default = { λ r. reading r ≡ record { s = pos 0; f = 0 } };

    fn default() -> NaiveDateTime {
        NaiveDateTime { secs: 0, frac: 0 }
    }
}
