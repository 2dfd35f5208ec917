//! Instants made of a date-time and an offset, and their parts.
ghost use Rattle.std.specs.Prelude.{◌≡◌, option_map, SomeIff};
ghost use Rattle.{
  naive_base.specs.{NaiveDate.{day_of}, NaiveTime.{fraction_of, second_of}, Reading.{day_at, second_at}},
  naive_base.specs.{NaiveDateTime.{reading}, Range.{IsInRange}},
  zoned_time.specs.{DateTime.{home_law_of, wall_of, zoned}, Relocal.{instant_of, HasInstant}, Zone.{SameLaw}},
  zoned_time.specs.Zoned.{shown},
};

use super::{DateTime, Instant};
use crate::{Offset, TimeZone};
use naive_base::{NaiveDate, NaiveDateTime, NaiveTime};
use std::marker::PhantomData;

impl<Tz: TimeZone> DateTime<Tz> {
    /// Returns the instant of a UTC date-time in range, with that offset.
    ///
    /// Requires: the date-time is in range.
    ///
    /// ```
    /// let utc = NaiveDate::from_ymd_opt(2021, 3, 14)?.and_hms_opt(12, 0, 0)?;
    /// let ahead = FixedOffset::east(3_600);
    /// let instant = DateTime::<FixedOffset>::from_naive_utc_and_offset(utc, ahead); // 2021-03-14 13:00:00 +01:00
    /// ```
    pub fn from_naive_utc_and_offset(datetime: NaiveDateTime, offset: Tz::Offset) -> DateTime<Tz>
        requires { IsInRange (reading datetime).s }
        ensures { zoned result ≡ shown datetime offset }
    {
        Instant {
            datetime,
            offset,
            zone: PhantomData,
        }
    }

    /// Returns the instant of a UTC date-time in range, with a copy of that offset.
    pub fn of_parts(datetime: &NaiveDateTime, offset: &Tz::Offset) -> DateTime<Tz>
        requires { IsInRange (reading datetime.now).s }
        ensures { zoned result ≡ shown datetime.now offset.now }
    {
        DateTime::from_naive_utc_and_offset(*datetime, *offset)
    }

    /// chrono's older name of [`DateTime::from_naive_utc_and_offset`].
    ///
    /// Requires: the date-time is in range.
    pub fn from_utc(datetime: NaiveDateTime, offset: Tz::Offset) -> DateTime<Tz>
        requires { IsInRange (reading datetime).s }
        ensures { zoned result ≡ shown datetime offset }
    {
        DateTime::from_naive_utc_and_offset(datetime, offset)
    }

    /// Returns the instant at which a clock with that offset shows the local time. Requires: its UTC
    /// date-time is in range.
    ///
    /// ```
    /// let local = NaiveDate::from_ymd_opt(2021, 3, 14)?.and_hms_opt(13, 0, 0)?;
    /// let ahead = FixedOffset::east(3_600);
    /// let instant = DateTime::<FixedOffset>::from_local(local, ahead); // 2021-03-14 13:00:00 +01:00
    /// ```
    pub fn from_local(datetime: NaiveDateTime, offset: Tz::Offset) -> DateTime<Tz>
        requires { HasInstant Tz.Offset.seconds (reading datetime) offset }
        ensures { zoned result ≡ instant_of Tz.Offset.seconds (reading datetime) offset }
    {
        let utc = datetime.checked_sub_offset(offset.fix()).unwrap();
        DateTime::from_naive_utc_and_offset(utc, offset)
    }

    // The instant when a clock with that offset shows the local date-time, if it is in range.
    pub(crate) fn from_local_opt(
        datetime: &NaiveDateTime,
        offset: Tz::Offset,
    ) -> Option<DateTime<Tz>>
        ensures { let seconds = Tz.Offset.seconds in
            SomeIff (option_map zoned result) (HasInstant seconds (reading datetime.now) offset)
            (instant_of seconds (reading datetime.now) offset) }
    {
        let utc = datetime.checked_sub_offset(offset.fix())?;
        Some(DateTime::from_naive_utc_and_offset(utc, offset))
    }

    /// Returns a zone of the same offsets as the one that the offset came from.
    pub fn timezone(&self) -> Tz
        ensures { SameLaw (Tz.law result) (home_law_of Tz.meaning self.now) }
    {
        Tz::from_offset(&self.offset)
    }
}

impl<Tz, O: Offset> Instant<Tz, O> {
    /// Returns what a clock of UTC shows.
    pub fn naive_utc(&self) -> NaiveDateTime
        ensures { reading result ≡ (zoned self.now).utc }
    {
        self.datetime
    }

    /// Returns the offset.
    pub fn offset(&self) -> &O
        ensures { result.now ≡ (zoned self.now).offset }
    {
        &self.offset
    }

    /// Returns what a clock with the offset shows, also on a buffer day.
    pub fn naive_local(&self) -> NaiveDateTime
        ensures { reading result ≡ wall_of self.now }
    {
        self.local()
    }

    /// Returns the date that a clock with the offset shows, also on a buffer day.
    ///
    /// ```
    /// let day = Utc.timestamp(1_625_155_200, 0).date_naive(); // 2021-07-01
    /// ```
    pub fn date_naive(&self) -> NaiveDate
        ensures { day_of result ≡ day_at (wall_of self.now) }
    {
        self.local().date()
    }

    /// Returns the time of day that a clock with the offset shows.
    pub fn time(&self) -> NaiveTime
        ensures second { second_of result ≡ second_at (wall_of self.now) }
        ensures fraction { fraction_of result ≡ (wall_of self.now).f }
    {
        self.local().time()
    }

    // What a clock with the offset shows, even on a buffer day.
    pub(super) fn local(&self) -> NaiveDateTime
        ensures { reading result ≡ wall_of self.now }
    {
        self.datetime.overflowing_add_offset(self.offset.fix())
    }
}
