//! Series of instants, one a day.
ghost use Rattle.std.specs.Prelude.{◌≡◌, ◌+ℤ◌, pos, MatchResult};
ghost use Rattle.{
  naive_base.specs.{NaiveDate.{day_of, IsDateOfDay}, NaiveTime.{fraction_of, second_of}},
  zoned_series.specs.{Series.{items_of, series_of}, Series.{IsItem, IsMissing}},
  zoned_time.specs.DateTime.{zoned},
};

use crate::SeriesError;
use crate::items::DailyItems;
use naive_base::{NaiveDate, NaiveTime};
use offset_core::Choice;
use zoned_time::{DateTime, TimeZone};

/// One local time on each day from a first day on.
///
/// The instant of a day is the one that the policy selects for that time on that day, and depends on
/// no other day. So "every day at 02:30 in New York" is at 02:30 again on the day after a gap or a
/// fold.
///
/// Two days can have the same instant. Clocks in Apia skipped 2011-12-30: with
/// `GapChoice::ShiftForward`, 12:00 on that day is 2011-12-31 12:00:00 +14:00, as it is on the next one.
/// A plan of the same times, `DailyTime` of `naive_plans`, fires at no instant twice.
#[derive(Clone, Copy)]
pub struct DailySeries<Tz> {
    zone: Tz,
    first: NaiveDate,
    time: NaiveTime,
    choice: Choice,
}

impl<Tz> DailySeries<Tz> {
    /// Returns the first day.
    pub fn first(&self) -> NaiveDate
        ensures { day_of result ≡ (series_of self.now).first }
    {
        self.first
    }

    /// Returns the local time, the same on each day.
    pub fn time(&self) -> NaiveTime
        ensures second { second_of result ≡ (series_of self.now).second }
        ensures fraction { fraction_of result ≡ (series_of self.now).fraction }
    {
        self.time
    }
}

impl<Tz: TimeZone> DailySeries<Tz> {
    /// Returns the series of that time on the first day, and on each day after it, by the clocks of
    /// that zone.
    ///
    /// ```
    /// let choice = Choice { gap: GapChoice::ShiftForward, fold: FoldChoice::Earliest };
    /// let half_past_two = NaiveTime::from_hms_opt(2, 30, 0).ok_or(MyError::NoSuchTime)?;
    /// let series = DailySeries::new(new_york, first, half_past_two, choice);
    /// ```
    pub fn new(zone: Tz, first: NaiveDate, time: NaiveTime, choice: Choice) -> DailySeries<Tz>
        ensures { series_of result ≡ record {
          zone = zone;
          first = day_of first;
          second = second_of time;
          fraction = fraction_of time;
          choice = choice;
        } }
    {
        DailySeries {
            zone,
            first,
            time,
            choice,
        }
    }

    /// Returns the instant on the day n days after the first.
    ///
    /// ```
    /// let on_the_first_day = series.at(0); // Ok(2021-03-13 02:30:00 -05:00)
    /// let in_the_gap = series.at(1); // Ok(2021-03-14 03:30:00 -04:00)
    /// let on_the_day_after = series.at(2); // Ok(2021-03-15 02:30:00 -04:00)
    /// ```
    ///
    /// # Errors
    ///
    /// [`SeriesError::Date`] if that day lies outside the years -262143 to 262142, also if the first
    /// one is a buffer day; [`SeriesError::Resolve`] if the policy selects no instant on that day.
    pub fn at(&self, n: u32) -> Result<DateTime<Tz>, SeriesError>
        ensures { MatchResult result
            (λ d. IsItem (Tz.law (series_of self.now).zone) (series_of self.now) n (zoned d))
            (λ e. IsMissing (Tz.law (series_of self.now).zone) (series_of self.now) n e) }
    {
        let Some(date) = self.date(n) else {
            return Err(SeriesError::Date);
        };
        match self.zone.resolve(&date.and_time(self.time), self.choice) {
            Ok(instant) => Ok(instant),
            Err(cause) => Err(SeriesError::Resolve(cause)),
        }
    }

    /// Returns the items of the first `count` days, in order; a day without an instant is an error,
    /// and the days after it follow.
    pub fn days(&self, count: u32) -> DailyItems<Tz>
        ensures { items_of result ≡ record { series = series_of self.now; next = 0; end = count } }
    {
        DailyItems::new(*self, count)
    }

    // The day n days after the first, if it is in range.
    fn date(&self, n: u32) -> Option<NaiveDate>
        ensures { IsDateOfDay ((series_of self.now).first +ℤ pos n) result }
    {
        let days = self.first.num_days_from_ce() as i64 + n as i64;
        match i32::try_from(days) {
            Ok(days) => NaiveDate::from_num_days_from_ce_opt(days),
            Err(_) => None,
        }
    }
}
