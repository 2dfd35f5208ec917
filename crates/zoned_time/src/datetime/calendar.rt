//! Instants moved by months and days, or to another time of day, and the whole years between two.
ghost use Rattle.std.specs.Prelude.{◌≡◌, ◌↔◌, ◌≤ℤ◌, ◌-ℤ◌, neg_ℤ, pos, unsigned_abs, IsTrue, SomeIff};
ghost use Rattle.{
  naive_base.specs.{DateOf.{year_of}, NaiveTime.{fraction_of, second_of}, Reading.{day_at, reading_at}},
  naive_base.specs.{Months.{days_of, months_of}, NaiveDateTime.{reading}},
  offset_core.specs.LocalResult.{map_of},
  zoned_time.specs.DateTime.{home_law_of, wall_of, zoned, IsDaysAdded, IsOnlyDaysLater, IsOnlyMonthsLater},
  zoned_time.specs.{Years.{IsEarlierInYear, IsWholeYears, IsYearsSince}, Relocal.{IsRelocal}},
};

use super::DateTime;
use crate::TimeZone;
use naive_base::{Datelike, Days, Months, NaiveDateTime, NaiveTime};
use offset_core::LocalResult;

impl<Tz: TimeZone> DateTime<Tz> {
    /// Returns the only instant at which the clocks of the zone show this time that number of months
    /// later, on the same day of the month, or on its last day if it has fewer. `None` if they show it
    /// never or more than once, if its UTC date-time is out of range, or if the year is not one from
    /// -262143 to 262142, unless it is the date that the clock shows now.
    ///
    /// ```
    /// let noon = new_york.with_ymd_and_hms(2021, 1, 31, 12, 0, 0).single()?;
    /// let later = noon.checked_add_months(Months::new(1))?; // 2021-02-28 12:00:00 -05:00
    /// let night = new_york.with_ymd_and_hms(2021, 2, 14, 2, 30, 0).single()?;
    /// let in_gap = night.checked_add_months(Months::new(1)); // None
    /// ```
    pub fn checked_add_months(&self, months: Months) -> Option<DateTime<Tz>>
        ensures { IsOnlyMonthsLater Tz.meaning self.now (pos (months_of months)) result }
    {
        self.only_at(&self.local().checked_add_months(months)?)
    }

    /// Returns the instant that number of months earlier, or `None`, as
    /// [`checked_add_months`](DateTime::checked_add_months) does for later ones.
    pub fn checked_sub_months(&self, months: Months) -> Option<DateTime<Tz>>
        ensures { IsOnlyMonthsLater Tz.meaning self.now (neg_ℤ (pos (months_of months))) result }
    {
        self.only_at(&self.local().checked_sub_months(months)?)
    }

    /// Returns the only instant at which the clocks of the zone show this time that number of days
    /// later, and this instant itself for 0 days. `None` if they show it never or more than once, if
    /// its UTC date-time is out of range, or if it is not in the years -262143 to 262142.
    ///
    /// ```
    /// // In New York clocks were set back at 02:00 on 2021-11-07.
    /// let noon = new_york.with_ymd_and_hms(2021, 11, 6, 12, 0, 0).single()?;
    /// noon.checked_add_days(Days::new(1)) // Some(2021-11-07 12:00:00 -05:00), 25 hours later
    /// ```
    pub fn checked_add_days(&self, days: Days) -> Option<DateTime<Tz>>
        ensures { IsDaysAdded Tz.meaning self.now (days_of days) result }
    {
        if days == Days::new(0) {
            return Some(*self);
        }
        self.only_at(&self.local().checked_add_days(days)?)
    }

    /// Returns the only instant at which the clocks of the zone show this time that number of days
    /// earlier. `None` if they show it never or more than once, for 0 days too, if its UTC date-time
    /// is out of range, or if it is not in the years -262143 to 262142, unless that is the date that
    /// the clock shows now.
    pub fn checked_sub_days(&self, days: Days) -> Option<DateTime<Tz>>
        ensures { IsOnlyDaysLater Tz.meaning self.now (neg_ℤ (pos (days_of days))) result }
    {
        self.only_at(&self.local().checked_sub_days(days)?)
    }

    /// The instants when the clocks of the zone show that time on the date that this one's clock
    /// shows: [`TimeZone::from_local_datetime`] of the two.
    ///
    /// ```
    /// let noon = new_york.with_ymd_and_hms(2021, 3, 14, 12, 0, 0).single()?;
    /// noon.with_time(NaiveTime::from_hms_opt(2, 30, 0)?) // None: a gap
    /// noon.with_time(NaiveTime::from_hms_opt(3, 30, 0)?) // Single(2021-03-14 03:30:00 -04:00)
    /// ```
    pub fn with_time(&self, time: NaiveTime) -> LocalResult<DateTime<Tz>>
        ensures { IsRelocal (home_law_of Tz.meaning self.now) (reading_at (day_at (wall_of self.now))
            (second_of time) (fraction_of time))
            (map_of zoned result) }
    {
        self.relocal(&self.local().date().and_time(time))
    }

    /// The whole years from another instant to this one, by what their clocks show. `None` if
    /// this one's year is less, or is the same and its month, day and time are earlier.
    ///
    /// ```
    /// let born = Utc.with_ymd_and_hms(2004, 2, 29, 0, 0, 0).unwrap();
    /// Utc.with_ymd_and_hms(2022, 2, 28, 0, 0, 0).unwrap().years_since(born) // Some(17)
    /// Utc.with_ymd_and_hms(2022, 3, 1, 0, 0, 0).unwrap().years_since(born) // Some(18)
    /// ```
    pub fn years_since(&self, base: DateTime<Tz>) -> Option<u32>
        ensures { IsYearsSince (wall_of self.now) (wall_of base) result }
    {
        unless_negative(whole_years(&self.local(), &base.local()))
    }
}

fn unless_negative(years: i64) -> Option<u32>
    requires { years ≤ℤ pos 4_294_967_295 }
    ensures { SomeIff result (pos 0 ≤ℤ years) (unsigned_abs years) }
{
    u32::try_from(years).ok()
}

// The whole years from one local date-time to another, negative if this one is earlier.
fn whole_years(local: &NaiveDateTime, base: &NaiveDateTime) -> i64
    ensures years { IsWholeYears (reading local.now) (reading base.now) result }
    ensures bound { result ≤ℤ pos 4_294_967_295 }
{
    let years = years_between(local, base);
    if is_earlier_in_year(local, base) {
        years - 1
    } else {
        years
    }
}

fn years_between(local: &NaiveDateTime, base: &NaiveDateTime) -> i64
    ensures value { result ≡ year_of (day_at (reading local.now))
        -ℤ year_of (day_at (reading base.now)) }
    ensures bound { (neg_ℤ (pos 4_294_967_295) ≤ℤ result) × (result ≤ℤ pos 4_294_967_295) }
{
    local.year() as i64 - base.year() as i64
}

fn is_earlier_in_year(local: &NaiveDateTime, base: &NaiveDateTime) -> bool
    ensures { IsTrue result ↔ IsEarlierInYear (reading local.now) (reading base.now) }
{
    (local.month(), local.day(), local.time()) < (base.month(), base.day(), base.time())
}
