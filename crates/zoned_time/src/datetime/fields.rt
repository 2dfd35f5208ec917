//! The fields of what an instant's clock shows, and instants with a field changed.
ghost use Rattle.std.specs.Prelude.{◌≡◌, option_map, IfSome};
ghost use Rattle.{
  naive_base.specs.{Fields.{time_at}, NaiveDateTime.{reading}},
  zoned_time.specs.{DateTime.{day_shown_by, home_law_of, wall_of, zoned, IsOnlyAtTime, IsOnlyOnDay}, Relocal.{IsOnly}},
};

use super::DateTime;
use crate::TimeZone;
use naive_base::{Datelike, IsoWeek, NaiveDateTime, Timelike, Weekday};

impl<Tz: TimeZone> DateTime<Tz> {
    // The only instant when the clocks of the offset's own zone show the local date-time.
    pub(super) fn only_at(&self, local: &NaiveDateTime) -> Option<DateTime<Tz>>
        ensures only { IsOnly (home_law_of Tz.meaning self.now) (reading local.now)
            (option_map zoned result) }
        ensures shown { IfSome result (λ new. wall_of new ≡ reading local.now) }
    {
        self.relocal(local).single()
    }
}

/// The date that the instant's clock shows, also on a buffer day. A call that changes it returns the
/// only instant at which the clocks of its zone show the new date at that time; `None` if they show it
/// never or more than once, or if its UTC date-time is out of range.
impl<Tz: TimeZone> Datelike for DateTime<Tz> {
    ghost day_shown = { day_shown_by };

    ghost IsOnDay = { IsOnlyOnDay Tz.meaning };

    fn year(&self) -> i32 {
        self.local().year()
    }

    fn month(&self) -> u32 {
        self.local().month()
    }

    fn month0(&self) -> u32 {
        self.local().month0()
    }

    fn day(&self) -> u32 {
        self.local().day()
    }

    fn day0(&self) -> u32 {
        self.local().day0()
    }

    fn ordinal(&self) -> u32 {
        self.local().ordinal()
    }

    fn ordinal0(&self) -> u32 {
        self.local().ordinal0()
    }

    fn weekday(&self) -> Weekday {
        self.local().weekday()
    }

    fn iso_week(&self) -> IsoWeek {
        self.local().iso_week()
    }

    fn with_year(&self, year: i32) -> Option<DateTime<Tz>> {
        self.only_at(&self.local().with_year(year)?)
    }

    fn with_month(&self, month: u32) -> Option<DateTime<Tz>> {
        self.only_at(&self.local().with_month(month)?)
    }

    fn with_month0(&self, month0: u32) -> Option<DateTime<Tz>> {
        self.only_at(&self.local().with_month0(month0)?)
    }

    fn with_day(&self, day: u32) -> Option<DateTime<Tz>> {
        self.only_at(&self.local().with_day(day)?)
    }

    fn with_day0(&self, day0: u32) -> Option<DateTime<Tz>> {
        self.only_at(&self.local().with_day0(day0)?)
    }

    fn with_ordinal(&self, ordinal: u32) -> Option<DateTime<Tz>> {
        self.only_at(&self.local().with_ordinal(ordinal)?)
    }

    fn with_ordinal0(&self, ordinal0: u32) -> Option<DateTime<Tz>> {
        self.only_at(&self.local().with_ordinal0(ordinal0)?)
    }
}

/// The time that the instant's clock shows, and the only instant when the clocks of its zone show
/// another time on that day: `None` if they show it never, or more than once, or if
/// its UTC date-time is out of range.
impl<Tz: TimeZone> Timelike for DateTime<Tz> {
    ghost time_shown = { λ d. time_at (wall_of d) };

    ghost IsAtTime = { IsOnlyAtTime Tz.meaning };

    fn hour(&self) -> u32 {
        self.local().hour()
    }

    fn minute(&self) -> u32 {
        self.local().minute()
    }

    fn second(&self) -> u32 {
        self.local().second()
    }

    fn nanosecond(&self) -> u32 {
        self.local().nanosecond()
    }

    fn with_hour(&self, hour: u32) -> Option<DateTime<Tz>> {
        self.only_at(&self.local().with_hour(hour)?)
    }

    fn with_minute(&self, min: u32) -> Option<DateTime<Tz>> {
        self.only_at(&self.local().with_minute(min)?)
    }

    fn with_second(&self, sec: u32) -> Option<DateTime<Tz>> {
        self.only_at(&self.local().with_second(sec)?)
    }

    fn with_nanosecond(&self, nano: u32) -> Option<DateTime<Tz>> {
        self.only_at(&self.local().with_nanosecond(nano)?)
    }
}
