//! The local times that match a line of a crontab.
ghost use Rattle.std.specs.Prelude.{◌↔◌, ◌⊎◌, ◌<◌, ◌≤◌, IsTrue, ℤ};
ghost use Rattle.{
  naive_base.specs.NaiveDate.{day_of},
  naive_plans.specs.{Cron.{IsCronDay, IsCronMinute, IsCronTime}, DayPlans.{IsPlannedOnItsDay}},
  naive_plans.specs.Steps.CronDates.{ListsNoDateBefore, ListsNoDayUpTo},
};

use crate::{DayPlan, Plan, ReversibleDayPlan, ReversiblePlan, last_local_time, next_local_time};
use naive_base::{Datelike, NaiveDate, NaiveDateTime};

/// The local times that match a line of a crontab. Each field holds, by index, whether the line lists
/// that number.
///
/// The rules are those of crontab(5): a local time matches if its minute, its hour, its month and its
/// date's day are listed, and its second is 0.
///
/// ```
/// // 30 4 1,15 * 5: at 4:30 am on the 1st and 15th of each month, plus every Friday
/// let mut cron = Cron {
///     minutes: [false; 60],
///     hours: [false; 24],
///     days: [false; 32],
///     months: [true; 13],
///     weekdays: [false; 7],
///     either: true,
/// };
/// cron.minutes[30] = true;
/// cron.hours[4] = true;
/// cron.days[1] = true;
/// cron.days[15] = true;
/// cron.weekdays[5] = true;
/// let next = cron.next_after(&sunday_noon)?; // 2021-03-15 04:30:00, after noon of 2021-03-14
/// ```
#[derive(Clone, Copy, Debug)]
pub struct Cron {
    pub minutes: [bool; 60],
    pub hours: [bool; 24],
    /// The days of the month. Index 0 is not used.
    pub days: [bool; 32],
    /// The months, from January at index 1. Index 0 is not used.
    pub months: [bool; 13],
    /// The weekdays, from Sunday at index 0.
    pub weekdays: [bool; 7],
    /// Whether a date's day is listed if its day of the month or its weekday is. That is the rule if
    /// neither field is `*`; otherwise both must be.
    pub either: bool,
}

impl Cron {
    // Whether a date matches.
    fn has_date(&self, date: NaiveDate) -> bool
        ensures { IsTrue result ↔ IsCronDay self.now (day_of date) }
    {
        let by_month = self.days[date.day() as usize];
        let by_week = self.weekdays[date.weekday().num_days_from_sunday() as usize];
        self.months[date.month() as usize]
            && if self.either {
                by_month || by_week
            } else {
                by_month && by_week
            }
    }

    // Whether a minute of the day matches.
    fn has_minute(&self, minute: u32) -> bool
        requires { minute < 1440 }
        ensures { IsTrue result ↔ IsCronMinute self.now minute }
    {
        self.hours[(minute / 60) as usize] && self.minutes[(minute % 60) as usize]
    }

    // Whether a day of the month up to that one is listed.
    fn lists_day_up_to(&self, last: u32) -> bool
        requires { last ≤ 31 }
        ensures { IsTrue result ⊎ ListsNoDayUpTo self.now last }
    {
        for day in 1..last + 1 {
            if self.days[day as usize] {
                return true;
            }
        }
        false
    }

    // Whether a listed day of the month is, in a leap year, a date of a listed month.
    fn lists_date(&self) -> bool
        ensures { IsTrue result ⊎ ListsNoDateBefore self.now 13 }
    {
        for month in 1..13 {
            let longest = gregorian::days_in_month(2000, month);
            if self.months[month as usize] && self.lists_day_up_to(longest) {
                return true;
            }
        }
        false
    }

    // Whether no date matches. Some month is listed.
    #[tactic(auto, using(crate::proofs::CronWalk::no_dates))]
    fn has_no_date(&self) -> bool
        ensures { IsTrue result → (day : ℤ) → IsCronDay self.now day → ⊥ }
    {
        if self.weekdays.contains(&true) {
            return !self.either && !self.lists_date();
        }
        !self.either || !self.lists_date()
    }
}

impl Plan for Cron {
    ghost planned = { λ c. IsPlannedOnItsDay (IsCronTime c) };

    fn next_after(&self, local: &NaiveDateTime) -> Option<NaiveDateTime> {
        next_local_time(self, local)
    }
}

impl DayPlan for Cron {
    ghost planned_on = { IsCronTime };

    #[tactic(auto, using(crate::proofs::CronWalk::minutes))]
    fn first_second_from(&self, date: NaiveDate, second: u32) -> Option<u32> {
        if !self.has_date(date) || second > 86_340 {
            return None;
        }
        for minute in (second + 59) / 60..1440 {
            if self.has_minute(minute) {
                return Some(minute * 60);
            }
        }
        None
    }

    fn is_known_empty(&self) -> bool {
        !self.minutes.contains(&true)
            || !self.hours.contains(&true)
            || !self.months.contains(&true)
            || self.has_no_date()
    }
}

impl ReversiblePlan for Cron {
    fn last_until(&self, local: &NaiveDateTime) -> Option<NaiveDateTime> {
        last_local_time(self, local)
    }
}

impl ReversibleDayPlan for Cron {
    #[tactic(auto, using(crate::proofs::CronWalk::minutes_back))]
    fn last_second_until(&self, date: NaiveDate, second: u32) -> Option<u32> {
        if !self.has_date(date) {
            return None;
        }
        let mut left = (second / 60 + 1).min(1440);
        while left > 0 {
            if self.has_minute(left - 1) {
                return Some((left - 1) * 60);
            }
            left -= 1;
        }
        None
    }
}
