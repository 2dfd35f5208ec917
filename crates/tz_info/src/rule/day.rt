//! The days on which a rule changes the clock.

ghost use Rattle.std.specs.Prelude.{◌≡◌, ◌≤ℤ◌, ◌+ℤ◌, ◌*ℤ◌, neg_ℤ, pos, MatchOption, MatchResult};
ghost use Rattle.tz_info.specs.{RuleDays.{expected_of_day}, Rules.{IsWithinWeek}};

use crate::rule::day_places::{date_in_year, julian_place, place_in_month};
use gregorian::{day_number, year_start};
use std::marker::Model;
use tz_base::{Error, Expected};

/// The three forms of a date in a TZ string.
#[derive(Clone, Copy, Debug, PartialEq, Eq)]
pub enum DayForm {
    /// `Jn`: the n-th of the 365 dates of a common year; 29 February is never counted.
    Julian1(u16),
    /// `n`: n days after 1 January; 29 February is counted.
    Julian0(u16),
    /// `Mm.w.d`: month, week and weekday, 0 for Sunday; week 5 has the last such weekday of the
    /// month.
    MonthWeekday(u8, u8, u8),
}

/// A day of every year on which a rule changes the clock: `J60`, `59` or `M3.2.0` in a TZ string.
#[derive(Clone, Copy, Debug, PartialEq, Eq)]
pub struct RuleDay {
    pub(super) form: DayForm,
}

// A day of every year, and a time of that day in seconds after its midnight.
#[derive(Clone, Copy, Debug, PartialEq, Eq)]
pub(super) struct DayTime {
    pub(super) day: RuleDay,
    pub(super) time: i32,
}

impl Model for RuleDay {
    ghost use Rattle.tz_info.specs.declared.rule.day.DayForm.{DayForm};

    ghost Value = { DayForm };

    ghost use Rattle.tz_info.specs.RuleDays.{IsRuleDay};

    ghost view = { λ d. d.form };

    ghost invariant = { λ d. IsRuleDay d.form };

    ghost inverse = { λ form. record { form = form } };
}

impl RuleDay {
    ghost use Rattle.tz_info.specs.RuleDayOf.{rule_day};
    ghost use Rattle.tz_info.specs.{RuleDays.{IsRuleDay, IsWrittenDate}, Steps.RuleDays.{closed_day}};
    ghost use Rattle.tz_info.specs.declared.rule.day.DayForm.TheVariants.{Julian0, Julian1, MonthWeekday};

    /// `Jn`: the n-th of the 365 dates of a common year, so that `J60` is 1 March in every year.
    ///
    /// # Errors
    ///
    /// [`Error::TransitionRule`] unless 1 <= n <= 365.
    ///
    /// ```
    /// let day = RuleDay::julian_1(60)?;
    /// let date = day.transition_date(2024);          // (3, 1), also in a leap year
    /// ```
    pub fn julian_1(n: u16) -> Result<RuleDay, Error>
        ensures { MatchResult result (λ d. IsRuleDay (Julian1 n) × (d ≡ Julian1 n))
            (λ e. (e ≡ Error.TransitionRule Expected.DayFromJ1ToJ365) × ¬ (IsRuleDay (Julian1 n))) }
    {
        if n < 1 || n > 365 {
            return Err(Error::TransitionRule(Expected::DayFromJ1ToJ365));
        }
        Ok(RuleDay {
            form: DayForm::Julian1(n),
        })
    }

    /// `n`: n days after 1 January, 29 February counted.
    ///
    /// # Errors
    ///
    /// [`Error::TransitionRule`] unless n <= 365.
    ///
    /// ```
    /// let day = RuleDay::julian_0(59)?;
    /// let date = day.transition_date(2024);          // (2, 29)
    /// ```
    pub fn julian_0(n: u16) -> Result<RuleDay, Error>
        ensures { MatchResult result (λ d. IsRuleDay (Julian0 n) × (d ≡ Julian0 n))
            (λ e. (e ≡ Error.TransitionRule Expected.DayFrom0To365) × ¬ (IsRuleDay (Julian0 n))) }
    {
        if n > 365 {
            return Err(Error::TransitionRule(Expected::DayFrom0To365));
        }
        Ok(RuleDay {
            form: DayForm::Julian0(n),
        })
    }

    /// `Mm.w.d`: the weekday (0 for Sunday to 6) in the week (1 to 5) of the month (1 to 12), where
    /// week w has the days 7(w - 1) + 1 to 7w and week 5 the last such weekday of the month.
    ///
    /// # Errors
    ///
    /// [`Error::TransitionRule`] if one of them is out of its limits.
    pub fn month_weekday(month: u8, week: u8, weekday: u8) -> Result<RuleDay, Error>
        ensures { let form = MonthWeekday month week weekday in
            MatchResult result (λ d. IsRuleDay form × (d ≡ form))
            (λ e. (e ≡ Error.TransitionRule (expected_of_day form)) × ¬ (IsRuleDay form)) }
    {
        if month < 1 || month > 12 {
            return Err(Error::TransitionRule(Expected::MonthFrom1To12));
        }
        if week < 1 || week > 5 {
            return Err(Error::TransitionRule(Expected::WeekFrom1To5));
        }
        if weekday > 6 {
            return Err(Error::TransitionRule(Expected::WeekdayFrom0To6));
        }
        Ok(RuleDay {
            form: DayForm::MonthWeekday(month, week, weekday),
        })
    }

    /// The day's form and its numbers, which are in their limits.
    ///
    /// ```
    /// let day = RuleDay::month_weekday(3, 2, 0)?;
    /// let form = day.form();                         // DayForm::MonthWeekday(3, 2, 0)
    /// ```
    pub fn form(self) -> DayForm
        ensures value { result ≡ self }
        ensures limits { IsRuleDay result }
    {
        self.form
    }

    /// The month, from 1, and the day of the month of the rule's day in the year.
    ///
    /// A plain day number of 365 is the day after 31 December in a common year; its date is
    /// `(12, 32)`.
    ///
    /// ```
    /// let day = RuleDay::month_weekday(3, 2, 0)?;    // the second Sunday of March
    /// let date = day.transition_date(2021);          // (3, 14)
    /// ```
    pub fn transition_date(&self, year: i32) -> (usize, i64)
        ensures date { IsWrittenDate (rule_day self.now year) year result.0 result.1 }
        ensures rule { IsRuleDay self.now }
    {
        match self.form {
            DayForm::Julian1(n) => date_in_year(year, julian_place(year, n as u32)),
            DayForm::Julian0(n) => date_in_year(year, n as u32),
            DayForm::MonthWeekday(month, week, weekday) => {
                let place = place_in_month(year, month as u32, week as u32, weekday as u32);
                (month as usize, place as i64 + 1)
            }
        }
    }

    /// Returns the second that many seconds after the midnight with which the rule's day begins in the
    /// year, both on one clock: 86,400 times the day number plus the day time.
    ///
    /// Requires: the day time, in seconds, is from -2^62 to 2^62.
    ///
    /// ```
    /// let day = RuleDay::month_weekday(3, 2, 0)?;
    /// let second = day.unix_time(2021, 7_200);       // 1615687200, 2021-03-14 02:00:00
    /// ```
    #[inline(always)]
    #[tactic(auto, using(crate::proofs::Fits::in_range, crate::proofs::RuleDays::rule_day_closed))]
    pub fn unix_time(&self, year: i32, day_time: i64) -> i64
        requires { (neg_ℤ (pos 4_611_686_018_427_387_904) ≤ℤ day_time)
            × (day_time ≤ℤ pos 4_611_686_018_427_387_904) }
        ensures value { result ≡ pos 86_400 *ℤ rule_day self.now year +ℤ day_time }
        ensures rule { IsRuleDay self.now }
        ensures bound { (neg_ℤ (pos 4_700_000_000_000_000_000) ≤ℤ result)
            × (result ≤ℤ pos 4_700_000_000_000_000_000) }
    {
        86_400 * self.number_in(year) + day_time
    }

    // The time of the day `time` seconds after its midnight, if that is strictly within a week.
    pub(super) fn at(self, time: i32) -> Option<DayTime>
        ensures { MatchOption result (¬ (IsWithinWeek time))
            (λ d. IsWithinWeek d.time × IsRuleDay d.day
            × (d ≡ record { day = self; time = time })) }
    {
        if -604_800 < time && time < 604_800 {
            Some(DayTime { day: self, time })
        } else {
            None
        }
    }

    // The day number of the rule's day in the year.
    #[inline(always)]
    #[tactic(auto, unfolding(crate::specs::Steps::RuleDays::closed_day))]
    fn number_in(&self, year: i32) -> i64
        ensures value { result ≡ closed_day self.now year }
        ensures rule { IsRuleDay self.now }
        ensures bound { (neg_ℤ (pos 784_353_015_833) ≤ℤ result) × (result ≤ℤ pos 784_351_577_141) }
    {
        match self.form {
            DayForm::Julian1(n) => year_start(year) + julian_place(year, n as u32) as i64,
            DayForm::Julian0(n) => year_start(year) + n as i64,
            DayForm::MonthWeekday(month, week, weekday) => {
                let month = month as u32;
                day_number(year, month, 1)
                    + place_in_month(year, month, week as u32, weekday as u32) as i64
            }
        }
    }
}
