//! Rules of RFC 5545: what their parts say of a date and of a time of day.

ghost use Rattle.std.specs.Prelude.{◌≡◌, ◌↔◌, ◌<◌, ◌≤◌, ◌+◌, ◌-◌, ◌+ℤ◌, ◌-ℤ◌, neg_ℤ, pos, Contains, IsTrue};
ghost use Rattle.{
  gregorian.specs.{DateOf.{day_of_year, year_of}, Year.{days_in_year, floor_mod, is_leap}, Month.{days_in_month}},
  naive_base.specs.{Range.{IsWideDay}, Weekday.{weekday_number}},
  naive_rrule.specs.{AllowedRules.{HasNoPart}, Steps.RuleSteps.{IsNearRuleDay, IsRuleDay}},
};
ghost use Rattle.naive_rrule.specs.RecurrenceRules as rules;

use gregorian::YearMonthDay;
use naive_base::Weekday;
use naive_plans::days::{days_of_week, month_length, place_in_year};

/// The length of a rule's periods: `FREQ`.
#[derive(Clone, Copy, PartialEq, Eq, Debug)]
pub enum Frequency {
    Yearly,
    Monthly,
    Weekly,
    Daily,
    Hourly,
    Minutely,
    Secondly,
}

/// An entry of `BYDAY`: a weekday, or the n-th one of the month or the year.
#[derive(Clone, Copy, PartialEq, Eq, Debug)]
pub struct NthWeekday {
    pub weekday: Weekday,
    /// 1 for the first one, -1 for the last; 0 for each.
    pub nth: i32,
}

/// The parts of a rule of RFC 5545, section 3.3.10, without `COUNT` and `UNTIL`. A part whose list is
/// empty is absent.
#[derive(Clone, Copy, Debug)]
pub struct RecurrenceRule<'a> {
    /// `FREQ`
    pub frequency: Frequency,
    /// `INTERVAL`: 1 for each period, 2 for every other one.
    pub interval: u32,
    /// `WKST`: the day on which weeks begin; by default Monday.
    pub week_start: Weekday,
    /// `BYMONTH`: from 1 to 12.
    pub by_month: &'a [u32],
    /// `BYWEEKNO`: from 1 to 53, or from -53 to -1 for weeks from the end of the year.
    pub by_week_number: &'a [i32],
    /// `BYYEARDAY`: from 1 to 366, or from -366 to -1 for days from the end of the year.
    pub by_year_day: &'a [i32],
    /// `BYMONTHDAY`: from 1 to 31, or from -31 to -1 for days from the end of the month.
    pub by_month_day: &'a [i32],
    /// `BYDAY`
    pub by_weekday: &'a [NthWeekday],
    /// `BYHOUR`: from 0 to 23.
    pub by_hour: &'a [u32],
    /// `BYMINUTE`: from 0 to 59.
    pub by_minute: &'a [u32],
    /// `BYSECOND`: from 0 to 60. No [`NaiveDateTime`](naive_base::NaiveDateTime) is at second 60.
    pub by_second: &'a [u32],
    /// `BYSETPOS`: from 1 to 366, or from -366 to -1 for places from the end of the period.
    pub by_set_position: &'a [i32],
}

impl<'a> RecurrenceRule<'a> {
    /// Returns the rule that has only a frequency: one local time in each period, as its start has it.
    pub fn new(frequency: Frequency) -> RecurrenceRule<'a>
        ensures parts { (result.frequency ≡ frequency) × (result.interval ≡ 1)
            × (result.week_start ≡ Weekday.Mon) }
        ensures absent { HasNoPart result × rules.IsAbsent result.by_set_position.now }
    {
        RecurrenceRule {
            frequency,
            interval: 1,
            week_start: Weekday::Mon,
            by_month: &[],
            by_week_number: &[],
            by_year_day: &[],
            by_month_day: &[],
            by_weekday: &[],
            by_hour: &[],
            by_minute: &[],
            by_second: &[],
            by_set_position: &[],
        }
    }

    // Whether the hour can come from the rule's start: if its periods are days or longer.
    fn tells_hour(&self) -> bool
        ensures { IsTrue result ↔ rules.TellsHour self.now }
    {
        match self.frequency {
            Frequency::Hourly | Frequency::Minutely | Frequency::Secondly => false,
            _ => true,
        }
    }

    // Whether the minute can come from the start: if its periods are hours or longer.
    fn tells_minute(&self) -> bool
        ensures { IsTrue result ↔ rules.TellsMinute self.now }
    {
        match self.frequency {
            Frequency::Minutely | Frequency::Secondly => false,
            _ => true,
        }
    }

    // Whether the second can come from the start: if its periods are minutes or longer.
    fn tells_second(&self) -> bool
        ensures { IsTrue result ↔ rules.TellsSecond self.now }
    {
        match self.frequency {
            Frequency::Secondly => false,
            _ => true,
        }
    }

    // Whether no part but `BYMONTH` and `BYDAY` speaks of dates.
    fn has_no_numbers(&self) -> bool
        ensures { IsTrue result ↔ rules.HasNoNumbers self.now }
    {
        self.by_week_number.is_empty()
            && self.by_year_day.is_empty()
            && self.by_month_day.is_empty()
    }

    // Whether the month can come from the start.
    fn tells_month(&self) -> bool
        ensures { IsTrue result ↔ rules.TellsMonth self.now }
    {
        match self.frequency {
            Frequency::Yearly => self.has_no_numbers() && self.by_weekday.is_empty(),
            _ => false,
        }
    }

    // Whether the day of the month can come from the start.
    fn tells_month_day(&self) -> bool
        ensures { IsTrue result ↔ rules.TellsMonthDay self.now }
    {
        match self.frequency {
            Frequency::Yearly | Frequency::Monthly => {
                self.has_no_numbers() && self.by_weekday.is_empty()
            }
            _ => false,
        }
    }

    // Whether the weekday can come from the start.
    fn tells_weekday(&self) -> bool
        ensures { IsTrue result ↔ rules.TellsWeekday self.now }
    {
        match self.frequency {
            Frequency::Yearly => {
                !self.by_week_number.is_empty()
                    && self.by_year_day.is_empty()
                    && self.by_month_day.is_empty()
            }
            Frequency::Weekly => true,
            _ => false,
        }
    }

    // Whether weekdays are counted in the year: else in the month.
    fn counts_in_year(&self) -> bool
        ensures { IsTrue result ↔ rules.CountsInYear self.now }
    {
        match self.frequency {
            Frequency::Yearly => self.by_month.is_empty(),
            _ => false,
        }
    }

    // Whether it has a month.
    pub(crate) fn has_month(&self, month: u32, start: u32) -> bool
        ensures { IsTrue result ↔ rules.HasMonth self.now start month }
    {
        if self.by_month.is_empty() {
            return !self.tells_month() || month == start;
        }
        lists(self.by_month, month)
    }

    fn has_month_day(&self, day: u32, days: u32, start: u32) -> bool
        requires { (1 ≤ day) × (day ≤ days) × (days ≤ 31) }
        ensures { IsTrue result ↔ rules.HasMonthDay self.now start (day - 1) (days - day) day }
    {
        if self.by_month_day.is_empty() {
            return !self.tells_month_day() || day == start;
        }
        lists_place(self.by_month_day, day - 1, days - day)
    }

    fn has_week(&self, day: i64) -> bool
        requires { IsRuleDay day }
        ensures { IsTrue result ↔ rules.IsInWeek self.now day }
    {
        if self.by_week_number.is_empty() {
            return true;
        }
        let fourth = fourth_of_week(day, self.week_start);
        let (before, after) = place_in_year(fourth);
        lists_place(self.by_week_number, before / 7, after / 7)
    }

    fn has_year_day(&self, day: i64) -> bool
        requires { IsRuleDay day }
        ensures { IsTrue result ↔ rules.IsOnYearDay self.now day }
    {
        if self.by_year_day.is_empty() {
            return true;
        }
        let (before, after) = place_in_year(day);
        lists_place(self.by_year_day, before, after)
    }

    fn has_weekday(&self, day: i64, before: u32, after: u32, start: i64) -> bool
        requires day { IsRuleDay day }
        requires start { IsRuleDay start }
        requires places { (before < 31) × (after < 31) }
        ensures { IsTrue result ↔ rules.HasWeekday self.now start day before after }
    {
        let weekday = gregorian::weekday_of(day);
        if self.by_weekday.is_empty() {
            return !self.tells_weekday() || weekday == gregorian::weekday_of(start);
        }
        if !self.counts_in_year() {
            return lists_weekday(self.by_weekday, weekday, before / 7, after / 7);
        }
        let (before, after) = place_in_year(day);
        lists_weekday(self.by_weekday, weekday, before / 7, after / 7)
    }

    // Whether it has a day, as far as its parts for dates matter.
    pub(crate) fn has_date(&self, day: i64, start: i64) -> bool
        requires day { IsRuleDay day }
        requires start { IsRuleDay start }
        ensures { IsTrue result ↔ rules.IsOnDate self.now start day }
    {
        let date = gregorian::date_of(day);
        let first = gregorian::date_of(start);
        if !self.has_month(date.month, first.month) {
            return false;
        }
        let days = month_length(date);
        if !self.has_month_day(date.day, days, first.day) {
            return false;
        }
        if !self.has_weekday(day, date.day - 1, days - date.day, start) {
            return false;
        }
        self.has_week(day) && self.has_year_day(day)
    }

    // Whether it has the hour, the minute and the second of the minute of a second of the day.
    pub(crate) fn has_hour(&self, second: u32, start: u32) -> bool
        ensures { IsTrue result ↔ rules.HasHour self.now start second }
    {
        if self.by_hour.is_empty() {
            return !self.tells_hour() || second / 3600 == start / 3600;
        }
        lists(self.by_hour, second / 3600)
    }

    pub(crate) fn has_minute(&self, second: u32, start: u32) -> bool
        ensures { IsTrue result ↔ rules.HasMinute self.now start second }
    {
        if self.by_minute.is_empty() {
            return !self.tells_minute() || second / 60 % 60 == start / 60 % 60;
        }
        lists(self.by_minute, second / 60 % 60)
    }

    pub(crate) fn has_second(&self, second: u32, start: u32) -> bool
        ensures { IsTrue result ↔ rules.HasSecond self.now start second }
    {
        if self.by_second.is_empty() {
            return !self.tells_second() || second % 60 == start % 60;
        }
        lists(self.by_second, second % 60)
    }
}

// The fourth day of the week that a day lies in. Most of the week lies in that day's year.
#[tactic(auto, using(crate::proofs::RuleParts::fourth))]
fn fourth_of_week(day: i64, week_start: Weekday) -> i64
    requires { IsRuleDay day }
    ensures value { result ≡ rules.fourth_of_week (weekday_number week_start) day }
    ensures bound { IsNearRuleDay result }
{
    fourth_after(day, days_of_week(day, week_start))
}

// The fourth day of a week of which `passed` days come before `day`.
fn fourth_after(day: i64, passed: u32) -> i64
    requires day { IsRuleDay day }
    requires passed { passed < 7 }
    ensures value { result ≡ day -ℤ pos passed +ℤ pos 3 }
    ensures bound { IsNearRuleDay result }
{
    day - passed as i64 + 3
}

// Whether a part lists a number.
fn lists(part: &[u32], number: u32) -> bool
    ensures { IsTrue result ↔ Contains part.now number }
{
    for listed in part {
        if *listed == number {
            return true;
        }
    }
    false
}

pub(crate) fn lists_signed(part: &[i32], number: i32) -> bool
    ensures { IsTrue result ↔ Contains part.now number }
{
    for listed in part {
        if *listed == number {
            return true;
        }
    }
    false
}

// Whether a part lists the place with `before` others before it and `after` others after it.
fn lists_place(part: &[i32], before: u32, after: u32) -> bool
    requires { (before < 366) × (after < 366) }
    ensures { IsTrue result ↔ rules.ListsPlace part.now before after }
{
    lists_signed(part, before as i32 + 1) || lists_signed(part, from_end(after))
}

// The place with `after` others after it.
fn from_end(after: u32) -> i32
    requires { after < 366 }
    ensures { result ≡ neg_ℤ (pos (after + 1)) }
{
    -1 - after as i32
}

fn lists_weekday(part: &[NthWeekday], weekday: u32, before: u32, after: u32) -> bool
    requires { (before < 366) × (after < 366) }
    ensures { IsTrue result ↔ rules.ListsWeekday part.now weekday before after }
{
    for entry in part {
        if entry.is_at(weekday, before, after) {
            return true;
        }
    }
    false
}

impl NthWeekday {
    /// Returns the entry for each such weekday.
    pub fn every(weekday: Weekday) -> NthWeekday
        ensures { result ≡ record { weekday = weekday; nth = pos 0 } }
    {
        NthWeekday { weekday, nth: 0 }
    }

    /// Returns the entry for the n-th such weekday of the month or the year: 1 for the first one, -1
    /// for the last one.
    pub fn nth(nth: i32, weekday: Weekday) -> NthWeekday
        ensures { result ≡ record { weekday = weekday; nth = nth } }
    {
        NthWeekday { weekday, nth }
    }

    // Whether it is that weekday, with `before` others before it and `after` others after it.
    fn is_at(&self, weekday: u32, before: u32, after: u32) -> bool
        requires { (before < 366) × (after < 366) }
        ensures { IsTrue result ↔ rules.IsEntry weekday before after self.now }
    {
        self.weekday.num_days_from_sunday() == weekday
            && (self.nth == 0 || self.nth == before as i32 + 1 || self.nth == from_end(after))
    }
}
