//! Steps of the local clock: days, weeks, months, years and parts of a day.
ghost use Rattle.std.specs.Prelude.{◌≡◌, ◌<◌, ◌≤◌, ◌+◌, ◌-◌, ◌%◌, ◌≤ℤ◌, ◌+ℤ◌, ◌-ℤ◌, neg_ℤ, pos, MatchOption};
ghost use Rattle.{
  naive_base.specs.{NaiveDate.{day_of}, NaiveDateTime.{reading}, Range.{IsWide, IsWideDay}},
  naive_plans.specs.{ClockSteps.{seconds_of_step, BeginsOnDay, BeginsStep, IsPart}, PartsOfDay.{IsPartOfDay}},
  naive_plans.specs.Steps.{Members.{IsFirstAfter, IsLastUpTo}, StepPlaces.{IsNear, IsNearDay, IsPlace}},
};

use crate::day_plan::{at_second, date_after, date_before};
use crate::days::{day_of, days_of_week, month_length, place_in_year, second_at, second_of};
use crate::{PartOfDay, Plan, ReversiblePlan};
use naive_base::{NaiveDate, NaiveDateTime, Weekday};

// The day numbers of the first and the last `NaiveDate`, and that of 0000-12-31 from 1970-01-01 on.
const FIRST_DAY: i64 = -96_465_292;

const LAST_DAY: i64 = 95_026_236;

const EPOCH_FROM_CE: i32 = 719_163;

/// A step of the local clock: local time is divided into steps, each from its beginning to before the
/// next one's.
///
/// As a [`Plan`] it is the local times at which steps begin. In a zone they begin when that plan fires:
/// `ZonePlans::floor`, `ZonePlans::ceil` and `ZonePlans::step_at` of `zoned_plans` find those instants.
///
/// ```
/// let noon = NaiveDate::from_ymd_opt(2021, 3, 17)?.and_hms_opt(12, 0, 0)?; // a Wednesday
/// let monday = ClockStep::Week(Weekday::Mon).last_until(&noon)?; // 2021-03-15 00:00:00
/// let next = ClockStep::seconds(5_400)?.next_after(&noon)?; // 2021-03-17 13:30:00
/// ```
#[derive(Clone, Copy, PartialEq, Eq, Debug)]
pub enum ClockStep {
    /// A day, from its midnight.
    Day,
    /// A week, from midnight of that weekday.
    Week(Weekday),
    /// A month, from midnight of its first day.
    Month,
    /// A year, from midnight of its first day.
    Year,
    /// A part of the day, counted from its midnight. Made by [`ClockStep::seconds`].
    Part(PartOfDay),
}

impl ClockStep {
    /// An hour, counted from midnight.
    pub const HOUR: ClockStep = ClockStep::Part(PartOfDay { seconds: 3_600 });
    /// A minute.
    pub const MINUTE: ClockStep = ClockStep::Part(PartOfDay { seconds: 60 });

    /// Returns the step of that many seconds, counted from midnight; `None` if a day doesn't have a whole
    /// number of them.
    ///
    /// ```
    /// let quarter = ClockStep::seconds(900)?; // at 00:00, 00:15, 00:30, ..
    /// let none = ClockStep::seconds(7 * 3_600); // None
    /// ```
    pub fn seconds(seconds: u32) -> Option<ClockStep>
        ensures { MatchOption result (¬ (IsPartOfDay seconds))
            (λ step. IsPartOfDay seconds × IsPart seconds step) }
    {
        if seconds == 0 || 86_400 % seconds != 0 {
            return None;
        }
        Some(ClockStep::Part(PartOfDay { seconds }))
    }

    // How many seconds of a day come between two steps that begin on it.
    fn seconds_in_day(&self) -> u32
        ensures value { result ≡ seconds_of_step self.now }
        ensures bound { IsPartOfDay result }
        ensures most { result ≤ 86_400 }
    {
        match self {
            ClockStep::Part(part) => part.seconds,
            _ => 86_400,
        }
    }

    // How many days of its step come before a day, and how many after it.
    fn place(&self, day: i64) -> (u32, u32)
        requires { IsWideDay day }
        ensures place { IsPlace (BeginsOnDay self.now) day result.0 result.1 }
        ensures bound { (result.0 ≤ 366) × (result.1 ≤ 366) }
    {
        match self {
            ClockStep::Week(first) => place_in_week(day, *first),
            ClockStep::Month => place_in_month(day),
            ClockStep::Year => place_in_year(day),
            _ => (0, 0),
        }
    }

    // The last second up to that one at which a step begins.
    fn last_begin(&self, second: i64) -> i64
        requires { IsWide second }
        ensures value { IsLastUpTo (BeginsStep self.now) second result }
        ensures bound { IsNear result }
    {
        let day = day_of(second);
        let around = self.place(day);
        let begin = begin_in_day(second_of(second), self.seconds_in_day());
        second_at(days_back(day, around.0), begin)
    }

    // The first second after that one at which a step begins.
    fn next_begin(&self, second: i64) -> i64
        requires { IsWide second }
        ensures value { IsFirstAfter (BeginsStep self.now) second result }
        ensures bound { IsNear result }
    {
        let day = day_of(second);
        let around = self.place(day);
        let next = next_in_day(second_of(second), self.seconds_in_day());
        second_at(days_on(day, around.1), next)
    }
}

impl Plan for ClockStep {
    ghost planned = { BeginsStep };

    fn next_after(&self, local: &NaiveDateTime) -> Option<NaiveDateTime> {
        local_shown_at(self.next_begin(local.secs_since_epoch()))
    }
}

impl ReversiblePlan for ClockStep {
    fn last_until(&self, local: &NaiveDateTime) -> Option<NaiveDateTime> {
        local_shown_at(self.last_begin(local.secs_since_epoch()))
    }
}

// How many days of a week that begins on `first` come before a day, and how many after it.
fn place_in_week(day: i64, first: Weekday) -> (u32, u32)
    requires { IsWideDay day }
    ensures place { IsPlace (BeginsOnDay (ClockStep.Week first)) day result.0 result.1 }
    ensures bound { (result.0 < 7) × (result.1 < 7) }
{
    let before = days_of_week(day, first);
    (before, 6 - before)
}

// How many days of its month come before a day, and how many after it.
fn place_in_month(day: i64) -> (u32, u32)
    requires { IsWideDay day }
    ensures place { IsPlace (BeginsOnDay ClockStep.Month) day result.0 result.1 }
    ensures bound { (result.0 < 31) × (result.1 < 31) }
{
    let date = gregorian::date_of(day);
    (date.day - 1, month_length(date) - date.day)
}

// The last multiple of a step up to a second of the day.
fn begin_in_day(second: u32, step: u32) -> u32
    requires { 1 ≤ step }
    ensures value { result ≡ second - second % step }
    ensures bound { result ≤ second }
{
    second - second % step
}

// The next one.
#[tactic(auto, using(crate::proofs::ClockSteps::next_multiple))]
fn next_in_day(second: u32, step: u32) -> u32
    requires second { second < 86_400 }
    requires step { IsPartOfDay step }
    ensures value { result ≡ second - second % step + step }
    ensures bound { result ≤ 86_400 }
{
    begin_in_day(second, step) + step
}

fn days_back(day: i64, days: u32) -> i64
    requires day { IsWideDay day }
    requires days { days ≤ 366 }
    ensures value { result ≡ day -ℤ pos days }
    ensures bound { (neg_ℤ (pos 100_000_000) ≤ℤ result) × (result ≤ℤ pos 100_000_000) }
{
    day - days as i64
}

fn days_on(day: i64, days: u32) -> i64
    requires day { IsWideDay day }
    requires days { days ≤ 366 }
    ensures value { result ≡ day +ℤ pos days }
    ensures bound { (neg_ℤ (pos 100_000_000) ≤ℤ result) × (result ≤ℤ pos 100_000_000) }
{
    day + days as i64
}

// The local time of a second; `None` if a `NaiveDateTime` can't show it.
fn local_shown_at(second: i64) -> Option<NaiveDateTime>
    requires { IsNear second }
    ensures { MatchOption result (¬ (IsWide second)) (λ l. (reading l).s ≡ second) }
{
    let date = date_at(day_of(second))?;
    Some(at_second(date, second_of(second)))
}

// The date of a day; `None` if it comes before or after both buffer days.
fn date_at(day: i64) -> Option<NaiveDate>
    requires { IsNearDay day }
    ensures { MatchOption result (¬ (IsWideDay day)) (λ date. day_of date ≡ day) }
{
    if day == FIRST_DAY - 1 {
        return date_before(NaiveDate::MIN);
    }
    if day == LAST_DAY + 1 {
        return date_after(NaiveDate::MAX);
    }
    NaiveDate::from_num_days_from_ce_opt(day as i32 + EPOCH_FROM_CE)
}
