//! The periods of rules, by their numbers.
ghost use Rattle.std.specs.Prelude.{◌≡◌, ◌<◌, ◌≤◌, ◌+◌, ◌*◌, ◌/◌, ◌<ℤ◌, ◌≤ℤ◌, ◌+ℤ◌, ◌-ℤ◌, ◌*ℤ◌, neg_ℤ, pos, ℤ};
ghost use Rattle.{
  gregorian.specs.{Date.{day_number}, DateOf.{year_of}, Year.{floor_div, floor_mod, year_start}},
  naive_base.specs.Weekday.{weekday_number},
  naive_rrule.specs.RecurrenceRules.{month_number},
  naive_rrule.specs.Steps.RuleSteps.{IsRuleSecond, least_period, own_period, IsLastPeriod, IsPeriod, IsRuleDay},
};

use crate::seconds::seconds_of;
use crate::{Frequency, RecurrenceRule};
use naive_base::Weekday;
use naive_plans::days::{SECONDS_PER_DAY, day_of};

// A year after all those that a search looks at.
const END_YEAR: i64 = 20_000;

impl<'a> RecurrenceRule<'a> {
    // The number of the period that a second lies in.
    pub(crate) fn period_at(&self, second: i64) -> i64
        requires { IsRuleSecond second }
        ensures value { result ≡ own_period self.now second }
        ensures bound { IsPeriod result }
    {
        let day = day_of(second);
        match self.frequency {
            Frequency::Yearly => year_number(day),
            Frequency::Monthly => month_number(day),
            Frequency::Weekly => week_number(day, self.week_start),
            Frequency::Daily => day,
            Frequency::Hourly => second.div_euclid(3600),
            Frequency::Minutely => second.div_euclid(60),
            Frequency::Secondly => second,
        }
    }

    // The first second of a period; of one after the year 20000 a second before it.
    pub(crate) fn start_of(&self, period: i64) -> i64
        requires { (least_period self.now.frequency ≤ℤ period) × (period ≤ℤ pos 400_000_000_000) }
        ensures later { (l : ℤ) → period ≤ℤ own_period self.now l → result ≤ℤ l }
        ensures earlier { (l : ℤ) → l <ℤ pos 345_600_086_400 → own_period self.now l <ℤ period
            → l <ℤ result }
        ensures bound { (neg_ℤ (pos 1_000_000_000_000_000_000) ≤ℤ result)
            × (result ≤ℤ pos 1_000_000_000_000_000_000) }
    {
        match self.frequency {
            Frequency::Yearly => start_of_month(period * 12),
            Frequency::Monthly => start_of_month(period),
            Frequency::Weekly => start_of_week(period, self.week_start),
            Frequency::Daily => period * SECONDS_PER_DAY,
            Frequency::Hourly => period * 3600,
            Frequency::Minutely => period * 60,
            Frequency::Secondly => period,
        }
    }
}

fn year_number(day: i64) -> i64
    requires { IsRuleDay day }
    ensures value { result ≡ year_of day }
    ensures bound { IsPeriod result }
{
    gregorian::year_of(day) as i64
}

// The number of the month that a day lies in, from January of the year 0.
fn month_number(day: i64) -> i64
    requires { IsRuleDay day }
    ensures value { result ≡ month_number day }
    ensures bound { IsPeriod result }
{
    let date = gregorian::date_of(day);
    number_of_month(date.year, date.month)
}

fn number_of_month(year: i32, month: u32) -> i64
    requires { month ≤ 12 }
    ensures value { result ≡ year *ℤ pos 12 +ℤ pos month -ℤ pos 1 }
    ensures bound { IsPeriod result }
{
    year as i64 * 12 + month as i64 - 1
}

fn week_number(day: i64, week_start: Weekday) -> i64
    requires { IsRuleDay day }
    ensures value { result ≡ floor_div (day +ℤ pos 4 -ℤ pos (weekday_number week_start)) 7 }
    ensures bound { IsPeriod result }
{
    week_of(day, week_start.num_days_from_sunday())
}

// So that all sums are of unsigned numbers: 800,002 days are 114,286 weeks.
fn week_of(day: i64, first: u32) -> i64
    requires day { IsRuleDay day }
    requires first { first < 7 }
    ensures value { result ≡ floor_div (day +ℤ pos 4 -ℤ pos first) 7 }
    ensures bound { IsPeriod result }
{
    (((day + 800_006) as u64 - first as u64) / 7) as i64 - 114_286
}

fn start_of_month(number: i64) -> i64
    requires { (neg_ℤ (pos 13_200_000_000) ≤ℤ number) × (number ≤ℤ pos 4_800_000_000_000) }
    ensures later { (l : ℤ) → number ≤ℤ month_number (floor_div l 86_400) → result ≤ℤ l }
    ensures earlier { (l : ℤ) → l <ℤ pos 345_600_086_400 → month_number (floor_div l 86_400) <ℤ number
        → l <ℤ result }
    ensures bound { (neg_ℤ (pos 1_000_000_000_000_000_000) ≤ℤ result)
        × (result ≤ℤ pos 1_000_000_000_000_000_000) }
{
    start_of_month_up(number.min(END_YEAR * 12))
}

fn start_of_month_up(number: i64) -> i64
    requires { (neg_ℤ (pos 13_200_000_000) ≤ℤ number) × (number ≤ℤ pos 240_000) }
    ensures value { result ≡ day_number (floor_div number 12) (floor_mod number 12 + 1) 1
        *ℤ pos 86_400 }
    ensures bound { (neg_ℤ (pos 1_000_000_000_000_000_000) ≤ℤ result)
        × (result ≤ℤ pos 1_000_000_000_000_000_000) }
{
    seconds_of(gregorian::day_number(year_of_number(number), month_in_year(number), 1))
}

// The year of a month's number. So that all sums are of unsigned numbers: 13,200,000,000 months are
// 1,100,000,000 years.
fn year_of_number(number: i64) -> i32
    requires { (neg_ℤ (pos 13_200_000_000) ≤ℤ number) × (number ≤ℤ pos 240_000) }
    ensures value { result ≡ floor_div number 12 }
{
    ((number + 13_200_000_000) as u64 / 12) as i32 - 1_100_000_000
}

// Its month.
fn month_in_year(number: i64) -> u32
    requires { (neg_ℤ (pos 13_200_000_000) ≤ℤ number) × (number ≤ℤ pos 240_000) }
    ensures value { result ≡ floor_mod number 12 + 1 }
    ensures bound { (1 ≤ result) × (result ≤ 12) }
{
    ((number + 13_200_000_000) as u64 % 12) as u32 + 1
}

fn start_of_week(number: i64, week_start: Weekday) -> i64
    requires { (neg_ℤ (pos 2_000_000_000) ≤ℤ number) × (number ≤ℤ pos 400_000_000_000) }
    ensures later { (l : ℤ) → number ≤ℤ floor_div (floor_div l 86_400 +ℤ pos 4
        -ℤ pos (weekday_number week_start)) 7 → result ≤ℤ l }
    ensures earlier { (l : ℤ) → floor_div (floor_div l 86_400 +ℤ pos 4
        -ℤ pos (weekday_number week_start)) 7 <ℤ number → l <ℤ result }
    ensures bound { (neg_ℤ (pos 1_000_000_000_000_000_000) ≤ℤ result)
        × (result ≤ℤ pos 1_000_000_000_000_000_000) }
{
    seconds_of(first_day_of_week(number, week_start.num_days_from_sunday()))
}

fn first_day_of_week(number: i64, first: u32) -> i64
    requires number { (neg_ℤ (pos 2_000_000_000) ≤ℤ number) × (number ≤ℤ pos 400_000_000_000) }
    requires first { first < 7 }
    ensures { result ≡ number *ℤ pos 7 -ℤ pos 4 +ℤ pos first }
{
    number * 7 - 4 + first as i64
}

// The last period up to `period` that is a multiple of the interval after the first one.
pub(crate) fn last_period(interval: u32, first: i64, period: i64) -> i64
    requires interval { 1 ≤ interval }
    requires first { IsPeriod first }
    requires period { IsPeriod period }
    requires later { first ≤ℤ period }
    ensures { IsLastPeriod interval first period result }
{
    period_after(
        first,
        whole_intervals(passed_since(first, period), interval as u64),
    )
}

fn passed_since(first: i64, period: i64) -> u64
    requires first { IsPeriod first }
    requires period { IsPeriod period }
    requires later { first ≤ℤ period }
    ensures value { period ≡ first +ℤ pos result }
    ensures bound { result ≤ 700_000_000_000 }
{
    (period - first) as u64
}

// How many of `passed` periods belong to whole intervals.
fn whole_intervals(passed: u64, interval: u64) -> u64
    requires { 1 ≤ interval }
    ensures value { result ≡ passed / interval * interval }
    ensures bound { result ≤ passed }
{
    passed - passed % interval
}

// The period that is `passed` periods after another one.
pub(crate) fn period_after(first: i64, passed: u64) -> i64
    requires first { IsPeriod first }
    requires passed { passed ≤ 700_000_000_000 }
    ensures { result ≡ first +ℤ pos passed }
{
    first + passed as i64
}
