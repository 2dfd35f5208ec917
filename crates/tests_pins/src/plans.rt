//! Plans: their local times after and up to another one, and lines of a crontab.
#![tactic(auto)]

ghost use Rattle.std.specs.Prelude.{◌≡◌, ◌⊎◌, neg_ℤ, pos, ℕ, ℤ};
ghost use Rattle.{
  naive_plans.specs.{ClockSteps.{BeginsStep, IsPart}, Plans.{IsLastUntil, IsNextAfter}, Cron.{IsCronDay, IsCronTime}},
  naive_plans.specs.{PartsOfDay.{IsPartOfDay}, DayPlans.{IsFirstSecondFrom, IsLastSecondUntil, IsPlannedOnItsDay}},
  tests_pins.specs.Plans.{daily, IsAlsoOnFridays, IsOnTheFirst},
};

use naive_base::Weekday;
use naive_plans::{ClockStep, Cron, PartOfDay};

/// 02:30 on each day. After 1970-01-01 02:30, the second 9,000, comes that of the next day, and up to
/// a second before it that of 1969-12-31.
pub fn daily_local_times()
    ensures next { IsNextAfter (daily 9_000) (pos 9_000) (pos 95_400) }
    ensures only_next { (l : ℤ) → IsNextAfter (daily 9_000) (pos 9_000) l → l ≡ pos 95_400 }
    ensures last { IsLastUntil (daily 9_000) (pos 9_000) (pos 9_000) }
    ensures before { IsLastUntil (daily 9_000) (pos 8_999) (neg_ℤ (pos 77_400)) }
    ensures only_last { (l : ℤ) → IsLastUntil (daily 9_000) (pos 9_000) l → l ≡ pos 9_000 }
{}

/// The second before 1970 is the last one of the day -1. Of 02:30 and 09:30, the seconds 9,000 and
/// 34,200 of a day, the first from 02:30 on is 02:30; so is the last up to a second before 09:30.
pub fn seconds_of_days()
    ensures before_1970 { IsPlannedOnItsDay (λ day s. (day ≡ neg_ℤ (pos 1)) × (s ≡ 86_399))
        (neg_ℤ (pos 1)) }
    ensures first { IsFirstSecondFrom (λ s. (s ≡ 9_000) ⊎ (s ≡ 34_200)) 9_000 9_000 }
    ensures later { IsFirstSecondFrom (λ s. (s ≡ 9_000) ⊎ (s ≡ 34_200)) 9_001 34_200 }
    ensures last { IsLastSecondUntil (λ s. (s ≡ 9_000) ⊎ (s ≡ 34_200)) 34_200 34_200 }
    ensures earlier { IsLastSecondUntil (λ s. (s ≡ 9_000) ⊎ (s ≡ 34_200)) 34_199 9_000 }
{}

/// `30 4 1,15 * 5` is at 04:30 on the 1st and 15th of each month, plus every Friday: on Monday
/// 2021-03-15 and Friday 2021-03-19, the days 18701 and 18705, and not on Sunday 2021-03-14. It is at
/// no other second of the day.
pub fn also_on_fridays()
    ensures fifteenth { (c : Cron) → IsAlsoOnFridays c → IsCronTime c (pos 18_701) 16_200 }
    ensures friday { (c : Cron) → IsAlsoOnFridays c → IsCronTime c (pos 18_705) 16_200 }
    ensures sunday { (c : Cron) → IsAlsoOnFridays c → IsCronDay c (pos 18_700) → ⊥ }
    ensures only { (c : Cron) (second : ℕ) → IsAlsoOnFridays c
        → IsCronTime c (pos 18_701) second → second ≡ 16_200 }
{}

/// `15 14 1 * *` is at 14:15 on the first of every month: on Monday 2021-03-01, the day 18687, and not
/// on the Tuesday after it.
pub fn on_the_first()
    ensures first { (c : Cron) → IsOnTheFirst c → IsCronTime c (pos 18_687) 51_300 }
    ensures second { (c : Cron) → IsOnTheFirst c → IsCronDay c (pos 18_688) → ⊥ }
{}

/// Midnights of Monday 2021-03-15, of 2021-03-01 and of 2021-01-01, the days 18701, 18687 and 18628, begin
/// a week from Monday on, a month and a year, and those of the days after them don't.
pub fn beginnings_of_weeks_and_months()
    ensures monday { BeginsStep (ClockStep.Week Weekday.Mon) (pos 1_615_766_400) }
    ensures tuesday { BeginsStep (ClockStep.Week Weekday.Mon) (pos 1_615_852_800) → ⊥ }
    ensures first { BeginsStep ClockStep.Month (pos 1_614_556_800) }
    ensures second { BeginsStep ClockStep.Month (pos 1_614_643_200) → ⊥ }
    ensures january { BeginsStep ClockStep.Year (pos 1_609_459_200) }
    ensures not_the_second { BeginsStep ClockStep.Year (pos 1_609_545_600) → ⊥ }
{}

/// 1970-01-01 02:00:00 begins an hour and no day; a second later none begins. The second before 1970 begins
/// no day, and the first one of 1970 does. A day has a whole number of hours, and not of seven hours.
pub fn beginnings_in_days()
    ensures hour { (hour : PartOfDay) → hour.seconds ≡ 3_600
        → BeginsStep (ClockStep.Part hour) (pos 7_200) }
    ensures later { (hour : PartOfDay) → hour.seconds ≡ 3_600
        → BeginsStep (ClockStep.Part hour) (pos 7_201) → ⊥ }
    ensures no_day { BeginsStep ClockStep.Day (pos 7_200) → ⊥ }
    ensures midnight { BeginsStep ClockStep.Day (pos 0) }
    ensures is_part { (hour : PartOfDay) → hour.seconds ≡ 3_600 → IsPart 3_600 (ClockStep.Part hour) }
    ensures no_part { IsPart 86_400 ClockStep.Day → ⊥ }
    ensures whole { IsPartOfDay 3_600 }
    ensures not_whole { IsPartOfDay 25_200 → ⊥ }
    ensures before { BeginsStep ClockStep.Day (neg_ℤ (pos 1)) → ⊥ }
{}
