//! The days of rules, and New York's clocks in 2021 by `EST5EDT,M3.2.0,M11.1.0` (POSIX.1 section
//! 8.3).

ghost use Rattle.std.specs.Prelude.{◌≡◌, false, neg_ℤ, pos, true, ℤ};
ghost use Rattle.{
  naive_base.specs.Date.{day_number},
  tests_pins.specs.NewYork.{edt, est, new_york, new_york_rule},
  tz_info.specs.{Moments.{end_in, start_in, IsDstAt, IsRuleYear, IsYearOf}, RuleTypes.{IsRuleRefused, RuleAt}},
  tz_info.specs.{RuleDayOf.{rule_day}, RuleDays.{IsDayOf, IsRuleDay}, Rules.{IsWithinWeek}},
};

use tz_info::DayForm;

/// `Jn` never counts 29 February, `n` does, from 0 on; week 5 of `Mm.w.d` is the last.
pub fn days()
    ensures j60_common { rule_day (DayForm.Julian1 60) (pos 2021) ≡ day_number (pos 2021) 3 1 }
    ensures j60_leap { rule_day (DayForm.Julian1 60) (pos 2024) ≡ day_number (pos 2024) 3 1 }
    ensures j59_leap { rule_day (DayForm.Julian1 59) (pos 2024) ≡ day_number (pos 2024) 2 28 }
    ensures j1 { rule_day (DayForm.Julian1 1) (pos 2024) ≡ day_number (pos 2024) 1 1 }
    ensures n59_common { rule_day (DayForm.Julian0 59) (pos 2021) ≡ day_number (pos 2021) 3 1 }
    ensures n59_leap { rule_day (DayForm.Julian0 59) (pos 2024) ≡ day_number (pos 2024) 2 29 }
    ensures n0 { rule_day (DayForm.Julian0 0) (pos 2024) ≡ day_number (pos 2024) 1 1 }
    ensures second_sunday { rule_day (DayForm.MonthWeekday 3 2 0) (pos 2021)
        ≡ day_number (pos 2021) 3 14 }
    ensures first_sunday { rule_day (DayForm.MonthWeekday 11 1 0) (pos 2021)
        ≡ day_number (pos 2021) 11 7 }
    ensures last_sunday { rule_day (DayForm.MonthWeekday 10 5 0) (pos 2021)
        ≡ day_number (pos 2021) 10 31 }
    ensures fourth_is_last { rule_day (DayForm.MonthWeekday 3 5 0) (pos 2021)
        ≡ day_number (pos 2021) 3 28 }
{}

/// The same days, by what a day of a rule is: 1 March is the 60th of 365 dates, 29 February comes
/// 59 days after 1 January, 14 March 2021 is the second Sunday, and 28 March 2021 the last.
pub fn days_themselves()
    ensures j60_leap { IsDayOf (DayForm.Julian1 60) (pos 2024) (day_number (pos 2024) 3 1) }
    ensures n59_leap { IsDayOf (DayForm.Julian0 59) (pos 2024) (day_number (pos 2024) 2 29) }
    ensures second_sunday { IsDayOf (DayForm.MonthWeekday 3 2 0) (pos 2021) (day_number (pos 2021) 3 14) }
    ensures last_sunday { IsDayOf (DayForm.MonthWeekday 3 5 0) (pos 2021) (day_number (pos 2021) 3 28) }
    ensures first_monday { IsDayOf (DayForm.MonthWeekday 11 1 1) (pos 2021) (day_number (pos 2021) 11 1) }
    ensures seventh_of_month { IsDayOf (DayForm.MonthWeekday 11 1 0) (pos 2021)
        (day_number (pos 2021) 11 7) }
{}

/// A time of a rule's day lies strictly within a week.
pub fn times()
    ensures most { IsWithinWeek (pos 604_799) }
    ensures week { ¬ (IsWithinWeek (pos 604_800)) }
    ensures least { IsWithinWeek (neg_ℤ (pos 604_799)) }
    ensures week_before { ¬ (IsWithinWeek (neg_ℤ (pos 604_800))) }
{}

/// The numbers that a day may have.
pub fn limits()
    ensures j0 { ¬ (IsRuleDay (DayForm.Julian1 0)) }
    ensures j365 { IsRuleDay (DayForm.Julian1 365) }
    ensures j366 { ¬ (IsRuleDay (DayForm.Julian1 366)) }
    ensures n365 { IsRuleDay (DayForm.Julian0 365) }
    ensures n366 { ¬ (IsRuleDay (DayForm.Julian0 366)) }
    ensures month_13 { ¬ (IsRuleDay (DayForm.MonthWeekday 13 1 0)) }
    ensures week_0 { ¬ (IsRuleDay (DayForm.MonthWeekday 3 0 0)) }
    ensures week_6 { ¬ (IsRuleDay (DayForm.MonthWeekday 3 6 0)) }
    ensures saturday { IsRuleDay (DayForm.MonthWeekday 3 1 6) }
    ensures weekday_7 { ¬ (IsRuleDay (DayForm.MonthWeekday 3 1 7)) }
{}

/// 2021-03-14 07:00:00 and 2021-11-07 06:00:00 of UTC.
#[tactic(auto, using(crate::proofs::NewYork::rule_2021))]
pub fn moments()
    ensures start { start_in new_york (pos 2021) ≡ pos 1_615_705_200 }
    ensures end { end_in new_york (pos 2021) ≡ pos 1_636_264_800 }
{}

/// The types one second before each moment, and at it.
pub fn types()
    ensures new_year { RuleAt new_york_rule (pos 1_609_459_200) est }
    ensures before_start { RuleAt new_york_rule (pos 1_615_705_199) est }
    ensures start { RuleAt new_york_rule (pos 1_615_705_200) edt }
    ensures before_end { RuleAt new_york_rule (pos 1_636_264_799) edt }
    ensures end { RuleAt new_york_rule (pos 1_636_264_800) est }
{}

/// Daylight saving time that starts and ends at one moment of each year is never in force.
pub fn start_at_end()
    ensures standard { (moments : ℤ → ℤ) (year u : ℤ) → IsDstAt moments moments year u false }
    ensures not_dst { (moments : ℤ → ℤ) (year u : ℤ) → ¬ (IsDstAt moments moments year u true) }
{}

/// A rule answers in the years of 32 bits except two at each end, and not a second before or after.
pub fn years()
    ensures first { IsYearOf (neg_ℤ (pos 67_768_100_504_812_800)) (neg_ℤ (pos 2_147_483_646)) }
    ensures in_first { IsRuleYear (neg_ℤ (pos 2_147_483_646)) }
    ensures too_early { IsRuleRefused new_york_rule (neg_ℤ (pos 67_768_100_504_812_801)) }
    ensures last { IsYearOf (pos 67_767_976_170_460_799) (pos 2_147_483_645) }
    ensures in_last { IsRuleYear (pos 2_147_483_645) }
    ensures too_late { IsRuleRefused new_york_rule (pos 67_767_976_170_460_800) }
{}
