//! The Gregorian calendar, weekdays and the weeks of ISO 8601.
#![tactic(auto, using(crate::proofs::ChangeDays::march_2021), unfolding(crate::proofs::Computed::calendar))]

ghost use Rattle.std.specs.Prelude.{◌≡◌, ◌+ℤ◌, codes, false, neg_ℤ, pos, true, ℤ};
ghost use Rattle.{
  naive_base.specs.{Date.{day_number, IsDate}, DateOf.{day_of_month, day_of_year, month_of, year_of}},
  naive_base.specs.{IsoWeek.{iso_number, iso_year, IsWeekOf}, MonthNames.{month_name, number_of_month}},
  naive_base.specs.{Month.{days_in_month, days_of_months}, Year.{days_in_year, is_leap, year_start}},
  naive_base.specs.{Named.{whole_years, IsDayOfIsoWeek, IsWeekdayOfMonth}, Weekday.{weekday_of}},
};

use naive_base::{IsoWeek, Month};

/// Of the full centuries only every fourth is a leap year.
pub fn leap_years()
    ensures year_2000 { is_leap (pos 2000) ≡ true }
    ensures year_1900 { is_leap (pos 1900) ≡ false }
    ensures year_2100 { is_leap (pos 2100) ≡ false }
    ensures year_2024 { is_leap (pos 2024) ≡ true }
    ensures year_2023 { is_leap (pos 2023) ≡ false }
    ensures days_of_2000 { days_in_year (pos 2000) ≡ 366 }
    ensures days_of_1900 { days_in_year (pos 1900) ≡ 365 }
{}

/// Day numbers count from 1970-01-01.
pub fn year_starts()
    ensures year_1970 { year_start (pos 1970) ≡ pos 0 }
    ensures year_1969 { year_start (pos 1969) ≡ neg_ℤ (pos 365) }
    ensures year_2000 { year_start (pos 2000) ≡ pos 10_957 }
    ensures year_2001 { year_start (pos 2001) ≡ pos 11_323 }
    ensures year_1900 { year_start (pos 1900) ≡ neg_ℤ (pos 25_567) }
    ensures year_1901 { year_start (pos 1901) ≡ neg_ℤ (pos 25_202) }
    ensures four_centuries { year_start (pos 2400) ≡ year_start (pos 2000) +ℤ pos 146_097 }
{}

/// Thirty days have April, June, September and November.
pub fn months()
    ensures january { days_in_month false 1 ≡ 31 }
    ensures february { days_in_month false 2 ≡ 28 }
    ensures leap_february { days_in_month true 2 ≡ 29 }
    ensures march { days_in_month false 3 ≡ 31 }
    ensures april { days_in_month false 4 ≡ 30 }
    ensures may { days_in_month false 5 ≡ 31 }
    ensures june { days_in_month false 6 ≡ 30 }
    ensures july { days_in_month false 7 ≡ 31 }
    ensures august { days_in_month false 8 ≡ 31 }
    ensures september { days_in_month false 9 ≡ 30 }
    ensures october { days_in_month false 10 ≡ 31 }
    ensures november { days_in_month false 11 ≡ 30 }
    ensures december { days_in_month false 12 ≡ 31 }
    ensures common_year { days_of_months false 12 ≡ 365 }
    ensures leap_year { days_of_months true 12 ≡ 366 }
{}

/// Dates, their day numbers and their weekdays.
pub fn dates()
    ensures first { day_number (pos 1970) 1 1 ≡ pos 0 }
    ensures second { day_number (pos 1970) 1 2 ≡ pos 1 }
    ensures before_first { day_number (pos 1969) 12 31 ≡ neg_ℤ (pos 1) }
    ensures march_2021 { day_number (pos 2021) 3 14 ≡ pos 18_700 }
    ensures leap_day { day_number (pos 2024) 2 29 ≡ pos 19_782 }
    ensures after_leap_day { day_number (pos 2024) 3 1 ≡ pos 19_783 }
    ensures is_leap_day { IsDate (pos 2000) 2 29 }
    ensures no_leap_day { ¬ (IsDate (pos 1900) 2 29) }
    ensures no_month_13 { ¬ (IsDate (pos 2021) 13 1) }
    ensures no_month_0 { ¬ (IsDate (pos 2021) 0 1) }
    ensures no_day_0 { ¬ (IsDate (pos 2021) 1 0) }
    ensures shown { (year_of (pos 18_700) ≡ pos 2021) × (month_of (pos 18_700) ≡ 3)
        × (day_of_month (pos 18_700) ≡ 14) }
    ensures place { day_of_year (pos 18_700) ≡ 72 }
{}

/// 1970-01-01 was a Thursday, 2021-03-14 a Sunday, 1969-12-31 a Wednesday.
pub fn weekdays()
    ensures first { weekday_of (day_number (pos 1970) 1 1) ≡ 4 }
    ensures march_2021 { weekday_of (day_number (pos 2021) 3 14) ≡ 0 }
    ensures before_first { weekday_of (day_number (pos 1969) 12 31) ≡ 3 }
{}

/// 2021-01-01 was a Friday in week 53 of 2020, 2018-12-31 a Monday in week 1 of 2019. 4 January
/// lies in week 1 of its year, always.
pub fn weeks()
    ensures friday { (week : IsoWeek) → IsWeekOf (day_number (pos 2021) 1 1) week
        → (iso_year week ≡ pos 2020) × (iso_number week ≡ 53) }
    ensures sunday { (week : IsoWeek) → IsWeekOf (day_number (pos 2021) 1 3) week
        → (iso_year week ≡ pos 2020) × (iso_number week ≡ 53) }
    ensures monday { (week : IsoWeek) → IsWeekOf (day_number (pos 2018) 12 31) week
        → (iso_year week ≡ pos 2019) × (iso_number week ≡ 1) }
    ensures is_friday { (week : IsoWeek) → iso_year week ≡ pos 2020 → iso_number week ≡ 53
        → IsWeekOf (day_number (pos 2021) 1 1) week }
    ensures is_monday { (week : IsoWeek) → iso_year week ≡ pos 2019 → iso_number week ≡ 1
        → IsWeekOf (day_number (pos 2018) 12 31) week }
    ensures fourth_of_january { (y : ℤ) (week : IsoWeek) → IsWeekOf (day_number y 1 4) week
        → (iso_year week ≡ y) × (iso_number week ≡ 1) }
{}

/// 2021-01-29, day 18656, is the fifth Friday of its month, and 2021-01-01, day 18628, the first.
/// 2016-01-03, day 16803, is the Sunday of week 53 of 2015, and 2021-01-04, day 18631, the Monday of
/// week 1 of 2021. From 2000-02-29, day 11016, no year has passed on 2001-02-28, and one on 2001-03-01.
pub fn named()
    ensures fifth_friday { IsWeekdayOfMonth (pos 2021) 1 5 5 (pos 18_656) }
    ensures not_fourth { ¬ (IsWeekdayOfMonth (pos 2021) 1 5 4 (pos 18_656)) }
    ensures first_friday { IsWeekdayOfMonth (pos 2021) 1 5 1 (pos 18_628) }
    ensures week_53 { IsDayOfIsoWeek (pos 2015) 53 0 (pos 16_803) }
    ensures week_1 { IsDayOfIsoWeek (pos 2021) 1 1 (pos 18_631) }
    ensures not_of_2016 { ¬ (IsDayOfIsoWeek (pos 2016) 1 0 (pos 16_803)) }
    ensures no_year { whole_years (pos 11_381) (pos 11_016) ≡ pos 0 }
    ensures one_year { whole_years (pos 11_382) (pos 11_016) ≡ pos 1 }
{}

/// The months are counted from 1, and have their English names.
pub fn month_names()
    ensures first { number_of_month Month.January ≡ 1 }
    ensures ninth { number_of_month Month.September ≡ 9 }
    ensures last { number_of_month Month.December ≡ 12 }
    ensures january { month_name Month.January ≡ codes "January" }
    ensures december { month_name Month.December ≡ codes "December" }
{}
