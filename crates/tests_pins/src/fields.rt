//! Dates moved by months and days, and fields of dates and times replaced, as chrono's
//! documentation has them.
#![tactic(auto, using(crate::proofs::GivenDays::given_days), unfolding(crate::proofs::Computed::calendar))]

ghost use Rattle.std.specs.Prelude.{◌≡◌, neg_ℤ, pos, Option, ℤ};
ghost use Rattle.{
  naive_base.specs.{Date.{day_number}, Months.{month_number, month_of_number, year_of_number}},
  naive_base.specs.Fields.{with_fraction, with_hour, with_minute, with_second, IsDateGiven, IsDaysLater, IsMonthsLater},
  naive_base.specs.Fields.{IsOrdinalGiven},
  naive_base.specs.Weekday.{days_from_monday, weekday_number, weekday_of},
  tests_pins.specs.Fields.{clock, given, itself, march_day},
};

use naive_base::Weekday;

/// Months are counted from January of the year 0.
pub fn months_counted()
    ensures december { month_number (pos 2021) 12 ≡ pos 24_263 }
    ensures january { month_number (pos 2022) 1 ≡ pos 24_264 }
    ensures year { year_of_number (pos 24_263) ≡ pos 2021 }
    ensures month { month_of_number (pos 24_263) ≡ 12 }
    ensures before_0 { month_number (neg_ℤ (pos 1)) 12 ≡ neg_ℤ (pos 1) }
    ensures year_before_0 { year_of_number (neg_ℤ (pos 1)) ≡ neg_ℤ (pos 1) }
    ensures month_before_0 { month_of_number (neg_ℤ (pos 1)) ≡ 12 }
{}

/// Two months after 31 July 2022 it is 30 September, six months before 20 February 2022 it is
/// 20 August 2021.
pub fn months_later()
    ensures later { (answer : Option ℤ)
        → IsMonthsLater itself given (day_number (pos 2022) 7 31) (pos 2) answer
        → answer ≡ Some (day_number (pos 2022) 9 30) }
    ensures earlier { (answer : Option ℤ)
        → IsMonthsLater itself given (day_number (pos 2022) 2 20) (neg_ℤ (pos 6)) answer
        → answer ≡ Some (day_number (pos 2021) 8 20) }
    ensures is_later { IsMonthsLater itself given (day_number (pos 2022) 7 31) (pos 2)
        (Some (day_number (pos 2022) 9 30)) }
    ensures is_earlier { IsMonthsLater itself given (day_number (pos 2022) 2 20) (neg_ℤ (pos 6))
        (Some (day_number (pos 2021) 8 20)) }
{}

/// Nine days after 20 February 2022 it is 1 March.
pub fn days_later()
    ensures later { (answer : Option ℤ)
        → IsDaysLater itself given (day_number (pos 2022) 2 20) (pos 9) answer
        → answer ≡ Some (day_number (pos 2022) 3 1) }
    ensures earlier { (answer : Option ℤ)
        → IsDaysLater itself given (day_number (pos 2022) 2 20) (neg_ℤ (pos 6)) answer
        → answer ≡ Some (day_number (pos 2022) 2 14) }
    ensures is_later { IsDaysLater itself given (day_number (pos 2022) 2 20) (pos 9)
        (Some (day_number (pos 2022) 3 1)) }
    ensures is_earlier { IsDaysLater itself given (day_number (pos 2022) 2 20) (neg_ℤ (pos 6))
        (Some (day_number (pos 2022) 2 14)) }
{}

/// From 8 September 2015 on: there is a 30 September, and no 31. Day 60 of the year is 1 March, and
/// there is no day 366.
pub fn dates()
    ensures day_30 { (answer : Option ℤ)
        → IsDateGiven itself given (day_number (pos 2015) 9 8) (pos 2015) 9 30 answer
        → answer ≡ Some (day_number (pos 2015) 9 30) }
    ensures day_31 { (answer : Option ℤ)
        → IsDateGiven itself given (day_number (pos 2015) 9 8) (pos 2015) 9 31 answer
        → answer ≡ None }
    ensures ordinal_60 { (answer : Option ℤ)
        → IsOrdinalGiven itself given (day_number (pos 2015) 9 8) (pos 2015) 60 answer
        → answer ≡ Some (day_number (pos 2015) 3 1) }
    ensures ordinal_366 { (answer : Option ℤ)
        → IsOrdinalGiven itself given (day_number (pos 2015) 9 8) (pos 2015) 366 answer
        → answer ≡ None }
    ensures ordinal_366_of_2016 { (answer : Option ℤ)
        → IsOrdinalGiven itself given (day_number (pos 2015) 9 8) (pos 2016) 366 answer
        → answer ≡ Some (day_number (pos 2016) 12 31) }
    ensures is_day_30 { IsDateGiven itself given (day_number (pos 2015) 9 8) (pos 2015) 9 30
        (Some (day_number (pos 2015) 9 30)) }
    ensures is_day_31 { IsDateGiven itself given (day_number (pos 2015) 9 8) (pos 2015) 9 31 None }
    ensures is_ordinal_60 { IsOrdinalGiven itself given (day_number (pos 2015) 9 8) (pos 2015) 60
        (Some (day_number (pos 2015) 3 1)) }
    ensures is_ordinal_366 { IsOrdinalGiven itself given (day_number (pos 2015) 9 8) (pos 2015) 366
        None }
    ensures is_ordinal_366_of_2016 { IsOrdinalGiven itself given (day_number (pos 2015) 9 8) (pos 2016)
        366 (Some (day_number (pos 2016) 12 31)) }
{}

/// 23:56:04.012345678 with another hour, minute, second and fraction.
pub fn times()
    ensures hour { with_hour (clock 23 56 4 12_345_678) 7 ≡ clock 7 56 4 12_345_678 }
    ensures minute { with_minute (clock 23 56 4 12_345_678) 45 ≡ clock 23 45 4 12_345_678 }
    ensures second { with_second (clock 23 56 4 12_345_678) 17 ≡ clock 23 56 17 12_345_678 }
    ensures fraction { with_fraction (clock 23 56 4 12_345_678) 333_333_333
        ≡ clock 23 56 4 333_333_333 }
{}

/// The weekdays of the week of 2021-03-14, and how many days each comes after Monday.
pub fn weekdays()
    ensures sunday { weekday_of (march_day 14) ≡ weekday_number Weekday.Sun }
    ensures monday { weekday_of (march_day 15) ≡ weekday_number Weekday.Mon }
    ensures tuesday { weekday_of (march_day 16) ≡ weekday_number Weekday.Tue }
    ensures wednesday { weekday_of (march_day 17) ≡ weekday_number Weekday.Wed }
    ensures thursday { weekday_of (march_day 18) ≡ weekday_number Weekday.Thu }
    ensures friday { weekday_of (march_day 19) ≡ weekday_number Weekday.Fri }
    ensures saturday { weekday_of (march_day 20) ≡ weekday_number Weekday.Sat }
    ensures after_itself { days_from_monday Weekday.Mon ≡ 0 }
    ensures after_monday { days_from_monday Weekday.Sun ≡ 6 }
{}
