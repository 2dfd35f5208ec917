//! Months of a year.
ghost use Rattle.std.specs.{Int.{IsInRange}, Prelude.{◌≡◌, ◌≤◌, ◌-◌}};
ghost use Rattle.gregorian.specs.{Month.{days_in_month, days_of_months}, Year.{is_leap}};

use super::is_leap_year;

/// How many days the month has. `month` counts from 1.
pub fn days_in_month(year: i32, month: u32) -> u32
    ensures value { result ≡ days_in_month (is_leap year) month }
    ensures bound { IsInRange 28 31 result }
{
    match month {
        2 => { if is_leap_year(year) { 29 } else { 28 } }
        4 | 6 | 9 | 11 => 30,
        _ => 31,
    }
}

/// How many days of the year come before the first of the month. Requires: a month from 1 to 12.
#[tactic(auto, using(crate::proofs::MonthDays::before_month))]
pub fn days_before_month(year: i32, month: u32) -> u32
    requires { IsInRange 1 12 month }
    ensures value { result ≡ days_of_months (is_leap year) (month - 1) }
    ensures bound { result ≤ 335 }
{
    if month <= 2 {
        return 31 * (month - 1);
    }
    let before = (979 * month - 2919) / 32 + 59;
    if is_leap_year(year) {
        before + 1
    } else {
        before
    }
}
