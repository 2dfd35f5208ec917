//! How many days of a year come before a rule's day, in years of each kind.

ghost use Rattle.std.specs.{Int.{IsInRange}, Prelude.{◌≡◌, ◌<◌, ◌≤◌, ◌∷◌, []}};
ghost use Rattle.tz_info.specs.Steps.KindPlaces.{places_by_kind, weekday_place_from};

use crate::rule::day::{DayForm, RuleDay};
use crate::rule::day_places::{julian_place, weekday_place};
use gregorian::{days_before_month, days_in_month};

impl RuleDay {
    ghost use Rattle.tz_info.specs.RuleDays.{IsRuleDay};

    // How many days of a year come before the rule's day, in years of each kind: the common years
    // that begin with Sunday to Saturday, and then the leap years. All are found at once, from the
    // month's front in a common year and in a leap year.
    #[tactic(auto, unfolding(crate::specs::Steps::KindPlaces::places_by_kind, crate::specs::Steps::KindPlaces::place_by))]
    pub(super) fn places_by_kind(&self) -> [u32; 14]
        ensures value { result ≡ places_by_kind self.now }
        ensures rule { IsRuleDay self.now }
    {
        match self.form {
            DayForm::Julian1(n) => {
                same_places(julian_place(2017, n as u32), julian_place(2012, n as u32))
            }
            DayForm::Julian0(n) => same_places(n as u32, n as u32),
            DayForm::MonthWeekday(month, week, weekday) => {
                weekday_places(month as u32, week as u32, weekday as u32)
            }
        }
    }
}

// The same place in all common years, and the same in all leap years.
fn same_places(common: u32, leap: u32) -> [u32; 14]
    ensures { result ≡ (common ∷ common ∷ common ∷ common ∷ common ∷ common ∷ common
        ∷ leap ∷ leap ∷ leap ∷ leap ∷ leap ∷ leap ∷ leap ∷ []) }
{
    [
        common, common, common, common, common, common, common, leap, leap, leap, leap, leap, leap,
        leap,
    ]
}

// The places of the weekday in that week of the month.
#[tactic(auto, unfolding(crate::specs::Steps::KindPlaces::places_by_kind, crate::specs::Steps::KindPlaces::place_by))]
fn weekday_places(month: u32, week: u32, weekday: u32) -> [u32; 14]
    requires month_in { IsInRange 1 12 month }
    requires week_in { IsInRange 1 5 week }
    requires weekday_in { weekday ≤ 6 }
    ensures { result ≡ places_by_kind (DayForm.MonthWeekday month week weekday) }
{
    let common = days_before_month(2017, month);
    let common_days = days_in_month(2017, month);
    let leap = days_before_month(2012, month);
    let leap_days = days_in_month(2012, month);
    [
        place_from(common, common_days, 0, week, weekday),
        place_from(common, common_days, 1, week, weekday),
        place_from(common, common_days, 2, week, weekday),
        place_from(common, common_days, 3, week, weekday),
        place_from(common, common_days, 4, week, weekday),
        place_from(common, common_days, 5, week, weekday),
        place_from(common, common_days, 6, week, weekday),
        place_from(leap, leap_days, 0, week, weekday),
        place_from(leap, leap_days, 1, week, weekday),
        place_from(leap, leap_days, 2, week, weekday),
        place_from(leap, leap_days, 3, week, weekday),
        place_from(leap, leap_days, 4, week, weekday),
        place_from(leap, leap_days, 5, week, weekday),
        place_from(leap, leap_days, 6, week, weekday),
    ]
}

// The place of the weekday in that week of a month of `days` days, which begins `before` days after
// its year, if the year begins with the weekday `first`.
#[inline(always)]
fn place_from(before: u32, days: u32, first: u32, week: u32, weekday: u32) -> u32
    requires before { before < 366 }
    requires days_in { IsInRange 28 31 days }
    requires first_in { first < 7 }
    requires week_in { IsInRange 1 5 week }
    requires weekday_in { weekday ≤ 6 }
    ensures { result ≡ weekday_place_from before days first week weekday }
{
    before + weekday_place(days, (first + before) % 7, week, weekday)
}
