//! Weeks from Monday to Sunday.
ghost use Rattle.std.specs.Prelude.{◌≡◌, ◌+◌, ◌+ℤ◌, ◌-ℤ◌, pos, ℤ};
ghost use Rattle.gregorian.specs.{Weeks.{IsThursdayOf}, Year.{IsDay}};

use super::weekdays::{DAYS_FROM_SUNDAY, days_since_sunday, split_weeks};

/// The Thursday of the week, from Monday to Sunday, that the day lies in. Requires: from three days
/// before it to three days after it, days of the years of an `i32`.
pub fn thursday_of_week(day: i64) -> i64
    requires first { IsDay (day -ℤ pos 3) }
    requires last { IsDay (day +ℤ pos 3) }
    ensures value { IsThursdayOf day result }
    ensures bound { IsDay result }
{
    let (weeks, _) = split_weeks(days_since_sunday(day) - 1);
    weeks as i64 * 7 + 4 - DAYS_FROM_SUNDAY
}

/// Each day lies in one week: there is one Thursday from three days before it to three days after
/// it.
#[tactic(auto, using(crate::proofs::WeekdayLaws::some_thursday))]
pub fn weeks_law()
    ensures found { (day : ℤ) → (thursday : ℤ) × IsThursdayOf day thursday }
    ensures once { (day a b : ℤ) → IsThursdayOf day a → IsThursdayOf day b → a ≡ b }
{}
