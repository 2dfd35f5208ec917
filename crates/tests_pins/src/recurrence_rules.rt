//! Rules of RFC 5545: examples of its section 3.8.5.3 and others.
#![tactic(auto, unfolding(crate::proofs::Computed::calendar))]

ghost use Rattle.std.specs.Prelude.{◌≡◌, ◌∷◌, [], neg_ℤ, pos};
ghost use Rattle.{
  naive_base.specs.Date.{day_number},
  naive_rrule.specs.RecurrenceRules.{fourth_of_week, IsOccasion, IsOnYearDay},
  tests_pins.specs.Recurrences.{at_nine, nth, on_weekdays, plain},
};
ghost use Rattle.tests_pins.specs.Recurrences as rfc;

use naive_base::Weekday;
use naive_rrule::Frequency;

/// `FREQ=MONTHLY;BYDAY=1FR` from 1997-09-05 on has 3 October, and not the second Friday, the 10th.
/// `BYDAY=-2MO` from 1997-09-22 on has 20 October, and not the second Monday from the front, the
/// 13th. `FREQ=YEARLY;BYDAY=20MO` from 1997-05-19 on has 1998-05-18, and not the Monday before it.
/// `FREQ=YEARLY;BYMONTH=10;BYDAY=-1SU` from 1967-10-29 on has 1968-10-27, the last Sunday of
/// October.
pub fn numbered_weekdays()
    ensures first_friday { IsOccasion (on_weekdays Frequency.Monthly (nth (pos 1) Weekday.Fri ∷ []))
        (at_nine (pos 1997) 9 5) (at_nine (pos 1997) 10 3) }
    ensures second_friday { ¬ (IsOccasion
        (on_weekdays Frequency.Monthly (nth (pos 1) Weekday.Fri ∷ []))
        (at_nine (pos 1997) 9 5) (at_nine (pos 1997) 10 10)) }
    ensures from_the_end { IsOccasion
        (on_weekdays Frequency.Monthly (nth (neg_ℤ (pos 2)) Weekday.Mon ∷ []))
        (at_nine (pos 1997) 9 22) (at_nine (pos 1997) 10 20) }
    ensures not_from_the_front { ¬ (IsOccasion
        (on_weekdays Frequency.Monthly (nth (neg_ℤ (pos 2)) Weekday.Mon ∷ []))
        (at_nine (pos 1997) 9 22) (at_nine (pos 1997) 10 13)) }
    ensures in_the_year { IsOccasion (on_weekdays Frequency.Yearly (nth (pos 20) Weekday.Mon ∷ []))
        (at_nine (pos 1997) 5 19) (at_nine (pos 1998) 5 18) }
    ensures not_before { ¬ (IsOccasion
        (on_weekdays Frequency.Yearly (nth (pos 20) Weekday.Mon ∷ []))
        (at_nine (pos 1997) 5 19) (at_nine (pos 1998) 5 11)) }
    ensures in_the_month { IsOccasion rfc.last_sundays_of_october
        (rfc.local (pos 1967) 10 29 2 0 0) (rfc.local (pos 1968) 10 27 2 0 0) }
{}

/// `FREQ=MONTHLY;BYMONTHDAY=-3` from 1997-09-28 on has 29 October, and neither the 28th nor the
/// 3rd. `FREQ=YEARLY;INTERVAL=3;BYYEARDAY=1,100,200` from 1997-01-01 on has 2000-04-09, and neither
/// the day after it nor 1998-04-10. Day -306 of a year is 1 March.
pub fn numbered_days()
    ensures third_to_the_last { IsOccasion (rfc.third_days_to_the_last Frequency.Monthly)
        (at_nine (pos 1997) 9 28) (at_nine (pos 1997) 10 29) }
    ensures day_before { ¬ (IsOccasion (rfc.third_days_to_the_last Frequency.Monthly)
        (at_nine (pos 1997) 9 28) (at_nine (pos 1997) 10 28)) }
    ensures not_third { ¬ (IsOccasion (rfc.third_days_to_the_last Frequency.Monthly)
        (at_nine (pos 1997) 9 28) (at_nine (pos 1997) 10 3)) }
    ensures day_100 { IsOccasion (rfc.three_days Frequency.Yearly)
        (at_nine (pos 1997) 1 1) (at_nine (pos 2000) 4 9) }
    ensures day_101 { ¬ (IsOccasion (rfc.three_days Frequency.Yearly)
        (at_nine (pos 1997) 1 1) (at_nine (pos 2000) 4 10)) }
    ensures next_year { ¬ (IsOccasion (rfc.three_days Frequency.Yearly)
        (at_nine (pos 1997) 1 1) (at_nine (pos 1998) 4 10)) }
    ensures first_of_march { IsOnYearDay rfc.day_306_to_the_last (day_number (pos 1997) 3 1) }
    ensures leap_day { ¬ (IsOnYearDay rfc.day_306_to_the_last (day_number (pos 2000) 2 29)) }
{}

/// `FREQ=YEARLY;BYWEEKNO=20;BYDAY=MO` from 1997-05-12 on has 1998-05-11, in the week of Thursday
/// the 14th, and not the Monday after it. In a week from Sunday on the fourth day is Wednesday.
/// `FREQ=WEEKLY;INTERVAL=2;BYDAY=TU,SU` from 1997-08-05 on has the 10th and not the 17th with
/// `WKST=MO`, and the 17th and not the 10th with `WKST=SU`.
pub fn weeks()
    ensures week_20 { IsOccasion (rfc.in_week_20 Frequency.Yearly (rfc.every Weekday.Mon))
        (at_nine (pos 1997) 5 12) (at_nine (pos 1998) 5 11) }
    ensures week_21 { ¬ (IsOccasion (rfc.in_week_20 Frequency.Yearly (rfc.every Weekday.Mon))
        (at_nine (pos 1997) 5 12) (at_nine (pos 1998) 5 18)) }
    ensures thursday { fourth_of_week 1 (day_number (pos 1998) 5 11) ≡ day_number (pos 1998) 5 14 }
    ensures wednesday { fourth_of_week 0 (day_number (pos 1998) 5 11) ≡ day_number (pos 1998) 5 13 }
    ensures from_monday { IsOccasion rfc.from_monday
        (at_nine (pos 1997) 8 5) (at_nine (pos 1997) 8 10) }
    ensures not_from_sunday { ¬ (IsOccasion rfc.from_monday
        (at_nine (pos 1997) 8 5) (at_nine (pos 1997) 8 17)) }
    ensures from_sunday { IsOccasion rfc.from_sunday
        (at_nine (pos 1997) 8 5) (at_nine (pos 1997) 8 17) }
    ensures not_from_monday { ¬ (IsOccasion rfc.from_sunday
        (at_nine (pos 1997) 8 5) (at_nine (pos 1997) 8 10)) }
{}

/// What no part says comes from the start. `FREQ=YEARLY` from 1997-11-02 on has 1998-11-02, and not
/// 2 October. `FREQ=YEARLY;BYMONTH=6,7` from 1997-06-10 on has 1998-07-10, and not 11 July or 10
/// August. `FREQ=WEEKLY` from 1997-09-02 on has the 9th, and not the 10th.
/// `FREQ=MONTHLY;BYDAY=FR;BYMONTHDAY=13` from that day on has 1998-02-13, and neither Friday the
/// 6th nor Tuesday 1998-01-13: it needs both.
pub fn dates_of_the_start()
    ensures yearly { IsOccasion (plain Frequency.Yearly 1)
        (at_nine (pos 1997) 11 2) (at_nine (pos 1998) 11 2) }
    ensures not_october { ¬ (IsOccasion (plain Frequency.Yearly 1)
        (at_nine (pos 1997) 11 2) (at_nine (pos 1998) 10 2)) }
    ensures in_july { IsOccasion rfc.in_june_and_july
        (at_nine (pos 1997) 6 10) (at_nine (pos 1998) 7 10) }
    ensures other_day { ¬ (IsOccasion rfc.in_june_and_july
        (at_nine (pos 1997) 6 10) (at_nine (pos 1998) 7 11)) }
    ensures in_august { ¬ (IsOccasion rfc.in_june_and_july
        (at_nine (pos 1997) 6 10) (at_nine (pos 1998) 8 10)) }
    ensures weekly { IsOccasion (plain Frequency.Weekly 1)
        (at_nine (pos 1997) 9 2) (at_nine (pos 1997) 9 9) }
    ensures other_weekday { ¬ (IsOccasion (plain Frequency.Weekly 1)
        (at_nine (pos 1997) 9 2) (at_nine (pos 1997) 9 10)) }
    ensures friday_the_13th { IsOccasion rfc.fridays_the_13th
        (at_nine (pos 1997) 9 2) (at_nine (pos 1998) 2 13) }
    ensures friday_the_6th { ¬ (IsOccasion rfc.fridays_the_13th
        (at_nine (pos 1997) 9 2) (at_nine (pos 1998) 2 6)) }
    ensures tuesday_the_13th { ¬ (IsOccasion rfc.fridays_the_13th
        (at_nine (pos 1997) 9 2) (at_nine (pos 1998) 1 13)) }
{}

/// From 1997-09-02 09:00:00 on, `FREQ=DAILY;BYHOUR=9,10,11,12,13,14,15,16;BYMINUTE=0,20,40` has
/// 10:20, and neither 10:30 nor 17:00 nor a second after 10:20. `FREQ=HOURLY;INTERVAL=3` has 12:00,
/// and neither 13:00 nor 12:01. `FREQ=MINUTELY;INTERVAL=90` has 10:30:00, and not 10:30:01.
/// `FREQ=DAILY` isn't at 10:00 on the next day.
pub fn times_of_day()
    ensures at_10_20 { IsOccasion rfc.every_20_minutes
        (at_nine (pos 1997) 9 2) (rfc.local (pos 1997) 9 2 10 20 0) }
    ensures at_10_30 { ¬ (IsOccasion rfc.every_20_minutes
        (at_nine (pos 1997) 9 2) (rfc.local (pos 1997) 9 2 10 30 0)) }
    ensures at_17 { ¬ (IsOccasion rfc.every_20_minutes
        (at_nine (pos 1997) 9 2) (rfc.local (pos 1997) 9 2 17 0 0)) }
    ensures second_after { ¬ (IsOccasion rfc.every_20_minutes
        (at_nine (pos 1997) 9 2) (rfc.local (pos 1997) 9 2 10 20 1)) }
    ensures hourly { IsOccasion (plain Frequency.Hourly 3)
        (at_nine (pos 1997) 9 2) (rfc.local (pos 1997) 9 2 12 0 0) }
    ensures hour_after { ¬ (IsOccasion (plain Frequency.Hourly 3)
        (at_nine (pos 1997) 9 2) (rfc.local (pos 1997) 9 2 13 0 0)) }
    ensures minute_after { ¬ (IsOccasion (plain Frequency.Hourly 3)
        (at_nine (pos 1997) 9 2) (rfc.local (pos 1997) 9 2 12 1 0)) }
    ensures by_minutes { IsOccasion (plain Frequency.Minutely 90)
        (at_nine (pos 1997) 9 2) (rfc.local (pos 1997) 9 2 10 30 0) }
    ensures other_hour { ¬ (IsOccasion (plain Frequency.Daily 1)
        (at_nine (pos 1997) 9 2) (rfc.local (pos 1997) 9 3 10 0 0)) }
    ensures not_by_seconds { ¬ (IsOccasion (plain Frequency.Minutely 90)
        (at_nine (pos 1997) 9 2) (rfc.local (pos 1997) 9 2 10 30 1)) }
{}
