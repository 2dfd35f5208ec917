//! Which rules RFC 5545 allows, by its section 3.3.10.
#![tactic(auto, unfolding(crate::proofs::Computed::calendar))]

ghost use Rattle.std.specs.Prelude.{◌∷◌, [], neg_ℤ, pos, Contains};
ghost use Rattle.{
  naive_rrule.specs.AllowedRules.{HasAllowedNumbers, IsAllowed, IsFault},
  tests_pins.specs.Recurrences.{every, local, nth, on_weekdays, plain},
};
ghost use Rattle.tests_pins.specs.Recurrences as rfc;

use naive_base::Weekday;
use naive_rrule::{Frequency, RecurrenceEnd, RecurrenceError, RecurrenceRule};

/// Rules of the RFC's examples, from 1970-01-01 on: `FREQ=YEARLY;BYWEEKNO=20;BYDAY=MO`,
/// `FREQ=YEARLY;INTERVAL=3;BYYEARDAY=1,100,200`, `FREQ=MONTHLY;BYMONTHDAY=-3`,
/// `FREQ=YEARLY;BYMONTH=10;BYDAY=-1SU` and `FREQ=MONTHLY;BYDAY=TU,WE,TH;BYSETPOS=3`.
pub fn allowed()
    ensures week_number { IsAllowed (rfc.in_week_20 Frequency.Yearly (every Weekday.Mon))
        (pos 0) RecurrenceEnd.Never }
    ensures year_day { IsAllowed (rfc.three_days Frequency.Yearly) (pos 0) (RecurrenceEnd.Count 1) }
    ensures month_day { IsAllowed (rfc.third_days_to_the_last Frequency.Monthly)
        (pos 0) RecurrenceEnd.Never }
    ensures nth { IsAllowed rfc.last_sundays_of_october (pos 0) RecurrenceEnd.Never }
    ensures position { IsAllowed rfc.third_of_three (pos 0) RecurrenceEnd.Never }
    ensures no_fault { (e : RecurrenceError)
        → ¬ (IsFault rfc.third_of_three (pos 0) (RecurrenceEnd.Count 3) e) }
{}

/// `BYWEEKNO` isn't for months, `BYYEARDAY` for months, weeks and days, nor `BYMONTHDAY` for weeks.
/// Numbers of `BYDAY` aren't for weeks, nor for years with `BYWEEKNO`. `BYSETPOS` isn't allowed
/// without another part.
pub fn forbidden()
    ensures week_number { IsFault (rfc.in_week_20 Frequency.Monthly (every Weekday.Mon))
        (pos 0) RecurrenceEnd.Never RecurrenceError.WeekNumber }
    ensures monthly { IsFault (rfc.three_days Frequency.Monthly)
        (pos 0) RecurrenceEnd.Never RecurrenceError.YearDay }
    ensures weekly { IsFault (rfc.three_days Frequency.Weekly)
        (pos 0) RecurrenceEnd.Never RecurrenceError.YearDay }
    ensures daily { IsFault (rfc.three_days Frequency.Daily)
        (pos 0) RecurrenceEnd.Never RecurrenceError.YearDay }
    ensures month_day { IsFault (rfc.third_days_to_the_last Frequency.Weekly)
        (pos 0) RecurrenceEnd.Never RecurrenceError.MonthDay }
    ensures nth { IsFault (on_weekdays Frequency.Weekly (nth (pos 1) Weekday.Fri ∷ []))
        (pos 0) RecurrenceEnd.Never RecurrenceError.NthWeekday }
    ensures nth_in_week { IsFault (rfc.in_week_20 Frequency.Yearly (nth (pos 1) Weekday.Mon))
        (pos 0) RecurrenceEnd.Never RecurrenceError.NthWeekday }
    ensures position { IsFault (rfc.at_position (pos 3) [])
        (pos 0) RecurrenceEnd.Never RecurrenceError.SetPosition }
{}

/// A start lies in the years 0 to 9999; `INTERVAL` and `COUNT` are positive.
pub fn starts_and_counts()
    ensures year_0 { ¬ (IsFault (plain Frequency.Daily 1)
        (local (pos 0) 1 1 0 0 0) RecurrenceEnd.Never RecurrenceError.Start) }
    ensures before { IsFault (plain Frequency.Daily 1)
        (local (neg_ℤ (pos 1)) 12 31 23 59 59) RecurrenceEnd.Never RecurrenceError.Start }
    ensures year_9999 { ¬ (IsFault (plain Frequency.Daily 1)
        (local (pos 9999) 12 31 23 59 59) RecurrenceEnd.Never RecurrenceError.Start) }
    ensures after { IsFault (plain Frequency.Daily 1)
        (local (pos 10_000) 1 1 0 0 0) RecurrenceEnd.Never RecurrenceError.Start }
    ensures interval_0 { IsFault (plain Frequency.Daily 0)
        (pos 0) RecurrenceEnd.Never RecurrenceError.Interval }
    ensures count_0 { IsFault (plain Frequency.Daily 1)
        (pos 0) (RecurrenceEnd.Count 0) RecurrenceError.Count }
{}

/// The least and the greatest number of each part, and one beyond it.
pub fn numbers()
    ensures widest { HasAllowedNumbers rfc.widest }
    ensures month { (r : RecurrenceRule) → Contains r.by_month.now 13 → ¬ (HasAllowedNumbers r) }
    ensures week { (r : RecurrenceRule) → Contains r.by_week_number.now (neg_ℤ (pos 54))
        → ¬ (HasAllowedNumbers r) }
    ensures year_day { (r : RecurrenceRule) → Contains r.by_year_day.now (pos 367)
        → ¬ (HasAllowedNumbers r) }
    ensures month_day { (r : RecurrenceRule) → Contains r.by_month_day.now (pos 0)
        → ¬ (HasAllowedNumbers r) }
    ensures weekday { (r : RecurrenceRule) → Contains r.by_weekday.now (nth (pos 54) Weekday.Mon)
        → ¬ (HasAllowedNumbers r) }
    ensures hour { (r : RecurrenceRule) → Contains r.by_hour.now 24 → ¬ (HasAllowedNumbers r) }
    ensures minute { (r : RecurrenceRule) → Contains r.by_minute.now 60 → ¬ (HasAllowedNumbers r) }
    ensures second { (r : RecurrenceRule) → Contains r.by_second.now 61 → ¬ (HasAllowedNumbers r) }
    ensures position { (r : RecurrenceRule) → Contains r.by_set_position.now (pos 0)
        → ¬ (HasAllowedNumbers r) }
{}
