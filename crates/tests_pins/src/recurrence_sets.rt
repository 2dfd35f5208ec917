//! Recurrences of RFC 5545: `BYSETPOS`, `COUNT`, `UNTIL` and the years of a rule, by examples of
//! its section 3.8.5.3.
#![tactic(auto, unfolding(crate::proofs::Computed::calendar))]

ghost use Rattle.std.specs.Prelude.{◌≡◌, pos};
ghost use Rattle.{
  naive_base.specs.NaiveDateTime.{reading},
  naive_rrule.specs.RecurrenceSets.{HasTimesOf, IsAtPosition, IsRecurrenceTime, IsRuleTime},
  tests_pins.specs.Recurrences.{at_nine},
};
ghost use Rattle.tests_pins.specs.Recurrences as rfc;

use naive_base::NaiveDateTime;
use naive_rrule::RecurrenceEnd;

/// `FREQ=DAILY;INTERVAL=10;COUNT=5` from 1997-09-02 on has 12 October as its fifth time, and not
/// the 22nd. Its times are those of the rule without `COUNT` up to 12 October, and not those up to
/// the 22nd.
pub fn counts()
    ensures fifth { IsRecurrenceTime rfc.every_tenth_day (at_nine (pos 1997) 9 2)
        (RecurrenceEnd.Count 5) (at_nine (pos 1997) 10 12) }
    ensures sixth { ¬ (IsRecurrenceTime rfc.every_tenth_day (at_nine (pos 1997) 9 2)
        (RecurrenceEnd.Count 5) (at_nine (pos 1997) 10 22)) }
    ensures up_to_fifth { HasTimesOf rfc.every_tenth_day
        (at_nine (pos 1997) 9 2) (at_nine (pos 1997) 10 12)
        rfc.every_tenth_day (at_nine (pos 1997) 9 2) (RecurrenceEnd.Count 5) }
    ensures not_up_to_sixth { ¬ (HasTimesOf rfc.every_tenth_day
        (at_nine (pos 1997) 9 2) (at_nine (pos 1997) 10 22)
        rfc.every_tenth_day (at_nine (pos 1997) 9 2) (RecurrenceEnd.Count 5)) }
{}

/// `FREQ=DAILY;UNTIL=20000131T140000Z;BYMONTH=1` in New York, where that is 09:00, from 1998-01-01
/// on: 2000-01-31 at 09:00 is in it, and 2001-01-01 isn't. Without an end it goes on up to the year
/// 9999. `FREQ=WEEKLY;INTERVAL=2;BYDAY=TU,SU;WKST=SU` from Tuesday 1997-08-05 on doesn't have the
/// Sunday before it, which is of the same week.
pub fn ends()
    ensures last { (last : NaiveDateTime) → (reading last).s ≡ at_nine (pos 2000) 1 31
        → IsRecurrenceTime rfc.days_of_january (at_nine (pos 1998) 1 1)
        (RecurrenceEnd.Until last) (at_nine (pos 2000) 1 31) }
    ensures later { (last : NaiveDateTime) → (reading last).s ≡ at_nine (pos 2000) 1 31
        → ¬ (IsRecurrenceTime rfc.days_of_january (at_nine (pos 1998) 1 1)
        (RecurrenceEnd.Until last) (at_nine (pos 2001) 1 1)) }
    ensures without_end { IsRecurrenceTime rfc.days_of_january (at_nine (pos 1998) 1 1)
        RecurrenceEnd.Never (at_nine (pos 9999) 1 31) }
    ensures year_10000 { ¬ (IsRuleTime rfc.days_of_january (at_nine (pos 1998) 1 1)
        (at_nine (pos 10_000) 1 1)) }
    ensures before_start { ¬ (IsRuleTime rfc.from_sunday (at_nine (pos 1997) 8 5)
        (at_nine (pos 1997) 8 3)) }
{}

/// `FREQ=MONTHLY;BYDAY=TU,WE,TH;BYSETPOS=3` from 1997-09-04 on has that Thursday, which comes third
/// in September, and not the Tuesday after it. `FREQ=MONTHLY;BYDAY=MO,TU,WE,TH,FR;BYSETPOS=-2` from
/// 1997-09-29 on has that day, which is the last work day of September but one, and not the 30th.
pub fn positions()
    ensures third { IsAtPosition rfc.third_of_three
        (at_nine (pos 1997) 9 4) (at_nine (pos 1997) 9 4) }
    ensures fourth { ¬ (IsAtPosition rfc.third_of_three
        (at_nine (pos 1997) 9 4) (at_nine (pos 1997) 9 9)) }
    ensures last_but_one { IsAtPosition rfc.last_work_day_but_one
        (at_nine (pos 1997) 9 29) (at_nine (pos 1997) 9 29) }
    ensures last { ¬ (IsAtPosition rfc.last_work_day_but_one
        (at_nine (pos 1997) 9 29) (at_nine (pos 1997) 9 30)) }
{}
