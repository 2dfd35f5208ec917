//! The texts of rules of RFC 5545, by its section 3.3.10 and by examples of its section 3.8.5.3.
#![tactic(auto, unfolding(crate::proofs::Computed::calendar))]

ghost use Rattle.std.specs.Prelude.{◌≡◌, ◌∷◌, [], codes, neg_ℤ, pos, Err, Ok, Some};
ghost use Rattle.{
  naive_base.specs.NaiveDateTime.{reading},
  tests_pins.specs.Recurrences.{nth},
};
ghost use Rattle.naive_rrule.specs.RuleTexts as recur;
ghost use Rattle.naive_rrule.specs.RulePrints as prints;
ghost use Rattle.naive_rrule.specs.declared.rule_text.RuleExpected.TheVariants as expected;
ghost use Rattle.naive_rrule.specs.declared.rule_text.RuleEnd.TheVariants as ends;
ghost use Rattle.naive_rrule.specs.declared.rule_text.RuleTextError.TheVariants as errors;

use naive_base::{NaiveDateTime, Weekday};
use naive_rrule::{Frequency, RecurrenceEnd, RecurrenceRule};

/// Parts in any order, in either case; the first and the last Sunday; an `UNTIL` as a date and in UTC.
pub fn texts()
    ensures ten_days { recur.rule_of (codes "FREQ=DAILY;COUNT=10")
        ≡ Ok (record recur.none { frequency = Some Frequency.Daily; end = ends.Count 10 }) }
    ensures sundays { recur.rule_of (codes "byday=1su,-1SU;Interval=2;FREQ=MONTHLY")
        ≡ Ok (record recur.none {
          frequency = Some Frequency.Monthly;
          interval = Some 2;
          by_weekday = nth (pos 1) Weekday.Sun ∷ nth (neg_ℤ (pos 1)) Weekday.Sun ∷ [];
        }) }
    ensures numbers { recur.rule_of (codes "FREQ=DAILY;BYMONTHDAY=+03,-4;BYHOUR=09;WKST=SU")
        ≡ Ok (record recur.none {
          frequency = Some Frequency.Daily;
          week_start = Some Weekday.Sun;
          by_month_day = pos 3 ∷ neg_ℤ (pos 4) ∷ [];
          by_hour = 9 ∷ [];
        }) }
    ensures until_date { recur.rule_of (codes "FREQ=DAILY;UNTIL=19971224")
        ≡ Ok (record recur.none {
          frequency = Some Frequency.Daily;
          end = ends.Date (record { year = 1997; month = 12; day = 24 });
        }) }
    ensures until_utc { recur.rule_of (codes "FREQ=DAILY;UNTIL=19971224T000000Z")
        ≡ Ok (record recur.none {
          frequency = Some Frequency.Daily;
          end = ends.Utc (record { year = 1997; month = 12; day = 24 })
              (record { hour = 0; minute = 0; second = 0 });
        }) }
{}

/// The first fault: a part that comes twice, `COUNT` with `UNTIL`, no `FREQ`, an empty text and an empty
/// part, a number without digits or with three, a day that the calendar doesn't have.
pub fn faults()
    ensures twice { recur.rule_of (codes "FREQ=DAILY;FREQ=DAILY")
        ≡ Err (errors.Syntax 11 expected.OtherPart) }
    ensures both_ends { recur.rule_of (codes "FREQ=DAILY;COUNT=3;UNTIL=19971224")
        ≡ Err (errors.Syntax 19 expected.OtherPart) }
    ensures no_frequency { recur.rule_of (codes "COUNT=3")
        ≡ Err (errors.Syntax 7 expected.FrequencyPart) }
    ensures empty { recur.rule_of [] ≡ Err (errors.Syntax 0 expected.PartName) }
    ensures no_value { recur.rule_of (codes "FREQ") ≡ Err (errors.Syntax 4 expected.EqualsSign) }
    ensures no_digit { recur.rule_of (codes "FREQ=DAILY;BYHOUR=9,,11")
        ≡ Err (errors.Syntax 20 expected.Number) }
    ensures three_digits { recur.rule_of (codes "FREQ=DAILY;BYHOUR=009")
        ≡ Err (errors.Syntax 18 expected.Number) }
    ensures place_0 { recur.rule_of (codes "FREQ=MONTHLY;BYDAY=MO,0TU")
        ≡ Err (errors.Syntax 22 expected.Weekday) }
    ensures no_date { recur.rule_of (codes "FREQ=DAILY;UNTIL=19970229")
        ≡ Err (errors.Syntax 17 expected.DateOrDateTime) }
{}

/// `UNTIL=19971224` lets all of that day through, up to 23:59:59, and `UNTIL=19971224T000000Z` is 19:00 on the
/// day before on clocks at -05:00.
pub fn ends()
    ensures last_second { (l : NaiveDateTime) → (reading l).s ≡ pos 883_007_999
        → recur.IsLocalEnd (ends.Date (record { year = 1997; month = 12; day = 24 })) (pos 0)
        (RecurrenceEnd.Until l) }
    ensures not_midnight { (l : NaiveDateTime) → (reading l).s ≡ pos 882_921_600
        → ¬ (recur.IsLocalEnd (ends.Date (record { year = 1997; month = 12; day = 24 })) (pos 0)
        (RecurrenceEnd.Until l)) }
    ensures utc { (l : NaiveDateTime) → (reading l).s ≡ pos 882_903_600
        → recur.IsLocalEnd (ends.Utc (record { year = 1997; month = 12; day = 24 })
        (record { hour = 0; minute = 0; second = 0 })) (neg_ℤ (pos 18_000))
        (RecurrenceEnd.Until l) }
    ensures utc_shown { recur.utc_of (ends.Utc (record { year = 1997; month = 12; day = 24 })
        (record { hour = 0; minute = 0; second = 1 })) ≡ Some (pos 882_921_601) }
    ensures defaults { (r : RecurrenceRule) → recur.IsRuleOf recur.none r → ⊥ }
{}

/// Parts in capital letters, and a list's entries with commas between.
#[tactic(auto, unfolding(crate::proofs::Computed::printing))]
pub fn printed()
    ensures fridays { prints.rule_text (record recur.none {
      frequency = Some Frequency.Monthly;
      by_weekday = nth (neg_ℤ (pos 1)) Weekday.Fri ∷ nth (pos 0) Weekday.Mon ∷ [];
      end = ends.Count 3;
    })
        ≡ codes "FREQ=MONTHLY;BYDAY=-1FR,MO;COUNT=3" }
    ensures until { prints.rule_text (record recur.none {
      frequency = Some Frequency.Daily;
      interval = Some 2;
      end = ends.Utc (record { year = 1997; month = 12; day = 4 })
          (record { hour = 9; minute = 5; second = 0 });
    })
        ≡ codes "FREQ=DAILY;INTERVAL=2;UNTIL=19971204T090500Z" }
{}
