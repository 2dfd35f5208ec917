//! Theorems: each function is empty, its contract is proved; never called.
ghost use Rattle.std.specs.{Ordering.{int_cmp, nat_cmp, ordering_then, MatchOrdering}, Prelude.{◌≡◌, ◌↔◌, ◌-◌, ◌++◌, pos, IsTrue}};
ghost use Rattle.{
  naive_base.specs.{IsoWeek.{iso_number, iso_year}, Reading.{IsEarlier, IsEarlierTime}, Week.{first_of}},
  naive_base.specs.{MonthNames.{number_of_month}, NaiveDateTime.{reading}},
  naive_base.specs.{Runs.{days_back_from, days_from, weeks_back_from, weeks_from}, Months.{days_of, months_of}},
  naive_base.specs.{NaiveDate.{day_of}, NaiveTime.{fraction_of, second_of}, Weekday.{days_from_monday, weekday_number}},
};
ghost use Rattle.std.specs.Hash as fed;

use crate::{
    Days, IsoWeek, Month, Months, NaiveDate, NaiveDateDaysBack, NaiveDateDaysIterator,
    NaiveDateTime, NaiveDateWeeksBack, NaiveDateWeeksIterator, NaiveTime, NaiveWeek, OutOfRange,
    Weekday,
};
use std::hash::Hash;

/// Dates are equal if and only if their days are, and compare by these; a hash looks at the day,
/// and a clone is the date.
#[tactic(auto, using(crate::proofs::Values::same_date))]
pub fn dates()
    ensures equal { (a b : NaiveDate) → IsTrue (⟦<NaiveDate as PartialEq>⟧.eq a b)
        ↔ (day_of a ≡ day_of b) }
    ensures same { (a b : NaiveDate) → day_of a ≡ day_of b → a ≡ b }
    ensures order { (a b : NaiveDate) → ⟦<NaiveDate as Ord>⟧.cmp a b ≡ int_cmp (day_of a) (day_of b) }
    ensures part_ordered { (a b : NaiveDate) → ⟦<NaiveDate as PartialOrd>⟧.partial_cmp a b
        ≡ Some (⟦<NaiveDate as Ord>⟧.cmp a b) }
    ensures hashed { (a : NaiveDate) → ⟦<NaiveDate as Hash>⟧.hash_input a ≡ fed.i32 (day_of a) }
    ensures cloned { (a b : NaiveDate) → ⟦<NaiveDate as Clone>⟧.is_clone a b ↔ (a ≡ b) }
    ensures infallible { (a : NaiveDate) → ⟦<NaiveDate as Clone>⟧.is_infallible a }
{}

/// Times are equal if and only if their seconds of the day and their nanoseconds are, and compare
/// by these in turn; a hash looks at both, and a clone is the time.
#[tactic(auto, using(crate::proofs::Values::same_time))]
pub fn times()
    ensures equal { (a b : NaiveTime) → IsTrue (⟦<NaiveTime as PartialEq>⟧.eq a b)
        ↔ ((second_of a ≡ second_of b) × (fraction_of a ≡ fraction_of b)) }
    ensures same { (a b : NaiveTime) → second_of a ≡ second_of b → fraction_of a ≡ fraction_of b
        → a ≡ b }
    ensures order { (a b : NaiveTime) → MatchOrdering (⟦<NaiveTime as Ord>⟧.cmp a b)
        (IsEarlierTime (second_of a) (fraction_of a) (second_of b) (fraction_of b))
        ((second_of a ≡ second_of b) × (fraction_of a ≡ fraction_of b))
        (IsEarlierTime (second_of b) (fraction_of b) (second_of a) (fraction_of a)) }
    ensures part_ordered { (a b : NaiveTime) → ⟦<NaiveTime as PartialOrd>⟧.partial_cmp a b
        ≡ Some (⟦<NaiveTime as Ord>⟧.cmp a b) }
    ensures hashed { (a : NaiveTime) → ⟦<NaiveTime as Hash>⟧.hash_input a
        ≡ fed.u32 (second_of a) ++ fed.u32 (fraction_of a) }
    ensures cloned { (a b : NaiveTime) → ⟦<NaiveTime as Clone>⟧.is_clone a b ↔ (a ≡ b) }
    ensures infallible { (a : NaiveTime) → ⟦<NaiveTime as Clone>⟧.is_infallible a }
{}

/// Local date-times are equal if and only if their seconds and their nanoseconds are, and compare
/// by these in turn; a hash looks at both, and a clone is the local date-time.
#[tactic(auto, using(crate::proofs::Values::same_reading))]
pub fn readings()
    ensures equal { (a b : NaiveDateTime) → IsTrue (⟦<NaiveDateTime as PartialEq>⟧.eq a b)
        ↔ (((reading a).s ≡ (reading b).s) × ((reading a).f ≡ (reading b).f)) }
    ensures same { (a b : NaiveDateTime) → (reading a).s ≡ (reading b).s
        → (reading a).f ≡ (reading b).f → a ≡ b }
    ensures order { (a b : NaiveDateTime) → MatchOrdering (⟦<NaiveDateTime as Ord>⟧.cmp a b)
        (IsEarlier (reading a) (reading b))
        (((reading a).s ≡ (reading b).s) × ((reading a).f ≡ (reading b).f))
        (IsEarlier (reading b) (reading a)) }
    ensures part_ordered { (a b : NaiveDateTime) → ⟦<NaiveDateTime as PartialOrd>⟧.partial_cmp a b
        ≡ Some (⟦<NaiveDateTime as Ord>⟧.cmp a b) }
    ensures hashed { (a : NaiveDateTime) → ⟦<NaiveDateTime as Hash>⟧.hash_input a
        ≡ fed.i64 (reading a).s ++ fed.u32 (reading a).f }
    ensures cloned { (a b : NaiveDateTime) → ⟦<NaiveDateTime as Clone>⟧.is_clone a b ↔ (a ≡ b) }
    ensures infallible { (a : NaiveDateTime) → ⟦<NaiveDateTime as Clone>⟧.is_infallible a }
{}

/// Months are equal if and only if their numbers are, and compare by these; a hash looks at the
/// number, and a clone is the same months.
pub fn months()
    ensures equal { (a b : Months) → IsTrue (⟦<Months as PartialEq>⟧.eq a b)
        ↔ (months_of a ≡ months_of b) }
    ensures order { (a b : Months) → ⟦<Months as Ord>⟧.cmp a b
        ≡ nat_cmp (months_of a) (months_of b) }
    ensures part_ordered { (a b : Months) → ⟦<Months as PartialOrd>⟧.partial_cmp a b
        ≡ Some (⟦<Months as Ord>⟧.cmp a b) }
    ensures hashed { (a : Months) → ⟦<Months as Hash>⟧.hash_input a ≡ fed.u32 (months_of a) }
    ensures cloned { (a b : Months) → ⟦<Months as Clone>⟧.is_clone a b ↔ (a ≡ b) }
    ensures infallible { (a : Months) → ⟦<Months as Clone>⟧.is_infallible a }
{}

/// Days are equal if and only if their numbers are, and compare by these; a hash looks at the
/// number, and a clone is the same days.
pub fn days()
    ensures equal { (a b : Days) → IsTrue (⟦<Days as PartialEq>⟧.eq a b)
        ↔ (days_of a ≡ days_of b) }
    ensures order { (a b : Days) → ⟦<Days as Ord>⟧.cmp a b ≡ nat_cmp (days_of a) (days_of b) }
    ensures part_ordered { (a b : Days) → ⟦<Days as PartialOrd>⟧.partial_cmp a b
        ≡ Some (⟦<Days as Ord>⟧.cmp a b) }
    ensures hashed { (a : Days) → ⟦<Days as Hash>⟧.hash_input a ≡ fed.u64 (days_of a) }
    ensures cloned { (a b : Days) → ⟦<Days as Clone>⟧.is_clone a b ↔ (a ≡ b) }
    ensures infallible { (a : Days) → ⟦<Days as Clone>⟧.is_infallible a }
{}

/// Weekdays are equal if and only if their numbers are; a hash looks at the days from Monday, and a
/// clone is the weekday.
pub fn weekdays()
    ensures equal { (a b : Weekday) → IsTrue (⟦<Weekday as PartialEq>⟧.eq a b) ↔ (a ≡ b) }
    ensures numbered { (a b : Weekday) → weekday_number a ≡ weekday_number b → a ≡ b }
    ensures hashed { (a : Weekday) → ⟦<Weekday as Hash>⟧.hash_input a
        ≡ fed.isize (pos (days_from_monday a)) }
    ensures cloned { (a b : Weekday) → ⟦<Weekday as Clone>⟧.is_clone a b ↔ (a ≡ b) }
    ensures infallible { (a : Weekday) → ⟦<Weekday as Clone>⟧.is_infallible a }
{}

/// ISO weeks are equal if and only if their years and their numbers are, and compare by these in
/// turn; a hash looks at both, and a clone is the week.
#[tactic(auto, using(crate::proofs::Values::same_week))]
pub fn iso_weeks()
    ensures equal { (a b : IsoWeek) → IsTrue (⟦<IsoWeek as PartialEq>⟧.eq a b)
        ↔ ((iso_year a ≡ iso_year b) × (iso_number a ≡ iso_number b)) }
    ensures same { (a b : IsoWeek) → iso_year a ≡ iso_year b → iso_number a ≡ iso_number b
        → a ≡ b }
    ensures order { (a b : IsoWeek) → ⟦<IsoWeek as Ord>⟧.cmp a b
        ≡ ordering_then (int_cmp (iso_year a) (iso_year b)) (nat_cmp (iso_number a)
        (iso_number b)) }
    ensures part_ordered { (a b : IsoWeek) → ⟦<IsoWeek as PartialOrd>⟧.partial_cmp a b
        ≡ Some (⟦<IsoWeek as Ord>⟧.cmp a b) }
    ensures hashed { (a : IsoWeek) → ⟦<IsoWeek as Hash>⟧.hash_input a
        ≡ fed.i32 (iso_year a) ++ fed.u32 (iso_number a) }
    ensures cloned { (a b : IsoWeek) → ⟦<IsoWeek as Clone>⟧.is_clone a b ↔ (a ≡ b) }
    ensures infallible { (a : IsoWeek) → ⟦<IsoWeek as Clone>⟧.is_infallible a }
{}

/// Months of the year are equal if and only if they are the same, and compare by their numbers; a
/// hash looks at the months before it, and a clone is the month.
pub fn months_by_name()
    ensures equal { (a b : Month) → IsTrue (⟦<Month as PartialEq>⟧.eq a b) ↔ (a ≡ b) }
    ensures numbered { (a b : Month) → number_of_month a ≡ number_of_month b → a ≡ b }
    ensures order { (a b : Month) → ⟦<Month as Ord>⟧.cmp a b
        ≡ nat_cmp (number_of_month a) (number_of_month b) }
    ensures part_ordered { (a b : Month) → ⟦<Month as PartialOrd>⟧.partial_cmp a b
        ≡ Some (⟦<Month as Ord>⟧.cmp a b) }
    ensures hashed { (a : Month) → ⟦<Month as Hash>⟧.hash_input a
        ≡ fed.isize (pos (number_of_month a - 1)) }
    ensures cloned { (a b : Month) → ⟦<Month as Clone>⟧.is_clone a b ↔ (a ≡ b) }
    ensures infallible { (a : Month) → ⟦<Month as Clone>⟧.is_infallible a }
{}

/// Weeks are equal if and only if their first days are; a hash looks at the first day, and a clone
/// is the week.
pub fn weeks()
    ensures equal { (a b : NaiveWeek) → IsTrue (⟦<NaiveWeek as PartialEq>⟧.eq a b)
        ↔ (first_of a ≡ first_of b) }
    ensures hashed { (a : NaiveWeek) → ⟦<NaiveWeek as Hash>⟧.hash_input a
        ≡ fed.i32 (first_of a) }
    ensures cloned { (a b : NaiveWeek) → ⟦<NaiveWeek as Clone>⟧.is_clone a b ↔ (a ≡ b) }
    ensures infallible { (a : NaiveWeek) → ⟦<NaiveWeek as Clone>⟧.is_infallible a }
{}

/// Runs of days, or of weeks, are equal if and only if their next dates are, and compare and hash
/// by these; a clone is the run.
pub fn runs()
    ensures days_equal { (a b : NaiveDateDaysIterator)
        → IsTrue (⟦<NaiveDateDaysIterator as PartialEq>⟧.eq a b) ↔ (days_from a ≡ days_from b) }
    ensures days_order { (a b : NaiveDateDaysIterator) → ⟦<NaiveDateDaysIterator as Ord>⟧.cmp a b
        ≡ int_cmp (days_from a) (days_from b) }
    ensures days_part_ordered { (a b : NaiveDateDaysIterator)
        → ⟦<NaiveDateDaysIterator as PartialOrd>⟧.partial_cmp a b
        ≡ Some (⟦<NaiveDateDaysIterator as Ord>⟧.cmp a b) }
    ensures days_hashed { (a : NaiveDateDaysIterator) → ⟦<NaiveDateDaysIterator as Hash>⟧.hash_input a
        ≡ fed.i32 (days_from a) }
    ensures days_cloned { (a b : NaiveDateDaysIterator)
        → ⟦<NaiveDateDaysIterator as Clone>⟧.is_clone a b ↔ (a ≡ b) }
    ensures days_infallible { (a : NaiveDateDaysIterator)
        → ⟦<NaiveDateDaysIterator as Clone>⟧.is_infallible a }
    ensures weeks_equal { (a b : NaiveDateWeeksIterator)
        → IsTrue (⟦<NaiveDateWeeksIterator as PartialEq>⟧.eq a b) ↔ (weeks_from a ≡ weeks_from b) }
    ensures weeks_order { (a b : NaiveDateWeeksIterator) → ⟦<NaiveDateWeeksIterator as Ord>⟧.cmp a b
        ≡ int_cmp (weeks_from a) (weeks_from b) }
    ensures weeks_part_ordered { (a b : NaiveDateWeeksIterator)
        → ⟦<NaiveDateWeeksIterator as PartialOrd>⟧.partial_cmp a b
        ≡ Some (⟦<NaiveDateWeeksIterator as Ord>⟧.cmp a b) }
    ensures weeks_hashed { (a : NaiveDateWeeksIterator) → ⟦<NaiveDateWeeksIterator as Hash>⟧.hash_input a
        ≡ fed.i32 (weeks_from a) }
    ensures weeks_cloned { (a b : NaiveDateWeeksIterator)
        → ⟦<NaiveDateWeeksIterator as Clone>⟧.is_clone a b ↔ (a ≡ b) }
    ensures weeks_infallible { (a : NaiveDateWeeksIterator)
        → ⟦<NaiveDateWeeksIterator as Clone>⟧.is_infallible a }
{}

/// Runs that go back in time are equal if and only if their next dates are; a clone is the run.
pub fn runs_back()
    ensures days_equal { (a b : NaiveDateDaysBack)
        → IsTrue (⟦<NaiveDateDaysBack as PartialEq>⟧.eq a b) ↔ (days_back_from a ≡ days_back_from b) }
    ensures days_cloned { (a b : NaiveDateDaysBack)
        → ⟦<NaiveDateDaysBack as Clone>⟧.is_clone a b ↔ (a ≡ b) }
    ensures days_infallible { (a : NaiveDateDaysBack)
        → ⟦<NaiveDateDaysBack as Clone>⟧.is_infallible a }
    ensures weeks_equal { (a b : NaiveDateWeeksBack)
        → IsTrue (⟦<NaiveDateWeeksBack as PartialEq>⟧.eq a b) ↔ (weeks_back_from a ≡ weeks_back_from b) }
    ensures weeks_cloned { (a b : NaiveDateWeeksBack)
        → ⟦<NaiveDateWeeksBack as Clone>⟧.is_clone a b ↔ (a ≡ b) }
    ensures weeks_infallible { (a : NaiveDateWeeksBack)
        → ⟦<NaiveDateWeeksBack as Clone>⟧.is_infallible a }
{}

/// Errors of numbers that no weekday and no month has are equal, and a clone is the error.
pub fn out_of_range()
    ensures equal { (a b : OutOfRange) → IsTrue (⟦<OutOfRange as PartialEq>⟧.eq a b) }
    ensures cloned { (a b : OutOfRange) → ⟦<OutOfRange as Clone>⟧.is_clone a b ↔ (a ≡ b) }
    ensures infallible { (a : OutOfRange) → ⟦<OutOfRange as Clone>⟧.is_infallible a }
{}
