//! Runs of dates: how many are left, as chrono's tests of its iterators have it.
#![tactic(auto, unfolding(crate::proofs::Computed::calendar))]

ghost use Rattle.std.specs.Prelude.{◌≡◌, neg_ℤ, pos, ◌+ℤ◌, ◌-ℤ◌};
ghost use Rattle.{
  naive_base.specs.{Date.{day_number}, Range.{first_day, last_day}},
  naive_base.specs.Runs.{days_after_first, days_back_from, days_back_left, days_before_last, days_from, days_left},
  naive_base.specs.Runs.{weeks_back_from, weeks_back_left, weeks_from, weeks_left},
};

use naive_base::{
    NaiveDateDaysBack, NaiveDateDaysIterator, NaiveDateWeeksBack, NaiveDateWeeksIterator,
};

/// The last date is 262142-12-31, and isn't in a run. From 29 December on two days are left, and
/// from 12 December on two weeks; from the day after the last date on none.
pub fn forward()
    ensures days { (run : NaiveDateDaysIterator)
        → days_from run ≡ day_number (pos 262_142) 12 29 → days_left run ≡ 2 }
    ensures weeks { (run : NaiveDateWeeksIterator)
        → weeks_from run ≡ day_number (pos 262_142) 12 12 → weeks_left run ≡ 2 }
    ensures last { days_before_last (day_number (pos 262_142) 12 31) ≡ 0 }
    ensures after { days_before_last (last_day +ℤ pos 1) ≡ 0 }
{}

/// The first date is -262143-01-01, and isn't in a run back. From 3 January back two days are left,
/// and from 15 January back two weeks; from the day before the first date none.
pub fn back()
    ensures days { (run : NaiveDateDaysBack)
        → days_back_from run ≡ day_number (neg_ℤ (pos 262_143)) 1 3 → days_back_left run ≡ 2 }
    ensures weeks { (run : NaiveDateWeeksBack)
        → weeks_back_from run ≡ day_number (neg_ℤ (pos 262_143)) 1 15 → weeks_back_left run ≡ 2 }
    ensures first { days_after_first (day_number (neg_ℤ (pos 262_143)) 1 1) ≡ 0 }
    ensures before { days_after_first (first_day -ℤ pos 1) ≡ 0 }
{}
