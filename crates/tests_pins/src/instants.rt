//! Instants: what clocks with an offset show then, also days later, their order, their timestamps, and whole
//! years between what two clocks show.

ghost use Rattle.std.specs.Prelude.{◌≡◌, neg_ℤ, pos, Option, ℕ, ℤ};
ghost use Rattle.{
  naive_base.specs.{NaiveDate.{day_of}, Stamp.{IsSubsecond}},
  tests_pins.specs.{Instants.{in_new_york, noon, of_utc, own_seconds, PlainInstant}, Readings.{clock_reading}},
  zoned_time.specs.{DateTime.{day_shown_by, wall_of, zoned, IsOnlyDaysLater}, DateTime.{compared}},
  zoned_time.specs.{Years.{IsWholeYears, IsYearsSince}, Zone.{midnight_of}, Zoned.{local_of}, Relocal.{instant_of}},
  zoned_time.specs.Stamps.{micros_of, millis_of, of_micros, of_millis},
};

use naive_base::NaiveDate;
use std::cmp::Ordering;

/// New York's clocks show 2021-11-07 01:30:00 five hours and a half after 06:30:00 of UTC began to
/// be shown at Greenwich: at an offset of -5 hours.
pub fn shown()
    ensures local { local_of own_seconds (in_new_york (pos 1_636_266_600))
        ≡ record { s = pos 1_636_248_600; f = 5 } }
    ensures instant { instant_of own_seconds (record { s = pos 1_636_248_600; f = 5 })
        (neg_ℤ (pos 18_000))
        ≡ in_new_york (pos 1_636_266_600) }
{}

/// The second that a date means is that of its midnight: of 1970-01-01, of the day before and of
/// 2021-03-14.
#[tactic(auto, using(crate::proofs::Words::ints))]
pub fn midnights()
    ensures first { (date : NaiveDate) → day_of date ≡ pos 0 → midnight_of date ≡ pos 0 }
    ensures day_before { (date : NaiveDate) → day_of date ≡ neg_ℤ (pos 1)
        → midnight_of date ≡ neg_ℤ (pos 86_400) }
    ensures march_2021 { (date : NaiveDate) → day_of date ≡ pos 18_700
        → midnight_of date ≡ pos 1_615_680_000 }
{}

/// By the second first, then by the nanoseconds.
pub fn order()
    ensures second { compared (clock_reading 3 0 1 0) (clock_reading 3 0 0 999) ≡ Ordering.Greater }
    ensures nanoseconds { compared (clock_reading 3 0 0 998) (clock_reading 3 0 0 999)
        ≡ Ordering.Less }
    ensures leap_second { compared (clock_reading 2 59 59 1_999) (clock_reading 3 0 0 0)
        ≡ Ordering.Less }
    ensures same { compared (clock_reading 3 0 0 0) (clock_reading 3 0 0 0) ≡ Ordering.Equal }
{}

/// 1,444 milliseconds after 1970 began, a nanosecond before, and a leap second.
pub fn stamps()
    ensures millis { millis_of (clock_reading 0 0 1 444) ≡ pos 1_444 }
    ensures micros { micros_of (clock_reading 0 0 1 444) ≡ pos 1_444_000 }
    ensures millis_before_1970 { millis_of (record { s = neg_ℤ (pos 1); f = 999_999_999 })
        ≡ neg_ℤ (pos 1) }
    ensures micros_before_1970 { micros_of (record { s = neg_ℤ (pos 1); f = 999_999_999 })
        ≡ neg_ℤ (pos 1) }
    ensures millis_of_leap { millis_of (clock_reading 0 0 59 1_300) ≡ pos 60_300 }
    ensures micros_of_leap { micros_of (clock_reading 0 0 59 1_300) ≡ pos 60_300_000 }
    ensures of_millis { of_millis (neg_ℤ (pos 1)) ≡ record { s = neg_ℤ (pos 1); f = 999_000_000 } }
    ensures of_micros { of_micros (neg_ℤ (pos 1)) ≡ record { s = neg_ℤ (pos 1); f = 999_999_000 } }
{}

/// A timestamp may be in a leap second only after the last second of a minute.
pub fn leap_stamps()
    ensures last { IsSubsecond (pos 59) 1_999_999_999 }
    ensures too_long { ¬ (IsSubsecond (pos 59) 2_000_000_000) }
    ensures within_minute { ¬ (IsSubsecond (pos 58) 1_000_000_000) }
    ensures last_before_1970 { IsSubsecond (neg_ℤ (pos 1)) 1_000_000_000 }
{}

/// From 29 February 2000, noon, to 28 February 2001 no year has passed, to noon of 1 March one has,
/// and from noon to the second before noon four years later three.
pub fn years()
    ensures day_before { (n : ℤ) → IsWholeYears (noon (pos 2001) 2 28 0) (noon (pos 2000) 2 29 0) n
        → n ≡ pos 0 }
    ensures first_of_march { (n : ℤ)
        → IsWholeYears (noon (pos 2001) 3 1 0) (noon (pos 2000) 2 29 0) n
        → n ≡ pos 1 }
    ensures second_before { (n : ℤ)
        → IsWholeYears (noon (pos 2004) 2 29 0) (noon (pos 2000) 2 29 1) n
        → n ≡ pos 3 }
    ensures same_time { (n : ℤ) → IsWholeYears (noon (pos 2004) 2 29 1) (noon (pos 2000) 2 29 1) n
        → n ≡ pos 4 }
    ensures backwards { (n : ℤ) → IsWholeYears (noon (pos 1999) 2 28 0) (noon (pos 2000) 2 29 0) n
        → n ≡ neg_ℤ (pos 2) }
    ensures is_none { IsWholeYears (noon (pos 2001) 2 28 0) (noon (pos 2000) 2 29 0) (pos 0) }
    ensures is_one { IsWholeYears (noon (pos 2001) 3 1 0) (noon (pos 2000) 2 29 0) (pos 1) }
    ensures is_three { IsWholeYears (noon (pos 2004) 2 29 0) (noon (pos 2000) 2 29 1) (pos 3) }
    ensures is_four { IsWholeYears (noon (pos 2004) 2 29 1) (noon (pos 2000) 2 29 1) (pos 4) }
    ensures is_backwards { IsWholeYears (noon (pos 1999) 2 28 0) (noon (pos 2000) 2 29 0)
        (neg_ℤ (pos 2)) }
{}

/// Nine days after 2022-02-20, day 19043, clocks show 2022-03-01, and six days before it 2022-02-14. By
/// clocks of UTC it is noon nine days after noon.
pub fn days_later()
    ensures later { (d new : PlainInstant) → day_shown_by d ≡ pos 19_043
        → IsOnlyDaysLater of_utc d (pos 9) (Some new)
        → day_shown_by new ≡ pos 19_052 }
    ensures earlier { (d new : PlainInstant) → day_shown_by d ≡ pos 19_043
        → IsOnlyDaysLater of_utc d (neg_ℤ (pos 6)) (Some new)
        → day_shown_by new ≡ pos 19_037 }
    ensures is_later { (d new : PlainInstant) → wall_of d ≡ record { s = pos 1_645_358_400; f = 0 }
        → (zoned new).utc ≡ record { s = pos 1_646_136_000; f = 0 }
        → (zoned new).offset ≡ pos 0
        → IsOnlyDaysLater of_utc d (pos 9) (Some new) }
{}

/// From noon of 29 February 2000 to that of 29 February 2004 there are four years; backwards there is no
/// number of years.
pub fn years_since()
    ensures four { (n : Option ℕ)
        → IsYearsSince (noon (pos 2004) 2 29 0) (noon (pos 2000) 2 29 0) n
        → n ≡ Some 4 }
    ensures none { (n : Option ℕ)
        → IsYearsSince (noon (pos 1999) 2 28 0) (noon (pos 2000) 2 29 0) n
        → n ≡ None }
    ensures is_four { IsYearsSince (noon (pos 2004) 2 29 0) (noon (pos 2000) 2 29 0) (Some 4) }
    ensures is_none { IsYearsSince (noon (pos 1999) 2 28 0) (noon (pos 2000) 2 29 0) None }
{}
