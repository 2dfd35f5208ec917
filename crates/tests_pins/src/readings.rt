//! Local date-times in a leap second: moves and differences, as chrono's documentation gives them.

ghost use Rattle.std.specs.Prelude.{◌≡◌, ◌≢◌, ◌<◌, neg_ℤ, pos};
ghost use Rattle.{
  naive_base.specs.{NaiveDateTime.{reading}, Clock.{clock_second, IsFraction}, Reading.{difference, moved, IsEarlier, Reading}},
  tests_pins.specs.Readings.{clock_reading},
};

use naive_base::NaiveDateTime;

/// What a `NaiveDateTime` shows: 86400 seconds after 1970-01-01 00:00:00 and 5 nanoseconds. It is no
/// second or nanosecond more.
pub fn shown()
    ensures is { (d : NaiveDateTime) → d.secs ≡ pos 86_400 → d.frac ≡ 5
        → reading d ≡ record { s = pos 86_400; f = 5 } }
    ensures second { (d : NaiveDateTime) → d.secs ≡ pos 86_400 → (reading d).s ≢ pos 86_401 }
    ensures nanosecond { (d : NaiveDateTime) → d.frac ≡ 5 → (reading d).f ≢ 6 }
{}

/// Nothing moves nothing, not the first or last nanosecond of a leap second either.
pub fn none()
    ensures kept { (r : Reading) → r.f < 2_000_000_000 → moved r (pos 0) ≡ r }
    ensures same { (r : Reading) → difference r r ≡ pos 0 }
{}

/// From 03:05:59 and 1.3 seconds on, which is a leap second.
pub fn moves()
    ensures back { moved (clock_reading 3 5 59 1_300) (neg_ℤ (pos 500_000_000))
        ≡ clock_reading 3 5 59 800 }
    ensures within { moved (clock_reading 3 5 59 1_300) (pos 500_000_000)
        ≡ clock_reading 3 5 59 1_800 }
    ensures after { moved (clock_reading 3 5 59 1_300) (pos 800_000_000) ≡ clock_reading 3 6 0 100 }
    ensures far_after { moved (clock_reading 3 5 59 1_300) (pos 10_000_000_000)
        ≡ clock_reading 3 6 9 300 }
    ensures far_back { moved (clock_reading 3 5 59 1_300) (neg_ℤ (pos 10_000_000_000))
        ≡ clock_reading 3 5 50 300 }
    ensures out_of { moved (clock_reading 3 5 59 1_000) (pos 1_000_000_000)
        ≡ clock_reading 3 6 0 0 }
    ensures not_into { moved (clock_reading 3 5 59 0) (pos 1_000_000_000) ≡ clock_reading 3 6 0 0 }
{}

/// A leap second counts if one of the two local date-times lies in it and the other one's second of the
/// day comes later.
pub fn differences()
    ensures plain { difference (clock_reading 3 5 7 950) (clock_reading 3 5 7 900)
        ≡ pos 50_000_000 }
    ensures into { difference (clock_reading 3 0 59 1_000) (clock_reading 3 0 59 0)
        ≡ pos 1_000_000_000 }
    ensures further_into { difference (clock_reading 3 0 59 1_500) (clock_reading 3 0 59 0)
        ≡ pos 1_500_000_000 }
    ensures from_minute { difference (clock_reading 3 0 59 1_000) (clock_reading 3 0 0 0)
        ≡ pos 60_000_000_000 }
    ensures out_of { difference (clock_reading 3 0 0 0) (clock_reading 2 59 59 1_000)
        ≡ pos 1_000_000_000 }
    ensures far_out_of { difference (clock_reading 3 0 1 0) (clock_reading 2 59 59 1_000)
        ≡ pos 2_000_000_000 }
    ensures backwards { difference (clock_reading 2 59 59 1_000) (clock_reading 3 0 0 0)
        ≡ neg_ℤ (pos 1_000_000_000) }
{}

/// A leap second comes after the second before it, and before the next.
pub fn order()
    ensures after { IsEarlier (clock_reading 2 59 59 999) (clock_reading 2 59 59 1_000) }
    ensures before { IsEarlier (clock_reading 2 59 59 1_999) (clock_reading 3 0 0 0) }
{}

/// It comes only after the last second of a minute.
pub fn fractions()
    ensures last { IsFraction (clock_second 2 59 59) 1_999_999_999 }
    ensures too_long { ¬ (IsFraction (clock_second 2 59 59) 2_000_000_000) }
    ensures within_minute { ¬ (IsFraction (clock_second 2 59 58) 1_000_000_000) }
    ensures plain { IsFraction (clock_second 2 59 58) 999_999_999 }
{}
