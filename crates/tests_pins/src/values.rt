//! What is taken of two values, and lengths of time.

ghost use Rattle.std.specs.Prelude.{◌≡◌, ◌∷◌, [], ◌*ℤ◌, neg_ℤ, pos, ℕ};
ghost use Rattle.{
  offset_core.specs.LocalResult.{all_or_none, earliest_of, latest_of, single_of},
  offset_core.specs.Nanoseconds.{nanos_per_day, nanos_per_hour, nanos_per_microsecond, nanos_per_millisecond},
  offset_core.specs.Nanoseconds.{nanos_per_minute, nanos_per_second, nanos_per_week, nearest_length, FitsTimeDelta},
  offset_core.specs.TimeDelta.{nanos_of, sum_of, IsCheckedSum},
};

use offset_core::{LocalResult, TimeDelta};

/// Of the values 1 and 2 of a fold there is no single one, the earliest is 1 and the latest 2. One
/// that is missing takes the other with it.
pub fn lookups()
    ensures single_of_one { single_of {T = ℕ} (LocalResult.Single 1) ≡ Some 1 }
    ensures earliest_of_one { earliest_of {T = ℕ} (LocalResult.Single 1) ≡ Some 1 }
    ensures latest_of_one { latest_of {T = ℕ} (LocalResult.Single 1) ≡ Some 1 }
    ensures single { single_of {T = ℕ} (LocalResult.Ambiguous 1 2) ≡ None }
    ensures earliest { earliest_of {T = ℕ} (LocalResult.Ambiguous 1 2) ≡ Some 1 }
    ensures latest { latest_of {T = ℕ} (LocalResult.Ambiguous 1 2) ≡ Some 2 }
    ensures both { all_or_none {T = ℕ} (LocalResult.Ambiguous (Some 1) (Some 2))
        ≡ LocalResult.Ambiguous 1 2 }
    ensures last_missing { all_or_none {T = ℕ} (LocalResult.Ambiguous (Some 1) None) ≡ LocalResult.None }
    ensures first_missing { all_or_none {T = ℕ} (LocalResult.Ambiguous None (Some 2)) ≡ LocalResult.None }
{}

/// A week has seven days, and so on down to nanoseconds. The longest length is `i64::MAX`
/// milliseconds.
pub fn lengths()
    ensures week { nanos_per_week ≡ pos 7 *ℤ nanos_per_day }
    ensures day { nanos_per_day ≡ pos 24 *ℤ nanos_per_hour }
    ensures hour { nanos_per_hour ≡ pos 60 *ℤ nanos_per_minute }
    ensures minute { nanos_per_minute ≡ pos 60 *ℤ nanos_per_second }
    ensures second { nanos_per_second ≡ pos 1_000 *ℤ nanos_per_millisecond }
    ensures millisecond { nanos_per_millisecond ≡ pos 1_000 *ℤ nanos_per_microsecond }
    ensures microsecond { nanos_per_microsecond ≡ pos 1_000 }
    ensures longest { FitsTimeDelta (pos 9_223_372_036_854_775_807_000_000) }
    ensures too_long { ¬ (FitsTimeDelta (pos 9_223_372_036_854_775_807_000_001)) }
    ensures longest_back { FitsTimeDelta (neg_ℤ (pos 9_223_372_036_854_775_807_000_000)) }
    ensures too_long_back { ¬ (FitsTimeDelta (neg_ℤ (pos 9_223_372_036_854_775_807_000_001))) }
{}

/// A nanosecond beyond the longest length, either way, is nearest to it; what is in range, to
/// itself.
pub fn nearest_lengths()
    ensures above { nearest_length (pos 9_223_372_036_854_775_807_000_001)
        ≡ pos 9_223_372_036_854_775_807_000_000 }
    ensures below { nearest_length (neg_ℤ (pos 9_223_372_036_854_775_807_000_001))
        ≡ neg_ℤ (pos 9_223_372_036_854_775_807_000_000) }
    ensures within { nearest_length (neg_ℤ (pos 5)) ≡ neg_ℤ (pos 5) }
{}

/// The sum of the longest length, a nanosecond back and one forward is the longest length. If the
/// one forward comes first, a sum on the way is out of range, and there is no sum.
pub fn sums()
    ensures sum { (most back forward : TimeDelta)
        → nanos_of most ≡ pos 9_223_372_036_854_775_807_000_000
        → nanos_of back ≡ neg_ℤ (pos 1) → nanos_of forward ≡ pos 1
        → sum_of (most ∷ back ∷ forward ∷ []) ≡ pos 9_223_372_036_854_775_807_000_000 }
    ensures in_range { (most back forward : TimeDelta)
        → nanos_of most ≡ pos 9_223_372_036_854_775_807_000_000
        → nanos_of back ≡ neg_ℤ (pos 1) → nanos_of forward ≡ pos 1
        → IsCheckedSum (most ∷ back ∷ forward ∷ []) (Some most) }
    ensures out_of_range { (most back forward : TimeDelta)
        → nanos_of most ≡ pos 9_223_372_036_854_775_807_000_000
        → nanos_of back ≡ neg_ℤ (pos 1) → nanos_of forward ≡ pos 1
        → IsCheckedSum (most ∷ forward ∷ back ∷ []) None }
{}
