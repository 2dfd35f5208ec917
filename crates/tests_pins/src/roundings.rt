//! Multiples and digits, as chrono's documentation of rounding has them.

ghost use Rattle.std.specs.Prelude.{◌≡◌, codes, neg_ℤ, pos, Result, ℤ};
ghost use Rattle.{
  tests_pins.specs.{Instants.{IsLater}, Readings.{clock_reading}},
  zoned_round.specs.{Durations.{IsRoundedTo, IsRoundingLength}, Durations.{message, IsRoundingFault}},
  zoned_round.specs.{Multiples.{multiple_above, multiple_below, nearest_multiple}, Subseconds.{cut, rounded}},
};

use zoned_round::RoundingError;

/// 12:00:00.154 to ten milliseconds is 12:00:00.150, and to a day the next midnight. A tie goes up,
/// before 1970 too.
pub fn multiples()
    ensures ten_millis { nearest_multiple (pos 43_200_154) 10 ≡ pos 43_200_150 }
    ensures day { nearest_multiple (pos 43_200_154) 86_400_000 ≡ pos 86_400_000 }
    ensures noon { nearest_multiple (pos 43_200_000) 86_400_000 ≡ pos 86_400_000 }
    ensures before_noon { nearest_multiple (pos 43_199_999) 86_400_000 ≡ pos 0 }
    ensures tie_before_1970 { nearest_multiple (neg_ℤ (pos 43_200_000)) 86_400_000 ≡ pos 0 }
    ensures below { multiple_below (pos 43_200_154) 10 ≡ pos 43_200_150 }
    ensures below_before_1970 { multiple_below (neg_ℤ (pos 1)) 10 ≡ neg_ℤ (pos 10) }
    ensures above { multiple_above (pos 43_200_154) 10 ≡ pos 43_200_160 }
    ensures itself { multiple_above (pos 43_200_150) 10 ≡ pos 43_200_150 }
{}

/// A length of nothing, and a clock whose nanoseconds don't fit: the length's fault is returned. What
/// each fault prints is chrono's text.
#[tactic(auto, using(crate::proofs::Words::ints))]
pub fn refusals()
    ensures no_length { ¬ (IsRoundingLength (pos 0)) }
    ensures shortest { IsRoundingLength (pos 1) }
    ensures longest { IsRoundingLength (pos 9_223_372_036_854_775_807) }
    ensures too_long { ¬ (IsRoundingLength (pos 9_223_372_036_854_775_808)) }
    ensures both { (e : RoundingError) → IsRoundingFault ⊥ ⊥ e → e ≡ RoundingError.DurationExceedsLimit }
    ensures is_both { IsRoundingFault ⊥ ⊥ RoundingError.DurationExceedsLimit }
    ensures limit { message RoundingError.DurationExceedsLimit
        ≡ codes "duration exceeds num_nanoseconds limit" }
    ensures timestamp { message RoundingError.TimestampExceedsLimit
        ≡ codes "timestamp exceeds num_nanoseconds limit" }
    ensures exceeds { message RoundingError.DurationExceedsTimestamp
        ≡ codes "duration in nanoseconds exceeds timestamp" }
{}

/// 12:00:00.154 rounded to two digits is 12:00:00.150, and cut after one it is 12:00:00.100.
/// 23:59:60.300 is a leap second, and stays in it.
pub fn digits()
    ensures two_digits { rounded (clock_reading 12 0 0 154) 2 ≡ clock_reading 12 0 0 150 }
    ensures tie { rounded (clock_reading 12 0 0 155) 2 ≡ clock_reading 12 0 0 160 }
    ensures next_second { rounded (clock_reading 12 0 0 500) 0 ≡ clock_reading 12 0 1 0 }
    ensures nine_digits { rounded (clock_reading 12 0 0 154) 9 ≡ clock_reading 12 0 0 154 }
    ensures one_digit { cut (clock_reading 12 0 0 154) 1 ≡ clock_reading 12 0 0 100 }
    ensures leap_second { cut (clock_reading 23 59 59 1_300) 0 ≡ clock_reading 23 59 59 1_000 }
    ensures leap_second_rounded { rounded (clock_reading 23 59 59 1_300) 0
        ≡ clock_reading 23 59 59 1_000 }
{}

/// 2018-01-11 12:00:00.154 to ten milliseconds is 12:00:00.150, and rounded up 12:00:00.160. A clock an
/// hour ahead of UTC that shows it is moved to its midnight, which is 23:00 of UTC on the day before.
pub fn moves()
    ensures nearest { (answer : Result ℤ RoundingError)
        → IsRoundedTo nearest_multiple (λ e. e) (IsLater (pos 1_515_672_000_154_000_000))
        (pos 1_515_672_000_154_000_000) (pos 10_000_000) (pos 1_515_672_000_154_000_000) answer
        → answer ≡ Ok (pos 1_515_672_000_150_000_000) }
    ensures above { (answer : Result ℤ RoundingError)
        → IsRoundedTo multiple_above (λ e. e) (IsLater (pos 1_515_672_000_154_000_000))
        (pos 1_515_672_000_154_000_000) (pos 10_000_000) (pos 1_515_672_000_154_000_000) answer
        → answer ≡ Ok (pos 1_515_672_000_160_000_000) }
    ensures in_zone { (answer : Result ℤ RoundingError)
        → IsRoundedTo multiple_below (λ e. e) (IsLater (pos 1_515_668_400_154_000_000))
        (pos 1_515_672_000_154_000_000) (pos 86_400_000_000_000) (pos 1_515_668_400_154_000_000) answer
        → answer ≡ Ok (pos 1_515_625_200_000_000_000) }
    ensures is_nearest { IsRoundedTo {E = RoundingError} nearest_multiple (λ e. e) (IsLater (pos 1_515_672_000_154_000_000))
        (pos 1_515_672_000_154_000_000) (pos 10_000_000) (pos 1_515_672_000_154_000_000)
        (Ok (pos 1_515_672_000_150_000_000)) }
    ensures is_above { IsRoundedTo {E = RoundingError} multiple_above (λ e. e) (IsLater (pos 1_515_672_000_154_000_000))
        (pos 1_515_672_000_154_000_000) (pos 10_000_000) (pos 1_515_672_000_154_000_000)
        (Ok (pos 1_515_672_000_160_000_000)) }
    ensures is_in_zone { IsRoundedTo {E = RoundingError} multiple_below (λ e. e) (IsLater (pos 1_515_668_400_154_000_000))
        (pos 1_515_672_000_154_000_000) (pos 86_400_000_000_000) (pos 1_515_668_400_154_000_000)
        (Ok (pos 1_515_625_200_000_000_000)) }
{}
