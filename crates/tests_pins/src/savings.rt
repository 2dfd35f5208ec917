//! Amounts of daylight saving time: spans of the tz database, with the column SAVE of its rules.

ghost use Rattle.std.specs.Prelude.{◌≡◌, neg_ℤ, pos, ℤ};
ghost use Rattle.{
  tests_pins.specs.Savings.{restless, summer},
  tz_saving.specs.{Amounts.{usual, IsAmount, IsOfTwo}, Sides.{HasChanges, IsWithinReach}},
  tz_saving.specs.{Amounts.{IsCandidate, IsOnly}, Sides.{IsBefore}},
};

/// New York in 2021 (`R u 2007 ma - Mar Su>=8 2 1 D`): an hour.
pub fn new_york()
    ensures amount { IsAmount (summer (pos 1_615_705_200) (pos 1_636_264_800)
        (neg_ℤ (pos 18_000)) (neg_ℤ (pos 14_400)) (neg_ℤ (pos 18_000))) None (pos 1_625_097_600) (pos 3_600) }
    ensures only { (a : ℤ) → IsAmount (summer (pos 1_615_705_200) (pos 1_636_264_800)
        (neg_ℤ (pos 18_000)) (neg_ℤ (pos 14_400)) (neg_ℤ (pos 18_000))) None (pos 1_625_097_600) a
        → a ≡ pos 3_600 }
    ensures is_winter { IsAmount (summer (pos 1_615_705_200) (pos 1_636_264_800)
        (neg_ℤ (pos 18_000)) (neg_ℤ (pos 14_400)) (neg_ℤ (pos 18_000))) None (pos 1_636_264_800) (pos 0) }
    ensures winter { (a : ℤ) → IsAmount (summer (pos 1_615_705_200) (pos 1_636_264_800)
        (neg_ℤ (pos 18_000)) (neg_ℤ (pos 14_400)) (neg_ℤ (pos 18_000))) None (pos 1_636_264_800) a
        → a ≡ pos 0 }
{}

/// Dublin in the winter of 2020 (`R IE 1996 ma - O lastSu 1u -1 -`): an hour behind standard time.
pub fn dublin()
    ensures amount { IsAmount (summer (pos 1_603_587_600) (pos 1_616_893_200)
        (pos 3_600) (pos 0) (pos 3_600)) None (pos 1_609_459_200) (neg_ℤ (pos 3_600)) }
    ensures only { (a : ℤ) → IsAmount (summer (pos 1_603_587_600) (pos 1_616_893_200)
        (pos 3_600) (pos 0) (pos 3_600)) None (pos 1_609_459_200) a → a ≡ neg_ℤ (pos 3_600) }
{}

/// Lord Howe in the summer of 2020 (`R LH 2008 ma - O Su>=1 2 0:30 -`): half an hour.
pub fn lord_howe()
    ensures amount { IsAmount (summer (pos 1_601_739_000) (pos 1_617_462_000)
        (pos 37_800) (pos 39_600) (pos 37_800)) None (pos 1_609_459_200) (pos 1_800) }
    ensures only { (a : ℤ) → IsAmount (summer (pos 1_601_739_000) (pos 1_617_462_000)
        (pos 37_800) (pos 39_600) (pos 37_800)) None (pos 1_609_459_200) a → a ≡ pos 1_800 }
{}

/// Anadyr in 1982 (`R R 1981 1984 - Ap 1 0 1 S`): standard time moved from 13 hours to 12 as daylight
/// saving time began, so only standard time after it counts.
pub fn anadyr()
    ensures amount { IsAmount (summer (pos 386_420_400) (pos 402_231_600)
        (pos 46_800) (pos 46_800) (pos 43_200)) None (pos 390_000_000) (pos 3_600) }
    ensures only { (a : ℤ) → IsAmount (summer (pos 386_420_400) (pos 402_231_600)
        (pos 46_800) (pos 46_800) (pos 43_200)) None (pos 390_000_000) a → a ≡ pos 3_600 }
{}

/// Lisbon in 1992 (`R E 1981 ma - Mar lastSu 1u 1 S`): standard time moved as it ended, so only standard
/// time before it counts.
pub fn lisbon()
    ensures amount { IsAmount (summer (pos 701_830_800) (pos 717_555_600)
        (pos 0) (pos 3_600) (pos 3_600)) None (pos 701_830_800) (pos 3_600) }
    ensures only { (a : ℤ) → IsAmount (summer (pos 701_830_800) (pos 717_555_600)
        (pos 0) (pos 3_600) (pos 3_600)) None (pos 701_830_800) a → a ≡ pos 3_600 }
{}

/// Buenos Aires in 1999 (`R A 1999 o - O Su>=1 0 1 -`): standard time moved at both ends, and an hour is
/// left.
pub fn buenos_aires()
    ensures amount { IsAmount (summer (pos 938_919_600) (pos 952_052_400)
        (neg_ℤ (pos 10_800)) (neg_ℤ (pos 10_800)) (neg_ℤ (pos 10_800))) None (pos 938_919_600) (pos 3_600) }
    ensures only { (a : ℤ) → IsAmount (summer (pos 938_919_600) (pos 952_052_400)
        (neg_ℤ (pos 10_800)) (neg_ℤ (pos 10_800)) (neg_ℤ (pos 10_800))) None (pos 938_919_600) a
        → a ≡ pos 3_600 }
{}

/// Tehran in 1977 (`R i 1977 o - Mar 21 23 1 -`): an hour by standard time before it, half an hour by that
/// after it.
pub fn tehran()
    ensures amount { IsAmount (summer (pos 227_820_600) (pos 246_223_800)
        (pos 12_600) (pos 16_200) (pos 14_400)) None (pos 230_000_000) (pos 3_600) }
    ensures only { (a : ℤ) → IsAmount (summer (pos 227_820_600) (pos 246_223_800)
        (pos 12_600) (pos 16_200) (pos 14_400)) None (pos 230_000_000) a → a ≡ pos 3_600 }
{}

/// Minsk in 1941 (`R c 1940 o - Ap 1 2s 1 S`), which came from Moscow's time: an hour behind standard time
/// before it, an hour ahead of that after it.
pub fn minsk()
    ensures amount { IsAmount (summer (neg_ℤ (pos 899_780_400)) (neg_ℤ (pos 857_257_200))
        (pos 10_800) (pos 7_200) (pos 3_600)) None (neg_ℤ (pos 880_000_000)) (pos 3_600) }
    ensures only { (a : ℤ) → IsAmount (summer (neg_ℤ (pos 899_780_400)) (neg_ℤ (pos 857_257_200))
        (pos 10_800) (pos 7_200) (pos 3_600)) None (neg_ℤ (pos 880_000_000)) a → a ≡ pos 3_600 }
{}

/// Of two amounts an hour is usual; else the one forward; else the early one. Hong Kong in 1941 (`R HK 1941 o
/// - O 1 0 0:30 -`) was half an hour ahead of 8 hours, and half an hour behind 9; Moscow in 1918 (`R R 1918 o
/// - May 31 22 2 MDST`) two hours ahead of the time before it, and 5,479 seconds of the time after it.
pub fn usual_amounts()
    ensures hour { usual (pos 3_600) (pos 1_800) ≡ pos 3_600 }
    ensures late_hour { usual (neg_ℤ (pos 3_600)) (pos 3_600) ≡ pos 3_600 }
    ensures early_forward { usual (pos 1_800) (neg_ℤ (pos 1_800)) ≡ pos 1_800 }
    ensures late_forward { usual (neg_ℤ (pos 1_800)) (pos 1_800) ≡ pos 1_800 }
    ensures early { usual (pos 7_200) (pos 5_479) ≡ pos 7_200 }
    ensures both_backward { usual (neg_ℤ (pos 7_200)) (neg_ℤ (pos 1_800)) ≡ neg_ℤ (pos 7_200) }
{}

/// Rarotonga in 1978 (`R CK 1978 o - N 12 0 0:30 -`): an hour or half an hour, of which the next use of
/// the type has half an hour.
pub fn two_amounts()
    ensures next_is { IsOfTwo (λ n. n ≡ pos 1_800) (pos 3_600) (pos 1_800) (pos 1_800) }
    ensures next { (a : ℤ) → IsOfTwo (λ n. n ≡ pos 1_800) (pos 3_600) (pos 1_800) a → a ≡ pos 1_800 }
    ensures other_next_is { IsOfTwo (λ n. n ≡ pos 5_400) (pos 3_600) (pos 1_800) (pos 3_600) }
    ensures other_next { (a : ℤ) → IsOfTwo (λ n. n ≡ pos 5_400) (pos 3_600) (pos 1_800) a → a ≡ pos 3_600 }
    ensures both_is { IsOfTwo (λ n. n ≡ pos 5_400) (pos 1_800) (pos 1_800) (pos 1_800) }
    ensures both { (a : ℤ) → IsOfTwo (λ n. n ≡ pos 5_400) (pos 1_800) (pos 1_800) a → a ≡ pos 1_800 }
    ensures only_one_is { IsOnly (Some (pos 1_800)) None (pos 1_800) }
    ensures only_one { (a : ℤ) → IsOnly (Some (pos 1_800)) None a → a ≡ pos 1_800 }
    ensures two { (a : ℤ) → ¬ (IsOnly (Some (pos 3_600)) (Some (pos 1_800)) a) }
    ensures none { (a : ℤ) → ¬ (IsOnly None None a) }
{}

/// Apia's clocks passed over the date line: from 11 hours behind UTC to 14 ahead is no amount, from 13
/// ahead it is an hour.
pub fn candidates()
    ensures day { (a : ℤ) → ¬ (IsCandidate (λ s. s ≡ neg_ℤ (pos 39_600)) (pos 50_400) a) }
    ensures hour { IsCandidate (λ s. s ≡ pos 46_800) (pos 50_400) (pos 3_600) }
    ensures nothing { (a : ℤ) → ¬ (IsCandidate (λ s. s ≡ pos 3_600) (pos 3_600) a) }
    ensures last { IsCandidate (λ s. s ≡ pos 0) (pos 86_399) (pos 86_399) }
    ensures first { (a : ℤ) → ¬ (IsCandidate (λ s. s ≡ pos 0) (pos 86_400) a) }
{}

/// Standard time may be 64 clock changes away, and no more.
pub fn reach()
    ensures count { HasChanges restless 64 (neg_ℤ (pos 1)) (pos 63) }
    ensures no_more { ¬ (HasChanges restless 65 (neg_ℤ (pos 1)) (pos 63)) }
    ensures within { IsWithinReach restless (neg_ℤ (pos 1)) (pos 63) }
    ensures beyond { ¬ (IsWithinReach restless (neg_ℤ (pos 1)) (pos 64)) }
    ensures standard { IsBefore restless (pos 63) (pos 0) }
    ensures no_standard { ¬ (IsBefore restless (pos 64) (pos 0)) }
{}
