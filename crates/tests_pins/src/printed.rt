//! Printed bytes of offsets, times, dates and local date-times.
#![tactic(auto, unfolding(crate::proofs::Computed::printing))]

ghost use Rattle.std.specs.{Fmt.{decimal}, Prelude.{◌≡◌, ◌∷◌, codes, neg_ℤ, pos}};
ghost use Rattle.{
  naive_base.specs.Text.{date_text, reading_text, time_text, year_text},
  offset_core.specs.Offset.{offset_text, IsWithinDay},
};

/// Strictly within a day.
pub fn limits()
    ensures east { IsWithinDay (pos 86_399) }
    ensures west { IsWithinDay (neg_ℤ (pos 86_399)) }
    ensures day_east { ¬ (IsWithinDay (pos 86_400)) }
    ensures day_west { ¬ (IsWithinDay (neg_ℤ (pos 86_400))) }
{}

/// `+00:00`, `+05:30`, `-05:00`, `+00:00:01` and `-23:59:59`.
pub fn offsets()
    ensures zero { offset_text (pos 0) ≡ codes "+00:00" }
    ensures east { offset_text (pos 19_800) ≡ codes "+05:30" }
    ensures west { offset_text (neg_ℤ (pos 18_000)) ≡ codes "-05:00" }
    ensures second { offset_text (pos 1) ≡ codes "+00:00:01" }
    ensures far_west { offset_text (neg_ℤ (pos 86_399)) ≡ codes "-23:59:59" }
{}

/// `23:59:60` is a leap second. A fraction has 3, 6 or 9 digits.
pub fn times()
    ensures midnight { time_text 0 0 ≡ codes "00:00:00" }
    ensures last { time_text 86_399 0 ≡ codes "23:59:59" }
    ensures leap { time_text 86_399 1_000_000_000 ≡ codes "23:59:60" }
    ensures leap_fraction { time_text 86_399 1_300_000_000 ≡ codes "23:59:60.300" }
    ensures millis { time_text 45_296 789_000_000 ≡ codes "12:34:56.789" }
    ensures micros { time_text 45_296 1_000 ≡ codes "12:34:56.000001" }
    ensures nanos { time_text 45_296 1 ≡ codes "12:34:56.000000001" }
{}

/// A year outside 0 to 9999 has a sign.
pub fn dates()
    ensures plain { date_text (pos 2015) 9 5 ≡ codes "2015-09-05" }
    ensures year_0 { date_text (pos 0) 1 1 ≡ codes "0000-01-01" }
    ensures year_9999 { date_text (pos 9_999) 12 31 ≡ codes "9999-12-31" }
    ensures year_10000 { year_text (pos 10_000) ≡ 43 ∷ decimal 10_000 }
    ensures before_0 { date_text (neg_ℤ (pos 1)) 3 14 ≡ codes "-0001-03-14" }
{}

/// `2016-12-31 23:59:60`, and with a `T` `2017-01-01T00:00:00`.
pub fn readings()
    ensures leap_second { reading_text 32 (record { s = pos 1_483_228_799; f = 1_000_000_000 })
        ≡ codes "2016-12-31 23:59:60" }
    ensures next { reading_text 84 (record { s = pos 1_483_228_800; f = 0 })
        ≡ codes "2017-01-01T00:00:00" }
{}
