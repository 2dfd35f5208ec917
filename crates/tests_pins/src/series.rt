//! The items of a daily series, counted from 0 on.

ghost use Rattle.std.specs.Prelude.{◌≡◌, ◌≢◌, pos, ℕ};
ghost use Rattle.{
  naive_base.specs.Reading.{reading_at},
  zoned_series.specs.Series.{reading_of, Series},
};

/// 09:00:00 on each day from 2021-03-14 on, which is day 18700 since 1970-01-01: item 0 is on that day, and
/// item 2 on 16 March.
pub fn items()
    ensures first { (s : Series ℕ) → s.first ≡ pos 18_700 → s.second ≡ 32_400 → s.fraction ≡ 0
        → reading_of s 0 ≡ reading_at (pos 18_700) 32_400 0 }
    ensures third { (s : Series ℕ) → s.first ≡ pos 18_700 → s.second ≡ 32_400 → s.fraction ≡ 0
        → reading_of s 2 ≡ reading_at (pos 18_702) 32_400 0 }
    ensures not_the_next { (s : Series ℕ) → s.first ≡ pos 18_700 → s.second ≡ 32_400
        → reading_of s 2 ≢ reading_at (pos 18_703) 32_400 0 }
{}
