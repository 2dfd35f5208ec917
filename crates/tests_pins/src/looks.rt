//! How many probes a lookup may take.
#![tactic(auto, unfolding(crate::proofs::Computed::binary))]

ghost use Rattle.std.specs.Prelude.{◌≡◌, neg_ℤ, pos};
ghost use Rattle.{
  tests_pins.specs.{Looks.{looks}, Zones.{honolulu, hst10}},
  tz_info.specs.{Looks.{RoseByInstant, RoseByWallClock}, Windows.{IsWindowCount}},
  tz_search.specs.Digits.{digits},
};

/// Binary digits: `0` has none, `11111111` is 255.
pub fn binary_digits()
    ensures zero { digits 0 ≡ 0 }
    ensures one { digits 1 ≡ 1 }
    ensures two { digits 2 ≡ 2 }
    ensures three { digits 3 ≡ 2 }
    ensures four { digits 4 ≡ 3 }
    ensures byte { digits 255 ≡ 8 }
    ensures after_byte { digits 256 ≡ 9 }
    ensures thousand { digits 1_000 ≡ 10 }
{}

/// By instant, Honolulu's seven transitions take at most three probes, and the rule one question.
pub fn by_instant()
    ensures most { RoseByInstant (honolulu hst10) (looks 0 0 0) (looks 3 1 0) }
    ensures too_many { ¬ (RoseByInstant (honolulu hst10) (looks 0 0 0) (looks 4 0 0)) }
    ensures two_questions { ¬ (RoseByInstant (honolulu hst10) (looks 0 0 0) (looks 3 2 0)) }
    ensures pieces { ¬ (RoseByInstant (honolulu hst10) (looks 0 0 0) (looks 0 0 1)) }
{}

/// By wall clock they take four probes of pieces at most, one at least, and two
/// questions.
pub fn by_wall_clock()
    ensures most { RoseByWallClock (honolulu hst10) (looks 0 0 0) (looks 0 2 4) }
    ensures too_many { ¬ (RoseByWallClock (honolulu hst10) (looks 0 0 0) (looks 0 0 5)) }
    ensures none { ¬ (RoseByWallClock (honolulu hst10) (looks 0 0 0) (looks 0 0 0)) }
    ensures three_questions { ¬ (RoseByWallClock (honolulu hst10) (looks 0 0 0) (looks 0 3 4)) }
    ensures transitions { ¬ (RoseByWallClock (honolulu hst10) (looks 0 0 0) (looks 1 0 4)) }
{}

/// Honolulu's clocks were set forward by half an hour at 1947-06-08 02:00:00, its last transition. At that
/// local time it is the only one that comes near: the others are years away.
pub fn window()
    ensures one { IsWindowCount (honolulu hst10) (neg_ℤ (pos 712_188_000)) 1 }
    ensures none { ¬ (IsWindowCount (honolulu hst10) (neg_ℤ (pos 712_188_000)) 0) }
    ensures all { ¬ (IsWindowCount (honolulu hst10) (neg_ℤ (pos 712_188_000)) 7) }
{}
