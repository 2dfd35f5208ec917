//! How many questions to a zone's rule are counted.
#![tactic(auto, using(crate::proofs::AskedRules::asked_rules))]

ghost use Rattle.std.specs.Prelude.{◌≡◌, neg_ℤ, pos, ℕ, ℤ};
ghost use Rattle.{
  tests_pins.specs.{NewYork.{new_york_zone}, Zones.{honolulu, hst10}},
  tz_info.specs.Questions.{IsAskedAt, IsAskedFor, IsByRule},
};

/// Honolulu's rule answers from the last transition on, and New York's `EST5EDT,M3.2.0,M11.1.0` at
/// every second.
pub fn by_rule()
    ensures always { (u : ℤ) → IsByRule new_york_zone u }
    ensures last { IsByRule (honolulu hst10) (neg_ℤ (pos 712_150_200)) }
    ensures before_last { ¬ (IsByRule (honolulu hst10) (neg_ℤ (pos 712_150_201))) }
{}

/// A second at which the rule answers is one question, another second none.
pub fn by_instant()
    ensures one { IsAskedAt new_york_zone (pos 0) 5 6 }
    ensures none { IsAskedAt (honolulu hst10) (neg_ℤ (pos 712_150_201)) 5 5 }
    ensures not_two { (after : ℕ) → IsAskedAt new_york_zone (pos 0) 5 after → after ≡ 6 }
{}

/// A local time is two questions to a rule of two offsets: one at the second at which a clock of
/// each of them shows it.
pub fn by_wall_clock()
    ensures two { IsAskedFor new_york_zone (pos 1_615_689_000) 5 7 }
{}
