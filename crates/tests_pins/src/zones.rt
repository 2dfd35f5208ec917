//! Zones with transitions: what is in force before the first, at it, and from the last on.
#![tactic(auto, using(crate::proofs::LeapSeconds::leapless))]

ghost use Rattle.std.specs.Prelude.{◌∷◌, [], neg_ℤ, pos, true};
ghost use Rattle.{
  tests_pins.specs.Zones.{change, early_hst, honolulu, honolulu_type, hst, hst10, listed, lmt, two_types},
  tz_info.specs.Zones.{IsValid, TypeAt},
};

use tz_info::TransitionRule;

/// The first type before the first transition, and the transition's own type from its second on.
pub fn honolulu_types()
    ensures before_first { TypeAt (honolulu hst10) (neg_ℤ (pos 2_334_101_315)) lmt }
    ensures first { TypeAt (honolulu hst10) (neg_ℤ (pos 2_334_101_314)) early_hst }
    ensures before_last { TypeAt (honolulu hst10) (neg_ℤ (pos 712_150_201)) early_hst }
    ensures last { TypeAt (honolulu hst10) (neg_ℤ (pos 712_150_200)) hst }
    ensures by_rule { TypeAt (honolulu hst10) (pos 1_615_705_200) hst }
    ensures without_rule { TypeAt (honolulu None) (pos 1_615_705_200) hst }
{}

/// From the last transition on the rule answers, whatever the transition's type is.
pub fn rule_answers()
    ensures { TypeAt (honolulu (Some (TransitionRule.Fixed lmt))) (pos 1_615_705_200) lmt }
{}

/// Transitions are at leap times. One at 78796801, the second after the first leap second, is the
/// midnight of 1972-07-01.
pub fn leap_times()
    ensures before { TypeAt (two_types (pos 78_796_801) None) (pos 78_796_799) lmt }
    ensures from { TypeAt (two_types (pos 78_796_801) None) (pos 78_796_800) hst }
    ensures none_by_unix_time { TypeAt (two_types (pos 78_796_802) None) (pos 78_796_800) lmt }
{}

/// A zone has a type; its transitions name types, and no two of them come at one time.
pub fn lists()
    ensures no_types { ¬ (IsValid (listed [] [])) }
    ensures no_transitions { IsValid (listed [] (lmt ∷ [])) }
    ensures rising { IsValid (listed (change (pos 5) 0 ∷ change (pos 6) 1 ∷ []) (lmt ∷ hst ∷ [])) }
    ensures at_once { ¬ (IsValid (listed (change (pos 5) 0 ∷ change (pos 5) 1 ∷ [])
        (lmt ∷ hst ∷ []))) }
    ensures no_such_type { ¬ (IsValid (listed (change (pos 5) 2 ∷ []) (lmt ∷ hst ∷ []))) }
{}

/// A rule has the last transition's type then, in its offset, its DST flag and its name.
pub fn valid()
    ensures other_flag { ¬ (IsValid (two_types (pos 78_796_801)
        (Some (TransitionRule.Fixed (honolulu_type (pos 36_000) true 72 83))))) }
    ensures other_offset { ¬ (IsValid (two_types (pos 78_796_801)
        (Some (TransitionRule.Fixed early_hst)))) }
{}
