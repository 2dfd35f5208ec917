//! Theorems: each function is empty, its contract is proved; never called. Here those of rules and
//! zones at every year and every second.

pub mod changes;
pub mod differences;
pub mod equality;
pub mod files;
pub mod shown_seconds;
pub mod spans;
pub mod texts;
pub mod wall_clocks;

ghost use Rattle.std.specs.Prelude.{◌≡◌, ◌↔◌, ◌⊎◌, ◌<◌, ◌+◌, ◌<ℤ◌, ◌≤ℤ◌, ◌+ℤ◌, ◌-ℤ◌, ◌*ℤ◌, length, neg_ℤ, pos, slice_index_or, List, ℕ, ℤ};
ghost use Rattle.{
  tz_base.specs.LocalTypes.{LocalType},
  tz_info.specs.Leaps.{AreCounted, AreLeapSeconds, IsLeapTime, IsLeapTimeRefused, IsUnixTime},
  tz_info.specs.{Moments.{end_in, start_in, IsBetween, IsRuleTime, IsRuleYear, IsYearOf}, RuleDayOf.{rule_day}},
  tz_info.specs.RuleTypes.{IsRule, IsRuleRefused, RuleAt},
  tz_info.specs.Zones.{Zone, last_transition, HasType, IsRuleOrNone, IsTypeOf, IsTypeRefused, IsValid, TypeAt},
  tz_info.specs.{RuleDays.{IsDayOf, IsRuleDay}, Rules.{Alternate as AlternateRule, IsAlternateRule}},
};

use crate::DayForm;
use crate::rule::TransitionRule;
use tz_base::{LeapSecond, Transition};

/// A rule has one day in each year, and its moments at a fixed time of day come later in a later
/// year.
#[tactic(auto, using(crate::proofs::RuleDays::rule_day_is, crate::proofs::RuleDays::one_rule_day))]
pub fn rule_days_law()
    ensures found { (form : DayForm) (year : ℤ) → IsRuleDay form
        → IsDayOf form year (rule_day form year) }
    ensures once { (form : DayForm) (year a b : ℤ) → IsRuleDay form → IsDayOf form year a
        → IsDayOf form year b → a ≡ b }
    ensures rises { (form : DayForm) (time a b : ℤ) → IsRuleDay form → a <ℤ b
        → (pos 86_400 *ℤ rule_day form a +ℤ time) <ℤ (pos 86_400 *ℤ rule_day form b +ℤ time) }
{}

/// At each second a rule has one type, or it returns an error.
#[tactic(auto, using(crate::proofs::RuleLaws::rule_types))]
pub fn rule_types_law()
    ensures once { (rule : TransitionRule) (u : ℤ) (s t : LocalType) → RuleAt rule u s
        → RuleAt rule u t → s ≡ t }
    ensures apart { (rule : TransitionRule) (u : ℤ) (t : LocalType) → RuleAt rule u t
        → ¬ (IsRuleRefused rule u) }
    ensures decided { (rule : TransitionRule) (u : ℤ) → IsRule rule
        → ((t : LocalType) × RuleAt rule u t) ⊎ IsRuleRefused rule u }
    ensures times { (u year : ℤ) → IsYearOf u year → IsRuleYear year ↔ IsRuleTime u }
{}

/// The second at which a clock shows the day and the time of a rule's moment, in a year in which
/// that moment comes between two of the other ones: at the start daylight saving time is in force,
/// and a second before it standard time; at the end standard time, and a second before it daylight
/// saving time. The second is to lie in the moment's year also in UTC.
pub fn rule_moments_law()
    ensures starts { (a : AlternateRule) (year day u : ℤ) → IsAlternateRule a → IsRuleYear year
        → IsDayOf a.start.day year day
        → (u +ℤ a.std.offset) ≡ (pos 86_400 *ℤ day +ℤ a.start.time)
        → IsBetween (end_in a) (start_in a) year
        → (IsYearOf u year → RuleAt (TransitionRule.Alternate a) u a.dst)
        × (IsYearOf (u -ℤ pos 1) year → RuleAt (TransitionRule.Alternate a) (u -ℤ pos 1) a.std) }
    ensures ends { (a : AlternateRule) (year day u : ℤ) → IsAlternateRule a → IsRuleYear year
        → IsDayOf a.end.day year day
        → (u +ℤ a.dst.offset) ≡ (pos 86_400 *ℤ day +ℤ a.end.time)
        → IsBetween (start_in a) (end_in a) year
        → (IsYearOf u year → RuleAt (TransitionRule.Alternate a) u a.std)
        × (IsYearOf (u -ℤ pos 1) year → RuleAt (TransitionRule.Alternate a) (u -ℤ pos 1) a.dst) }
{}

/// Leap times rise weakly with Unix times, and within 10^13 seconds of 1970 each second has one.
/// If the corrections are 1, 2, 3 and so on, the Unix time of a Unix time's leap time is that
/// Unix time. At the first entry's own leap time the Unix time is equal to it, and at a later one's
/// it is less by the correction of the entry before.
#[tactic(auto, using(crate::proofs::LeapOrder::before_first, crate::proofs::LeapOrder::before_later))]
pub fn leap_times_law()
    ensures rise { (leaps : List LeapSecond) (u v x y : ℤ) → AreLeapSeconds leaps → u ≤ℤ v
        → IsLeapTime leaps u x → IsLeapTime leaps v y → x ≤ℤ y }
    ensures near { (leaps : List LeapSecond) (u : ℤ) → AreLeapSeconds leaps
        → neg_ℤ (pos 10_000_000_000_000) ≤ℤ u → u ≤ℤ pos 10_000_000_000_000
        → ¬ (IsLeapTimeRefused leaps u) }
    ensures apart { (leaps : List LeapSecond) (u x : ℤ) → IsLeapTime leaps u x
        → ¬ (IsLeapTimeRefused leaps u) }
    ensures undone { (leaps : List LeapSecond) (u x v : ℤ) → AreLeapSeconds leaps → AreCounted leaps
        → IsLeapTime leaps u x → IsUnixTime leaps x v → v ≡ u }
    ensures first { (leaps : List LeapSecond) (d : LeapSecond) (u : ℤ) → AreLeapSeconds leaps
        → 0 < length leaps → IsUnixTime leaps (slice_index_or leaps 0 d).unix_leap_time u
        → u ≡ (slice_index_or leaps 0 d).unix_leap_time }
    ensures later { (leaps : List LeapSecond) (k : ℕ) (d : LeapSecond) (u : ℤ)
        → AreLeapSeconds leaps → k + 1 < length leaps
        → IsUnixTime leaps (slice_index_or leaps (k + 1) d).unix_leap_time u
        → u ≡ (slice_index_or leaps (k + 1) d).unix_leap_time
        -ℤ (slice_index_or leaps k d).correction }
{}

/// At each second a zone has one type, which is in its list or its rule's, or it has none.
/// At the last transition's second the transition's type is in force, with a rule or without one,
/// unless the second's leap time is before the transition, as if a leap second is left out at the
/// transition.
pub fn zone_types_law()
    ensures once { (z : Zone) (u : ℤ) (s t : LocalType) → TypeAt z u s → TypeAt z u t → s ≡ t }
    ensures apart { (z : Zone) (u : ℤ) (t : LocalType) → TypeAt z u t → ¬ (IsTypeRefused z u) }
    ensures decided { (z : Zone) (u : ℤ) → IsValid z → IsRuleOrNone z.rule
        → ((t : LocalType) × TypeAt z u t) ⊎ IsTypeRefused z u }
    ensures listed { (z : Zone) (u : ℤ) (t : LocalType) → TypeAt z u t
        → ((k : ℕ) × (k < length z.types) × HasType z k t) ⊎ IsTypeOf z.rule u t }
    ensures last { (z : Zone) (last : Transition) (u x : ℤ) (t : LocalType) → IsValid z
        → last_transition z.transitions ≡ Some last → IsUnixTime z.leaps last.unix_leap_time u
        → IsLeapTime z.leaps u x → last.unix_leap_time ≤ℤ x → HasType z last.type_index t
        → TypeAt z u t }
{}
