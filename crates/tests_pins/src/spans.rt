//! Spans: New York's standard time from November 2020 to March 2021, the steps over it in both directions,
//! and the years of a rule that never changes the clocks.

ghost use Rattle.std.specs.Prelude.{◌≡◌, pos, Option, Some};
ghost use Rattle.{
  tests_pins.specs.{NewYork.{est, new_york_zone}, Spans.{place_before, rule_years, span_of, steady_zone, winter}},
  tz_info.specs.{Spans.{IsInSpan, IsSpan, IsSpanAt}, Zones.{TypeAt}, SpanSteps.{IsNextSpan, IsPreviousSpan, SpanPlace}},
};

use tz_base::Span;

/// The span of 1615705199 is EST, from 1604210400 until 1615705200, and no other. It has its first
/// second, and not its end.
#[tactic(auto, using(crate::proofs::NewYorkChanges::winter_is, crate::proofs::NewYorkChanges::only_winter))]
pub fn new_york()
    ensures winter { IsSpanAt (TypeAt new_york_zone) (pos 1_615_705_199) winter }
    ensures only { (s : Span) → IsSpanAt (TypeAt new_york_zone) (pos 1_615_705_199) s → s ≡ winter }
    ensures first { IsInSpan winter (pos 1_604_210_400) }
    ensures before { ¬ (IsInSpan winter (pos 1_604_210_399)) }
    ensures end { ¬ (IsInSpan winter (pos 1_615_705_200)) }
{}

/// From its last second on, the next span is EST as a whole, and the place after it is its end.
#[tactic(auto, using(crate::proofs::NewYorkChanges::next_is_winter, crate::proofs::NewYorkChanges::only_next))]
pub fn next_step()
    ensures next { IsNextSpan (place_before (pos 1_615_705_199)) (Some winter)
        (place_before (pos 1_615_705_200)) }
    ensures only { (found : Option Span) (after : SpanPlace)
        → IsNextSpan (place_before (pos 1_615_705_199)) found after
        → (found ≡ Some winter) × (after.at ≡ pos 1_615_705_200) }
{}

/// Back from there it is the span before, and the place is its begin.
#[tactic(auto, using(crate::proofs::NewYorkChanges::previous_is_winter, crate::proofs::NewYorkChanges::only_previous))]
pub fn previous_step()
    ensures previous { IsPreviousSpan (place_before (pos 1_615_705_200)) (Some winter)
        (place_before (pos 1_604_210_400)) }
    ensures only { (found : Option Span) (after : SpanPlace)
        → IsPreviousSpan (place_before (pos 1_615_705_200)) found after
        → (found ≡ Some winter) × (after.at ≡ pos 1_604_210_400) }
{}

/// A rule whose two types are one has a single span: the years in which rules answer, from -2147483646
/// to 2147483645.
#[tactic(auto, using(crate::proofs::RuleYears::years_are, crate::proofs::RuleYears::only_years))]
pub fn rule_years()
    ensures span { IsSpanAt (TypeAt steady_zone) (pos 0) rule_years }
    ensures only { (s : Span) → IsSpanAt (TypeAt steady_zone) (pos 0) s → s ≡ rule_years }
{}

/// A span begins and ends at changes of the clocks, and has no other change within it.
pub fn no_spans()
    ensures late { ¬ (IsSpan (TypeAt new_york_zone)
        (span_of est (Some (pos 1_604_210_401)) (Some (pos 1_615_705_200)))) }
    ensures short { ¬ (IsSpan (TypeAt new_york_zone)
        (span_of est (Some (pos 1_604_210_400)) (Some (pos 1_615_705_199)))) }
    ensures without_begin { ¬ (IsSpan (TypeAt new_york_zone)
        (span_of est None (Some (pos 1_615_705_200)))) }
    ensures without_end { ¬ (IsSpan (TypeAt new_york_zone)
        (span_of est (Some (pos 1_604_210_400)) None)) }
{}
