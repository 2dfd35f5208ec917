//! Theorems of TZ strings and of the zones that they give: each function is empty, its contract is
//! proved; never called.

ghost use Rattle.std.specs.Prelude.{◌≡◌, ◌≤◌, length, Bool, List, ℕ};
ghost use Rattle.{
  tz_base.specs.Errors.{error_number},
  tz_info.specs.PosixZones.{IsPosixFault, IsPosixFaultPlace, IsPosixZone},
  tz_info.specs.{TzGrammar.{text_fault_position, IsTextFault, IsTzText}, Zones.{IsRuleOrNone, IsValid, Zone}},
};

use crate::rule::TransitionRule;
use tz_base::Error;

/// No bytes spell two rules.
#[tactic(auto, using(crate::proofs::PosixLaws::one_rule))]
pub fn one_rule()
    ensures { (extended : Bool) (bytes : List ℕ) (a b : TransitionRule) → IsTzText extended bytes a
        → IsTzText extended bytes b → a ≡ b }
{}

/// No text gives two zones.
pub fn one_zone()
    ensures { (text : List ℕ) (y z : Zone) → IsPosixZone text y → IsPosixZone text z → y ≡ z }
{}

/// What a text gives is a zone whose rule's numbers are in their limits.
pub fn zone_is_valid()
    ensures { (text : List ℕ) (zone : Zone) → IsPosixZone text zone
        → IsValid zone × IsRuleOrNone zone.rule }
{}

/// A text with a fault spells no rule. It has one first fault, and that is not running out of
/// memory.
#[tactic(auto, using(crate::proofs::PosixLaws::one_fault, crate::proofs::PosixLaws::refused_or_spelled, crate::proofs::PosixLaws::text_low,))]
pub fn fault_or_rule()
    ensures apart { (extended : Bool) (bytes : List ℕ) (e : Error) (rule : TransitionRule)
        → IsTextFault extended bytes e → ¬ (IsTzText extended bytes rule) }
    ensures once { (extended : Bool) (bytes : List ℕ) (d e : Error) → IsTextFault extended bytes d
        → IsTextFault extended bytes e → d ≡ e }
    ensures low { (extended : Bool) (bytes : List ℕ) (e : Error) → IsTextFault extended bytes e
        → error_number e ≤ 16 }
{}

/// A text with a fault gives no zone. It has one first fault, and that is not running out of memory.
pub fn fault_or_zone()
    ensures apart { (text : List ℕ) (e : Error) (zone : Zone) → IsPosixFault text e
        → ¬ (IsPosixZone text zone) }
    ensures once { (text : List ℕ) (d e : Error) → IsPosixFault text d → IsPosixFault text e
        → d ≡ e }
    ensures low { (text : List ℕ) (e : Error) → IsPosixFault text e → error_number e ≤ 16 }
{}

/// The fault of a text has one place, in the text or at its end.
#[tactic(auto, using(crate::proofs::PosixLaws::one_place, tz_base::proofs::TrimLaws::trimmed_fits))]
pub fn fault_place()
    ensures once { (text : List ℕ) (a b : ℕ) → IsPosixFaultPlace text a → IsPosixFaultPlace text b
        → a ≡ b }
    ensures within { (text : List ℕ) (place : ℕ) → IsPosixFaultPlace text place
        → place ≤ length text }
    ensures string { (extended : Bool) (bytes : List ℕ)
        → text_fault_position extended bytes ≤ length bytes }
{}
