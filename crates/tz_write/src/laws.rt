//! Theorems of what is written: the contract of each function is proved; none is called.

ghost use Rattle.std.specs.Prelude.{◌≡◌, ◌↔◌, false, true, Bool, List, ℕ};
ghost use Rattle.{
  tz_info.specs.{PosixZones.{IsPosixZone}, TzGrammar.{IsTzText}, Zones.{IsRuleOrNone, Zone}, RuleTypes.{IsRule}},
  tz_write.specs.WrittenTexts.{AreTimesOf, CanBeSpelled, IsOfText, IsWrittenText, IsWrittenZone},
};

use tz_info::TransitionRule;

pub mod files;

/// A text spells a rule if and only if each type has a name and its DST flag, and a rule of one type
/// an offset below a day. One text is written of it then, with extensions if and only if its times
/// need them.
#[tactic(auto, using(crate::proofs::RuleTexts::rule_laws))]
pub fn one_written_text()
    ensures spelled { (extended : Bool) (bytes : List ℕ) (rule : TransitionRule)
        → IsTzText extended bytes rule → CanBeSpelled rule }
    ensures some { (rule : TransitionRule) → IsRule rule → CanBeSpelled rule
        → (text : List ℕ) × (needed : Bool) × IsWrittenText rule text needed }
    ensures once { (rule : TransitionRule) (s t : List ℕ) (d e : Bool) → IsWrittenText rule s d
        → IsWrittenText rule t e → (s ≡ t) × (d ≡ e) }
    ensures extensions { (rule : TransitionRule) (text : List ℕ) (extended : Bool) → IsRule rule
        → IsWrittenText rule text extended → (extended ≡ true) ↔ (¬ (AreTimesOf false rule)) }
{}

/// A string gives a zone if and only if the zone has only its rule, which a string without
/// extensions spells, or is UTC. One string is written for it then.
#[tactic(auto, using(crate::proofs::RuleTexts::rule_read, crate::proofs::RuleTexts::zone_text_some))]
pub fn one_zone_text()
    ensures given { (text : List ℕ) (z : Zone) → IsPosixZone text z → IsOfText z }
    ensures some { (z : Zone) → IsRuleOrNone z.rule → IsOfText z
        → (text : List ℕ) × IsWrittenZone z text }
    ensures once { (z : Zone) (s t : List ℕ) → IsWrittenZone z s → IsWrittenZone z t → s ≡ t }
{}

/// The text that is written of a rule spells no other.
pub fn written_text_read()
    ensures { (rule other : TransitionRule) (text : List ℕ) (extended : Bool)
        → IsWrittenText rule text extended → IsTzText extended text other → other ≡ rule }
{
    tz_info::laws::texts::one_rule()
}
