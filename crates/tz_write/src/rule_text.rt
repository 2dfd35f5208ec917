//! The TZ string of a rule.

ghost use Rattle.std.specs.Prelude.{◌≡◌, ◌↔◌, ◌++◌, false, string_bytes, true, Bool, IfOk, IsTrue, List, MatchBool, MatchOption};
ghost use Rattle.std.specs.Prelude.{MatchResult, OnErr, OnOk, ℕ};
ghost use Rattle.{
  offset_core.specs.Offset.{IsWithinDay},
  tz_base.specs.{Errors.{IsOutOfMemory}, Names.{IsName}},
  tz_info.specs.{Rules.{IsAlternateRule}, RuleTypes.{IsRule}, TzGrammar.{IsTzText}},
  tz_info.specs.declared.rule.transition_rule.TransitionRule.{TransitionRule as Rule},
  tz_write.specs.FileDesignations.{name_of},
  tz_write.specs.Steps.TextPieces.{spelled_alternate, spelled_days, spelled_name, spelled_rule, spelled_type},
  tz_write.specs.WrittenTexts.{IsUnspelled, IsWrittenText, AreTimesOf, CanBeSpelled, HasPlainText, IsNamedType},
  tz_write.specs.WrittenTexts.{IsPlainTime},
};

use crate::pieces::day::push_day;
use crate::pieces::name::push_name;
use crate::pieces::offset::{push_dst_offset, push_offset};
use std::alloc::{AllocError, Global};
use tz_info::{AlternateTime, Error, LocalTimeType, TimeZoneName, TransitionRule};

/// A TZ string that was written, and whether it has the extensions of RFC 8536 section 3.3.1: hours
/// of a time of day that are negative, or above 24.
#[derive(Debug, Drop)]
pub struct TzText {
    /// The string.
    pub text: String,
    /// Whether it has extensions.
    pub extended: bool,
}

/// Rules that are written as TZ strings.
pub trait ToTzString {
    // the rule that the value is
    ghost rule: { Self → Rule };

    /// Returns the TZ string that spells the rule, or `None` if no string does: if a type has no
    /// name, or a DST flag that the string wouldn't give it, or if a rule of one type has an offset
    /// of a day or more.
    ///
    /// ```
    /// let text = b"<EST>+05:00<EDT>,M3.2.0/02:00:00,M11.1.0";
    /// let rule = TransitionRule::from_tz_string(text, false)?;
    /// let written = rule.to_tz_string(alloc)??.text; // EST5EDT,M3.2.0,M11.1.0
    /// ```
    ///
    /// # Errors
    ///
    /// [`Error::OutOfMemory`] if there is no memory for the string.
    fn to_tz_string(&self, alloc: Global) -> Result<Option<TzText>, Error>
        // The text is the rule's, and the shortest; it is `None` only if no text spells the rule.
        ensures written { MatchResult result
            (λ answer. MatchOption answer (IsUnspelled (rule self.now))
            (λ t. IsWrittenText (rule self.now) (string_bytes t.text) t.extended))
            (λ e. IsOutOfMemory e) }
        // There is one if and only if each type has a name and its DST flag, and a rule of one type
        // an offset below a day.
        ensures reason { IfOk result (λ answer. MatchOption answer
            (¬ (CanBeSpelled (rule self.now)))
            (λ _. CanBeSpelled (rule self.now))) }
        // Running out of memory is answered only for a rule that some text spells.
        ensures memory { OnErr result ((extended : Bool) × (text : List ℕ)
            × IsTzText extended text (rule self.now)) };
}

impl ToTzString for TransitionRule {
    ghost rule = { λ rule. rule };

    /// Returns the shortest TZ string that spells the rule, with minutes and seconds in two digits.
    #[tactic(auto, using(crate::proofs::RuleTexts::rule_read, crate::proofs::RuleTexts::written, crate::proofs::RuleTexts::text_is))]
    fn to_tz_string(&self, alloc: Global) -> Result<Option<TzText>, Error> {
        if !can_be_spelled(self) {
            return Ok(None);
        }
        let text = text_of(alloc, self)?;
        Ok(Some(TzText {
            text,
            extended: !is_plain(self),
        }))
    }
}

// The rule's text.
pub(crate) fn text_of(alloc: Global, rule: &TransitionRule) -> Result<String, Error>
    ensures { MatchResult result
        (λ text. string_bytes text ≡ spelled_rule rule.now)
        (λ e. IsOutOfMemory e) }
{
    let mut text = String::new(alloc);
    push_rule(&mut text, rule)?;
    Ok(text)
}

// Whether a text without extensions spells the rule.
pub(crate) fn has_plain_text(rule: &TransitionRule) -> bool
    ensures answer { IsTrue result ↔ HasPlainText rule.now }
    ensures rule { IsRule rule.now }
{
    can_be_spelled(rule) && is_plain(rule)
}

// Whether some text spells the rule.
fn can_be_spelled(rule: &TransitionRule) -> bool
    ensures answer { IsTrue result ↔ CanBeSpelled rule.now }
    ensures rule { IsRule rule.now }
{
    match rule {
        TransitionRule::Fixed(local) => is_named(local, false) && is_within_day(local),
        TransitionRule::Alternate(alternate) => are_named(alternate),
    }
}

// Whether both types have a name and their DST flags.
fn are_named(alternate: &AlternateTime) -> bool
    ensures answer { IsTrue result ↔ (IsNamedType false alternate.now.std
        × IsNamedType true alternate.now.dst) }
    ensures rule { IsAlternateRule alternate.now }
{
    is_named(alternate.std(), false) && is_named(alternate.dst(), true)
}

// Whether the type has a name, and that DST flag.
fn is_named(local: &LocalTimeType, dst: bool) -> bool
    ensures { IsTrue result ↔ IsNamedType dst local.now }
{
    local.is_dst() == dst && has_name(local)
}

fn has_name(local: &LocalTimeType) -> bool
    ensures { MatchBool result ((name : List ℕ) × IsName name × (local.now.name ≡ Some name))
        (local.now.name ≡ None) }
{
    match local.name() {
        Some(name) => is_some_name(name),
        None => false,
    }
}

// That the bytes of a name are one.
fn is_some_name(name: &TimeZoneName) -> bool
    ensures yes { result ≡ true }
    ensures name { IsName name.now }
{
    !name.as_bytes().is_empty()
}

fn is_within_day(local: &LocalTimeType) -> bool
    ensures { IsTrue result ↔ IsWithinDay local.now.offset }
{
    let offset = local.offset();
    -86_400 < offset && offset < 86_400
}

// Whether a text without extensions has room for the rule's times.
fn is_plain(rule: &TransitionRule) -> bool
    ensures { IsTrue result ↔ AreTimesOf false rule.now }
{
    match rule {
        TransitionRule::Fixed(_) => true,
        TransitionRule::Alternate(alternate) => {
            is_plain_time(alternate.dst_start_time()) && is_plain_time(alternate.dst_end_time())
        }
    }
}

fn is_plain_time(time: i32) -> bool
    ensures { IsTrue result ↔ IsPlainTime time }
{
    0 <= time && time < 90_000
}

// The rule's text.
fn push_rule(text: &mut String, rule: &TransitionRule) -> Result<(), AllocError>
    ensures { OnOk result (string_bytes text.new ≡ string_bytes text.old ++ spelled_rule rule.now) }
{
    match rule {
        TransitionRule::Fixed(local) => push_type(text, local),
        TransitionRule::Alternate(alternate) => push_alternate(text, alternate),
    }
}

fn push_alternate(text: &mut String, alternate: &AlternateTime) -> Result<(), AllocError>
    ensures { OnOk result
        (string_bytes text.new ≡ string_bytes text.old ++ spelled_alternate alternate.now) }
{
    push_type(text, alternate.std())?;
    push_name_of(text, alternate.dst())?;
    push_dst_offset(text, alternate)?;
    push_days(text, alternate)
}

// The days when daylight saving time starts and ends, each after a comma.
fn push_days(text: &mut String, alternate: &AlternateTime) -> Result<(), AllocError>
    ensures { OnOk result
        (string_bytes text.new ≡ string_bytes text.old ++ spelled_days alternate.now) }
{
    push_day(text, alternate.dst_start(), alternate.dst_start_time())?;
    push_day(text, alternate.dst_end(), alternate.dst_end_time())
}

// A type's name and offset.
fn push_type(text: &mut String, local: &LocalTimeType) -> Result<(), AllocError>
    ensures { OnOk result (string_bytes text.new ≡ string_bytes text.old ++ spelled_type local.now) }
{
    push_name_of(text, local)?;
    push_offset(text, local.offset())
}

fn push_name_of(text: &mut String, local: &LocalTimeType) -> Result<(), AllocError>
    ensures { OnOk result
        (string_bytes text.new ≡ string_bytes text.old ++ spelled_name (name_of local.now)) }
{
    match local.name() {
        Some(name) => push_name(text, name),
        None => Ok(()),
    }
}
