//! The TZ string of a zone.

ghost use Rattle.std.specs.Prelude.{◌≡◌, ◌↔◌, ◌∷◌, [], string_bytes, IfOk, IsTrue, List, MatchOption, MatchResult, OnErr, ℕ};
ghost use Rattle.{
  tz_base.specs.Errors.{IsOutOfMemory},
  tz_info.specs.{PosixZones.{types_of, IsPosixZone}, RuleTypes.{IsRule}, Zones.{zone_of_rule, Zone}},
  tz_write.specs.WrittenTexts.{HasZoneText, IsNoPosixZone, IsOfText, IsWrittenZone},
};

use crate::rule_text::{has_plain_text, text_of};
use std::alloc::Global;
use tz_info::{Error, LocalTimeType, TimeZone, TransitionRule};

/// Zones that are written as TZ strings.
pub trait ToPosixTz {
    // the zone that the value is
    ghost zone: { Self → Zone };

    /// Returns the TZ string that gives the zone, as `TimeZone::from_posix_tz` parses one, or
    /// `None` if no string does: if the zone has transitions, leap seconds or other types than its
    /// rule's, or a rule that no string without extensions spells.
    ///
    /// ```
    /// let zone = TimeZone::from_posix_tz(alloc, "<+0530>-05:30:00")?;
    /// let written = zone.to_posix_tz(alloc)??; // <+0530>-5:30
    /// ```
    ///
    /// # Errors
    ///
    /// [`Error::OutOfMemory`] if there is no memory for the string.
    fn to_posix_tz(&self, alloc: Global) -> Result<Option<String>, Error>
        // The text is the zone's, and the shortest; it is `None` only if no text gives the zone.
        ensures written { MatchResult result
            (λ answer. MatchOption answer (IsNoPosixZone (zone self.now))
            (λ text. IsWrittenZone (zone self.now) (string_bytes text)))
            (λ e. IsOutOfMemory e) }
        // There is one if and only if the zone is its rule alone, which a text without extensions
        // spells, or UTC.
        ensures reason { IfOk result (λ answer. MatchOption answer
            (¬ (IsOfText (zone self.now)))
            (λ _. IsOfText (zone self.now))) }
        // Running out of memory is answered only for a zone that some text gives.
        ensures memory { OnErr result ((text : List ℕ) × IsPosixZone text (zone self.now)) };
}

impl ToPosixTz for TimeZone {
    ghost zone = { λ zone. zone };

    /// Returns the shortest TZ string that gives the zone, with minutes and seconds in two digits:
    /// that of the rule, if the zone has only its rule, or the empty string for the zone of UTC.
    fn to_posix_tz(&self, alloc: Global) -> Result<Option<String>, Error> {
        if !is_rule_alone(self) {
            return Ok(None);
        }
        let types = self.local_time_types();
        match self.rule() {
            Some(rule) => text_of_rule(alloc, types, rule),
            None => Ok(text_of_utc(alloc, types)),
        }
    }
}

// Whether the zone has neither transitions nor leap seconds.
fn is_rule_alone(zone: &TimeZone) -> bool
    ensures { IsTrue result ↔ ((zone.now.transitions ≡ []) × (zone.now.leaps ≡ [])) }
{
    zone.transition_count() == 0 && zone.leap_seconds().is_empty()
}

// The text of the zone of those types and that rule.
#[tactic(auto, using(crate::proofs::RuleTexts::rule_read))]
fn text_of_rule(
    alloc: Global,
    types: &[LocalTimeType],
    rule: &TransitionRule,
) -> Result<Option<String>, Error>
    requires { IsRule rule.now }
    ensures written { let zone = zone_of_rule types.now (Some rule.now) in
        MatchResult result
        (λ answer. MatchOption answer (IsNoPosixZone zone)
        (λ text. IsWrittenZone zone (string_bytes text)))
        (λ e. IsOutOfMemory e) }
    ensures reason { let zone = zone_of_rule types.now (Some rule.now) in
        IfOk result (λ answer. MatchOption answer (¬ (IsOfText zone)) (λ _. IsOfText zone)) }
    ensures memory { OnErr result (HasZoneText types.now (Some rule.now)) }
{
    if !has_zone_text(types, rule) {
        return Ok(None);
    }
    Ok(Some(text_of(alloc, rule)?))
}

// Whether a text gives the zone of those types and that rule.
fn has_zone_text(types: &[LocalTimeType], rule: &TransitionRule) -> bool
    ensures { IsTrue result ↔ HasZoneText types.now (Some rule.now) }
{
    are_types_of(types, rule) && has_plain_text(rule)
}

// The text of the zone of those types and no rule.
fn text_of_utc(alloc: Global, types: &[LocalTimeType]) -> Option<String>
    ensures written { let zone = zone_of_rule types.now None in
        MatchOption result (IsNoPosixZone zone)
        (λ text. IsWrittenZone zone (string_bytes text)) }
    ensures reason { let zone = zone_of_rule types.now None in
        MatchOption result (¬ (IsOfText zone)) (λ _. IsOfText zone) }
{
    if is_only(types, &LocalTimeType::utc()) {
        Some(String::new(alloc))
    } else {
        None
    }
}

// Whether those are the types of the rule.
fn are_types_of(types: &[LocalTimeType], rule: &TransitionRule) -> bool
    ensures { IsTrue result ↔ (types.now ≡ types_of rule.now) }
{
    match rule {
        TransitionRule::Fixed(local) => is_only(types, local),
        TransitionRule::Alternate(alternate) => {
            are_both(types, alternate.std(), alternate.dst())
        }
    }
}

fn is_only(types: &[LocalTimeType], local: &LocalTimeType) -> bool
    ensures { IsTrue result ↔ (types.now ≡ local.now ∷ []) }
{
    types.len() == 1 && is_same(&types[0], local)
}

fn are_both(types: &[LocalTimeType], first: &LocalTimeType, second: &LocalTimeType) -> bool
    ensures { IsTrue result ↔ (types.now ≡ first.now ∷ second.now ∷ []) }
{
    types.len() == 2 && is_same(&types[0], first) && is_same(&types[1], second)
}

fn is_same(local: &LocalTimeType, other: &LocalTimeType) -> bool
    ensures { IsTrue result ↔ (local.now ≡ other.now) }
{
    tz_base::laws::local_time_types();
    local == other
}
