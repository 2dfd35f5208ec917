//! Zones of TZ strings.

ghost use Rattle.std.specs.Prelude.{◌≡◌, ◌⊎◌, pos, true, IfErr, IfOk, MatchResult};
ghost use Rattle.{
  tz_base.specs.Errors.{IsOutOfMemory},
  tz_info.specs.PosixZones.{posix_zone, types_of, IsExtendedFaultPlace, IsExtendedZone, IsPlaced, IsPosixFault},
  tz_info.specs.PosixZones.{IsPosixFaultPlace, IsPosixZone},
  tz_info.specs.{Zones.{plain_zone, Zone}, Steps.Spelled.{IsTrimmedRule}, TzGrammar.{IsTextFault}},
};

use crate::rule::TransitionRule;
use crate::rule::reader::read_all;
use crate::rule::reader::text::{Spelled, rule_of};
use crate::zone::time_zone::TimeZone;
use std::alloc::Global;
use tz_base::trims::{space_in_front, trimmed};
use tz_base::{Error, LocalTimeType, ParseError};

impl TimeZone {
    /// Returns the zone of a POSIX TZ string (POSIX.1 section 8.3), such as `EST5EDT,M3.2.0,M11.1.0`. It
    /// has the string's rule and the rule's one or two types, standard time first. An empty string gives
    /// the zone of [`TimeZone::utc`]. Spaces, tabs, line feeds, form feeds and carriage returns at both
    /// ends are ignored; extensions are rejected.
    ///
    /// ```
    /// let zone = TimeZone::from_posix_tz(alloc, "EST5EDT,M3.2.0,M11.1.0")?;
    /// let name = zone.find_local_time_type(1_615_705_200)?.name();    // Some("EDT")
    /// ```
    ///
    /// # Errors
    ///
    /// Those of [`TransitionRule::from_tz_string`]; [`Error::OutOfMemory`] if there is no memory
    /// for the zone.
    pub fn from_posix_tz(alloc: Global, text: &str) -> Result<TimeZone, Error>
        // The zone is the text's.
        ensures found { IfOk result (λ z. IsPosixZone text.now z) }
        // A text that has a zone gives it, unless there is no memory.
        ensures only { (z : Zone) → IsPosixZone text.now z
            → MatchResult result (λ y. y ≡ z) (λ e. IsOutOfMemory e) }
        // An error is the first fault of the text, or says that memory ran out.
        ensures fault { IfErr result
            (λ e. IsOutOfMemory e ⊎ IsPosixFault text.now e) }
        // Running out of memory is answered only for a text that has a zone.
        ensures memory { IfErr result
            (λ e. IsOutOfMemory e → (z : Zone) × IsPosixZone text.now z) }
    {
        match TimeZone::parse_posix_tz(alloc, text) {
            Ok(zone) => Ok(zone),
            Err(fault) => Err(fault.error),
        }
    }

    /// Returns the zone of [`TimeZone::from_posix_tz`], or its error with the place of the fault: the
    /// number of bytes in front of it, white space among them. It is the place that
    /// [`TransitionRule::parse_tz_string`] gives, counted from the start of the text.
    ///
    /// ```
    /// if let Err(e) = TimeZone::parse_posix_tz(alloc, " EST5EDT,M3.2.0,M13.1.0") {
    ///     let position = e.position; // Some(17), at the month 13
    /// }
    /// ```
    ///
    /// # Errors
    ///
    /// Those of [`TimeZone::from_posix_tz`]. [`Error::OutOfMemory`] has no place, and each other
    /// error has one.
    #[tactic(auto, using(crate::proofs::PosixLaws::posix_answers))]
    pub fn parse_posix_tz(alloc: Global, text: &str) -> Result<TimeZone, ParseError>
        // The zone is the text's.
        ensures found { IfOk result (λ z. IsPosixZone text.now z) }
        // A text that has a zone gives it, unless there is no memory.
        ensures only { (z : Zone) → IsPosixZone text.now z
            → MatchResult result (λ y. y ≡ z) (λ e. IsOutOfMemory e.error) }
        // An error is the first fault of the text, or says that memory ran out.
        ensures fault { IfErr result
            (λ e. IsOutOfMemory e.error ⊎ IsPosixFault text.now e.error) }
        // A fault has its place.
        ensures place { IfErr result (λ e. IsPlaced (IsPosixFaultPlace text.now) e) }
        // Running out of memory is answered only for a text that has a zone.
        ensures memory { IfErr result
            (λ e. IsOutOfMemory e.error → (z : Zone) × IsPosixZone text.now z) }
    {
        if text.is_empty() {
            return TimeZone::utc_zone(alloc);
        }
        match read_trimmed(text.as_bytes()) {
            Ok(spelled) => TimeZone::of_rule(alloc, rule_of(spelled)),
            Err(fault) => Err(fault),
        }
    }

    /// Returns the zone of a TZ string that may have the extensions of RFC 8536, section 3.3.1: its
    /// rule at every instant. Nothing is trimmed.
    ///
    /// ```
    /// let nuuk = TimeZone::from_extended_tz(alloc, b"<-03>3<-02>,M3.5.0/-2,M10.5.0/-1")?;
    /// ```
    ///
    /// # Errors
    ///
    /// Those of [`TransitionRule::from_tz_string`]; [`Error::OutOfMemory`] if there is no memory
    /// for the zone.
    pub fn from_extended_tz(alloc: Global, text: &[u8]) -> Result<TimeZone, Error>
        // The zone is the string's.
        ensures found { IfOk result (λ z. IsExtendedZone text.now z) }
        // A string that has a zone gives it, unless there is no memory.
        ensures only { (z : Zone) → IsExtendedZone text.now z
            → MatchResult result (λ y. y ≡ z) (λ e. IsOutOfMemory e) }
        // An error is the first fault of the string, or says that memory ran out.
        ensures fault { IfErr result
            (λ e. IsOutOfMemory e ⊎ IsTextFault true text.now e) }
        // Running out of memory is reported only for a string that has a zone.
        ensures memory { IfErr result
            (λ e. IsOutOfMemory e → (z : Zone) × IsExtendedZone text.now z) }
    {
        match TimeZone::parse_extended_tz(alloc, text) {
            Ok(zone) => Ok(zone),
            Err(fault) => Err(fault.error),
        }
    }

    /// Returns the zone of [`TimeZone::from_extended_tz`], or its error with the place of the fault.
    ///
    /// ```
    /// if let Err(e) = TimeZone::parse_extended_tz(alloc, b"<-03>3<-02>,M3.5.0/-2,M10.5.0/-168") {
    ///     let position = e.position; // Some(31), at the hours
    /// }
    /// ```
    ///
    /// # Errors
    ///
    /// Those of [`TimeZone::from_extended_tz`]. [`Error::OutOfMemory`] has no place, and each other
    /// error has one.
    #[tactic(auto, using(crate::proofs::PosixLaws::string_answers))]
    pub fn parse_extended_tz(alloc: Global, text: &[u8]) -> Result<TimeZone, ParseError>
        // The zone is the string's.
        ensures found { IfOk result (λ z. IsExtendedZone text.now z) }
        // A string that has a zone gives it, unless there is no memory.
        ensures only { (z : Zone) → IsExtendedZone text.now z
            → MatchResult result (λ y. y ≡ z) (λ e. IsOutOfMemory e.error) }
        // An error is the first fault of the string, or says that memory ran out.
        ensures fault { IfErr result
            (λ e. IsOutOfMemory e.error ⊎ IsTextFault true text.now e.error) }
        // A fault has its place.
        ensures place { IfErr result (λ e. IsPlaced (IsExtendedFaultPlace text.now) e) }
        // Running out of memory is reported only for a string that has a zone.
        ensures memory { IfErr result
            (λ e. IsOutOfMemory e.error → (z : Zone) × IsExtendedZone text.now z) }
    {
        let spelled = read_all(text, true)?;
        TimeZone::of_rule(alloc, rule_of(spelled))
    }

    fn utc_zone(alloc: Global) -> Result<TimeZone, ParseError>
        ensures { MatchResult result
            (λ z. z ≡ plain_zone (pos 0))
            (λ e. IsOutOfMemory e.error × (e.position ≡ None)) }
    {
        Ok(TimeZone::utc(alloc)?)
    }

    #[inline(always)]
    fn of_rule(alloc: Global, rule: TransitionRule) -> Result<TimeZone, ParseError>
        ensures { MatchResult result
            (λ z. z ≡ posix_zone rule)
            (λ e. IsOutOfMemory e.error × (e.position ≡ None)) }
    {
        let types = types_of(alloc, &rule)?;
        Ok(TimeZone::with_rule(types, Some(rule)))
    }
}

// What a text spells without the white space at its ends.
fn read_trimmed(text: &[u8]) -> Result<Spelled, ParseError>
    ensures { IsTrimmedRule text.now result }
{
    match read_all(trimmed(text), false) {
        Ok(spelled) => Ok(spelled),
        Err(ParseError { error, position }) => {
            let position = match position {
                Some(place) => Some(space_in_front(text) + place),
                None => None,
            };
            Err(ParseError { error, position })
        }
    }
}

// The types of the rule, that of standard time first.
fn types_of(alloc: Global, rule: &TransitionRule) -> Result<Vec<LocalTimeType>, Error>
    ensures { MatchResult result
        (λ types. types.items ≡ types_of rule.now)
        (λ e. IsOutOfMemory e) }
{
    match rule {
        TransitionRule::Fixed(local) => Ok(vec![in alloc; *local]?),
        TransitionRule::Alternate(alternate) => Ok(vec![in alloc;
            *alternate.std(),
            *alternate.dst(),
        ]?),
    }
}
