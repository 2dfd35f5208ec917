//! The headline, as one statement ([`statement`]), and what it rests on: that bytes spell one zone or have
//! a fault, and that a lawful zone answers what the bytes' zone does.
//!
//! If a function is empty, its contract is the theorem. [`statement`] makes the calls, so that nobody has to
//! join their contracts by hand.

ghost use Rattle.std.specs.Prelude.{◌≡◌, List, MatchResult, ℕ, ℤ};
ghost use Rattle.{
  naive_base.specs.{NaiveDateTime.{reading}, Range.{IsWide}},
  offset_core.specs.{LocalResult.{map_of}, Offset.{IsWithinDay}, WallAnswer.{IsWallAnswer}},
  tz_base.specs.LocalTypes.{LocalType},
  tz_file.specs.FilePieces.{FilePieces, HasPieces},
  tz_info.specs.{Looks.{RoseByInstant}, RuleTypes.{IsRuleRefused, RuleAt}, Zones.{IsTypeError, IsValid, TypeAt, Zone}},
  tz_info.specs.PosixZones.{IsPosixFault, IsPosixZone},
  tz_info.specs.{TzFiles.{IsFileFault, IsTzFile}, TzGrammar.{IsTextFault, IsTzText}, WallClocks.{Shows}},
  tz_search.specs.Counts.{HasRoom},
  zoned.specs.Headline.{Headline, IsAnswerOf, IsAnsweredByRule, IsAnsweredInZone, IsLawful, IsReferenceTo, IsValidFile},
  zoned.specs.Headline.{AreTypesByInstant, AreTypesByWallClock},
  zoned_ref.specs.Offsets.{AreOffsetsOf, IsNarrow},
  zoned_time.specs.Zone.{IsZoneSecond, SameOffsets},
};
ghost use Rattle.zoned_time.specs.Zone as zones;

mod answers;
mod calls;
mod operators;

use crate::{DateTime, LocalResult, NaiveDateTime, TimeZone, TimeZoneRef};
pub use answers::{
    Answers, Asked, ByClock, ByInstant, ByRule, ByStamp, ByWallClock, Changed, Compared, Fields,
    InLaw, InUtc, InZone, Moved, Named, OfParts, Operated, Parts, Rounded, Stamps,
};
use std::alloc::Global;
use tz_info::{Error, LocalTimeType, Probes, TransitionRule};

/// No bytes spell two zones. A file spells no valid zone if and only if it has a fault, and one of
/// its faults is the first. A text with a fault spells no zone at all; a text's zone is valid.
pub fn one_zone()
    ensures files { (bytes : List ℕ) (y z : Zone) → IsTzFile bytes y → IsTzFile bytes z → y ≡ z }
    ensures file_or_fault { (bytes : List ℕ) (e : Error) (z : Zone) → IsFileFault bytes e
        → IsTzFile bytes z → ¬ (IsValid z) }
    ensures file_has_fault { (bytes : List ℕ) → ((z : Zone) → IsTzFile bytes z → ¬ (IsValid z))
        → (e : Error) × IsFileFault bytes e }
    ensures one_file_fault { (bytes : List ℕ) (d e : Error) → IsFileFault bytes d → IsFileFault bytes e
        → d ≡ e }
    ensures texts { (text : List ℕ) (y z : Zone) → IsPosixZone text y → IsPosixZone text z
        → y ≡ z }
    ensures text_or_fault { (text : List ℕ) (e : Error) (z : Zone) → IsPosixFault text e
        → ¬ (IsPosixZone text z) }
    ensures text_is_valid { (text : List ℕ) (z : Zone) → IsPosixZone text z → IsValid z }
{}

/// The headline: what bytes give and what clocks show in the zone that they spell, which zones are
/// lawful, and what each call of an instant means there.
///
/// It is proved for all bytes, for every parsed zone and every lawful one, for any two instants, also
/// with offsets that disagree with their zones, and for all arguments of the calls. It makes the calls,
/// and returns what they answer: each field of an answer has the name of its call.
pub fn statement<'a, Tz: TimeZone>(
    alloc: Global,
    bytes: &[u8],
    text: &str,
    string: &[u8],
    extended: bool,
    parsed: &'a tz_info::TimeZone,
    zone: &Tz,
    instant: &DateTime<Tz>,
    other: &DateTime<Tz>,
    asked: &Asked,
) -> Answers<'a, Tz, Tz::Offset>
    ensures { Headline bytes.now text.now string.now extended parsed.now Tz.law zone.now instant.now
        other.now asked.now result }
{
    Answers {
        from_tz_data: in_zone_of_file(alloc, bytes, asked),
        from_posix_tz: in_zone_of_text(alloc, text, asked),
        from_tz_string: by_rule_of_string(string, extended, asked),
        time_zone_ref: lawful_zone(parsed),
        lawful: in_law(zone, &instant.naive_utc(), &asked.local),
        by_clock: calls::by_clock(zone, asked),
        by_stamp: calls::by_stamp(zone, instant, asked),
        of_parts: calls::of_parts(instant, other),
        in_utc: calls::in_utc(instant, asked),
        named: calls::named(),
        parts: calls::parts(zone, instant),
        fields: calls::fields(instant),
        changed: calls::changed(instant, asked),
        moved: calls::moved(instant, asked),
        operated: operators::operated(instant, asked),
        compared: calls::compared(instant, other),
        stamps: calls::stamps(instant),
        rounded: calls::rounded(instant, asked),
    }
}

fn in_zone_of_file(alloc: Global, bytes: &[u8], asked: &Asked) -> Result<InZone, Error>
    ensures { IsAnswerOf (IsValidFile bytes.now) (IsFileFault bytes.now)
        (IsAnsweredInZone asked.now) ((p : FilePieces) × HasPieces bytes.now p) result }
{
    match tz_info::TimeZone::from_tz_data(alloc, bytes) {
        Ok(zone) => Ok(asked_zone(zone, asked)),
        Err(e) => Err(e),
    }
}

fn in_zone_of_text(alloc: Global, text: &str, asked: &Asked) -> Result<InZone, Error>
    ensures { IsAnswerOf (IsPosixZone text.now) (IsPosixFault text.now)
        (IsAnsweredInZone asked.now) ((z : Zone) × IsPosixZone text.now z) result }
{
    match tz_info::TimeZone::from_posix_tz(alloc, text) {
        Ok(zone) => Ok(asked_zone(zone, asked)),
        Err(e) => Err(e),
    }
}

fn by_rule_of_string(string: &[u8], extended: bool, asked: &Asked) -> Result<ByRule, Error>
    ensures { IsAnswerOf (IsTzText extended string.now) (IsTextFault extended string.now)
        (IsAnsweredByRule asked.now) ⊥ result }
{
    match TransitionRule::from_tz_string(string, extended) {
        Ok(rule) => Ok(asked_rule(rule, asked)),
        Err(e) => Err(e),
    }
}

fn asked_zone(zone: tz_info::TimeZone, asked: &Asked) -> InZone
    ensures { IsAnsweredInZone asked.now zone result }
{
    InZone {
        by_instant: types_by_instant(&zone, asked),
        by_wall_clock: types_by_wall_clock(&zone, asked),
        zone,
    }
}

fn types_by_instant(zone: &tz_info::TimeZone, asked: &Asked) -> ByInstant
    ensures { AreTypesByInstant zone.now asked.now.stamp result }
{
    let mut probes = Probes::new();
    ByInstant {
        find_local_time_type: type_at(zone, asked.stamp),
        find_local_time_type_counted: type_at_counted(zone, asked.stamp, &mut probes),
        probes,
    }
}

fn types_by_wall_clock(zone: &tz_info::TimeZone, asked: &Asked) -> ByWallClock
    ensures { AreTypesByWallClock zone.now (reading asked.now.local).s result }
{
    let (local, mut probes, mut walked) = (asked.local, Probes::new(), Probes::new());
    ByWallClock {
        find_local_time_type_from_local: zone.find_local_time_type_from_local(local),
        find_local_time_type_from_local_counted: zone.find_local_time_type_from_local_counted(
            local,
            &mut probes,
        ),
        probes,
        find_local_time_type_from_local_by_walk: zone.find_local_time_type_from_local_by_walk(
            local,
            &mut walked,
        ),
        walked,
    }
}

fn asked_rule(rule: TransitionRule, asked: &Asked) -> ByRule
    ensures { IsAnsweredByRule asked.now rule result }
{
    ByRule {
        find_local_time_type: type_by_rule(&rule, asked.stamp),
        find_local_time_type_from_local: rule.find_local_time_type_from_local(asked.local),
        rule,
    }
}

fn type_at(zone: &tz_info::TimeZone, second: i64) -> Result<LocalTimeType, Error>
    ensures { MatchResult result (TypeAt zone.now second) (IsTypeError zone.now second) }
{
    Ok(*zone.find_local_time_type(second)?)
}

fn type_at_counted(
    zone: &tz_info::TimeZone,
    second: i64,
    probes: &mut Probes,
) -> Result<LocalTimeType, Error>
    requires { HasRoom probes.old }
    ensures found { MatchResult result (TypeAt zone.now second) (IsTypeError zone.now second) }
    ensures cost { RoseByInstant zone.now probes.old probes.new }
{
    Ok(*zone.find_local_time_type_counted(second, probes)?)
}

fn type_by_rule(rule: &TransitionRule, second: i64) -> Result<LocalTimeType, Error>
    ensures { MatchResult result (RuleAt rule.now second) (λ _. IsRuleRefused rule.now second) }
{
    Ok(*rule.find_local_time_type(second)?)
}

fn in_law<Tz: TimeZone>(zone: &Tz, utc: &NaiveDateTime, local: &NaiveDateTime) -> InLaw<Tz::Offset>
    ensures { IsLawful (Tz.law zone.now) (reading utc.now).s (reading local.now).s result }
{
    InLaw {
        offset_from_utc_datetime: zone.offset_from_utc_datetime(utc),
        offset_from_local_datetime: zone.offset_from_local_datetime(local),
        offset_before_gap: zone.offset_before_gap(local),
    }
}

/// From a parsed zone to a lawful one, which [`TimeZone`]'s law names, or `None` if one of its offsets
/// is a day or more. Its law is the offsets of the types in force.
pub fn lawful_zone(zone: &tz_info::TimeZone) -> Option<TimeZoneRef<'_>>
    ensures { IsReferenceTo zone.now result }
{
    TimeZoneRef::new(zone)
}

/// What a lawful zone answers is what the bytes' zone answers: the offsets of the types in force are
/// one function of the second, strictly within a day, and the wall clock's answer over it, whose
/// seconds are those of the range that zones answer in, is that of the types over all seconds of 64
/// bits.
pub fn lawful()
    ensures one_law { (z : Zone) (f g : ℤ → ℤ) → AreOffsetsOf z f → AreOffsetsOf z g
        → SameOffsets f g }
    ensures within_day { (z : Zone) (off : ℤ → ℤ) → IsNarrow z → AreOffsetsOf z off
        → (u : ℤ) → IsZoneSecond u → IsWithinDay (off u) }
    ensures answers { (z : Zone) (off : ℤ → ℤ) (local : ℤ) → IsNarrow z → AreOffsetsOf z off
        → IsWide local → (types : LocalResult LocalType)
        → IsWallAnswer (Shows (TypeAt z) local) types
        → IsWallAnswer (zones.ShowsByOffset off local) (map_of (λ t. t.offset) types) }
{}
