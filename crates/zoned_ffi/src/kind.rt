//! How bytes are read: as a TZif file, or as a TZ string, with extensions or without.
#![tactic(auto, using(crate::proofs::Reading::rejections))]

ghost use Rattle.std.specs.Prelude.{◌≡◌, IfErr, IfOk, MatchOption, MatchResult};
ghost use Rattle.{
  tz_info.specs.Zones.{Zone},
  zoned_ffi.specs.Kinds.{kind_number, IsKind, IsZoneOf, SpellsZone},
  zoned_ffi.specs.Refusals.{refusal_number, IsErrorOfKind, IsFault, IsReaderNumber},
};

use crate::refusal::Refusal;
use std::alloc::Global;
use std::str;
use tz_info::TimeZone;

/// How bytes are read.
#[derive(Clone, Copy)]
pub enum Kind {
    /// As a TZif file. Its number is 0.
    File,
    /// As a TZ string, as `EST5EDT,M3.2.0,M11.1.0`. Its number is 1.
    Text,
    /// As a TZ string with the extensions of RFC 8536, section 3.3.1. Its number is 2.
    ExtendedText,
}

impl Kind {
    /// The kind of that number.
    pub fn from_number(number: u32) -> Option<Kind>
        ensures { MatchOption result (¬ (IsKind number)) (λ kind. number ≡ kind_number kind) }
    {
        match number {
            0 => Some(Kind::File),
            1 => Some(Kind::Text),
            2 => Some(Kind::ExtendedText),
            _ => None,
        }
    }

    /// The zone that bytes of this kind spell.
    pub fn read(self, alloc: Global, bytes: &[u8]) -> Result<TimeZone, Refusal>
        ensures found { IfOk result (λ z. SpellsZone self bytes.now z) }
        ensures only { (z : Zone) → SpellsZone self bytes.now z
            → MatchResult result (λ y. y ≡ z) (λ e. refusal_number e ≡ 17) }
        ensures fault { IfErr result (λ e. IsFault self bytes.now (refusal_number e)) }
        ensures number { IfErr result (λ e. IsReaderNumber (refusal_number e)) }
    {
        match self {
            Kind::File => TimeZone::from_tz_data(alloc, bytes).map_err(Refusal::File),
            Kind::Text => read_text(alloc, bytes),
            Kind::ExtendedText => read_extended(alloc, bytes),
        }
    }
}

// The zone of a TZ string.
fn read_text(alloc: Global, bytes: &[u8]) -> Result<TimeZone, Refusal>
    ensures found { IfOk result (λ z. SpellsZone Kind.Text bytes.now z) }
    ensures only { (z : Zone) → SpellsZone Kind.Text bytes.now z
        → MatchResult result (λ y. y ≡ z) (λ e. refusal_number e ≡ 17) }
    ensures fault { IfErr result (λ e. IsFault Kind.Text bytes.now (refusal_number e)) }
    ensures number { IfErr result (λ e. IsReaderNumber (refusal_number e)) }
{
    let Ok(text) = str::from_utf8(bytes) else {
        return Err(Refusal::TextNotUtf8);
    };
    match TimeZone::from_posix_tz(alloc, text) {
        Ok(zone) => Ok(zone),
        Err(error) => Err(Refusal::Reader(error)),
    }
}

// The zone of a TZ string with extensions.
#[tactic(auto, using(crate::proofs::Reading::extended_refused))]
fn read_extended(alloc: Global, bytes: &[u8]) -> Result<TimeZone, Refusal>
    ensures found { IfOk result (λ z. SpellsZone Kind.ExtendedText bytes.now z) }
    ensures only { (z : Zone) → SpellsZone Kind.ExtendedText bytes.now z
        → MatchResult result (λ y. y ≡ z) (λ e. refusal_number e ≡ 17) }
    ensures fault { IfErr result (λ e. IsFault Kind.ExtendedText bytes.now (refusal_number e)) }
    ensures number { IfErr result (λ e. IsReaderNumber (refusal_number e)) }
{
    match TimeZone::from_extended_tz(alloc, bytes) {
        Ok(zone) => Ok(zone),
        Err(error) => Err(Refusal::Reader(error)),
    }
}

/// The zone of the bytes, which are read by the kind of that number.
pub fn read_zone(alloc: Global, number: u32, bytes: &[u8]) -> Result<TimeZone, Refusal>
    ensures found { IfOk result (λ z. IsZoneOf number bytes.now z) }
    ensures only { (z : Zone) → IsZoneOf number bytes.now z
        → MatchResult result (λ y. y ≡ z) (λ e. refusal_number e ≡ 17) }
    ensures fault { IfErr result (λ e. IsErrorOfKind number bytes.now (refusal_number e)) }
{
    let Some(kind) = Kind::from_number(number) else {
        return Err(Refusal::UnknownKind);
    };
    kind.read(alloc, bytes)
}
