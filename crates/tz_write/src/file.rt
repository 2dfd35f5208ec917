//! Time zone files (TZif, RFC 8536): the bytes of the file of a zone.

ghost use Rattle.{
  std.specs.Prelude.{IfOk, MatchOption, MatchResult, OnErr, option_map, string_bytes},
  tz_base.specs.Errors.{IsOutOfMemory},
  tz_info.specs.Zones.{Zone},
  tz_write.specs.Steps.FileParts.{IsRoomOf},
  tz_write.specs.WrittenFiles.{IsFooterText, IsInNoFile, IsSpellableOrNone, IsWritable, IsWrittenFile},
};

mod contents;
mod designations;
mod header;
mod numbers;
mod types;
mod writer;

use crate::rule_text::{ToTzString, TzText};
use std::alloc::{AllocError, Global};
use tz_info::{Error, TimeZone, TransitionRule};
use writer::{Room, room_for, write_file};

/// Zones that are written as TZif files.
pub trait ToTzData {
    // the zone that the value is
    ghost zone: { Self → Zone };

    /// Returns the bytes of a TZif file that spells the zone, or `None` if no file does.
    ///
    /// # Errors
    ///
    /// [`Error::OutOfMemory`] if there is no memory for the bytes.
    fn to_tz_data(&self, alloc: Global) -> Result<Option<Vec<u8>>, Error>
        // The file is the zone's; it is `None` only if no file spells it.
        ensures written { MatchResult result
            (λ answer. MatchOption answer (IsInNoFile (zone self.now))
            (λ bytes. IsWrittenFile (zone self.now) bytes.items))
            (λ e. IsOutOfMemory e) }
        // There is one if and only if the zone can be written.
        ensures reason { IfOk result (λ answer. MatchOption answer
            (¬ (IsWritable (zone self.now)))
            (λ _. IsWritable (zone self.now))) }
        // Running out of memory is answered only for a zone that can be written.
        ensures memory { OnErr result (IsWritable (zone self.now)) };
}

impl ToTzData for TimeZone {
    ghost zone = { λ zone. zone };

    /// Returns the bytes of a TZif file of version 2 that spells the zone (RFC 8536 section 3), or
    /// of version 3 if no string without the extensions of section 3.3.1 spells its rule. The first
    /// block has the least counts, there are no indicators, and types whose names are the same, or
    /// of which one ends the other, share bytes. The longest names come first, and those of one
    /// length in the order of their types. Equal zones give the same bytes.
    ///
    /// `None` if no file spells the zone, of whatever version: if a transition names a type past
    /// 255, a count has more than 32 bits, no string spells the rule, or the names have no room in
    /// any order: each begins at a place that one byte can name.
    ///
    /// ```
    /// if let Some(bytes) = zone.to_tz_data(alloc)? {
    ///     let is_equal = TimeZone::from_tz_data(alloc, &bytes)? == zone; // true
    /// }
    /// ```
    #[tactic(auto, using(crate::proofs::FileWritten::can_be_written, crate::proofs::FileWritten::writable, crate::proofs::RuleTexts::rule_read))]
    fn to_tz_data(&self, alloc: Global) -> Result<Option<Vec<u8>>, Error> {
        let Some(room) = room_for(self) else {
            return Ok(None);
        };
        let Some(footer) = footer_of(alloc, self.rule())? else {
            return Ok(None);
        };
        Ok(Some(file_of(alloc, self, &room, &footer)?))
    }
}

// The text of the footer, if there is one that spells the rule. No rule has the empty text.
#[tactic(auto, using(crate::proofs::RuleTexts::rule_read))]
fn footer_of(alloc: Global, rule: Option<&TransitionRule>) -> Result<Option<TzText>, Error>
    ensures written { let ruled = option_map (λ r. r.now) rule.entry in
        MatchResult result
        (λ answer. MatchOption answer (¬ (IsSpellableOrNone ruled))
        (λ t. IsFooterText ruled (string_bytes t.text) t.extended))
        (λ e. IsOutOfMemory e) }
    ensures memory { OnErr result (IsSpellableOrNone (option_map (λ r. r.now) rule.entry)) }
{
    match rule {
        None => Ok(Some(TzText {
            text: String::new(alloc),
            extended: false,
        })),
        Some(rule) => rule.to_tz_string(alloc),
    }
}

#[tactic(auto, using(crate::proofs::FileWritten::written_is))]
fn file_of(
    alloc: Global,
    zone: &TimeZone,
    room: &Room,
    footer: &TzText,
) -> Result<Vec<u8>, AllocError>
    requires room { IsRoomOf zone.now room.now }
    requires footer { IsFooterText zone.now.rule (string_bytes footer.now.text) footer.now.extended }
    ensures { IfOk result (λ v. IsWrittenFile zone.now v.items) }
{
    let bytes = write_file(alloc, zone, room, footer.text.as_bytes(), footer.extended)?;
    Ok(bytes)
}
