//! Theorems of the files that are written.

ghost use Rattle.std.specs.Prelude.{◌≡◌, slice_index, IfOk, IfSome, List, MatchOption, MatchResult, ℕ};
ghost use Rattle.{
  tz_base.specs.Errors.{IsOutOfMemory},
  tz_info.specs.{TzFiles.{IsTzFile}, Zones.{IsRuleOrNone, IsValid, Zone}},
  tz_write.specs.WrittenFiles.{NeedsExtensions, AreBytes, IsInNoFile, IsSound, IsWritable, IsWrittenFile},
};

use crate::ToTzData;
use std::alloc::Global;
use tz_info::{Error, TimeZone};

/// Both headers of a written file have version `3` (51) if and only if the zone's rule needs the
/// extensions of RFC 8536 section 3.3.1; else both have `2` (50).
#[tactic(auto, using(crate::proofs::RuleTexts::extensions))]
pub fn versions()
    ensures extended { (z : Zone) (bytes : List ℕ) → IsRuleOrNone z.rule → IsWrittenFile z bytes
        → NeedsExtensions z.rule
        → (slice_index bytes 4 ≡ 51) × (slice_index bytes 55 ≡ 51) }
    ensures plain { (z : Zone) (bytes : List ℕ) → IsRuleOrNone z.rule → IsWrittenFile z bytes
        → ¬ (NeedsExtensions z.rule)
        → (slice_index bytes 4 ≡ 50) × (slice_index bytes 55 ≡ 50) }
{}

/// A zone has one file that is written, if it can be written.
#[tactic(auto, using(crate::proofs::FileWritten::file_some))]
pub fn one_file()
    ensures some { (z : Zone) → IsValid z → IsRuleOrNone z.rule → IsSound z → IsWritable z
        → (bytes : List ℕ) × IsWrittenFile z bytes }
    ensures once { (z : Zone) (a b : List ℕ) → IsWrittenFile z a → IsWrittenFile z b → a ≡ b }
{}

/// A zone that can be written is written.
///
/// # Errors
///
/// Running out of memory.
pub fn written_if_writable<T: ToTzData>(alloc: Global, value: &T) -> Result<Vec<u8>, Error>
    requires { IsWritable (T.zone value.now) }
    ensures { MatchResult result
        (λ bytes. IsWrittenFile (T.zone value.now) bytes.items)
        (λ e. IsOutOfMemory e) }
{
    match value.to_tz_data(alloc)? {
        Some(bytes) => Ok(bytes),
        None => unreachable!(),
    }
}

/// The same bytes are written for the same zone.
///
/// # Errors
///
/// Running out of memory.
pub fn written_alike<T: ToTzData>(
    alloc: Global,
    value: &T,
    other: &T,
) -> Result<Option<(Vec<u8>, Vec<u8>)>, Error>
    requires { T.zone value.now ≡ T.zone other.now }
    ensures { IfOk result (λ answer. IfSome answer (λ files. files.0.items ≡ files.1.items)) }
{
    one_file();
    let Some(file) = value.to_tz_data(alloc)? else {
        return Ok(None);
    };
    let Some(other_file) = other.to_tz_data(alloc)? else {
        return Ok(None);
    };
    Ok(Some((file, other_file)))
}

/// The file that is written for a zone spells no other.
pub fn written_file_read()
    ensures { (y z : Zone) (bytes : List ℕ) → IsWrittenFile y bytes → IsTzFile bytes z → z ≡ y }
{
    tz_info::laws::files::one_zone()
}

/// A zone that some file spells, of whatever version, can be written.
#[tactic(auto, using(crate::proofs::FileWritten::writable))]
pub fn every_file()
    ensures { (bytes : List ℕ) (z : Zone) → AreBytes bytes → IsTzFile bytes z → IsWritable z }
{}

/// The zone, written and read again: it is the same, or `None` if it can't be written.
///
/// # Errors
///
/// Running out of memory.
pub fn written_and_read(alloc: Global, zone: &TimeZone) -> Result<Option<TimeZone>, Error>
    ensures { MatchResult result
        (λ answer. MatchOption answer (IsInNoFile zone.now) (λ z. z ≡ zone.now))
        (λ e. IsOutOfMemory e) }
{
    zone.valid_law();
    match zone.to_tz_data(alloc)? {
        None => Ok(None),
        Some(bytes) => Ok(Some(TimeZone::from_tz_data(alloc, &bytes)?)),
    }
}
