//! The position of the fault of a TZ string or a file.

ghost use Rattle.std.specs.Prelude.{◌≡◌};
ghost use Rattle.zoned_ffi.specs.{FaultPlaces.{position_of, IsFaultPosition}, Kinds.{kind_number}};

use crate::kind::Kind;
use std::alloc::Global;
use std::str;
use tz_info::{ParseError, TimeZone};

// The position of bytes without a fault.
const NO_POSITION: usize = usize::MAX;

/// Returns how many bytes are in front of the fault for which `zoned_open` rejects a TZ string or a file.
/// `usize::MAX` for bytes that spell a zone, for another kind of bytes, and if memory runs out for a
/// file's lists.
#[unsafe(no_mangle)]
#[tactic(auto, using(crate::proofs::FaultLaws::no_kind))]
pub extern "C" fn zoned_fault_position(alloc: Global, kind: u32, zone: &[u8]) -> usize
    ensures { IsFaultPosition kind zone.now result }
{
    match Kind::from_number(kind) {
        Some(kind) => kind.fault_position(alloc, zone),
        None => NO_POSITION,
    }
}

impl Kind {
    #[tactic(auto, using(crate::proofs::FaultLaws::file_place, crate::proofs::FaultLaws::string_place))]
    fn fault_position(self, alloc: Global, bytes: &[u8]) -> usize
        ensures { IsFaultPosition (kind_number self) bytes.now result }
    {
        match self {
            Kind::File => position(&TimeZone::parse_tz_data(alloc, bytes)),
            Kind::Text => text_position(alloc, bytes),
            Kind::ExtendedText => position(&TimeZone::parse_extended_tz(alloc, bytes)),
        }
    }
}

// The position of the first byte that is not UTF-8, or of the fault of a string in UTF-8.
fn text_position(alloc: Global, bytes: &[u8]) -> usize
    ensures { IsFaultPosition 1 bytes.now result }
{
    match str::from_utf8(bytes) {
        Ok(text) => position(&TimeZone::parse_posix_tz(alloc, text)),
        Err(error) => error.valid_up_to(),
    }
}

fn position(read: &Result<TimeZone, ParseError>) -> usize
    ensures { result ≡ position_of read.now }
{
    match read {
        Ok(_) => NO_POSITION,
        Err(error) => error.position.unwrap_or(NO_POSITION),
    }
}
