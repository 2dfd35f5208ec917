//! The headers of a file (RFC 8536 section 3.1).

ghost use Rattle.std.specs.Prelude.{◌≡◌, ◌++◌, OnOk};
ghost use Rattle.tz_write.specs.{FileBytes.{version_byte}, Steps.{FileParts.{counts_in}, LaidFiles.{counts_bytes, header_bytes, first_half}}};

use crate::file::numbers::push_count;
use std::alloc::AllocError;

/// How many there are of each thing in the data block that follows. It has no indicators.
#[derive(Clone, Copy)]
pub struct Sizes {
    pub leap_seconds: u32,
    pub transitions: u32,
    pub types: u32,
    pub designations: u32,
}

#[tactic(auto, unfolding(crate::specs::Steps::LaidFiles::header_bytes))]
pub fn push_header(bytes: &mut Vec<u8>, extended: bool, sizes: Sizes) -> Result<(), AllocError>
    ensures { OnOk result
        (bytes.new.items ≡ bytes.old.items ++ header_bytes extended (counts_in sizes)) }
{
    bytes.extend_from_slice(b"TZif")?;
    bytes.extend_from_slice(&[version_byte(extended)])?;
    bytes.extend_from_slice(&[0; 15])?;
    push_counts(bytes, sizes)
}

// Version 2, or version 3, in which the footer may have extensions.
fn version_byte(extended: bool) -> u8
    ensures { result ≡ version_byte extended }
{
    if extended { b'3' } else { b'2' }
}

#[tactic(auto, unfolding(crate::specs::Steps::LaidFiles::counts_bytes))]
fn push_counts(bytes: &mut Vec<u8>, sizes: Sizes) -> Result<(), AllocError>
    ensures { OnOk result (bytes.new.items ≡ bytes.old.items ++ counts_bytes (counts_in sizes)) }
{
    push_count(bytes, 0)?;
    push_count(bytes, 0)?;
    push_count(bytes, sizes.leap_seconds)?;
    push_count(bytes, sizes.transitions)?;
    push_count(bytes, sizes.types)?;
    push_count(bytes, sizes.designations)
}

/// The first header and its block, which say nothing of the zone: readers of version 2 and 3 pass
/// them over. One type and one byte of designations are the least that a block may have.
#[tactic(auto, unfolding(crate::specs::Steps::LaidFiles::first_half))]
pub fn push_first_half(bytes: &mut Vec<u8>, extended: bool) -> Result<(), AllocError>
    ensures { OnOk result (bytes.new.items ≡ bytes.old.items ++ first_half extended) }
{
    let least = Sizes {
        leap_seconds: 0,
        transitions: 0,
        types: 1,
        designations: 1,
    };
    push_header(bytes, extended, least)?;
    bytes.extend_from_slice(&[0; 7])
}
