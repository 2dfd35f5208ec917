//! The local time types of a data block (RFC 8536 section 3.2).

ghost use Rattle.std.specs.{List.{flat_map}, Prelude.{◌≡◌, ◌++◌, All, OnOk}};
ghost use Rattle.tz_write.specs.{Steps.{LaidFiles.{mark_byte, type_bytes}, LaidNames.{HasPlace, HavePlaces}}, WrittenFiles.{IsType}};

use crate::file::designations::{name_of, place_of};
use crate::file::numbers::push_signed_32;
use std::alloc::AllocError;
use tz_info::LocalTimeType;

fn mark_byte(is_dst: bool) -> u8
    ensures { result ≡ mark_byte is_dst }
{
    if is_dst { 1 } else { 0 }
}

#[tactic(auto, unfolding(crate::specs::Steps::LaidFiles::type_bytes))]
fn push_type_record(
    bytes: &mut Vec<u8>,
    designations: &[u8],
    local: &LocalTimeType,
) -> Result<(), AllocError>
    requires { HasPlace designations.now local.now }
    ensures appended { OnOk result
        (bytes.new.items ≡ bytes.old.items ++ type_bytes designations.now local.now) }
    ensures sound { OnOk result (IsType local.now) }
{
    let place = place_of(name_of(local), designations);
    push_signed_32(bytes, local.offset())?;
    bytes.extend_from_slice(&[mark_byte(local.is_dst()), place as u8])
}

/// Appends the types.
#[tactic(auto, using(crate::proofs::Words::appended))]
pub fn push_types(
    bytes: &mut Vec<u8>,
    designations: &[u8],
    types: &[LocalTimeType],
) -> Result<(), AllocError>
    requires { HavePlaces designations.now types.now }
    ensures appended { OnOk result
        (bytes.new.items ≡ bytes.old.items ++ flat_map (type_bytes designations.now) types.now) }
    ensures sound { OnOk result (All IsType types.now) }
{
    for local in types {
        push_type_record(bytes, designations, local)?;
    }
    Ok(())
}
