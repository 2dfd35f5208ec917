//! Numbers in a file, the highest byte first.

ghost use Rattle.std.specs.{Int.{w32, w64}, Prelude.{◌≡◌, ◌++◌, FitsSigned, OnOk}};
ghost use Rattle.tz_write.specs.Steps.LaidFiles.{number_bytes, signed_bytes};

use std::alloc::AllocError;

/// Appends a count of four bytes.
#[tactic(auto, unfolding(crate::specs::Steps::LaidFiles::number_bytes))]
pub fn push_count(bytes: &mut Vec<u8>, number: u32) -> Result<(), AllocError>
    ensures { OnOk result (bytes.new.items ≡ bytes.old.items ++ number_bytes number) }
{
    bytes.extend_from_slice(&number.to_be_bytes())
}

/// Appends a number of four bytes in two's complement.
#[tactic(auto, unfolding(crate::specs::Steps::LaidFiles::signed_bytes))]
pub fn push_signed_32(bytes: &mut Vec<u8>, number: i32) -> Result<(), AllocError>
    ensures appended { OnOk result (bytes.new.items ≡ bytes.old.items ++ signed_bytes w32 number) }
    ensures fits { FitsSigned w32 number }
{
    bytes.extend_from_slice(&number.to_be_bytes())
}

/// Appends a number of eight bytes in two's complement.
#[tactic(auto, unfolding(crate::specs::Steps::LaidFiles::signed_bytes))]
pub fn push_signed_64(bytes: &mut Vec<u8>, number: i64) -> Result<(), AllocError>
    ensures appended { OnOk result (bytes.new.items ≡ bytes.old.items ++ signed_bytes w64 number) }
    ensures fits { FitsSigned w64 number }
{
    bytes.extend_from_slice(&number.to_be_bytes())
}
