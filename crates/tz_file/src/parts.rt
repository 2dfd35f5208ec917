//! The bytes of a file from a fault on.

ghost use Rattle.std.specs.Prelude.{◌≡◌, option_map};
ghost use Rattle.tz_file.specs.{FilePieces.{footer_bytes}, FileLists.{pieces_of, AreFromParts, EndFile}};

use crate::pieces::Pieces;
use tz_base::place::after;

/// The bytes of a file from the parts of the last data block on.
#[derive(Clone, Copy)]
pub struct FromParts<'a> {
    pub times: &'a [u8],
    pub type_indexes: &'a [u8],
    pub types: &'a [u8],
    pub leap_seconds: &'a [u8],
    pub ut_local: &'a [u8],
}

/// Returns them. The parts follow one another, and the footer ends the file.
pub fn from_parts<'a>(bytes: &'a [u8], pieces: &Pieces<'_>) -> FromParts<'a>
    requires { EndFile bytes.now (pieces_of pieces.now) }
    ensures { AreFromParts (pieces_of pieces.now) result }
{
    let block = pieces.block;
    let footer = bytes.len() - footer_bytes(pieces.footer).len();
    let leap_seconds = footer
        - block.ut_local.len()
        - block.standard_wall.len()
        - block.leap_seconds.len();
    let type_indexes = leap_seconds
        - block.designations.len()
        - block.types.len()
        - block.type_indexes.len();
    let times = after(bytes, type_indexes - block.times.len());
    let type_indexes = after(times, block.times.len());
    let types = after(type_indexes, block.type_indexes.len());
    let designations = after(types, block.types.len());
    let leap_seconds = after(designations, block.designations.len());
    let standard_wall = after(leap_seconds, block.leap_seconds.len());
    FromParts {
        times,
        type_indexes,
        types,
        leap_seconds,
        ut_local: after(standard_wall, block.standard_wall.len()),
    }
}

/// Returns the footer, or no bytes if there is none.
pub fn footer_bytes(footer: Option<&[u8]>) -> &[u8]
    ensures { result.now ≡ footer_bytes (option_map (λ f. f.now) footer.entry) }
{
    match footer {
        Some(bytes) => bytes,
        None => &[],
    }
}
