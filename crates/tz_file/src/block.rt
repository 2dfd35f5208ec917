//! The data blocks of a file (RFC 8536 section 3.2).

ghost use Rattle.std.specs.Prelude.{◌≤◌};
ghost use Rattle.{
  tz_base.specs.Grammar.{IsRead},
  tz_file.specs.FileBlocks.{block, parts_of},
};

use crate::header::{Counts, read_exact};
use tz_base::{Cursor, Error};

/// The parts of a data block, each a slice of the file.
#[derive(Clone, Copy)]
pub struct Block<'a> {
    pub times: &'a [u8],
    pub type_indexes: &'a [u8],
    pub types: &'a [u8],
    pub designations: &'a [u8],
    pub leap_seconds: &'a [u8],
    pub standard_wall: &'a [u8],
    pub ut_local: &'a [u8],
}

/// The block that the counts announce, whose times have that many bytes each. No product wraps:
/// each is below 2^36.
#[tactic(auto, unfolding(crate::specs::FileBlocks::block))]
pub fn read_block<'a>(
    cursor: &mut Cursor<'a>,
    counts: &Counts,
    time_size: usize,
) -> Result<Block<'a>, Error>
    requires { time_size ≤ 8 }
    ensures { IsRead (block time_size counts.now) cursor.old parts_of result cursor.new }
{
    Ok(Block {
        times: read_exact(cursor, counts.transitions as usize * time_size)?,
        type_indexes: read_exact(cursor, counts.transitions as usize)?,
        types: read_exact(cursor, counts.types as usize * 6)?,
        designations: read_exact(cursor, counts.designations as usize)?,
        leap_seconds: read_exact(cursor, counts.leap_seconds as usize * (time_size + 4))?,
        standard_wall: read_exact(cursor, counts.standard_wall as usize)?,
        ut_local: read_exact(cursor, counts.ut_local as usize)?,
    })
}
