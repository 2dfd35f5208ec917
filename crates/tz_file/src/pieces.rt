//! The pieces of a file, from its first byte to its last.

ghost use Rattle.std.specs.Prelude.{◌≡◌};
ghost use Rattle.{
  tz_base.specs.Grammar.{IsRead},
  tz_file.specs.{FileBlocks.{parts_of}, FilePieces.{file, after_first_block, is_extended, later_version}},
  tz_file.specs.FileLists.{pieces_of},
};

use crate::block::{Block, read_block};
use crate::header::{Counts, Header, Place, Version, read_header};
use tz_base::{Cursor, Error, Expected};

/// The pieces of a file that say what its zone is: the last block, with its header's counts and the
/// size of its times, the footer, and whether the footer's text may have extensions.
#[derive(Clone, Copy)]
pub struct Pieces<'a> {
    pub extended: bool,
    pub time_size: usize,
    pub counts: Counts,
    pub block: Block<'a>,
    pub footer: Option<&'a [u8]>,
}

/// How many transitions and leap seconds a TZif file has.
#[derive(Clone, Copy, Debug, PartialEq, Eq)]
pub struct FileCounts {
    /// The transitions.
    pub transitions: u32,
    /// The leap seconds.
    pub leap_seconds: u32,
}

/// The pieces of the whole file.
#[tactic(auto, unfolding(crate::specs::FilePieces::file))]
pub fn read_pieces<'a>(cursor: &mut Cursor<'a>) -> Result<Pieces<'a>, Error>
    ensures { IsRead file cursor.old pieces_of result cursor.new }
{
    let header = read_header(cursor, Place::First)?;
    let block = read_block(cursor, &header.counts, 4)?;
    after_first_block(cursor, header, block)
}

// In version 1 the first block says all, and nothing follows it.
#[tactic(auto, unfolding(crate::specs::FilePieces::after_first_block, crate::specs::FilePieces::first_version))]
fn after_first_block<'a>(
    cursor: &mut Cursor<'a>,
    header: Header,
    block: Block<'a>,
) -> Result<Pieces<'a>, Error>
    ensures { IsRead (after_first_block header.version header.counts (parts_of block.entry))
        cursor.old pieces_of result cursor.new }
{
    match header.version {
        Version::One => {
            if !cursor.is_empty() {
                return Err(Error::InvalidTzFile(Expected::NothingAfterBlockOfVersion1));
            }
            Ok(Pieces {
                extended: false,
                time_size: 4,
                counts: header.counts,
                block,
                footer: None,
            })
        }
        Version::Two | Version::Three => later_version(cursor),
    }
}

// From version 2 on the second block says all, with the footer, which is the rest.
#[tactic(auto, unfolding(crate::specs::FilePieces::later_version))]
fn later_version<'a>(cursor: &mut Cursor<'a>) -> Result<Pieces<'a>, Error>
    ensures { IsRead later_version cursor.old pieces_of result cursor.new }
{
    let header = read_header(cursor, Place::Second)?;
    let block = read_block(cursor, &header.counts, 8)?;
    let footer = cursor.remaining();
    *cursor = Cursor::new(&[]);
    Ok(Pieces {
        extended: is_extended(header.version),
        time_size: 8,
        counts: header.counts,
        block,
        footer: Some(footer),
    })
}

// From version 3 on the TZ string has the extensions of RFC 8536 section 3.3.1.
fn is_extended(version: Version) -> bool
    ensures { result ≡ is_extended version }
{
    matches!(version, Version::Three)
}
