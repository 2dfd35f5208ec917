//! The local time types of a data block and their names (RFC 8536 section 3.2).

ghost use Rattle.std.specs.Prelude.{◌≡◌, ◌<◌, ◌==◌, int_lt, ◌&&◌, if◌then◌else◌, option_map};
ghost use Rattle.{
  tz_base.specs.{Fronts.{after_run, run_of, Gives}, Grammar.{checked, Each, IsRead}},
  tz_base.specs.{LocalTypes.{expected_of_type}, Refusals.{LocalTimeType as BadType}, Steps.TextTests.{is_name_or_none}},
  tz_file.specs.FileContents.{designation, designation_of, is_not_zero, least_offset, local_type, mark, type_at, typed},
  tz_file.specs.FileLists.{pieces_of, EndFile, IsReadInMemory},
};

use crate::header::read_exact;
use crate::numbers::{record_at, signed_32};
use crate::parts::from_parts;
use crate::pieces::Pieces;
use std::alloc::Global;
use tz_base::place::{after, checked_at, fault_inside};
use tz_base::{Cursor, Error, Expected, LocalTimeType};

/// The types of the last block.
#[tactic(auto, using(crate::proofs::Words::err_from_is_err_and, crate::proofs::FilePieceLaws::each_fails))]
pub fn read_types<'a>(
    alloc: Global,
    bytes: &'a [u8],
    pieces: &Pieces<'_>,
    cursor: &mut Cursor<'a>,
) -> Result<Vec<LocalTimeType>, Error>
    requires { EndFile bytes.now (pieces_of pieces.now) }
    ensures { IsReadInMemory (Each pieces.now.counts.types (type_at (pieces_of pieces.now))) cursor.old
        (λ v. v.items) result cursor.new }
{
    let count = pieces.counts.types as usize;
    let mut types = Vec::with_capacity(alloc, count)?;
    for k in 0..count {
        types.push_reserved(read_type_at(bytes, pieces, k, cursor)?);
    }
    Ok(types)
}

#[tactic(auto, unfolding(crate::specs::FileContents::type_at))]
fn read_type_at<'a>(
    bytes: &'a [u8],
    pieces: &Pieces<'_>,
    k: usize,
    cursor: &mut Cursor<'a>,
) -> Result<LocalTimeType, Error>
    requires file { EndFile bytes.now (pieces_of pieces.now) }
    requires place { k < pieces.now.counts.types }
    ensures { IsRead (type_at (pieces_of pieces.now) k) cursor.old (λ t. t) result cursor.new }
{
    let record = record_at(pieces.block.types, 6, k);
    let mut inside = Cursor::new(record);
    let read = read_type(pieces.block.designations, &mut inside);
    if read.is_err() {
        *cursor = fault_inside(
            record,
            &inside,
            after(from_parts(bytes, pieces).types, k * 6),
        );
    }
    read
}

// A record: an offset of four bytes, a mark of daylight saving time, and where in the designations
// its name begins.
#[tactic(auto, unfolding(crate::specs::FileContents::local_type))]
fn read_type(designations: &[u8], cursor: &mut Cursor<'_>) -> Result<LocalTimeType, Error>
    ensures { IsRead (local_type designations.now) cursor.old (λ t. t) result cursor.new }
{
    let at_offset = cursor.remaining();
    let offset = read_exact(cursor, 4)?;
    let is_dst = read_mark(cursor)?;
    let at_place = cursor.remaining();
    let place = read_exact(cursor, 1)?;
    let text = read_designation(&mut Cursor::new(after(designations, place[0] as usize)));
    let text = checked_at(at_place, cursor, text)?;
    read_typed(at_offset, at_place, signed_32(offset), is_dst, text, cursor)
}

#[tactic(auto, unfolding(crate::specs::FileContents::mark))]
fn read_mark(cursor: &mut Cursor<'_>) -> Result<bool, Error>
    ensures { IsRead mark cursor.old (λ b. b) result cursor.new }
{
    if cursor.read_optional_tag(b"\0") {
        Ok(false)
    } else if cursor.read_optional_tag(b"\x01") {
        Ok(true)
    } else {
        Err(Error::InvalidTzFile(Expected::ZeroOrOneAsIsDst))
    }
}

// The text that ends at a 0 byte.
#[tactic(auto, unfolding(crate::specs::FileContents::designation))]
fn read_designation<'a>(cursor: &mut Cursor<'a>) -> Result<&'a [u8], Error>
    ensures { IsRead designation cursor.old (λ text. text.now) result cursor.new }
{
    if cursor.is_empty() {
        return Err(Error::InvalidTzFile(Expected::NameWithinDesignations));
    }
    let text = read_to_zero(cursor);
    if !cursor.read_optional_tag(b"\0") {
        return Err(Error::InvalidTzFile(Expected::ZeroByteAfterName));
    }
    Ok(text)
}

/// The bytes up to the next 0 byte, or all.
pub fn read_to_zero<'a>(cursor: &mut Cursor<'a>) -> &'a [u8]
    ensures run { result.now ≡ run_of is_not_zero cursor.old }
    ensures rest { cursor.new ≡ after_run is_not_zero cursor.old }
{
    cursor.read_until(
        |b: &u8| -> bool
            ensures { result ≡ (b.now == 0) }
        { *b == 0 },
    )
}

#[tactic(auto, unfolding(crate::specs::FileContents::typed))]
fn read_typed<'a>(
    at_offset: &'a [u8],
    at_place: &'a [u8],
    offset: i32,
    is_dst: bool,
    text: &[u8],
    cursor: &mut Cursor<'a>,
) -> Result<LocalTimeType, Error>
    ensures { IsRead (typed at_offset.now at_place.now
        (record { offset = offset; dst = is_dst; name = designation_of text.now }))
        cursor.old (λ t. t) result cursor.new }
{
    checked_at(
        type_place(at_offset, at_place, offset),
        cursor,
        local_type(offset, is_dst, text),
    )
}

// Where a type of that offset is rejected.
fn type_place<'a>(at_offset: &'a [u8], at_place: &'a [u8], offset: i32) -> &'a [u8]
    ensures { result.now ≡ (if int_lt least_offset offset then at_place.now else at_offset.now) }
{
    if i32::MIN < offset {
        at_place
    } else {
        at_offset
    }
}

// The type of an offset, a DST flag and a text: a function of its own, so that its clause says what
// is returned for one.
#[tactic(auto, using(tz_base::specs::Steps::TextTests::name_or_none_decided, crate::proofs::FilePieceLaws::in_range))]
fn local_type(offset: i32, is_dst: bool, text: &[u8]) -> Result<LocalTimeType, Error>
    ensures { Gives (λ t. t) result
        (checked (int_lt least_offset offset && is_name_or_none (designation_of text.now))
        (BadType (expected_of_type offset (designation_of text.now)))
        (record { offset = offset; dst = is_dst; name = designation_of text.now })) }
{
    LocalTimeType::new(offset, is_dst, designation_of(text))
}

// An empty text is no name.
fn designation_of(text: &[u8]) -> Option<&[u8]>
    ensures { option_map (λ name. name.now) result ≡ designation_of text.now }
{
    if text.is_empty() {
        return None;
    }
    Some(text)
}
