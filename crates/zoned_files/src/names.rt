//! Names of zones, and their paths.

ghost use Rattle.std.specs.{List.{list_all}, Prelude.{◌≡◌, false, string_bytes, true, IfOk, MatchOption}};
ghost use Rattle.zoned_files.specs.ZoneNames.{is_above, is_here, is_part, is_part_byte, is_zone_name, path_text};

use std::alloc::{AllocError, Global};

/// Returns whether a text has the form of a zone's name: parts with a slash between them, each of
/// letters, digits, `+`, `-`, `.` and `_` of ASCII, and none of them empty, `.` or `..`.
pub fn is_zone_name(text: &str) -> bool
    ensures { result ≡ is_zone_name text.now }
{
    text.split('/').all(|part| is_part(part.as_bytes()))
}

fn is_part(part: &[u8]) -> bool
    ensures { result ≡ is_part part.now }
{
    if is_here(part) || is_above(part) {
        return false;
    }
    are_part_bytes(part)
}

fn are_part_bytes(part: &[u8]) -> bool
    ensures { result ≡ list_all is_part_byte part.now }
{
    part.iter().all(|byte| is_part_byte(*byte))
}

fn is_here(part: &[u8]) -> bool
    ensures { result ≡ is_here part.now }
{
    match part {
        [] => true,
        [byte] => *byte == b'.',
        _ => false,
    }
}

fn is_above(part: &[u8]) -> bool
    ensures { result ≡ is_above part.now }
{
    match part {
        [one, other] => *one == b'.' && *other == b'.',
        _ => false,
    }
}

fn is_part_byte(byte: u8) -> bool
    ensures { result ≡ is_part_byte byte }
{
    matches!(byte, b'A'..=b'Z' | b'a'..=b'z' | b'0'..=b'9' | b'+' | b'-' | b'.' | b'_')
}

/// Returns the path of the zone of that name in a folder. `None` if it has not the form of a name,
/// so that no path leads out of the folder.
///
/// # Errors
///
/// There is no memory for the path.
pub fn path_in(alloc: Global, folder: &str, name: &str) -> Result<Option<String>, AllocError>
    ensures { IfOk result (λ found. MatchOption found (is_zone_name name.now ≡ false)
        (λ path. (is_zone_name name.now ≡ true)
        × (string_bytes path ≡ path_text folder.now name.now))) }
{
    if !is_zone_name(name) {
        return Ok(None);
    }
    let mut path = String::from_str(alloc, folder)?;
    path.push('/')?;
    path.push_str(name)?;
    Ok(Some(path))
}
