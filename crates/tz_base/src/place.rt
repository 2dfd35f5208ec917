//! The place of a fault.

ghost use Rattle.std.specs.Prelude.{◌≡◌, ◌-◌, drop, length, IfOk, OnErr};

use crate::{Cursor, Error};

/// Returns the result. An error moves the cursor to that place, the field whose value is rejected.
pub fn checked_at<'a, T: Drop>(
    place: &'a [u8],
    cursor: &mut Cursor<'a>,
    checked: Result<T, Error>,
) -> Result<T, Error>
    ensures same { result ≡ checked }
    ensures value { IfOk result (λ _. cursor.new ≡ cursor.old) }
    ensures place { OnErr result (cursor.new ≡ place.now) }
{
    if checked.is_err() {
        *cursor = Cursor::new(place);
    }
    checked
}

/// The bytes after the first `count`.
pub fn after(bytes: &[u8], count: usize) -> &[u8]
    ensures { result.now ≡ drop count bytes.now }
{
    if count < bytes.len() {
        &bytes[count..]
    } else {
        &[]
    }
}

/// Returns the cursor that comes as many bytes after the start of `from` as the other one does in the part.
pub fn fault_inside<'a>(part: &[u8], inside: &Cursor<'_>, from: &'a [u8]) -> Cursor<'a>
    ensures { result ≡ drop (length part.now - length inside.now) from.now }
{
    Cursor::new(after(from, part.len().saturating_sub(inside.remaining().len())))
}
