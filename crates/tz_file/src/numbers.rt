//! Signed numbers in a file, the highest byte first, and the records of a part.

ghost use Rattle.std.specs.{Int.{w32, w64}, Prelude.{◌≡◌, ◌⊎◌, ◌≤◌, ◌+◌, ◌*◌, length}};
ghost use Rattle.tz_file.specs.FileContents.{file_time, record_at, signed};

/// Returns the record at that place, if each has that size.
pub fn record_at(part: &[u8], size: usize, place: usize) -> &[u8]
    requires { place * size + size ≤ length part.now }
    ensures value { result.now ≡ record_at size part.now place }
    ensures size { length result.now ≡ size }
{
    part.split_at(place * size).1.split_at(size).0
}

/// A time of four or eight bytes.
pub fn time_of(size: usize, bytes: &[u8]) -> i64
    requires size { (size ≡ 4) ⊎ (size ≡ 8) }
    requires room { size ≤ length bytes.now }
    ensures { result ≡ file_time size bytes.now }
{
    if size == 4 {
        signed_32(bytes) as i64
    } else {
        signed_64(bytes)
    }
}

/// The number of the first four bytes.
#[tactic(auto, unfolding(crate::specs::FileContents::signed))]
pub fn signed_32(bytes: &[u8]) -> i32
    requires { 4 ≤ length bytes.now }
    ensures { result ≡ signed w32 bytes.now }
{
    i32::from_be_bytes([bytes[0], bytes[1], bytes[2], bytes[3]])
}

// The number of the first eight bytes.
#[tactic(auto, unfolding(crate::specs::FileContents::signed))]
fn signed_64(bytes: &[u8]) -> i64
    requires { 8 ≤ length bytes.now }
    ensures { result ≡ signed w64 bytes.now }
{
    i64::from_be_bytes([
        bytes[0], bytes[1], bytes[2], bytes[3], bytes[4], bytes[5], bytes[6], bytes[7],
    ])
}
