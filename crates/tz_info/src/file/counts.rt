//! How many entries the lists of a file have.

ghost use Rattle.std.specs.Prelude.{◌≡◌, ◌↔◌};
ghost use Rattle.tz_file.specs.FilePieces.{HasCounts};

use crate::zone::TimeZone;
use tz_base::Cursor;
use tz_file::{FileCounts, read_pieces};

impl TimeZone {
    /// Returns how many transitions and leap seconds a TZif file has in the data block that
    /// [`TimeZone::from_tz_data`] makes its zone of, before any memory is taken: the only block of a file of
    /// version 1, and the second one of any other. `None` for bytes of which a part is missing, or whose
    /// headers have a fault: `from_tz_data` rejects them before it takes memory too.
    ///
    /// ```
    /// let counts = TimeZone::file_counts(&bytes)?;    // of /usr/share/zoneinfo/Europe/Paris
    /// let few = counts.transitions <= 2_000 && counts.leap_seconds <= 100; // true
    /// ```
    pub fn file_counts(bytes: &[u8]) -> Option<FileCounts>
        ensures { (c : FileCounts) → (result ≡ Some c) ↔ HasCounts bytes.now c }
    {
        match read_pieces(&mut Cursor::new(bytes)) {
            Ok(pieces) => Some(FileCounts {
                transitions: pieces.counts.transitions,
                leap_seconds: pieces.counts.leap_seconds,
            }),
            Err(_) => None,
        }
    }
}
