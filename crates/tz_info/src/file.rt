//! Time zone files (TZif, RFC 8536): the zone that the bytes of a file spell.

ghost use Rattle.std.specs.{Prelude.{◌≡◌, ◌⊎◌, IfErr, IfOk, MatchResult}, Result.{IsErrAnd}};
ghost use Rattle.{
  tz_base.specs.Errors.{IsOutOfMemory},
  tz_file.specs.{FileHeaders.{HasOtherMagic}, FilePieces.{FilePieces, HasPieces}},
  tz_info.specs.{FilePlaces.{IsFilePlace}, PosixZones.{IsPlaced}},
  tz_info.specs.Steps.FileLists.{IsFaultAt},
  tz_info.specs.TzFiles.{IsFileFault, IsTzFile, IsZoneFault},
  tz_info.specs.Zones.{IsValid, Zone},
};

mod counts;
mod footer;
mod place;
mod reader;

use crate::zone::TimeZone;
use reader::read_zone;
use std::alloc::Global;
use tz_base::{Cursor, Error, Expected, ParseError};

impl TimeZone {
    /// Returns the zone of a TZif file of version 1, 2 or 3 (RFC 8536 section 3). In version 1 the only
    /// data block defines the zone. From version 2 on, the second block and the TZ string of the footer
    /// do; of the first block only the header and the length matter. In version 3 the TZ string may have
    /// the extensions of RFC 8536 section 3.3.1.
    ///
    /// [`Error::OutOfMemory`] is returned only if every block is there.
    ///
    /// ```
    /// let zone = TimeZone::from_tz_data(alloc, &bytes)?;    // of /usr/share/zoneinfo/Europe/Paris
    /// let local = zone.find_local_time_type(1_625_097_600)?;
    /// let seconds = local.offset();                         // 7200
    /// ```
    ///
    /// # Errors
    ///
    /// If the file has several faults, the first one in this order:
    /// [`Error::UnexpectedEnd`] where bytes are missing; [`Error::UnsupportedTzFile`] for another
    /// version; [`Error::InvalidTzFile`] for any other fault of the file's form, such as bytes
    /// after a file of version 1. Then, once both blocks are there: [`Error::InvalidTzFile`] and
    /// [`Error::LocalTimeType`] for a type, one after the other; [`Error::InvalidTzFile`] for a
    /// standard/wall indicator of 0 with a UT/local indicator of 1, and for no other pair;
    /// [`Error::Utf8`] and [`Error::InvalidTzFile`] for a footer, and the errors of
    /// [`TransitionRule::from_tz_string`](crate::TransitionRule::from_tz_string) for its text; last
    /// [`Error::TimeZone`] for lists that [`TimeZone::new`] rejects. [`Error::OutOfMemory`]
    /// if there is no memory for the lists.
    pub fn from_tz_data(alloc: Global, bytes: &[u8]) -> Result<TimeZone, Error>
        // The zone is the file's, and valid.
        ensures found { IfOk result (λ z. IsTzFile bytes.now z × IsValid z) }
        // A file that has a valid zone gives it, unless memory runs out.
        ensures only { (z : Zone) → IsTzFile bytes.now z → IsValid z
            → MatchResult result (λ y. y ≡ z) (λ e. e ≡ Error.OutOfMemory) }
        // An error is the first fault of the file, or says that memory ran out.
        ensures fault { IfErr result (λ e. IsZoneFault bytes.now e) }
        // A file with a fault is rejected by its first one, unless memory runs out.
        ensures first { (fault : Error) → IsFileFault bytes.now fault
            → IsErrAnd result (λ e. (e ≡ fault) ⊎ IsOutOfMemory e) }
        // Running out of memory is answered only where every piece of the file is there.
        ensures memory { IfErr result
            (λ e. e ≡ Error.OutOfMemory → (p : FilePieces) × HasPieces bytes.now p) }
        // Of bytes that do not begin with `TZif` that is what was expected.
        ensures magic { HasOtherMagic bytes.now
            → IsErrAnd result (λ e. e ≡ Error.InvalidTzFile Expected.TZifAtFrontOfHeader) }
    {
        let mut cursor = Cursor::new(bytes);
        read_zone(alloc, &mut cursor)
    }

    /// Returns the zone of [`TimeZone::from_tz_data`], or its error with the position of the fault: the
    /// number of bytes in front of it.
    ///
    /// ```
    /// if let Err(e) = TimeZone::parse_tz_data(alloc, b"TZif4") {
    ///     let position = e.position; // Some(4), at the version
    /// }
    /// ```
    ///
    /// # Errors
    ///
    /// Those of [`TimeZone::from_tz_data`]. [`Error::OutOfMemory`] has no position, and each other error
    /// has one: the end of a file that is too short, and of any other the first byte of the field whose
    /// value is rejected.
    ///
    /// | fault | position |
    /// |---|---|
    /// | a header | its first byte, the version, or the count that is 0 or isn't that of the types |
    /// | bytes after a file of version 1 | the first of them |
    /// | a type | in its record: the offset, the DST flag, or the index of its designation |
    /// | an indicator | the UT/local indicator of the type |
    /// | a footer | the first byte that isn't UTF-8 or a newline, the end if a newline is missing there, or the byte of the TZ string |
    /// | the lists | the type index, the time, or the entry of the leap second |
    /// | a rule that doesn't agree with the last transition | the TZ string |
    #[tactic(auto, using(crate::proofs::TzFileLaws::reader))]
    pub fn parse_tz_data(alloc: Global, bytes: &[u8]) -> Result<TimeZone, ParseError>
        // The zone is the file's, and valid.
        ensures found { IfOk result (λ z. IsTzFile bytes.now z × IsValid z) }
        // A file that has a valid zone gives it, unless memory runs out.
        ensures only { (z : Zone) → IsTzFile bytes.now z → IsValid z
            → MatchResult result (λ y. y ≡ z) (λ e. e.error ≡ Error.OutOfMemory) }
        // An error is the first fault of the file, or says that memory ran out.
        ensures fault { IfErr result (λ e. IsZoneFault bytes.now e.error) }
        // A fault has its place.
        ensures place { IfErr result (λ e. IsPlaced (IsFilePlace bytes.now) e) }
        // A file with a fault is rejected by its first one, unless memory runs out.
        ensures first { (fault : Error) → IsFileFault bytes.now fault
            → IsErrAnd result (λ e. (e.error ≡ fault) ⊎ IsOutOfMemory e.error) }
        // Running out of memory is answered only where every piece of the file is there.
        ensures memory { IfErr result
            (λ e. e.error ≡ Error.OutOfMemory → (p : FilePieces) × HasPieces bytes.now p) }
    {
        let mut cursor = Cursor::new(bytes);
        match read_zone(alloc, &mut cursor) {
            Ok(zone) => Ok(zone),
            Err(error) => Err(placed(bytes, cursor.remaining(), error)),
        }
    }
}

// The error with its position, which is that of the bytes that are left.
fn placed(bytes: &[u8], left: &[u8], error: Error) -> ParseError
    requires { IsFaultAt bytes.now error left.now }
    ensures error { result.error ≡ error }
    ensures place { IsPlaced (IsFilePlace bytes.now) result }
{
    let position = match error {
        Error::OutOfMemory => None,
        _ => Some(bytes.len().saturating_sub(left.len())),
    };
    ParseError { error, position }
}
