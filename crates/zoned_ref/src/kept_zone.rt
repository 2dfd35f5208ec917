//! Zones that stay until the program ends.
ghost use Rattle.std.specs.Prelude.{◌≡◌, IfErr, IfOk, MatchResult};
ghost use Rattle.{
  tz_info.specs.{TzFiles.{IsTzFile}, Zones.{IsValid, Zone}},
  zoned_ref.specs.{KeptZone.{IsRefused}, KeptZone.{off_of, zone_of}, Offsets.{AreOffsetsOf, IsNarrow}},
  zoned_ref.specs.KeptZone.{IsNotOpened},
};
ghost use Rattle.zoned_ref.specs.TimeZoneRef as borrowed;

use crate::{KeepError, OpenError, TimeZoneRef};
use std::alloc::Global;
use tz_info::Error;

/// A parsed time zone that stays until the program ends, as a zone of
/// [`DateTime`](zoned_time::DateTime)s: at each instant it has the offset of the type of local time
/// that is in force then.
///
/// It is the borrowed zone of that lifetime, and no type names one: a struct can hold it together
/// with its instants, and closures compare these and ask the zone. **Its memory is never freed**:
/// keep the zones that live as long as the program, each once, and borrow others by [`TimeZoneRef`].
///
/// Two are equal as borrowed zones are.
///
/// ```
/// let new_york = KeptZone::open(alloc, bytes)?; // the file of New York
/// new_york.with_ymd_and_hms(2021, 3, 14, 2, 30, 0); // None: it lies in a gap
/// new_york.with_ymd_and_hms(2021, 11, 7, 1, 30, 0); // Ambiguous(2021-11-07 01:30:00 -04:00, 2021-11-07 01:30:00 -05:00)
/// ```
#[derive(Clone, Copy, Debug, PartialEq, Eq, Hash)]
pub struct KeptZone {
    pub(crate) borrowed: TimeZoneRef<'static>,
}

impl KeptZone {
    /// Opens the zone of a TZif file of version 1, 2 or 3, and keeps it until the program ends, as
    /// [`keep`](KeptZone::keep) does.
    ///
    /// # Errors
    ///
    /// [`OpenError::Zone`] with the error of
    /// [`TimeZone::from_tz_data`](tz_info::TimeZone::from_tz_data), or with
    /// [`Error::OutOfMemory`](tz_info::Error::OutOfMemory) if there is no memory to keep the zone in.
    /// [`OpenError::WideZone`] if an offset of the zone is a day or more.
    pub fn open(alloc: Global, bytes: &[u8]) -> Result<KeptZone, OpenError>
        // The bytes are the file of a valid and narrow zone, which is kept, and whose offsets are its law.
        ensures opened { IfOk result (λ kept. (z : Zone) × IsTzFile bytes.now z × IsValid z
            × IsNarrow z × (zone_of kept ≡ z) × AreOffsetsOf z (off_of kept)) }
        // The file of a valid and narrow zone is opened, unless memory runs out.
        ensures only { (z : Zone) → IsTzFile bytes.now z → IsValid z → IsNarrow z → MatchResult result
            (λ kept. zone_of kept ≡ z)
            (λ e. e ≡ OpenError.Zone Error.OutOfMemory) }
        ensures fault { IfErr result (λ e. IsNotOpened bytes.now e) }
    {
        match tz_info::TimeZone::from_tz_data(alloc, bytes) {
            Ok(parsed) => match KeptZone::keep(alloc, parsed) {
                Ok(kept) => Ok(kept),
                Err(refused) => Err(OpenError::from(refused)),
            },
            Err(e) => Err(OpenError::Zone(e)),
        }
    }

    /// Keeps the zone until the program ends, in a block of the global allocator, the only one whose
    /// memory is known to last that long. The block is never freed.
    ///
    /// # Errors
    ///
    /// Each gives the zone back, with nothing kept. [`KeepError::WideZone`] if a type that the zone
    /// lists, or a type of its rule, is a day (86,400 seconds) or more away from UTC; no memory is
    /// allocated then. [`KeepError::OutOfMemory`] if memory runs out.
    pub fn keep(alloc: Global, parsed: tz_info::TimeZone) -> Result<KeptZone, KeepError>
        ensures kept { MatchResult result
            (λ kept. IsNarrow parsed × (zone_of kept ≡ parsed))
            (λ e. IsRefused parsed e) }
        // Its offsets are those of the types in force.
        ensures offsets { IfOk result (λ kept. AreOffsetsOf parsed (off_of kept)) }
    {
        if TimeZoneRef::new(&parsed).is_none() {
            return Err(KeepError::WideZone(parsed));
        }
        match Box::new(alloc, parsed) {
            Ok(zone) => Ok(KeptZone {
                borrowed: of(Box::leak(zone)),
            }),
            Err(refused) => Err(KeepError::OutOfMemory(refused.value)),
        }
    }

    /// The parsed zone.
    pub fn zone(&self) -> &'static tz_info::TimeZone
        ensures zone { result.now ≡ zone_of self.now }
        ensures narrow { IsNarrow result.now }
        // The offsets of any kept zone are those of the types in force.
        ensures offsets { AreOffsetsOf result.now (off_of self.now) }
    {
        self.borrowed.zone()
    }
}

// A narrow zone that lives as long as the program.
fn of(zone: &'static tz_info::TimeZone) -> TimeZoneRef<'static>
    requires { IsNarrow zone.now }
    ensures zone { borrowed.zone_of result ≡ zone.now }
    ensures offsets { AreOffsetsOf zone.now (borrowed.off_of result) }
{
    match TimeZoneRef::new(zone) {
        Some(borrowed) => borrowed,
        None => unreachable!(),
    }
}
