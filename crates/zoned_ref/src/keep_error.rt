//! Why a zone isn't kept.
ghost use Rattle.std.specs.Prelude.{◌≡◌};
ghost use Rattle.zoned_ref.specs.{KeptZone.{given_back}, KeptZone.{reason_of}};

use thiserror::Error;
use tz_info::TimeZone;

/// Why a zone isn't kept. It owns the zone, unchanged. By design no memory was taken.
#[derive(Debug, Drop, Error)]
pub enum KeepError {
    /// An offset of the zone is a day or more, as [`TimeZoneRef::new`](crate::TimeZoneRef::new)
    /// says.
    #[error("the zone has an offset of a day or more")]
    WideZone(TimeZone),
    /// There is no memory to keep it in.
    #[error("out of memory")]
    OutOfMemory(TimeZone),
}

impl KeepError {
    /// The zone that was to be kept.
    pub fn into_zone(self) -> TimeZone
        ensures { result ≡ given_back self }
    {
        match self {
            KeepError::WideZone(zone) => zone,
            KeepError::OutOfMemory(zone) => zone,
        }
    }
}

/// Why the bytes of a file give no kept zone.
#[derive(Clone, Copy, PartialEq, Eq, Debug, Error)]
pub enum OpenError {
    /// The bytes have a fault, or memory runs out.
    #[error("{0}")]
    Zone(#[from] tz_info::Error),
    /// An offset of the zone is a day or more.
    #[error("the zone has an offset of a day or more")]
    WideZone,
}

// The zone is let go.
impl From<KeepError> for OpenError {
    fn from(refused: KeepError) -> OpenError
        ensures { result ≡ reason_of refused }
    {
        match refused {
            KeepError::WideZone(_) => OpenError::WideZone,
            KeepError::OutOfMemory(_) => OpenError::Zone(tz_info::Error::OutOfMemory),
        }
    }
}
