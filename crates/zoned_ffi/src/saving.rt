//! The standard offset and the amount of daylight saving time, as C reads them.
#![tactic(auto, using(crate::proofs::Casts::passed_on))]

ghost use Rattle.std.specs.Prelude.{◌≡◌, ◌≢◌, ◌⊎◌};
ghost use Rattle.{
  tz_info.specs.Zones.{IsTypeRefused, Zone},
  zoned_ffi.specs.{Handles.{IsLent, IsNoneLent}, WrittenTypes.{written_saving, IsWrittenSavingAt}},
};

use crate::lent::Lent;
use crate::refusal::{NO_LOCAL_TIME, NOT_OPEN};
use tz_saving::{Saving, daylight_saving};

/// The parts of an offset: standard time, and what daylight saving time adds to it.
#[repr(C)]
#[derive(Clone, Copy)]
pub struct WrittenSaving {
    /// The offset of standard time, in seconds east of UTC.
    pub standard_offset: i64,
    /// What daylight saving time adds, in seconds; 0 in standard time.
    pub amount: i64,
}

impl WrittenSaving {
    fn of(saving: Saving) -> WrittenSaving
        ensures { result ≡ written_saving saving }
    {
        WrittenSaving {
            standard_offset: saving.standard_offset,
            amount: saving.amount as i64,
        }
    }
}

/// Writes the standard offset and the amount of daylight saving time in force at the instant.
#[unsafe(no_mangle)]
pub extern "C" fn zoned_zone_standard_offset(
    zone: &Lent,
    instant: i64,
    saving: &mut WrittenSaving,
) -> u32
    // 0: they are written.
    ensures answered { result ≡ 0
        → (z : Zone) × IsLent zone.now z × IsWrittenSavingAt z instant saving.new }
    // 33: no zone is open. 37: the zone has no type then. Nothing is written.
    ensures refused { result ≢ 0 → (((result ≡ 33) × IsNoneLent zone.now)
        ⊎ ((result ≡ 37) × ((z : Zone) × IsLent zone.now z × IsTypeRefused z instant)))
        × (saving.new ≡ saving.old) }
{
    let Some(share) = zone.share() else {
        return NOT_OPEN;
    };
    match daylight_saving(share, instant) {
        Ok(found) => {
            *saving = WrittenSaving::of(found);
            0
        }
        Err(_) => NO_LOCAL_TIME,
    }
}
