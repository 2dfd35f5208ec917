//! What is around a local time: the clock change of its gap or fold, and the spans on both sides.
#![tactic(auto, using(crate::proofs::Casts::passed_on))]

ghost use Rattle.std.specs.Prelude.{◌≡◌, ◌≢◌, ◌⊎◌};
ghost use Rattle.{
  naive_base.specs.Range.{IsInRange},
  tz_info.specs.Zones.{Zone},
  zoned_ffi.specs.{Handles.{IsLent, IsNoneLent}, WrittenChanges.{IsLocalChangeWritten, IsNoLocalChange}},
  zoned_ffi.specs.WrittenSpans.{IsLocalInfo},
};

use crate::changes::WrittenChange;
use crate::lent::Lent;
use crate::local_info::WrittenLocalInfo;
use crate::refusal::{INSTANT_OUT_OF_RANGE, NO_CHANGE, NOT_OPEN};
use naive_base::NaiveDateTime;

/// Writes the clock change of the local time: the one that skips it, or the one that sets clocks back over
/// it.
#[unsafe(no_mangle)]
pub extern "C" fn zoned_zone_local_change(
    zone: &Lent,
    local: i64,
    change: &mut WrittenChange,
) -> u32
    // 0: it is written.
    ensures answered { result ≡ 0
        → (z : Zone) × IsLent zone.now z × IsLocalChangeWritten z local change.new }
    // 33: no zone is open. 23: the local time is out of range. 35: clocks show it once. Nothing is written.
    ensures refused { result ≢ 0 → (((result ≡ 33) × IsNoneLent zone.now)
        ⊎ ((z : Zone) × IsLent zone.now z × IsNoLocalChange z local result))
        × (change.new ≡ change.old) }
{
    let Some(share) = zone.share() else {
        return NOT_OPEN;
    };
    let Some(reading) = NaiveDateTime::from_timestamp_opt(local, 0) else {
        return INSTANT_OUT_OF_RANGE;
    };
    match share.find_change_around(reading) {
        Some(found) => {
            *change = WrittenChange::of(&found);
            0
        }
        None => NO_CHANGE,
    }
}

/// Writes how often clocks show the local time, and the spans of the first and the last second that show
/// it, or of those around its gap.
#[unsafe(no_mangle)]
pub extern "C" fn zoned_zone_local_info(zone: &Lent, local: i64, info: &mut WrittenLocalInfo) -> u32
    // 0: they are written.
    ensures answered { result ≡ 0 → IsInRange local
        × ((z : Zone) × IsLent zone.now z × IsLocalInfo z local info.new) }
    // 33: no zone is open. 23: the local time is out of range. Nothing is written.
    ensures refused { result ≢ 0 → (((result ≡ 33) × IsNoneLent zone.now)
        ⊎ ((result ≡ 23) × ((z : Zone) × IsLent zone.now z) × ¬ (IsInRange local)))
        × (info.new ≡ info.old) }
{
    let Some(share) = zone.share() else {
        return NOT_OPEN;
    };
    let Some(reading) = NaiveDateTime::from_timestamp_opt(local, 0) else {
        return INSTANT_OUT_OF_RANGE;
    };
    *info = WrittenLocalInfo::at(share, reading);
    0
}
