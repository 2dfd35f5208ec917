//! The offsets at instants.

ghost use Rattle.std.specs.Prelude.{◌≡◌, length};
ghost use Rattle.zoned_ffi.specs.WrittenTypes.{AreOffsetsAt, IsWrittenOffsetAt};

use tz_info::{Lookups, TimeZone};

/// What is written of an instant at which the zone has no offset. It is no offset of a zone.
pub const NO_OFFSET: i32 = i32::MIN;

/// Writes the offset at each instant.
pub fn write_offsets(zone: &TimeZone, instants: &[i64], offsets: &mut [i32])
    requires { length instants.now ≡ length offsets.old }
    ensures { AreOffsetsAt zone.now instants.now offsets.new }
{
    let mut lookups = zone.lookups();
    for (i, instant) in instants.iter().enumerate() {
        offsets[i] = next_offset(&mut lookups, *instant);
    }
}

// The offset in force at the next instant.
#[inline(always)]
fn next_offset(lookups: &mut Lookups<'_>, instant: i64) -> i32
    ensures written { IsWrittenOffsetAt lookups.old instant result }
    ensures zone { lookups.new ≡ lookups.old }
{
    match lookups.find_local_time_type(instant) {
        Ok(found) => found.offset(),
        Err(_) => NO_OFFSET,
    }
}

/// The offset in force at the instant, in seconds east of UTC.
#[inline(always)]
pub fn offset_at(zone: &TimeZone, instant: i64) -> i32
    ensures { IsWrittenOffsetAt zone.now instant result }
{
    match zone.find_local_time_type(instant) {
        Ok(found) => found.offset(),
        Err(_) => NO_OFFSET,
    }
}
