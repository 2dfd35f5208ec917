//! The local time types at instants, as C reads them.

ghost use Rattle.std.specs.Prelude.{◌≡◌, length};
ghost use Rattle.zoned_ffi.specs.WrittenTypes.{AreWrittenTypesAt, IsWrittenTypeAt, no_type, written_type};

use crate::instants::NO_OFFSET;
use tz_info::{LocalTimeType, Lookups, TimeZone};

/// A local time type.
#[repr(C)]
#[derive(Clone, Copy)]
pub struct WrittenType {
    /// Seconds east of UTC; `i32::MIN` if the zone has no type.
    pub offset: i32,
    /// 1 if it is daylight saving time, else 0.
    pub is_dst: i32,
    /// Its name, of at most seven bytes, and zeros after it; only zeros if it has none.
    pub abbreviation: [u8; 8],
}

impl WrittenType {
    /// That in force at the instant.
    pub fn at(zone: &TimeZone, instant: i64) -> WrittenType
        ensures { IsWrittenTypeAt zone.now instant result }
    {
        match zone.find_local_time_type(instant) {
            Ok(found) => WrittenType::of(found),
            Err(_) => WrittenType::none(),
        }
    }

    // The same, with the last span kept.
    #[inline(always)]
    fn next(lookups: &mut Lookups<'_>, instant: i64) -> WrittenType
        ensures written { IsWrittenTypeAt lookups.old instant result }
        ensures zone { lookups.new ≡ lookups.old }
    {
        match lookups.find_local_time_type(instant) {
            Ok(found) => WrittenType::of(&found),
            Err(_) => WrittenType::none(),
        }
    }

    /// That of the type.
    pub fn of(local_type: &LocalTimeType) -> WrittenType
        ensures { result ≡ written_type local_type.now }
    {
        WrittenType {
            offset: local_type.offset(),
            is_dst: if local_type.is_dst() { 1 } else { 0 },
            // The bytes of the name, and zeros after them.
            abbreviation: match local_type.name() {
                Some(name) => name.zero_ended(),
                None => [0; 8],
            },
        }
    }

    fn none() -> WrittenType
        ensures { result ≡ no_type }
    {
        WrittenType {
            offset: NO_OFFSET,
            is_dst: 0,
            abbreviation: [0; 8],
        }
    }
}

/// Writes the type at each instant.
pub fn write_types(zone: &TimeZone, instants: &[i64], types: &mut [WrittenType])
    requires { length instants.now ≡ length types.old }
    ensures { AreWrittenTypesAt zone.now instants.now types.new }
{
    let mut lookups = zone.lookups();
    for (i, instant) in instants.iter().enumerate() {
        types[i] = WrittenType::next(&mut lookups, *instant);
    }
}
