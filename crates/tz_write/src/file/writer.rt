//! A file from its first byte to its last.

ghost use Rattle.std.specs.Prelude.{◌≡◌, ◌≤◌, ◌++◌, [], length, All, IfOk, MatchOption, OnOk};
ghost use Rattle.{
  tz_info.specs.Zones.{IsRuleOrNone, IsValid},
  tz_write.specs.{FileBytes.{footer_bytes}, Steps.LaidFiles.{block_bytes, file_bytes, second_half, zone_counts, zone_parts}},
  tz_write.specs.Steps.{FileParts.{counts_in, IsRoomOf}, LaidNames.{HavePlaces}},
  tz_write.specs.WrittenFiles.{FitsBlock, HasCounts, HasIndex, IsCount, IsSound},
};

use crate::file::contents::{have_indexes, push_indexes, push_leap_seconds, push_times};
use crate::file::designations::{Designations, designations_of};
use crate::file::header::{Sizes, push_first_half, push_header};
use crate::file::types::push_types;
use std::alloc::{AllocError, Global};
use tz_info::TimeZone;

/// What a block of a zone has in it: its designations, and how many there are of each thing.
#[derive(Drop)]
pub struct Room {
    pub designations: Designations,
    pub sizes: Sizes,
}

fn count_of(count: usize) -> Option<u32>
    ensures { MatchOption result (¬ (IsCount count)) (λ n. IsCount count × (n ≡ count)) }
{
    if count > u32::MAX as usize {
        return None;
    }
    Some(count as u32)
}

fn sizes_of(zone: &TimeZone, designations: &[u8]) -> Option<Sizes>
    requires { length designations.now ≤ 263 }
    ensures { MatchOption result (¬ (HasCounts zone.now))
        (λ sizes. HasCounts zone.now × (counts_in sizes ≡ zone_counts designations.now zone.now)) }
{
    let leap_seconds = count_of(zone.leap_count())?;
    let transitions = count_of(zone.transition_count())?;
    let types = count_of(zone.type_count())?;
    Some(Sizes {
        leap_seconds,
        transitions,
        types,
        designations: designations.len() as u32,
    })
}

/// The contents of the second block, if it has room for the zone.
#[tactic(auto, using(crate::proofs::LaidNames::laid_size, crate::proofs::LaidNames::none_laid, crate::proofs::LaidNames::laid_is))]
pub fn room_for(zone: &TimeZone) -> Option<Room>
    ensures { MatchOption result
        (¬ (FitsBlock zone.now))
        (λ room. IsRoomOf zone.now room) }
{
    if !have_indexes(zone) {
        return None;
    }
    let Some(designations) = designations_of(zone.local_time_types()) else {
        return None;
    };
    let sizes = sizes_of(zone, designations.as_slice())?;
    Some(Room {
        designations,
        sizes,
    })
}

// The parts of the second block, one after the other; no indicators.
fn push_block(bytes: &mut Vec<u8>, zone: &TimeZone, designations: &[u8]) -> Result<(), AllocError>
    requires indexes { All HasIndex zone.now.transitions }
    requires places { HavePlaces designations.now zone.now.types }
    ensures appended { OnOk result
        (bytes.new.items ≡ bytes.old.items ++ block_bytes (zone_parts designations.now zone.now) []) }
    ensures sound { OnOk result (IsSound zone.now) }
{
    push_times(bytes, zone)?;
    push_indexes(bytes, zone)?;
    push_types(bytes, designations, zone.local_time_types())?;
    bytes.extend_from_slice(designations)?;
    push_leap_seconds(bytes, zone.leap_seconds())
}

// The text between newlines.
fn push_footer(bytes: &mut Vec<u8>, text: &[u8]) -> Result<(), AllocError>
    ensures { OnOk result (bytes.new.items ≡ bytes.old.items ++ footer_bytes text.now) }
{
    bytes.extend_from_slice(b"\n")?;
    bytes.extend_from_slice(text)?;
    bytes.extend_from_slice(b"\n")
}

#[tactic(auto, unfolding(crate::specs::Steps::LaidFiles::second_half))]
fn push_second_half(
    bytes: &mut Vec<u8>,
    zone: &TimeZone,
    room: &Room,
    text: &[u8],
    extended: bool,
) -> Result<(), AllocError>
    requires { IsRoomOf zone.now room.now }
    ensures appended { OnOk result
        (bytes.new.items ≡ bytes.old.items ++ second_half extended text.now room.now.designations zone.now) }
    ensures sound { OnOk result (IsSound zone.now) }
{
    push_header(bytes, extended, room.sizes)?;
    push_block(bytes, zone, room.designations.as_slice())?;
    push_footer(bytes, text)
}

/// The bytes of the zone's file with that text in its footer.
#[tactic(auto, unfolding(crate::specs::Steps::LaidFiles::file_bytes))]
pub fn write_file(
    alloc: Global,
    zone: &TimeZone,
    room: &Room,
    text: &[u8],
    extended: bool,
) -> Result<Vec<u8>, AllocError>
    requires { IsRoomOf zone.now room.now }
    ensures bytes { IfOk result (λ v. v.items ≡ file_bytes extended text.now room.now.designations zone.now) }
    ensures sound { OnOk result (IsSound zone.now) }
    ensures valid { IsValid zone.now }
    ensures rule { IsRuleOrNone zone.now.rule }
{
    zone.valid_law();
    let mut bytes = Vec::new(alloc);
    push_first_half(&mut bytes, extended)?;
    push_second_half(&mut bytes, zone, room, text, extended)?;
    Ok(bytes)
}
