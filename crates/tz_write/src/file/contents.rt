//! Transitions and leap seconds of a data block (RFC 8536 section 3.2).

ghost use Rattle.std.specs.{List.{flat_map}, Prelude.{◌≡◌, ◌↔◌, ◌<◌, ◌++◌, length, slice_index_or, All, IsTrue, OnOk}};
ghost use Rattle.tz_write.specs.{Steps.LaidFiles.{index_bytes, leap_bytes, time_bytes}, WrittenFiles.{HasIndex, HasTimeOf64Bits, IsEntry}};

use crate::file::numbers::{push_signed_32, push_signed_64};
use std::alloc::AllocError;
use tz_info::{LeapSecond, TimeZone, Transition};

fn transition(zone: &TimeZone, place: usize) -> Transition
    requires { place < length zone.now.transitions }
    ensures { (d : Transition) → result ≡ slice_index_or zone.now.transitions place d }
{
    match zone.transition_at(place) {
        Some(transition) => transition,
        None => unreachable!(),
    }
}

/// Whether a byte can name the type of each transition.
pub fn have_indexes(zone: &TimeZone) -> bool
    ensures { IsTrue result ↔ All HasIndex zone.now.transitions }
{
    for place in 0..zone.transition_count() {
        if transition(zone, place).type_index > 255 {
            return false;
        }
    }
    true
}

fn push_transition_time(bytes: &mut Vec<u8>, transition: Transition) -> Result<(), AllocError>
    ensures appended { OnOk result (bytes.new.items ≡ bytes.old.items ++ time_bytes transition) }
    ensures sound { OnOk result (HasTimeOf64Bits transition) }
{
    push_signed_64(bytes, transition.unix_leap_time)
}

/// Appends the times of the transitions.
#[tactic(auto, using(std::proofs::lemmas::List::take_all))]
pub fn push_times(bytes: &mut Vec<u8>, zone: &TimeZone) -> Result<(), AllocError>
    ensures appended { OnOk result
        (bytes.new.items ≡ bytes.old.items ++ flat_map time_bytes zone.now.transitions) }
    ensures sound { OnOk result (All HasTimeOf64Bits zone.now.transitions) }
{
    for place in 0..zone.transition_count() {
        push_transition_time(bytes, transition(zone, place))?;
    }
    Ok(())
}

/// Appends the index of each transition's type.
pub fn push_indexes(bytes: &mut Vec<u8>, zone: &TimeZone) -> Result<(), AllocError>
    requires { All HasIndex zone.now.transitions }
    ensures { OnOk result
        (bytes.new.items ≡ bytes.old.items ++ flat_map index_bytes zone.now.transitions) }
{
    for place in 0..zone.transition_count() {
        let index = transition(zone, place).type_index;
        bytes.extend_from_slice(&[index as u8])?;
    }
    Ok(())
}

#[tactic(auto, unfolding(crate::specs::Steps::LaidFiles::leap_bytes))]
fn push_leap_second(bytes: &mut Vec<u8>, leap: LeapSecond) -> Result<(), AllocError>
    ensures appended { OnOk result (bytes.new.items ≡ bytes.old.items ++ leap_bytes leap) }
    ensures sound { OnOk result (IsEntry leap) }
{
    push_signed_64(bytes, leap.unix_leap_time)?;
    push_signed_32(bytes, leap.correction)
}

/// Appends the leap seconds.
#[tactic(auto, using(crate::proofs::Words::appended))]
pub fn push_leap_seconds(bytes: &mut Vec<u8>, leaps: &[LeapSecond]) -> Result<(), AllocError>
    ensures appended { OnOk result
        (bytes.new.items ≡ bytes.old.items ++ flat_map leap_bytes leaps.now) }
    ensures sound { OnOk result (All IsEntry leaps.now) }
{
    for leap in leaps {
        push_leap_second(bytes, *leap)?;
    }
    Ok(())
}
