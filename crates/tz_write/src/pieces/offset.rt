//! Offsets and times of day.

ghost use Rattle.std.specs.Prelude.{◌≡◌, ◌++◌, string_bytes, OnOk};
ghost use Rattle.tz_write.specs.Steps.TextPieces.{spelled_dst_offset, spelled_offset, spelled_time};

use crate::pieces::clock::push_signed;
use std::alloc::AllocError;
use tz_info::AlternateTime;

// An offset east of UTC, which a text counts west of it.
#[tactic(auto, unfolding(crate::specs::Steps::TextPieces::spelled_offset))]
pub(crate) fn push_offset(text: &mut String, east: i32) -> Result<(), AllocError>
    ensures { OnOk result (string_bytes text.new ≡ string_bytes text.old ++ spelled_offset east) }
{
    push_signed(text, east > 0, east.unsigned_abs())
}

// A time of day, which may lie before midnight.
#[tactic(auto, unfolding(crate::specs::Steps::TextPieces::spelled_time))]
pub(crate) fn push_time(text: &mut String, time: i32) -> Result<(), AllocError>
    ensures { OnOk result (string_bytes text.new ≡ string_bytes text.old ++ spelled_time time) }
{
    push_signed(text, time < 0, time.unsigned_abs())
}

// The offset of daylight saving time, unless it is an hour more than that of standard time.
pub(crate) fn push_dst_offset(text: &mut String, rule: &AlternateTime) -> Result<(), AllocError>
    ensures { OnOk result
        (string_bytes text.new
        ≡ string_bytes text.old ++ spelled_dst_offset rule.now.std.offset rule.now.dst.offset) }
{
    let (std, dst) = (rule.std().offset(), rule.dst().offset());
    if dst == std + 3_600 {
        return Ok(());
    }
    push_offset(text, dst)
}
