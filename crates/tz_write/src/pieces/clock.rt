//! Numbers, and seconds as hours, minutes and seconds.

ghost use Rattle.std.specs.{Fmt.{decimal}, Prelude.{◌≡◌, ◌<◌, ◌+◌, ◌++◌, ◌∷◌, [], string_bytes, OnOk}};
ghost use Rattle.tz_write.specs.Steps.TextPieces.{spelled_clock, spelled_minutes, spelled_pair, spelled_seconds, spelled_signed};

use std::alloc::AllocError;
use std::fmt::Write;

// Appends a byte of ASCII.
pub(crate) fn push_byte(text: &mut String, byte: u8) -> Result<(), AllocError>
    requires { byte < 128 }
    ensures { OnOk result (string_bytes text.new ≡ string_bytes text.old ++ (byte ∷ [])) }
{
    text.push(byte as char)
}

// Appends a number without zeros in front.
pub(crate) fn push_number(text: &mut String, number: u32) -> Result<(), AllocError>
    ensures { OnOk result (string_bytes text.new ≡ string_bytes text.old ++ decimal number) }
{
    write!(text, "{number}")
}

// A colon and two digits.
fn push_pair(text: &mut String, number: u32) -> Result<(), AllocError>
    requires { number < 100 }
    ensures { OnOk result (string_bytes text.new ≡ string_bytes text.old ++ spelled_pair number) }
{
    push_byte(text, b':')?;
    push_byte(text, b'0' + (number / 10) as u8)?;
    push_byte(text, b'0' + (number % 10) as u8)
}

// Seconds, unless they are 0.
fn push_seconds(text: &mut String, seconds: u32) -> Result<(), AllocError>
    requires { seconds < 60 }
    ensures { OnOk result
        (string_bytes text.new ≡ string_bytes text.old ++ spelled_seconds seconds) }
{
    if seconds == 0 {
        return Ok(());
    }
    push_pair(text, seconds)
}

// Minutes and seconds, unless both are 0.
fn push_minutes(text: &mut String, minutes: u32, seconds: u32) -> Result<(), AllocError>
    requires minutes { minutes < 60 }
    requires seconds { seconds < 60 }
    ensures { OnOk result
        (string_bytes text.new ≡ string_bytes text.old ++ spelled_minutes minutes seconds) }
{
    if minutes == 0 && seconds == 0 {
        return Ok(());
    }
    push_pair(text, minutes)?;
    push_seconds(text, seconds)
}

// That many seconds, as hours, minutes and seconds.
#[tactic(auto, unfolding(crate::specs::Steps::TextPieces::spelled_clock))]
fn push_clock(text: &mut String, seconds: u32) -> Result<(), AllocError>
    ensures { OnOk result
        (string_bytes text.new ≡ string_bytes text.old ++ spelled_clock seconds) }
{
    push_number(text, seconds / 3600)?;
    push_minutes(text, seconds / 60 % 60, seconds % 60)
}

// That many seconds, with a minus in front or without a sign.
pub(crate) fn push_signed(text: &mut String, negative: bool, seconds: u32) -> Result<(), AllocError>
    ensures { OnOk result
        (string_bytes text.new ≡ string_bytes text.old ++ spelled_signed negative seconds) }
{
    if negative {
        push_byte(text, b'-')?;
    }
    push_clock(text, seconds)
}
