//! Names.

ghost use Rattle.std.specs.{List.{list_all}, Prelude.{◌≡◌, ◌++◌, string_bytes, OnOk}};
ghost use Rattle.{
  tz_info.specs.TzGrammar.{is_letter},
  tz_write.specs.Steps.TextPieces.{spelled_name},
};

use crate::pieces::clock::push_byte;
use std::alloc::AllocError;
use tz_info::TimeZoneName;

// A name, between `<` and `>` unless it has letters alone.
pub(crate) fn push_name(text: &mut String, name: &TimeZoneName) -> Result<(), AllocError>
    ensures { OnOk result
        (string_bytes text.new ≡ string_bytes text.old ++ spelled_name name.now) }
{
    if are_letters(name.as_bytes()) {
        return text.push_str(name.as_str());
    }
    push_byte(text, b'<')?;
    text.push_str(name.as_str())?;
    push_byte(text, b'>')
}

fn are_letters(name: &[u8]) -> bool
    ensures { result ≡ list_all is_letter name.now }
{
    name.iter().all(|byte| is_letter(*byte))
}

fn is_letter(byte: u8) -> bool
    ensures { result ≡ is_letter byte }
{
    byte.is_ascii_alphabetic()
}
