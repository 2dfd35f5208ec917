//! What a number says, in words.

ghost use Rattle.std.specs.Prelude.{◌≡◌, ◌<◌, ◌∷◌, ◌++◌, ℕ, List, drop, length, suc};
ghost use Rattle.zoned_ffi.specs.Texts.{IsTextOf, written_over};

use std::cmp::min;

/// Writes what a number of this library says, in English: as much of it as fits before a zero
/// byte, and that byte. Returns how many bytes the whole text has.
#[unsafe(no_mangle)]
pub extern "C" fn zoned_error_text(number: u32, text: &mut [u8]) -> usize
    // The number's text, whose length is returned, is written as far as there is room.
    ensures written { (said : List ℕ) × IsTextOf number said × (result ≡ length said)
        × (text.new ≡ written_over said text.old) }
    ensures short { result < 128 }
{
    let said = text_of(number).as_bytes();
    write_over(said, text);
    said.len()
}

/// Writes as many of the bytes as fit in front of a zero byte, and that byte.
pub fn write_over(said: &[u8], text: &mut [u8])
    ensures { text.new ≡ written_over said.now text.old }
{
    if let Some(most) = text.len().checked_sub(1) {
        write_text(&said[..min(most, said.len())], text);
    }
}

// Writes the bytes, and a zero byte after them.
fn write_text(said: &[u8], text: &mut [u8])
    requires { length said.now < length text.old }
    ensures { text.new ≡ said.now ++ (0 ∷ drop (suc (length said.now)) text.old) }
{
    text[..said.len()].copy_from_slice(said);
    text[said.len()] = 0;
}

#[tactic(auto, using(crate::proofs::Sayings::sayings))]
fn text_of(number: u32) -> &'static str
    ensures { IsTextOf number result.now }
{
    match number {
        0 => "no error",
        3 => "an offset or abbreviation that no local time type can have",
        5 => "a fault in the form of a TZif file",
        6 =>
            "a time or offset of a TZ string is out of its limits, or extra bytes follow the string",
        7 => "unexpected end of input",
        8 => "unexpected byte in a TZ string",
        10 => "a number of a TZ string is missing or too large",
        12 => "the lists of a TZif file make no valid zone",
        13 => "a month, week, weekday or day of a TZ string is out of its limits",
        14 => "a TZif version other than 1, 2 and 3",
        15 => "a TZ string names daylight saving time but has no rule for it",
        16 => "a TZ string that is not UTF-8",
        17 => "out of memory",
        21 => "the local time lies in a gap",
        22 => "the local time lies in a fold",
        23 => "the local time or its instant is out of range",
        31 => "no such kind of bytes",
        32 => "there is room for another count of answers",
        33 => "no zone is open",
        34 => "no such choice for gaps and folds",
        35 => "no change of the clocks",
        36 => "no such unit of time",
        37 => "an instant has no local time",
        39 => "no such date or time of day",
        40 => "an offset of the zone is a day or more",
        41 => "a transition of a TZif file names no local time type",
        42 => "the transition times of a TZif file do not rise",
        43 => "the leap seconds of a TZif file cannot follow one another",
        44 => "the footer of a TZif file disagrees with the last transition",
        45 => "no time zone of that name",
        46 => "the file of a time zone can't be read",
        47 => "no such step of the local clock",
        48 => "a TZif file has more transitions or leap seconds than allowed",
        _ => "no number of this library",
    }
}
