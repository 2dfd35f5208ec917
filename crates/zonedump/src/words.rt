//! The words of a call, of which some may not be UTF-8; names as they are printed, and what is said on standard error.

use std::env::{Env, FillError};
use std::fmt::Write;
use std::{fmt, io};

// The most bytes that Linux gives in one word, with the 0 byte after it.
const LONGEST: usize = 131_072;

// What ends a word that replaces one that isn't UTF-8. No word of a call has a 0 byte.
const MARK: char = '\0';

/// The words of the call, the program's name first. In a word that isn't UTF-8 the other bytes are
/// escaped; [`is_utf8`] finds it.
///
/// # Errors
///
/// There is no memory for them.
pub fn of_call(rt: &HostRuntime) -> io::Result<Vec<String>> {
    let mut buffer = vec![in rt.alloc(); 0_u8; LONGEST]?;
    let mut words = Vec::new(rt.alloc());
    for i in 0..usize::MAX {
        match rt.arg(i, &mut buffer) {
            Ok(n) => words.push(word(rt, &buffer[..n])?)?,
            Err(FillError::NotPresent) => break,
            Err(FillError::TooLong) => return Err(io::Error::from(io::ErrorKind::InvalidData)),
        }
    }
    Ok(words)
}

/// A word of those bytes, as [`of_call`] has it.
///
/// # Errors
///
/// There is no memory for it.
pub fn word(rt: &HostRuntime, bytes: &[u8]) -> io::Result<String> {
    let mut word = String::new(rt.alloc());
    match str::from_utf8(bytes) {
        Ok(text) => word.push_str(text)?,
        Err(_) => {
            for chunk in bytes.utf8_chunks() {
                word.push_str(chunk.valid())?;
                write!(word, "{}", chunk.invalid().escape_ascii())?;
            }
            word.push(MARK)?;
        }
    }
    Ok(word)
}

/// Why a file of that name can't be opened.
pub const NOT_UTF8: &str = "the name is not UTF-8";

/// Whether the bytes of a word were UTF-8.
pub fn is_utf8(word: &str) -> bool {
    !word.ends_with(MARK)
}

/// The name of a file or a zone as it is printed: an empty one is `''`.
pub fn shown(name: &str) -> OneLine<'_> {
    OneLine(if name.is_empty() { "''" } else { name })
}

/// A text on one line, in which each character that controls a terminal, ends a line or sets the
/// direction of text is escaped, as `\n` or `\u{1b}`.
#[derive(Clone, Copy)]
pub struct OneLine<'a>(pub &'a str);

impl fmt::Display for OneLine<'_> {
    fn fmt<W: fmt::Write>(&self, f: &mut fmt::Formatter<W>) -> fmt::Result {
        for letter in self.0.chars() {
            put_letter(f, letter)?;
        }
        Ok(())
    }
}

// The mark of a word isn't printed.
fn put_letter<W: fmt::Write>(f: &mut fmt::Formatter<W>, letter: char) -> fmt::Result {
    if letter == MARK {
        return Ok(());
    }
    if is_printed(letter) {
        return f.write_char(letter);
    }
    write!(f, "{}", letter.escape_default())
}

fn is_printed(letter: char) -> bool {
    match letter {
        '\u{200e}' | '\u{200f}' | '\u{2028}'..='\u{202e}' | '\u{2066}'..='\u{2069}' => false,
        _ => !letter.is_control(),
    }
}

/// Says on standard error why the work on a file or a zone failed. If that can't be written, only
/// the status says it.
pub fn report<T: fmt::Display + Drop>(rt: &HostRuntime, name: &str, why: T) {
    let name = shown(name);
    let _ = eprintln!(rt; "zonedump: {name}: {why}");
}

/// Says why nothing is done, on a line of its own.
pub fn say<T: fmt::Display + Drop>(rt: &HostRuntime, why: T) {
    let _ = eprintln!(rt; "zonedump: {why}");
}

/// A name in a sentence: at most 64 characters of it, on one line.
#[derive(Clone, Copy)]
pub struct Quoted<'a>(pub &'a str);

impl fmt::Display for Quoted<'_> {
    fn fmt<W: fmt::Write>(&self, f: &mut fmt::Formatter<W>) -> fmt::Result {
        for letter in self.0.chars().take(64) {
            put_letter(f, letter)?;
        }
        Ok(())
    }
}
