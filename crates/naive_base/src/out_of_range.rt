//! The error of a number that no value has.

use std::error::Error;
use std::fmt;

/// A number is out of range: no weekday or no month has it.
#[derive(Clone, Copy, PartialEq, Eq, Debug)]
pub struct OutOfRange {
    private: (),
}

impl OutOfRange {
    pub(crate) fn new() -> OutOfRange {
        OutOfRange { private: () }
    }
}

impl fmt::Display for OutOfRange {
    fn fmt<W: fmt::Write>(&self, f: &mut fmt::Formatter<W>) -> fmt::Result {
        f.write_str("out of range")
    }
}

impl Error for OutOfRange {}
