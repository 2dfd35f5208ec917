//! The error of a length that another type can't hold.

use std::error::Error;
use std::fmt;

/// The length of time is out of the range of the type that it was to become.
#[derive(Clone, Copy, PartialEq, Eq, Debug)]
pub struct OutOfRangeError {
    private: (),
}

impl OutOfRangeError {
    pub(crate) fn new() -> OutOfRangeError {
        OutOfRangeError { private: () }
    }
}

impl fmt::Display for OutOfRangeError {
    fn fmt<W: fmt::Write>(&self, f: &mut fmt::Formatter<W>) -> fmt::Result {
        f.write_str("length of time out of range of the target type")
    }
}

impl Error for OutOfRangeError {}
