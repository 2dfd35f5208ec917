//! Errors with their place.

use crate::error::Error;
use std::fmt;

/// An error in bytes or text, and its position. `?` turns it into its [`Error`].
#[derive(Clone, Copy, Debug, PartialEq, Eq)]
pub struct ParseError {
    /// What is wrong.
    pub error: Error,
    /// The number of bytes in front of the fault: the first byte that can't be read, the field whose
    /// value is rejected, or the end if bytes are missing. `None` for an error without a position,
    /// such as running out of memory.
    pub position: Option<usize>,
}

impl fmt::Display for ParseError {
    fn fmt<W: fmt::Write>(&self, f: &mut fmt::Formatter<W>) -> fmt::Result {
        match self.position {
            Some(position) => write!(f, "{} at offset {}", self.error, position),
            None => write!(f, "{}", self.error),
        }
    }
}

impl std::error::Error for ParseError {}

impl From<ParseError> for Error {
    ghost use Rattle.std.specs.Prelude.{◌≡◌};

    ghost from_gives = { λ parse e. e ≡ parse.error };

    fn from(parse: ParseError) -> Error {
        parse.error
    }
}

/// An error at no place.
impl From<Error> for ParseError {
    ghost use Rattle.std.specs.Prelude.{◌≡◌, None};

    ghost from_gives = { λ e parse. parse ≡ record { error = e; position = None } };

    fn from(error: Error) -> ParseError {
        ParseError {
            error,
            position: None,
        }
    }
}
