//! Instants of a kept zone printed.

use std::alloc::{AllocError, Global};
use std::fmt;
use zoned::{DateTime, KeptZone};

pub fn text(alloc: Global, instant: &DateTime<KeptZone>) -> Result<String, AllocError> {
    format!(in alloc; "{instant}")
}

pub fn debug_text(alloc: Global, instant: &DateTime<KeptZone>) -> Result<String, AllocError> {
    format!(in alloc; "{instant:?}")
}

pub fn in_columns(
    alloc: Global,
    instant: &DateTime<KeptZone>,
    what: &str,
) -> Result<String, AllocError> {
    format!(in alloc; "{instant:>30} {what:<10}|")
}

pub fn lines(alloc: Global, instants: &[DateTime<KeptZone>]) -> Result<Vec<String>, AllocError> {
    let mut lines = Vec::new(alloc);
    for instant in instants {
        lines.push(format!(in alloc; "{instant}")?)?;
    }
    Ok(lines)
}

/// A line of a log.
#[derive(Drop)]
pub struct Line {
    pub instant: DateTime<KeptZone>,
    pub what: &'static str,
}

impl fmt::Display for Line {
    fn fmt<W: fmt::Write>(&self, f: &mut fmt::Formatter<W>) -> fmt::Result {
        write!(f, "{}: {}", self.instant, self.what)
    }
}
