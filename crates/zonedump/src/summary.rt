//! The differences of two tz databases in few lines.

use crate::words::shown;
use std::alloc::{AllocError, Global};
use std::fmt;
use std::fmt::Write;
use tz_info::Difference;
use zonedump_lib::{Clock, TypeWords};

/// The differences of two folders, zones with the same ones together.
#[derive(Drop)]
pub struct Summary {
    groups: Vec<Group>,
    // The zones that only one folder has.
    old: Vec<String>,
    new: Vec<String>,
    // How many zones both have.
    both: u64,
}

// Zones with one list of differences.
#[derive(Drop)]
struct Group {
    names: Vec<String>,
    found: Vec<Difference>,
}

// Differences with the same types before and after.
#[derive(Clone, Copy)]
struct Repeated {
    first: Difference,
    more: u64,
}

impl Summary {
    /// Returns a summary of no zones.
    pub fn new(alloc: Global) -> Summary {
        Summary {
            groups: Vec::new(alloc),
            old: Vec::new(alloc),
            new: Vec::new(alloc),
            both: 0,
        }
    }

    /// Adds a zone that only the old folder has.
    ///
    /// # Errors
    ///
    /// There is no memory for its name.
    pub fn add_old(&mut self, alloc: Global, name: &str) -> Result<(), AllocError> {
        Ok(self.old.push(String::from_str(alloc, name)?)?)
    }

    /// Adds a zone that only the new folder has.
    ///
    /// # Errors
    ///
    /// There is no memory for its name.
    pub fn add_new(&mut self, alloc: Global, name: &str) -> Result<(), AllocError> {
        Ok(self.new.push(String::from_str(alloc, name)?)?)
    }

    /// Adds a zone that both have, with its differences.
    ///
    /// # Errors
    ///
    /// There is no memory for its name.
    pub fn add(
        &mut self,
        alloc: Global,
        name: &str,
        found: Vec<Difference>,
    ) -> Result<(), AllocError> {
        self.both = self.both.saturating_add(1);
        if found.is_empty() {
            return Ok(());
        }
        let name = String::from_str(alloc, name)?;
        for group in self.groups.iter_mut() {
            if group.found.as_slice() == found.as_slice() {
                return Ok(group.names.push(name)?);
            }
        }
        let mut names = Vec::new(alloc);
        names.push(name)?;
        Ok(self.groups.push(Group { names, found })?)
    }

    /// Returns the summary as lines: for each group the names of its zones and a line for the
    /// difference; the zones that only one folder has; and the counts.
    ///
    /// # Errors
    ///
    /// There is no memory for it.
    pub fn text(&self, alloc: Global, old: &str, new: &str) -> Result<String, AllocError> {
        let mut out = String::new(alloc);
        let mut count = 0_u64;
        for group in self.groups.iter() {
            count = count.saturating_add(group.names.len() as u64);
            push_names(&mut out, group.names.as_slice())?;
            out.push('\n')?;
            push_repeated(&mut out, alloc, group.found.as_slice())?;
        }
        push_lone(&mut out, old, self.old.as_slice())?;
        push_lone(&mut out, new, self.new.as_slice())?;
        writeln!(
            out,
            "zones that differ: {count} of {}; only in {}: {}; only in {}: {}",
            self.both,
            shown(old),
            self.old.len(),
            shown(new),
            self.new.len()
        )?;
        Ok(out)
    }
}

fn push_names(out: &mut String, names: &[String]) -> Result<(), AllocError> {
    for (place, name) in names.iter().enumerate() {
        if place > 0 {
            out.push_str(", ")?;
        }
        write!(out, "{}", shown(name.as_str()))?;
    }
    Ok(())
}

fn push_lone(out: &mut String, folder: &str, names: &[String]) -> Result<(), AllocError> {
    if names.is_empty() {
        return Ok(());
    }
    write!(out, "only in {}: ", shown(folder))?;
    push_names(out, names)?;
    out.push('\n')
}

// A line for the differences with the same types: the first stretch, and how many more there are.
fn push_repeated(out: &mut String, alloc: Global, found: &[Difference]) -> Result<(), AllocError> {
    let all = repeated_in(alloc, found)?;
    for repeated in all.iter() {
        write!(out, "  {}", RepeatedText(repeated))?;
        if repeated.more > 0 {
            write!(out, ", and {} more", repeated.more)?;
        }
        out.push('\n')?;
    }
    Ok(())
}

fn repeated_in(alloc: Global, found: &[Difference]) -> Result<Vec<Repeated>, AllocError> {
    let mut all = Vec::new(alloc);
    for one in found {
        if !count_if_known(&mut all, one) {
            all.push(Repeated {
                first: *one,
                more: 0,
            })?;
        }
    }
    Ok(all)
}

// Counts a difference whose types are known, or returns `false`.
fn count_if_known(known: &mut Vec<Repeated>, one: &Difference) -> bool {
    for repeated in known.iter_mut() {
        if repeated.first.old == one.old && repeated.first.new == one.new {
            repeated.more = repeated.more.saturating_add(1);
            return true;
        }
    }
    false
}

// The first stretch of those differences, and what changes there.
#[derive(Clone, Copy)]
struct RepeatedText<'a>(&'a Repeated);

impl fmt::Display for RepeatedText<'_> {
    fn fmt<W: fmt::Write>(&self, f: &mut fmt::Formatter<W>) -> fmt::Result {
        let first = &self.0.first;
        let from = Clock(first.from as i128);
        let until = Clock(first.until as i128);
        let (old, new) = (TypeWords(&first.old), TypeWords(&first.new));
        let moved = first.new.offset() as i64 - first.old.offset() as i64;
        write!(
            f,
            "{from} to {until} UTC: {}, {old} becomes {new}",
            Moved(moved)
        )
    }
}

// By how much clocks are moved.
#[derive(Clone, Copy)]
struct Moved(i64);

impl fmt::Display for Moved {
    fn fmt<W: fmt::Write>(&self, f: &mut fmt::Formatter<W>) -> fmt::Result {
        let seconds = self.0.unsigned_abs();
        if seconds == 0 {
            return f.write_str("no clock moves");
        }
        let sense = if self.0 > 0 { "ahead" } else { "back" };
        if seconds % 60 == 0 {
            write!(f, "clocks are {} min {sense}", seconds / 60)
        } else {
            write!(f, "clocks are {seconds} s {sense}")
        }
    }
}
