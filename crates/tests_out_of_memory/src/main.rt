//! Makes zones by each constructor, and prints what they are.
//!
//! `tools/refuse_memory.py` runs it once for each request for memory that it makes, and refuses
//! that request. If a constructor then returns out of memory, the program ends with
//! status 17. If it returns anything else, the status is 0, and the lines must be those of a run
//! with memory enough.
//!
//! Headers come first, whose counts say more than there is. They are rejected before any memory is
//! asked for, and so their lines are the same when the first request is refused.
#![tactic(auto)]

mod headers;
mod zones;

use std::io;
use std::process::ExitCode;

fn main(rt: HostRuntime) -> ExitCode {
    match try_all(&rt) {
        Ok(true) => ExitCode::SUCCESS,
        Ok(false) => ExitCode::from(17),
        Err(_) => ExitCode::FAILURE,
    }
}

// Whether there was memory for every zone.
fn try_all(rt: &HostRuntime) -> io::Result<bool> {
    headers::print_answers(rt)?;
    zones::print_zones(rt)
}
