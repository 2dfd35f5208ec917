//! The record of the proof, which a release installs with the program.

use std::path::Path;
use std::{fs, io};

// The place of the record below the folder that has the folder of the program.
const RECORD: &str = "share/zoned/proof.json";

/// Returns the record: what was proved of each crate, and with which kit. `None` if it isn't there,
/// as for a program that is not of a release.
///
/// # Errors
///
/// There is no memory for a path.
pub fn of_release(rt: &HostRuntime) -> io::Result<Option<Vec<u8>>> {
    let Ok(program) = fs::canonicalize(rt, "/proc/self/exe") else {
        return Ok(None);
    };
    let Some(folder) = Path::new(program.as_str()).parent() else {
        return Ok(None);
    };
    let Some(prefix) = folder.parent() else {
        return Ok(None);
    };
    let path = prefix.join(rt.alloc(), RECORD)?;
    Ok(zoned_files::read_limited(rt, path.as_str()).ok())
}
