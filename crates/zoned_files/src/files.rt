//! Files of zones.

use crate::names::path_in;
use std::alloc::{AllocError, Global};
use std::env::{self, VarError};
use std::fs::{self, File};
use std::io::{self, ErrorKind, Read};
use thiserror::Error;

// 64 MiB, far above any zone of the tz database.
const LIMIT: u64 = 67_108_864;

// The folders in which systems keep the tz database, the usual one first.
const FOLDERS: [&str; 4] = [
    "/usr/share/zoneinfo",
    "/usr/lib/zoneinfo",
    "/usr/share/lib/zoneinfo",
    "/etc/zoneinfo",
];

/// Why a zone's bytes can't be read.
#[derive(Debug, Drop, Error)]
pub enum ReadError {
    /// No folder of the tz database has a file of that name, or it has not the form of a name.
    #[error("no such zone")]
    NoSuchZone,
    /// The file has more than 64 MiB.
    #[error("larger than 64 MiB")]
    TooLarge,
    /// The file can't be read.
    #[error("{0}")]
    Io(#[from] io::Error),
}

/// Returns the bytes of the zone of that name, as `Europe/Paris`, from the first of [`folders`] that
/// has it.
///
/// # Errors
///
/// There is no such zone, or its file can't be read.
pub fn by_name(rt: &HostRuntime, name: &str) -> Result<Vec<u8>, ReadError> {
    let folders = folders(rt)?;
    match path_of(rt, name, folders.as_slice())? {
        Some(path) => read_limited(rt, path.as_str()),
        None => Err(ReadError::NoSuchZone),
    }
}

/// Returns the folders that may have the tz database: that of the environment variable `TZDIR`, or
/// else the usual ones of systems.
///
/// # Errors
///
/// There is no memory for them.
pub fn folders(rt: &HostRuntime) -> io::Result<Vec<String>> {
    let mut folders = Vec::new(rt.alloc());
    match env::var(rt, "TZDIR") {
        Ok(folder) if !folder.is_empty() => folders.push(folder)?,
        Err(VarError::OutOfMemory) => return Err(io::Error::from(AllocError)),
        _ => {
            for folder in FOLDERS {
                folders.push(String::from_str(rt.alloc(), folder)?)?;
            }
        }
    }
    Ok(folders)
}

/// Returns the path of the file of that zone in the first of the folders that has it. `None` if none
/// has it, or if it has not the form of a zone's name.
///
/// # Errors
///
/// There is no memory for the path.
pub fn path_of(rt: &HostRuntime, name: &str, folders: &[String]) -> io::Result<Option<String>> {
    for folder in folders {
        match path_in(rt.alloc(), folder.as_str(), name)? {
            Some(path) if is_file(rt, path.as_str()) => return Ok(Some(path)),
            _ => {}
        }
    }
    Ok(None)
}

fn is_file(rt: &HostRuntime, path: &str) -> bool {
    fs::metadata(rt, path).is_ok_and(|found| found.is_file())
}

/// Returns the bytes of a file.
///
/// # Errors
///
/// It has more than 64 MiB or can't be read, or there is no memory for its bytes.
pub fn read_limited(rt: &HostRuntime, path: &str) -> Result<Vec<u8>, ReadError> {
    let file = File::open(rt, path)?;
    read_all(rt.alloc(), file)
}

/// Returns the bytes of a reader, up to its end.
///
/// # Errors
///
/// There are more than 64 MiB or they can't be read, or there is no memory for them.
pub fn read_all<R: Read + Drop>(alloc: Global, reader: R) -> Result<Vec<u8>, ReadError> {
    let mut bytes = Vec::new(alloc);
    reader.take(LIMIT + 1).read_to_end(&mut bytes)?;
    if bytes.len() as u64 > LIMIT {
        return Err(ReadError::TooLarge);
    }
    Ok(bytes)
}
