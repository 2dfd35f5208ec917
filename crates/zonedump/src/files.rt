//! Files: read up to a limit, and replaced as a whole.

use crate::words::report;
use std::fs::{File, OpenFile, Permissions};
use std::io::{ErrorKind, Read, Write};
use std::os::unix::fs::PermissionsExt;
use std::path::Path;
use std::random::RandomSource;
use std::{fs, io};

// How many characters of a file's name are in the name of its temporary file, which may have 255
// bytes.
const NAME: usize = 50;

// What a TZif file begins with.
const MAGIC: [u8; 4] = *b"TZif";

// Who may read, write and run a file.
const ACCESS: u32 = 0o777;

/// Whether a file begins as a TZif file does. Only its first four bytes are read.
///
/// # Errors
///
/// The file can't be opened or read.
pub fn is_zone(rt: &HostRuntime, path: &str) -> io::Result<bool> {
    let mut file = File::open(rt, path)?;
    let mut head = [0_u8; 4];
    match file.read_exact(&mut head) {
        Ok(()) => Ok(head == MAGIC),
        Err(error) if error.kind() == ErrorKind::UnexpectedEof => Ok(false),
        Err(error) => Err(error),
    }
}

/// Whether both paths lead to one file that exists.
pub fn are_same(rt: &HostRuntime, one: &str, other: &str) -> bool {
    match (fs::canonicalize(rt, one), fs::canonicalize(rt, other)) {
        (Ok(one), Ok(other)) => one.as_str() == other.as_str(),
        _ => false,
    }
}

/// Replaces the contents of a file with those bytes, or makes the file, and returns whether that was
/// done. If it fails, a regular file is left as it was, and one that was not there is not made.
///
/// The result is `false` if a file has the name of the temporary file, which is reported.
///
/// What is no regular file, such as a pipe, is written as it is, and so is what a symbolic link
/// names that is not there.
///
/// # Errors
///
/// The file can't be written, or no file can be made in its folder.
pub fn replace(rt: &HostRuntime, path: &str, bytes: &[u8]) -> io::Result<bool> {
    match fs::metadata(rt, path) {
        Ok(found) if found.is_file() => {
            let target = fs::canonicalize(rt, path)?;
            let access = found.permissions().mode() & ACCESS;
            write_beside(rt, target.as_str(), bytes, Some(access))
        }
        Err(error) if error.kind() == ErrorKind::NotFound && !is_link(rt, path) => {
            write_beside(rt, path, bytes, None)
        }
        _ => write_through(rt, path, bytes),
    }
}

fn is_link(rt: &HostRuntime, path: &str) -> bool {
    fs::symlink_metadata(rt, path).is_ok_and(|found| found.is_symlink())
}

fn write_through(rt: &HostRuntime, path: &str, bytes: &[u8]) -> io::Result<bool> {
    let mut file = File::create(rt, path)?;
    file.write_all(bytes)?;
    file.flush()?;
    Ok(true)
}

// Writes a temporary file in the folder of the target, and gives it the target's name.
fn write_beside(
    rt: &HostRuntime,
    target: &str,
    bytes: &[u8],
    access: Option<u32>,
) -> io::Result<bool> {
    let temporary = temporary_path(rt, target)?;
    match File::create_new(rt, temporary.as_str()) {
        Ok(file) => {
            finish(rt, file, temporary.as_str(), target, bytes, access)?;
            Ok(true)
        }
        Err(error) if error.kind() == ErrorKind::AlreadyExists => {
            report(rt, temporary.as_str(), error);
            Ok(false)
        }
        Err(error) => Err(error),
    }
}

// Writes the bytes to the temporary file and renames it, or removes it.
fn finish(
    rt: &HostRuntime,
    file: File,
    temporary: &str,
    target: &str,
    bytes: &[u8],
    access: Option<u32>,
) -> io::Result<()> {
    let done = match fill(file, bytes, access) {
        Ok(()) => fs::rename(rt, temporary, target),
        Err(error) => Err(error),
    };
    if done.is_err() {
        let _ = fs::remove_file(rt, temporary);
    }
    done
}

// The path of the target, with a random number and `.tmp` after its name: no file that a killed run
// has left is in the way of a later one.
fn temporary_path(rt: &HostRuntime, target: &str) -> io::Result<String> {
    let mut random = [0_u8; 8];
    rt.fill_bytes(&mut random)?;
    let number = u64::from_le_bytes(random);
    let mut name = String::new(rt.alloc());
    for letter in Path::new(target)
        .file_name()
        .unwrap_or("zonedump")
        .chars()
        .take(NAME)
    {
        name.push(letter)?;
    }
    let name = format!(in rt.alloc(); "{name}.{number}.tmp")?;
    match Path::new(target).parent() {
        Some(folder) => Ok(folder.join(rt.alloc(), name.as_str())?.into_string()),
        None => Ok(name),
    }
}

// Writes the bytes to a new file, down to its disk.
fn fill(mut file: File, bytes: &[u8], access: Option<u32>) -> io::Result<()> {
    file.write_all(bytes)?;
    file.flush()?;
    if let Some(access) = access {
        file.set_permissions(Permissions::from_mode(access))?;
    }
    file.sync_all()
}
