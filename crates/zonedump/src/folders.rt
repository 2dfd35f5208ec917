//! The files of a folder.

use crate::words::{self, NOT_UTF8, report};
use std::fs::{self, Files};
use std::io;
use std::io::{BufRead, BufReader, ErrorKind};
use std::path::Path;

/// The path of what has a name in a folder, and of the folder for an empty name.
pub fn path_within(rt: &HostRuntime, folder: &str, name: &str) -> io::Result<String> {
    if name.is_empty() {
        return Ok(String::from_str(rt.alloc(), folder)?);
    }
    Ok(Path::new(folder).join(rt.alloc(), name)?.into_string())
}

/// Whether a path leads to a folder.
pub fn is_folder(rt: &HostRuntime, path: &str) -> bool {
    fs::metadata(rt, path).is_ok_and(|found| found.is_dir())
}

/// Whether a zone of the tz database is there a second time under another name: with leap seconds,
/// or without them for certain.
pub fn is_double(name: &str) -> bool {
    name.starts_with("right/") || name.starts_with("posix/")
}

/// What a folder holds, and the folders in it. Names are relative to it.
#[derive(Drop)]
pub struct Contents {
    /// The names of the files. A link to a file counts as that file; a link to a folder is left out.
    pub files: Vec<String>,
    /// The names of files and folders that can't be looked at.
    pub unread: Vec<String>,
}

impl Contents {
    /// Whether the file of that name, or a folder that holds it, can't be looked at.
    pub fn is_unread(&self, name: &str) -> bool {
        self.unread
            .iter()
            .any(|unread| is_in(name, unread.as_str()))
    }
}

// Whether a name is that of a file or a folder, or of what that folder holds.
fn is_in(name: &str, folder: &str) -> bool {
    match name.strip_prefix(folder) {
        Some(rest) => folder.is_empty() || rest.is_empty() || rest.starts_with('/'),
        None => false,
    }
}

/// Lists a folder and the folders in it. Each file and folder that can't be looked at is reported.
///
/// # Errors
///
/// There is no memory for the names.
pub fn contents_of(rt: &HostRuntime, top: &str) -> io::Result<Contents> {
    let mut found = Contents {
        files: Vec::new(rt.alloc()),
        unread: Vec::new(rt.alloc()),
    };
    let mut folders = Vec::new(rt.alloc());
    folders.push(String::new(rt.alloc()))?;
    for _ in 0..usize::MAX {
        let Some(within) = folders.pop() else {
            break;
        };
        list(rt, top, within, &mut found, &mut folders)?;
    }
    Ok(found)
}

// Adds the files of one folder to what is found, and its folders to those that are still to be read.
fn list(
    rt: &HostRuntime,
    top: &str,
    within: String,
    found: &mut Contents,
    folders: &mut Vec<String>,
) -> io::Result<()> {
    let folder = path_within(rt, top, within.as_str())?;
    match names_in(rt, folder.as_str()) {
        Ok(names) => {
            for name in names.iter() {
                add(rt, top, within.as_str(), name.as_slice(), found, folders)?;
            }
            Ok(())
        }
        Err(error) => leave_out(rt, folder.as_str(), error, within, found),
    }
}

// The bytes of each name in a folder, of which some may not be UTF-8.
fn names_in(rt: &HostRuntime, folder: &str) -> io::Result<Vec<Vec<u8>>> {
    // A path that ends in a slash leads to the folder that a link names.
    let folder = Path::new(folder).join(rt.alloc(), "")?;
    let mut names = Vec::new(rt.alloc());
    for name in BufReader::new(rt.alloc(), rt.open_dir(folder.as_str())?)?.split(rt.alloc(), 0) {
        names.push(name?)?;
    }
    Ok(names)
}

// Adds what has that name in a folder.
fn add(
    rt: &HostRuntime,
    top: &str,
    within: &str,
    name: &[u8],
    found: &mut Contents,
    folders: &mut Vec<String>,
) -> io::Result<()> {
    if name == b".".as_slice() || name == b"..".as_slice() {
        return Ok(());
    }
    let name = path_within(rt, within, words::word(rt, name)?.as_str())?;
    let path = path_within(rt, top, name.as_str())?;
    if !words::is_utf8(name.as_str()) {
        return leave_out(rt, path.as_str(), NOT_UTF8, name, found);
    }
    match entry_kind(rt, path.as_str()) {
        Ok(EntryKind::Folder) => Ok(folders.push(name)?),
        Ok(EntryKind::File) => Ok(found.files.push(name)?),
        Ok(EntryKind::Other) => Ok(()),
        Err(error) => leave_out(rt, path.as_str(), error, name, found),
    }
}

// Reports what can't be looked at.
fn leave_out<T: std::fmt::Display + Drop>(
    rt: &HostRuntime,
    path: &str,
    why: T,
    name: String,
    found: &mut Contents,
) -> io::Result<()> {
    report(rt, path, why);
    found.unread.push(name)?;
    Ok(())
}

// What a path leads to. Links to folders, and those to nothing, are left out.
#[derive(Clone, Copy)]
enum EntryKind {
    Folder,
    File,
    Other,
}

fn entry_kind(rt: &HostRuntime, path: &str) -> io::Result<EntryKind> {
    if fs::symlink_metadata(rt, path)?.is_dir() {
        return Ok(EntryKind::Folder);
    }
    match fs::metadata(rt, path) {
        Ok(found) if found.is_file() => Ok(EntryKind::File),
        Ok(_) => Ok(EntryKind::Other),
        Err(error) if error.kind() == ErrorKind::NotFound => Ok(EntryKind::Other),
        Err(error) => Err(error),
    }
}
