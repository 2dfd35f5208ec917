//! Zones of the tz database by name: the bytes of the file of `Europe/Paris`.
//!
//! Proved: `is_zone_name` says which names are well formed, and `path_in` returns a path if and only if
//! the name is; that path leads below the folder (`laws::stays_below`). Only tested: that the file of a
//! name is read, and no other (`tools/try_zonedump.py`). No clause says what files hold, or where links
//! lead.
#![tactic(auto)]

mod files;
mod laws;
mod names;

pub use files::{ReadError, by_name, folders, path_of, read_all, read_limited};
pub use names::{is_zone_name, path_in};
