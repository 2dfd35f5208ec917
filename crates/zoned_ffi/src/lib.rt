//! The C API: opens a zone once and answers questions by handle. `include/zoned_ffi.h` is the header.
#![tactic(auto)]

mod asking;
mod changes;
mod choice;
mod column;
mod days;
mod fault;
mod fields;
mod handle;
mod instants;
mod kind;
pub mod laws;
mod lent;
mod local_info;
mod local_lookups;
mod local_result;
mod local_type;
mod misses;
mod opening;
mod pins;
mod refusal;
mod resolved;
mod rule_string;
mod saving;
mod slot;
mod span;
mod texts;
mod unit;
mod version;
mod whole_second;
