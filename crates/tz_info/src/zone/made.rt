//! What a zone keeps for its lookups: its clock changes, and the index of what its clocks show.

pub(super) mod change_list;
pub(super) mod change_table;
pub(super) mod extremes;
pub(super) mod index;
pub(super) mod last_span;
mod one_pass;
mod pieces;
pub(super) mod segment_ends;
pub(super) mod segments;
pub(super) mod shown;
