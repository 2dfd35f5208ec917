//! A custom zone: how to implement the trait [`TimeZone`](zoned_time::TimeZone) for a zone
//! that is neither UTC, nor fixed, nor read from a file.
//!
//! The clocks of the zone [`Odd`] are set forward by a second at each odd second, and back at each
//! even one. No place has such clocks. But each call of an instant means the same there as in any
//! zone, since it is proved from only the laws of the trait, and they don't ask that a zone is
//! reasonable.
//!
//! ```text
//! UTC         00:00:00   00:00:01   00:00:02   00:00:03   00:00:04
//! offset            +0         +1         +0         +1         +0
//! the clocks  00:00:00   00:00:02   00:00:02   00:00:04   00:00:04
//! ```
//!
//! What it takes: an offset type with its seconds (`offset`), the zone's offset function
//! (`specs/Odd.antt`), the lookups (`zone`), and a proof of what the clocks show
//! (`proofs/Walls.antt`).
#![tactic(auto)]

pub mod laws;
mod offset;
mod zone;

pub use offset::OddOffset;
pub use zone::Odd;
