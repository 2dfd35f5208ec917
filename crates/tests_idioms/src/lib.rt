//! What is written every day over instants, dates, times of day and lengths of time, compiled, proved
//! and tested: comparisons, sorting, maps, print, iteration, lookups. No function has a contract, a lemma
//! or a proof file.
//!
//! The instants are those of a kept zone. Functions whose code differs over UTC are in [`utc`] too, and
//! those whose code differs over a `TimeZoneRef` in [`borrowed`]. [`dates`], [`clocks`], [`lengths`] and
//! [`plans`] have what programs do with the dates, local times and lengths of such instants and with
//! plans, and [`agenda`] is a client of two structs that hold a zone and instants. [`naive`] and
//! [`fields`] need no zone. The functions of [`choices`], [`moves`] and [`shown`] are generic over the
//! zone: tests call them in borrowed zones, at fixed offsets and in a zone of one's own, also with an
//! offset that isn't the one that the zone gives there. [`ends`] has both ends of the range.
//!
//! # What isn't covered
//!
//! | over | what | write instead | words |
//! |---|---|---|---|
//! | a borrowed zone, a kept zone | a copy in place: `*instant` | `iter().copied()`, [`copy_of`] | 1 |
//! | a borrowed zone | a closure that captures an instant: `any(\|t\| t > than)` | a `for`: [`borrowed::any_after`] | 1 |
//! | a borrowed zone | a closure that asks the zone: `map(\|t\| t.hour())` | a `for`: [`borrowed::hours`] | 1 |
//! | UTC | a guard over what its pattern takes: `Some(best) if now < best` | `max`, an `if`: [`utc::latest_so_far`] | 2 |
//! | UTC | a pattern that takes an array of zones apart: `let [a, b] = zones;` | a pair: [`utc::first_noon`] | 3 |
//!
//! A copy in place is also that in `(instant, instant)` and in `let now = self.next;`, and
//! `instant.clone()?` replaces it too. The checker's words:
//!
//! 1. a struct with an `impl Model` is copied if it holds a reference, or a type argument names
//!    two lifetimes that the function keeps apart
//! 2. a pattern binds a `&mut`, or reaches further in, at a variant that holds a struct which has a
//!    ghost field
//! 3. a pointer to an element of a type of no size
#![tactic(auto)]

pub mod agenda;
pub mod borrowed;
pub mod choices;
pub mod clocks;
pub mod closures;
pub mod compare;
pub mod copies;
pub mod dates;
pub mod ends;
mod error;
pub mod fields;
pub mod fixed_zones;
pub mod iterate;
pub mod lengths;
pub mod maps;
pub mod moves;
pub mod naive;
pub mod plans;
pub mod print;
pub mod shown;
pub mod sort;
pub mod utc;
pub mod zones;

pub use error::IdiomError;

/// A copy of a value that is borrowed: in a function for all types it is covered.
pub fn copy_of<T: Copy>(value: &T) -> T {
    *value
}
