//! Items in order of time, the search for the latest one at a second, and counts of its probes.
//!
//! A contract sees of a `Timeline` its list of items, of a `Probes` three counts. Proved: a search counts
//! the items at or before a second, with at most `digits(n)` probes of n items, and at least one if there
//! is an item; each call that returns an item counts it. Only tested: that no search reads on without
//! counting (`tests_large_zone`).
#![tactic(auto)]

mod timeline;

pub use timeline::{Passed, Probes, Timed, Timeline};
