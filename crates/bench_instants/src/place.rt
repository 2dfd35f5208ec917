//! The places of the program from which the library is called.

/// A place of the program. The functions that ask are compiled for each place by itself, so that each
/// function of the library is called from two places, as in a large program: a compiler inlines one
/// that is called from a single place, however long it is.
pub trait Place {}

/// Where questions are timed.
pub struct Timed;

impl Place for Timed {}

/// Where answers are printed.
pub struct Printed;

impl Place for Printed {}
