//! Equality, order and hash of instants: only by their UTC date-times.
ghost use Rattle.std.proofs.Common.{rules};
ghost use Rattle.std.specs.{Cmp.{partial_order_from_own_ties, Rules.{comparing, hashing}}, Prelude.{◌≡◌, ◌↔◌, ◌++◌, ◌==◌, IsTrue}};
ghost use Rattle.std.specs.Ordering.{as_partial_cmp, eq_of_both, int_cmp, int_eq, nat_cmp, on, then_cmp};
ghost use Rattle.zoned_time.specs.{DateTime.{zoned}, DateTime.{compared}};
ghost use Rattle.std.specs.Hash as fed;

use super::{DateTime, Instant};
use crate::{Offset, TimeZone};
use std::cmp::Ordering;
use std::hash::{Hash, Hasher};

impl<Tz, O: Offset> PartialEq for Instant<Tz, O> {
    ghost eq = { eq_of_both (on (λ d. (zoned d).utc.s) int_eq) (on (λ d. (zoned d).utc.f) ◌==◌) };

    ghost laws = { Prim.search (comparing, rules) };

    fn eq(&self, other: &Instant<Tz, O>) -> bool {
        self.datetime == other.datetime
    }
}

impl<Tz, O: Offset> Eq for Instant<Tz, O> {
    ghost laws = { Prim.search (comparing, rules) };
}

impl<Tz, O: Offset> PartialOrd for Instant<Tz, O> {
    ghost partial_cmp = { as_partial_cmp
        (then_cmp (on (λ d. (zoned d).utc.s) int_cmp) (on (λ d. (zoned d).utc.f) nat_cmp)) };

    ghost laws = { partial_order_from_own_ties (Prim.search (comparing, rules))
        (Prim.search (comparing, rules)) };

    fn partial_cmp(&self, other: &Instant<Tz, O>) -> Option<Ordering> {
        Some(self.cmp(other))
    }
}

impl<Tz, O: Offset> Ord for Instant<Tz, O> {
    ghost cmp = { then_cmp
        (on (λ d. (zoned d).utc.s) int_cmp)
        (on (λ d. (zoned d).utc.f) nat_cmp) };

    ghost total = { Prim.search (comparing, rules) };

    ghost matches_partial_cmp = { Prim.search (comparing, rules) };

    ghost matches_eq = { Prim.search (comparing, rules) };

    fn cmp(&self, other: &Instant<Tz, O>) -> Ordering {
        self.datetime.cmp(&other.datetime)
    }
}

impl<Tz, O: Offset> Hash for Instant<Tz, O> {
    ghost hash_input = { λ d. fed.i64 (zoned d).utc.s ++ fed.u32 (zoned d).utc.f };

    ghost respects_eq = { Prim.search (hashing, rules) };

    fn hash<H: Hasher>(&self, state: &mut H) {
        self.datetime.hash(state);
    }
}

impl<Tz, O: Offset> Instant<Tz, O> {
    /// Returns whether it is the same instant. The two may be in different zones.
    ///
    /// ```
    /// let same = Utc.timestamp(0, 0).same_instant(&FixedOffset::east(3600).timestamp(0, 0)); // true
    /// ```
    pub fn same_instant<Tz2: TimeZone>(&self, other: &DateTime<Tz2>) -> bool
        ensures { IsTrue result ↔ ((zoned self.now).utc ≡ (zoned other.now).utc) }
    {
        self.datetime == other.naive_utc()
    }

    /// Returns the order of the two instants, which may be in different zones.
    pub fn cmp_instant<Tz2: TimeZone>(&self, other: &DateTime<Tz2>) -> Ordering
        ensures { result ≡ compared (zoned self.now).utc (zoned other.now).utc }
    {
        self.datetime.cmp(&other.naive_utc())
    }
}
