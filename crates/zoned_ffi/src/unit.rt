//! Units in which instants are counted.

ghost use Rattle.std.specs.Prelude.{◌≡◌, ◌≤ℤ◌, ◌*ℤ◌, neg_ℤ, pos, MatchOption};
ghost use Rattle.{
  gregorian.specs.Year.{floor_div},
  zoned_ffi.specs.Units.{per_second, IsUnit},
};

/// The least time that can be counted.
pub const LEAST: i128 = -9_223_372_036_854_775_807;

/// The greatest.
pub const GREATEST: i128 = 9_223_372_036_854_775_807;

/// What instants are counted in.
#[derive(Clone, Copy)]
pub enum Unit {
    /// One in a second.
    Seconds,
    /// 1,000 in a second.
    Milliseconds,
    /// 1,000,000 in a second.
    Microseconds,
    /// 1,000,000,000 in a second.
    Nanoseconds,
}

impl Unit {
    /// The unit of which `count` make a second.
    pub fn of_count(count: i64) -> Option<Unit>
        ensures { MatchOption result (¬ (IsUnit count)) (λ unit. count ≡ pos (per_second unit)) }
    {
        match count {
            1 => Some(Unit::Seconds),
            1_000 => Some(Unit::Milliseconds),
            1_000_000 => Some(Unit::Microseconds),
            1_000_000_000 => Some(Unit::Nanoseconds),
            _ => None,
        }
    }

    /// The second that an instant counted in this unit lies in.
    #[inline(always)]
    pub fn second_of(self, instant: i64) -> i64
        ensures { result ≡ floor_div instant (per_second self) }
    {
        match self {
            Unit::Seconds => instant,
            Unit::Milliseconds => instant.div_euclid(1_000),
            Unit::Microseconds => instant.div_euclid(1_000_000),
            Unit::Nanoseconds => instant.div_euclid(1_000_000_000),
        }
    }

    /// How many of the unit an offset has.
    #[inline(always)]
    pub fn counts_of(self, offset: i32) -> i64
        ensures value { result ≡ offset *ℤ pos (per_second self) }
        ensures bound { (neg_ℤ (pos 4_611_686_018_427_387_904) ≤ℤ result)
            × (result ≤ℤ pos 4_611_686_018_427_387_904) }
    {
        match self {
            Unit::Seconds => offset as i64,
            Unit::Milliseconds => offset as i64 * 1_000,
            Unit::Microseconds => offset as i64 * 1_000_000,
            Unit::Nanoseconds => offset as i64 * 1_000_000_000,
        }
    }

    /// The second, counted in the unit.
    pub fn counts_at(self, second: i64) -> i128
        ensures value { result ≡ second *ℤ pos (per_second self) }
        ensures bound { (neg_ℤ (pos 10_000_000_000_000_000_000_000_000_000) ≤ℤ result)
            × (result ≤ℤ pos 10_000_000_000_000_000_000_000_000_000) }
    {
        match self {
            Unit::Seconds => second as i128,
            Unit::Milliseconds => second as i128 * 1_000,
            Unit::Microseconds => second as i128 * 1_000_000,
            Unit::Nanoseconds => second as i128 * 1_000_000_000,
        }
    }

    /// The part of the axis that a time counted in this unit lies in: each is 24 to 26 days long.
    #[inline(always)]
    pub fn part_of(self, time: i64) -> i64 {
        time.wrapping_shr(self.part_bits())
    }

    // The counts of a part are 2 to that power.
    fn part_bits(self) -> u32 {
        match self {
            Unit::Seconds => 21,
            Unit::Milliseconds => 31,
            Unit::Microseconds => 41,
            Unit::Nanoseconds => 51,
        }
    }
}
