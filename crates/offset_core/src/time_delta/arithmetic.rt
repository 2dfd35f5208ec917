//! Lengths of time added, multiplied and divided.
ghost use Rattle.std.specs.Prelude.{◌≡◌, ◌≢◌, ◌↔◌, ◌<ℤ◌, ◌≤ℤ◌, ◌+ℤ◌, ◌-ℤ◌, ◌*ℤ◌, int_div, neg_ℤ, option_map, pos, unsigned_abs, IsTrue, SomeIff};
ghost use Rattle.offset_core.specs.{Nanoseconds.{nearest_length}, TimeDelta.{nanos_of, IsDeltaOf}};

use crate::TimeDelta;

impl TimeDelta {
    /// Returns whether the length is 0.
    pub fn is_zero(&self) -> bool
        ensures { IsTrue result ↔ (nanos_of self.now ≡ pos 0) }
    {
        self.secs == 0 && self.nanos == 0
    }

    /// Returns the length without its sign.
    ///
    /// `TimeDelta::seconds(-5).abs()` is five seconds.
    pub fn abs(&self) -> TimeDelta
        ensures { nanos_of result ≡ pos (unsigned_abs (nanos_of self.now)) }
    {
        if self.secs < 0 { -*self } else { *self }
    }

    /// Returns the sum of two lengths, or `None` if that is out of range.
    pub fn checked_add(&self, other: &TimeDelta) -> Option<TimeDelta>
        ensures { IsDeltaOf (nanos_of self.now +ℤ nanos_of other.now) result }
    {
        TimeDelta::carried(self.secs + other.secs, self.nanos + other.nanos)
    }

    /// Returns the difference of two lengths, or `None` if that is out of range.
    pub fn checked_sub(&self, other: &TimeDelta) -> Option<TimeDelta>
        ensures { IsDeltaOf (nanos_of self.now -ℤ nanos_of other.now) result }
    {
        let nanos = self.nanos + (1_000_000_000 - other.nanos);
        TimeDelta::carried(self.secs - other.secs - 1, nanos)
    }

    /// Returns the sum of two lengths, or the nearest length if that is out of range: the longest or
    /// the least.
    ///
    /// ```
    /// let day = TimeDelta::hours(9).saturating_add(TimeDelta::hours(15)); // 24 hours
    /// let is_longest = TimeDelta::MAX.saturating_add(day) == TimeDelta::MAX; // true
    /// ```
    pub fn saturating_add(self, other: TimeDelta) -> TimeDelta
        ensures { nanos_of result ≡ nearest_length (nanos_of self +ℤ nanos_of other) }
    {
        match self.checked_add(&other) {
            Some(sum) => sum,
            None => self.end(),
        }
    }

    /// Returns the difference of two lengths, or the nearest length if that is out of range: the
    /// longest or the least.
    ///
    /// ```
    /// let rest = TimeDelta::hours(24).saturating_sub(TimeDelta::hours(9)); // 15 hours
    /// ```
    pub fn saturating_sub(self, other: TimeDelta) -> TimeDelta
        ensures { nanos_of result ≡ nearest_length (nanos_of self -ℤ nanos_of other) }
    {
        match self.checked_sub(&other) {
            Some(difference) => difference,
            None => self.end(),
        }
    }

    // The least length for a negative one, the longest for any other.
    fn end(self) -> TimeDelta
        ensures less { nanos_of self <ℤ pos 0
            → nanos_of result ≡ neg_ℤ (pos 9_223_372_036_854_775_807_000_000) }
        ensures more { pos 0 ≤ℤ nanos_of self
            → nanos_of result ≡ pos 9_223_372_036_854_775_807_000_000 }
    {
        if self.secs < 0 {
            TimeDelta::MIN
        } else {
            TimeDelta::MAX
        }
    }

    /// Returns this length times a number, or `None` if that is out of range.
    ///
    /// ```
    /// let back = TimeDelta::minutes(90).checked_mul(-2)?; // -3 hours
    /// let none = TimeDelta::MAX.checked_mul(2); // None
    /// ```
    pub fn checked_mul(&self, rhs: i32) -> Option<TimeDelta>
        ensures { IsDeltaOf (nanos_of self.now *ℤ rhs) result }
    {
        TimeDelta::of_nanos(self.whole_nanoseconds().checked_mul(rhs as i128)?)
    }

    /// Returns this length divided by a number, in whole nanoseconds toward zero, or `None` for the
    /// number 0.
    ///
    /// ```
    /// let third = TimeDelta::seconds(-4).checked_div(3)?; // -1_333_333_333 nanoseconds
    /// let none = TimeDelta::seconds(-4).checked_div(0); // None
    /// ```
    pub fn checked_div(&self, rhs: i32) -> Option<TimeDelta>
        ensures { SomeIff (option_map nanos_of result) (rhs ≢ pos 0)
            (int_div (nanos_of self.now) rhs) }
    {
        if rhs == 0 {
            return None;
        }
        let quotient = self.whole_nanoseconds() / rhs as i128;
        Some(TimeDelta::of_nanos(quotient).unwrap())
    }
}
