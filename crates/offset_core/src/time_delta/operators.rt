//! The operators of lengths of time. Each requires a result in range; the checked forms return
//! `None` for any other.
ghost use Rattle.std.specs.Prelude.{◌≡◌, ◌≢◌, ◌+ℤ◌, ◌-ℤ◌, ◌*ℤ◌, int_div, neg_ℤ, pos};
ghost use Rattle.offset_core.specs.{Nanoseconds.{FitsTimeDelta}, TimeDelta.{nanos_of}};

use crate::TimeDelta;
use std::ops::{Add, AddAssign, Div, Mul, Neg, Sub, SubAssign};

/// [`TimeDelta::checked_add`], which must return a sum.
///
/// ```
/// let both = TimeDelta::hours(1) + TimeDelta::minutes(30); // 90 minutes
/// let two_hours = TimeDelta::hours(1) * 3 - TimeDelta::hours(1); // 2 hours
/// let third = -TimeDelta::seconds(4) / 3; // -1_333_333_333 nanoseconds
/// ```
impl Add for TimeDelta {
    type Output = TimeDelta;

    ghost can_add = { λ a b. FitsTimeDelta (nanos_of a +ℤ nanos_of b) };

    ghost add_gives = { λ a b sum. nanos_of sum ≡ nanos_of a +ℤ nanos_of b };

    fn add(self, rhs: TimeDelta) -> TimeDelta {
        self.checked_add(&rhs).unwrap()
    }
}

/// [`TimeDelta::checked_sub`], which must return a difference.
impl Sub for TimeDelta {
    type Output = TimeDelta;

    ghost can_sub = { λ a b. FitsTimeDelta (nanos_of a -ℤ nanos_of b) };

    ghost sub_gives = { λ a b difference. nanos_of difference ≡ nanos_of a -ℤ nanos_of b };

    fn sub(self, rhs: TimeDelta) -> TimeDelta {
        self.checked_sub(&rhs).unwrap()
    }
}

impl AddAssign for TimeDelta {
    ghost can_add_assign = { λ a b. FitsTimeDelta (nanos_of a +ℤ nanos_of b) };

    ghost add_assign_gives = { λ a b sum. nanos_of sum ≡ nanos_of a +ℤ nanos_of b };

    fn add_assign(&mut self, rhs: TimeDelta) {
        *self = *self + rhs;
    }
}

impl SubAssign for TimeDelta {
    ghost can_sub_assign = { λ a b. FitsTimeDelta (nanos_of a -ℤ nanos_of b) };

    ghost sub_assign_gives = { λ a b difference. nanos_of difference ≡ nanos_of a -ℤ nanos_of b };

    fn sub_assign(&mut self, rhs: TimeDelta) {
        *self = *self - rhs;
    }
}

/// [`TimeDelta::checked_mul`], which must return a product.
impl Mul<i32> for TimeDelta {
    type Output = TimeDelta;

    ghost can_mul = { λ delta n. FitsTimeDelta (nanos_of delta *ℤ n) };

    ghost mul_gives = { λ delta n product. nanos_of product ≡ nanos_of delta *ℤ n };

    fn mul(self, rhs: i32) -> TimeDelta {
        self.checked_mul(rhs).unwrap()
    }
}

/// [`TimeDelta::checked_div`] by a number other than 0.
impl Div<i32> for TimeDelta {
    type Output = TimeDelta;

    ghost can_div = { λ _ n. n ≢ pos 0 };

    ghost div_gives = { λ delta n quotient. nanos_of quotient ≡ int_div (nanos_of delta) n };

    fn div(self, rhs: i32) -> TimeDelta {
        self.checked_div(rhs).unwrap()
    }
}

impl Neg for TimeDelta {
    type Output = TimeDelta;

    ghost neg_gives = { λ delta answer. nanos_of answer ≡ neg_ℤ (nanos_of delta) };

    fn neg(self) -> TimeDelta {
        if self.nanos == 0 {
            return TimeDelta {
                secs: -self.secs,
                nanos: 0,
            };
        }
        TimeDelta {
            secs: -self.secs - 1,
            nanos: 1_000_000_000 - self.nanos,
        }
    }
}

/// No time at all.
impl Default for TimeDelta {
    ghost is_default = { λ delta. nanos_of delta ≡ pos 0 };

    fn default() -> TimeDelta {
        TimeDelta::zero()
    }
}
