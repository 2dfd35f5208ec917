//! Weekdays, by their numbers.
ghost use Rattle.std.specs.{Int.{IsInRange}, Prelude.{◌≡◌, ◌<◌, ◌+◌, ◌/◌, ◌%◌, ◌+ℤ◌, pos, ℕ, ℤ}};
ghost use Rattle.gregorian.specs.{Weekdays.{weekday_of}, Year.{IsDay}};

// The days from a Sunday before all years of an `i32` to 1970-01-01.
pub(crate) const DAYS_FROM_SUNDAY: i64 = 784_353_144_341;

// Days from a Sunday.
pub(crate) fn days_since_sunday(day: i64) -> u64
    requires { IsDay day }
    ensures value { day +ℤ pos 784_353_144_341 ≡ pos result }
    ensures bound { IsInRange 1 1_999_999_999_999 result }
{
    (day + DAYS_FROM_SUNDAY) as u64
}

// 2^64 divided by 7, and rounded up. A multiple of it has the weeks above 64 bits, and the share of
// a week below.
const WEEK_SHARE: u128 = 2_635_249_153_387_078_803;

const TWO_TO_64: u128 = 18_446_744_073_709_551_616;

// The whole weeks of a number of days, and the days left over.
pub(crate) fn split_weeks(days: u64) -> (u64, u32)
    requires { days < 2_000_000_000_000 }
    ensures weeks { result.0 ≡ days / 7 }
    ensures rest { result.1 ≡ days % 7 }
{
    let product = days as u128 * WEEK_SHARE;
    (
        (product / TWO_TO_64) as u64,
        (product % TWO_TO_64 * 7 / TWO_TO_64) as u32,
    )
}

/// The weekday of a day, 0 for Sunday to 6 for Saturday. Requires: a day of the years of an `i32`.
pub fn weekday_of(day: i64) -> u32
    requires { IsDay day }
    ensures value { result ≡ weekday_of day }
    ensures bound { result < 7 }
{
    split_weeks(days_since_sunday(day)).1
}

/// Weekdays come in turn, from Thursday 1970-01-01 on and before.
pub fn weekdays_law()
    ensures first { weekday_of (pos 0) ≡ 4 }
    ensures later { (day : ℤ) (n : ℕ) → weekday_of (day +ℤ pos n) ≡ (weekday_of day + n) % 7 }
{}
