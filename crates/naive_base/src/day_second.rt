//! Seconds from 1970-01-01 00:00:00, by days.
ghost use Rattle.std.specs.Prelude.{◌≡◌, ◌<◌};
ghost use Rattle.{
  gregorian.specs.Year.{floor_div, floor_mod},
  naive_base.specs.Steps.Moves.{IsWithin},
};

// Days before every second that is asked about, so that all divisions are of unsigned numbers. A
// multiple of 2^32, which a cast to 32 bits leaves out with no work.
const DAYS_BEFORE: i64 = 2_001_454_759_936;

// The day that a second lies in, and the second of that day.
#[inline(always)]
pub(crate) fn day_and_second(second: i64) -> (i64, u32)
    requires { IsWithin 100_000_000_000_000_000 second }
    ensures day { result.0 ≡ floor_div second 86_400 }
    ensures second { result.1 ≡ floor_mod second 86_400 }
    ensures bound { result.1 < 86_400 }
{
    let since = (second + DAYS_BEFORE * 86_400) as u64;
    (
        (since / 86_400) as i64 - DAYS_BEFORE,
        (since % 86_400) as u32,
    )
}
