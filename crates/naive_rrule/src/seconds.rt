//! Seconds of local time: which of two comes first.
ghost use Rattle.std.specs.Prelude.{◌≡◌, ◌↔◌, ◌<◌, ◌≤◌, ℤ, pos, neg_ℤ, ◌+ℤ◌, ◌-ℤ◌, ◌*ℤ◌, ◌<ℤ◌, ◌≤ℤ◌, IsTrue, MatchOption};
ghost use Rattle.naive_base.specs.Range.{IsWide};

use naive_plans::days::{SECONDS_PER_DAY, second_at};

// The first second of a day.
pub(crate) fn seconds_of(day: i64) -> i64
    requires { (neg_ℤ (pos 10_000_000_000_000) ≤ℤ day) × (day ≤ℤ pos 10_000_000_000_000) }
    ensures { result ≡ day *ℤ pos 86_400 }
{
    day * SECONDS_PER_DAY
}

// Whether a day starts before a second.
pub(crate) fn starts_before(day: i64, end: i64) -> bool
    requires { (neg_ℤ (pos 10_000_000) ≤ℤ day) × (day ≤ℤ pos 10_000_000) }
    ensures { IsTrue result ↔ ((day *ℤ pos 86_400) <ℤ end) }
{
    seconds_of(day) < end
}

// Whether a day ends after a second.
pub(crate) fn ends_after(day: i64, second: i64) -> bool
    requires { (neg_ℤ (pos 10_000_000) ≤ℤ day) × (day ≤ℤ pos 10_000_000) }
    ensures { IsTrue result ↔ (second <ℤ (day *ℤ pos 86_400 +ℤ pos 86_400)) }
{
    second < second_at(day, 86_400)
}

pub(crate) fn is_same(number: i64, other: i64) -> bool
    ensures { IsTrue result ↔ (number ≡ other) }
{
    number == other
}

// Whether a second isn't before another one.
pub(crate) fn is_from(second: i64, start: i64) -> bool
    ensures { IsTrue result ↔ (start ≤ℤ second) }
{
    second >= start
}

pub(crate) fn second_after(second: i64) -> i64
    requires { (neg_ℤ (pos 10_000_000_000_000) ≤ℤ second) × (second ≤ℤ pos 10_000_000_000_000) }
    ensures { result ≡ second +ℤ pos 1 }
{
    second + 1
}

pub(crate) fn second_before(second: i64) -> i64
    requires { (neg_ℤ (pos 10_000_000_000_000) ≤ℤ second) × (second ≤ℤ pos 10_000_000_000_000) }
    ensures { result ≡ second -ℤ pos 1 }
{
    second - 1
}

// The second after one, or the start if that is later.
pub(crate) fn later_or_start(after: i64, start: i64) -> i64
    requires after { IsWide after }
    requires start { IsWide start }
    ensures later { after <ℤ result }
    ensures from_start { start ≤ℤ result }
    ensures least { (m : ℤ) → after <ℤ m → start ≤ℤ m → result ≤ℤ m }
{
    if after < start {
        return start;
    }
    after + 1
}

// A second, if it comes before another one.
pub(crate) fn before_end(second: i64, end: i64) -> Option<i64>
    ensures { MatchOption result (end ≤ℤ second) (λ l. (l ≡ second) × (l <ℤ end)) }
{
    if second < end { Some(second) } else { None }
}
