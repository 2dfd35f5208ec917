//! The changes of a zone's clocks in a period.

ghost use Rattle.std.specs.Prelude.{◌≡◌, ◌+ℤ◌, pos, IfOk};
ghost use Rattle.{
  tz_info.specs.{Changes.{AreChanges}, Zones.{TypeAt}},
  zonedump_lib.specs.{Periods.{first_second, second_after}, Periods.{IsInYears}},
};

use crate::period::Period;
use std::alloc::{AllocError, Global};
use tz_info::{Change, TimeZone};

/// Returns the clock changes from the first second of the period to its last one, in order.
///
/// # Errors
///
/// There is no memory for them.
pub fn changes_in(alloc: Global, zone: &TimeZone, period: Period) -> Result<Vec<Change>, AllocError>
    ensures { IfOk result (λ v.
        AreChanges (TypeAt zone.now) (first_second period.first) (second_after period.last) v.items) }
{
    zone.changes(period.from(), period.until()).collect(alloc)
}

// The changes after the first second of the period, up to the first second after it.
pub(crate) fn changes_after(
    alloc: Global,
    zone: &TimeZone,
    period: Period,
) -> Result<Vec<Change>, AllocError>
    ensures { IfOk result (λ v. AreChanges (TypeAt zone.now)
        (first_second period.first +ℤ pos 1) (second_after period.last +ℤ pos 1) v.items) }
{
    let from = second_after(period.from());
    let until = second_after(period.until());
    zone.changes(from, until).collect(alloc)
}

fn second_after(second: i64) -> i64
    requires { IsInYears second }
    ensures { result ≡ second +ℤ pos 1 }
{
    second + 1
}
