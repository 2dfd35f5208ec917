//! The differences of two zones in a period.

ghost use Rattle.std.specs.Prelude.{◌≡◌, ◌-ℤ◌, ◌++◌, ◌∷◌, [], string_bytes, MatchResult, OnOk};
ghost use Rattle.zonedump_lib.specs.DifferenceForms.{difference_lines, difference_text, AreDifferencesIn};

use crate::clocks::Clock;
use crate::period::Period;
use crate::words::TypeWords;
use std::alloc::{AllocError, Global};
use std::fmt::Write;
use tz_info::{Difference, Error, LocalTimeType, TimeZone};

/// Returns the stretches of time in the period in which two zones have different types, in order.
///
/// # Errors
///
/// [`Error::OutOfMemory`] if there is no memory for them.
pub fn differences_in(
    alloc: Global,
    old_zone: &TimeZone,
    new_zone: &TimeZone,
    period: Period,
) -> Result<Vec<Difference>, Error>
    ensures { MatchResult result
        (λ ds. AreDifferencesIn old_zone.now new_zone.now period.first period.last ds.items)
        (λ e. e ≡ Error.OutOfMemory) }
{
    old_zone.differences(alloc, new_zone, period.from(), period.until())
}

/// Writes a line for each difference.
///
/// # Errors
///
/// There is no memory for it.
pub fn push_differences(out: &mut String, found: &[Difference]) -> Result<(), AllocError>
    ensures { OnOk result
        (string_bytes out.new ≡ string_bytes out.old ++ difference_lines found.now) }
{
    for one in found {
        push_difference(out, one)?;
    }
    Ok(())
}

fn push_difference(out: &mut String, one: &Difference) -> Result<(), AllocError>
    ensures { OnOk result
        (string_bytes out.new ≡ string_bytes out.old ++ (difference_text one.now ++ 10 ∷ [])) }
{
    let moved = seconds_ahead(&one.new, &one.old);
    writeln!(
        out,
        "{} to {} UTC  {} -> {}  moved by {moved} s",
        Clock(one.from as i128),
        Clock(one.until as i128),
        TypeWords(&one.old),
        TypeWords(&one.new)
    )
}

// By how many seconds clocks of the one type are ahead of those of the other.
pub(crate) fn seconds_ahead(one: &LocalTimeType, other: &LocalTimeType) -> i64
    ensures { result ≡ one.now.offset -ℤ other.now.offset }
{
    one.offset() as i64 - other.offset() as i64
}
