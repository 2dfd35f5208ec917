//! How long answers take.

use crate::answers::sum_of;
use crate::place::Timed;
use crate::question::Question;
use crate::values::Values;
use crate::work_error::WorkError;
use std::alloc::{AllocError, Global};
use std::io;
use std::time::{Clock, Instant};
use zoned_ref::KeptZone;
use zoned_time::DateTime;

/// How many values are asked about.
pub const COUNT: usize = 100_000;

// How many values are asked about between two looks at the clock, and how many times over.
const SLICE: usize = 1_000;

const PASSES: usize = 10;

// How often a million instants are sorted.
const SORTS: usize = 5;

/// The nanoseconds for the answers about all values: the least time of each slice, so that what
/// other processes took in one pass doesn't show. And the sum of the answers, so that no compiler
/// leaves them out.
pub fn least_nanoseconds<C: Clock>(
    clock: &C,
    alloc: Global,
    values: &Values<KeptZone>,
    question: Question,
) -> Result<(u128, i64), WorkError> {
    let (mut total, mut sum) = (0u128, 0i64);
    for slice in 0..COUNT / SLICE {
        let from = slice * SLICE;
        let (least, answers) = least_of_slice(clock, alloc, values, question, from)?;
        total = total.saturating_add(least);
        sum = sum.wrapping_add(answers);
    }
    Ok((total, sum))
}

// The least time of a slice, and the sum of its answers in all passes.
fn least_of_slice<C: Clock>(
    clock: &C,
    alloc: Global,
    values: &Values<KeptZone>,
    question: Question,
    from: usize,
) -> io::Result<(u128, i64)> {
    let end = from.saturating_add(SLICE);
    let (mut least, mut sum) = (u128::MAX, 0i64);
    for _ in 0..PASSES {
        let start = Instant::now(clock)?;
        sum = sum.wrapping_add(sum_of::<KeptZone, Timed>(alloc, values, question, from, end));
        least = least.min(start.elapsed(clock)?.as_nanos());
    }
    Ok((least, sum))
}

/// The nanoseconds to sort the instants, of the time that was least. And the first of them.
pub fn least_nanoseconds_to_sort<C: Clock>(
    clock: &C,
    alloc: Global,
    values: &Values<KeptZone>,
) -> Result<(u128, i64), WorkError> {
    let (mut least, mut first) = (u128::MAX, 0i64);
    for _ in 0..SORTS {
        let mut instants = copied(alloc, &values.instants)?;
        let start = Instant::now(clock)?;
        instants.sort_unstable();
        least = least.min(start.elapsed(clock)?.as_nanos());
        if let Some(instant) = instants.first() {
            first = instant.timestamp();
        }
    }
    Ok((least, first))
}

/// The instants in order.
pub fn sorted(
    alloc: Global,
    instants: &[DateTime<KeptZone>],
) -> Result<Vec<DateTime<KeptZone>>, AllocError> {
    let mut instants = copied(alloc, instants)?;
    instants.sort_unstable();
    Ok(instants)
}

fn copied(
    alloc: Global,
    instants: &[DateTime<KeptZone>],
) -> Result<Vec<DateTime<KeptZone>>, AllocError> {
    instants.iter().copied().collect(alloc)
}
