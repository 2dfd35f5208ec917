//! Instants of a kept zone sorted, and found in lists.

use std::alloc::AllocError;
use zoned::{DateTime, KeptZone};

pub fn sorted(
    mut instants: Vec<DateTime<KeptZone>>,
) -> Result<Vec<DateTime<KeptZone>>, AllocError> {
    instants.sort()?;
    Ok(instants)
}

pub fn latest_first(
    mut instants: Vec<DateTime<KeptZone>>,
) -> Result<Vec<DateTime<KeptZone>>, AllocError> {
    instants.sort_by(|one, other| other.cmp(one))?;
    Ok(instants)
}

pub fn by_clock(
    mut instants: Vec<DateTime<KeptZone>>,
) -> Result<Vec<DateTime<KeptZone>>, AllocError> {
    instants.sort_by_key(|instant| instant.naive_local())?;
    Ok(instants)
}

pub fn sort_in_place(instants: &mut [DateTime<KeptZone>]) {
    instants.sort_unstable();
}

pub fn without_repeats(mut instants: Vec<DateTime<KeptZone>>) -> Vec<DateTime<KeptZone>> {
    instants.dedup();
    instants
}

pub fn place_of(instants: &[DateTime<KeptZone>], instant: &DateTime<KeptZone>) -> Option<usize> {
    instants.binary_search(instant).ok()
}

pub fn contains(instants: &[DateTime<KeptZone>], instant: &DateTime<KeptZone>) -> bool {
    instants.contains(instant)
}

pub fn earliest(instants: &[DateTime<KeptZone>]) -> Option<DateTime<KeptZone>> {
    instants.iter().min().copied()
}

pub fn latest(instants: &[DateTime<KeptZone>]) -> Option<DateTime<KeptZone>> {
    instants.iter().copied().max()
}

pub fn earliest_in_day(instants: &[DateTime<KeptZone>]) -> Option<DateTime<KeptZone>> {
    instants
        .iter()
        .copied()
        .min_by_key(|instant| instant.time())
}
