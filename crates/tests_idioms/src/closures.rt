//! What is asked of each instant of a kept zone by way of another instant, or of the zone.

use std::alloc::{AllocError, Global};
use zoned::{DateTime, KeptZone, Timelike};

pub fn any_after(instants: &[DateTime<KeptZone>], than: &DateTime<KeptZone>) -> bool {
    instants.iter().any(|instant| instant > than)
}

pub fn all_within(
    instants: &[DateTime<KeptZone>],
    start: &DateTime<KeptZone>,
    end: &DateTime<KeptZone>,
) -> bool {
    instants
        .iter()
        .all(|instant| start <= instant && instant < end)
}

pub fn hours(alloc: Global, instants: &[DateTime<KeptZone>]) -> Result<Vec<u32>, AllocError> {
    instants.iter().map(|instant| instant.hour()).collect(alloc)
}
