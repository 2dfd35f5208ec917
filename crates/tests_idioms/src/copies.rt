//! Instants of a kept zone copied.

use crate::copy_of;
use std::alloc::AllocError;
use zoned::{DateTime, Days, KeptZone};

pub fn twice(instant: &DateTime<KeptZone>) -> (DateTime<KeptZone>, DateTime<KeptZone>) {
    (copy_of(instant), copy_of(instant))
}

pub fn with(
    mut instants: Vec<DateTime<KeptZone>>,
    instant: &DateTime<KeptZone>,
) -> Result<Vec<DateTime<KeptZone>>, AllocError> {
    instants.push(copy_of(instant))?;
    Ok(instants)
}

/// Instants a day apart.
#[derive(Clone, Copy)]
pub struct Daily {
    pub next: DateTime<KeptZone>,
}

impl Daily {
    pub fn advance(&mut self) -> Option<DateTime<KeptZone>> {
        let instant = copy_of(&self.next);
        self.next = instant.checked_add_days(Days::new(1))?;
        Some(instant)
    }
}
