//! Maps and sets of instants of a kept zone.

use std::alloc::{AllocError, Global};
use std::collections::{BTreeMap, BTreeSet, HashMap};
use zoned::{DateTime, KeptZone, NaiveDate};

pub fn numbered(
    alloc: Global,
    instants: Vec<DateTime<KeptZone>>,
) -> Result<BTreeMap<DateTime<KeptZone>, u32>, AllocError> {
    let mut numbered = BTreeMap::new(alloc);
    let mut number = 0u32;
    for instant in instants {
        numbered.insert(instant, number)?;
        number = number.saturating_add(1);
    }
    Ok(numbered)
}

pub fn number_of(
    numbered: &BTreeMap<DateTime<KeptZone>, u32>,
    instant: &DateTime<KeptZone>,
) -> Option<u32> {
    numbered.get(instant).copied()
}

pub fn set_of(
    alloc: Global,
    instants: Vec<DateTime<KeptZone>>,
) -> Result<BTreeSet<DateTime<KeptZone>>, AllocError> {
    let mut set = BTreeSet::new(alloc);
    for instant in instants {
        set.insert(instant)?;
    }
    Ok(set)
}

pub fn is_in(set: &BTreeSet<DateTime<KeptZone>>, instant: &DateTime<KeptZone>) -> bool {
    set.contains(instant)
}

pub fn hashed(
    alloc: Global,
    instants: Vec<DateTime<KeptZone>>,
) -> Result<HashMap<DateTime<KeptZone>, u32>, AllocError> {
    let mut hashed = HashMap::new(alloc);
    for instant in instants {
        hashed.insert(instant, 1)?;
    }
    Ok(hashed)
}

/// How many there are on each day that the clocks show.
pub fn daily_counts(
    alloc: Global,
    instants: &[DateTime<KeptZone>],
) -> Result<BTreeMap<NaiveDate, u32>, AllocError> {
    let mut counts = BTreeMap::new(alloc);
    for instant in instants {
        let day = instant.date_naive();
        let count: u32 = counts.get(&day).copied().unwrap_or(0);
        counts.insert(day, count.saturating_add(1))?;
    }
    Ok(counts)
}
