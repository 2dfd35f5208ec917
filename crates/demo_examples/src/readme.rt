//! The examples of README.md: its first lines, and those on changes of the clocks.

use crate::MyError;
use std::alloc::Global;
use zoned::{
    Choice, DateTime, FixedOffset, FoldChoice, GapChoice, KeptZone, LocalResult, NaiveDate,
    TimeDelta, TimeZone, Utc,
};

/// What those lines make, to keep.
#[derive(Clone, Copy, Debug, PartialEq, Eq)]
pub struct FirstLines {
    /// The Unix times of each of the two.
    pub gap: LocalResult<i64>,
    pub fold: LocalResult<i64>,
    pub instant: DateTime<FixedOffset>,
}

/// 02:30 on the day on which New York's clocks skipped it; `bytes` are those of its TZif file.
pub fn half_past_two(alloc: Global, bytes: &[u8]) -> Result<FirstLines, MyError> {
    let new_york = KeptZone::open(alloc, bytes)?;
    let gap = new_york.with_ymd_and_hms(2021, 3, 14, 2, 30, 0);
    let fold = new_york.with_ymd_and_hms(2021, 11, 7, 1, 30, 0);
    let day = NaiveDate::from_ymd_opt(2021, 3, 14).ok_or(MyError::NoSuchTime)?;
    let local = day.and_hms_opt(2, 30, 0).ok_or(MyError::NoSuchTime)?;
    let choice = Choice {
        gap: GapChoice::ShiftForward,
        fold: FoldChoice::Earliest,
    };
    let instant = new_york.resolve(&local, choice)?;
    Ok(FirstLines {
        gap: gap.map(|instant| instant.timestamp()),
        fold: fold.map(|instant| instant.timestamp()),
        instant: instant.fixed_offset(),
    })
}

/// What the lines on changes of the clocks make, to keep.
#[derive(Clone, Copy, Debug, PartialEq, Eq)]
pub struct ChangeLines {
    pub before: DateTime<FixedOffset>,
    pub at: DateTime<FixedOffset>,
    /// How long the clocks keep their offset.
    pub length: TimeDelta,
    /// The Unix times of the change after that one, and of the last one up to it.
    pub next: Option<i64>,
    pub previous: Option<i64>,
}

/// When New York's clocks change in 2021; `bytes` are those of its TZif file.
pub fn clocks_change(alloc: Global, bytes: &[u8]) -> Result<Option<ChangeLines>, MyError> {
    let new_york = KeptZone::open(alloc, bytes)?;
    let new_year = Utc.timestamp(1_609_459_200, 0);
    let Some(change) = new_york.next_change(&new_year) else {
        return Ok(None);
    };
    let length = change.at.signed_duration_since(&new_year);
    let next = new_york.next_change(&change.at);
    let previous = new_york.previous_change(&change.at);
    Ok(Some(ChangeLines {
        before: change.before.fixed_offset(),
        at: change.at.fixed_offset(),
        length,
        next: next.map(|change| change.at.timestamp()),
        previous: previous.map(|change| change.at.timestamp()),
    }))
}
