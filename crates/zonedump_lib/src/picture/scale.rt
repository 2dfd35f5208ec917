//! Where seconds and offsets lie in the chart, in tenths of a pixel.

use crate::period::Period;
use tz_base::{Change, LocalTimeType};

// The chart's box: its sides, in tenths of a pixel.
pub(super) const LEFT: u64 = 900;

pub(super) const RIGHT: u64 = 8_700;

pub(super) const TOP: u64 = 860;

pub(super) const BOTTOM: u64 = 2_260;

// The steps between the offsets that are written, in seconds.
const STEPS: [i64; 9] = [
    900,
    1_800,
    3_600,
    7_200,
    10_800,
    21_600,
    43_200,
    86_400,
    864_000_000,
];

/// What the chart shows: from one second until another, and from one offset to another.
#[derive(Clone, Copy)]
pub(super) struct Scale {
    pub(super) from: i64,
    pub(super) until: i64,
    pub(super) low: i64,
    pub(super) high: i64,
    /// How far apart offsets are written, from `low` on.
    pub(super) step: i64,
}

impl Scale {
    /// Returns the scale of the chart of those changes in the period. One offset has its own tick, and
    /// two have theirs; of more the ticks are round, one at or below the least and one at or above
    /// the greatest.
    pub(super) fn of(period: Period, start: &LocalTimeType, changes: &[Change]) -> Scale {
        let first = start.offset();
        let low = changes
            .iter()
            .fold(first, |least, change| least.min(change.after.offset()));
        let high = changes
            .iter()
            .fold(first, |most, change| most.max(change.after.offset()));
        let others = changes
            .iter()
            .filter(|change| low < change.after.offset() && change.after.offset() < high)
            .count();
        let few = others == 0 && (first == low || first == high);
        let (low, high) = (low as i64, high as i64);
        let step = if few {
            high.saturating_sub(low).max(1)
        } else {
            step_for(low, high)
        };
        Scale {
            from: period.from(),
            until: period.until(),
            low: round_down(low, if few { 1 } else { step }),
            high: round_up(high, if few { 1 } else { step }),
            step,
        }
    }

    /// Whether the chart has that second.
    pub(super) fn has(self, at: i64) -> bool {
        self.from <= at && at < self.until
    }

    /// Returns how far to the right a second lies.
    pub(super) fn across(self, at: i64) -> u64 {
        across_between(self.from, self.until, at)
    }

    /// Returns how far down an offset lies. The only offset lies in the middle.
    pub(super) fn down(self, offset: i64) -> u64 {
        if self.low == self.high {
            return (TOP + BOTTOM) / 2;
        }
        let below = part(
            self.high.abs_diff(offset),
            self.high.abs_diff(self.low),
            BOTTOM - TOP,
        );
        below.saturating_add(TOP)
    }

    /// Returns how far down the offset of a type lies.
    pub(super) fn down_to(self, shown: &LocalTimeType) -> u64 {
        self.down(shown.offset() as i64)
    }
}

/// Returns how far to the right a second lies in a chart of that period.
pub(super) fn across(period: Period, at: i64) -> u64 {
    across_between(period.from(), period.until(), at)
}

fn across_between(from: i64, until: i64, at: i64) -> u64 {
    let passed = part(at.abs_diff(from), until.abs_diff(from), RIGHT - LEFT);
    passed.saturating_add(LEFT)
}

// The part `some` of `all`, of a length; at most the length.
fn part(some: u64, all: u64, length: u64) -> u64 {
    let share = (some as u128).saturating_mul(length as u128) / (all as u128).max(1);
    share.min(length as u128) as u64
}

// The least step of which at most six lie between two offsets.
fn step_for(low: i64, high: i64) -> i64 {
    let width = high.saturating_sub(low);
    let found = STEPS.iter().find(|step| width <= step.saturating_mul(6));
    found.copied().unwrap_or(864_000_000)
}

fn round_down(offset: i64, step: i64) -> i64 {
    let step = step.max(1);
    offset.saturating_sub(offset.rem_euclid(step))
}

fn round_up(offset: i64, step: i64) -> i64 {
    let step = step.max(1);
    let over = offset.rem_euclid(step);
    if over == 0 {
        offset
    } else {
        offset.saturating_sub(over).saturating_add(step)
    }
}
