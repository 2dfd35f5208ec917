//! All changes of a stretch of time, from both ends.

ghost use Rattle.std.specs.{Iterator.{item_count, YieldsFirst, YieldsLast}, Prelude.{◌↔◌, ◌<ℤ◌, ◌≤ℤ◌, ℤ}};
ghost use Rattle.{
  tz_info.specs.{Changes.{AreChanges, IsNearest}, Zones.{IsRuleOrNone, IsValid, TypeAt}, ChangesLeft.{changes_left}},
  tz_info.specs.{Leaps.{least_time}, Steps.Changes.{IsInStretch}},
};

use crate::change::if_within;
use crate::zone::time_zone::TimeZone;
use std::iter::{DoubleEndedIterator, FusedIterator};
use tz_base::Change;

/// The changes of the clocks in a stretch of time, from both ends. From [`TimeZone::changes`].
#[derive(Clone, Drop)]
pub struct Changes<'a> {
    zone: &'a TimeZone,
    // Those that come after the second `after`, and up to the second `last`, are left.
    after: i64,
    last: i64,
    // How many entries of the zone's table have come by then, if that is known.
    near_after: usize,
    near_last: usize,
}

impl TimeZone {
    /// Returns the changes of the clocks from the second `from` on, and before the second `until`: each
    /// of them once, in the order of time, and from the back in the other order.
    ///
    /// The iterator is empty unless `from` comes before `until`. A change at `i64::MAX` comes before
    /// no second of 64 bits, so it is in no such list: ask [`TimeZone::previous_change`] for it. It
    /// takes no memory, and keeps its place: a step searches nothing but the years of a rule.
    ///
    /// ```
    /// let zone = TimeZone::from_posix_tz(alloc, "EST5EDT,M3.2.0,M11.1.0")?;
    /// let mut changes = zone.changes(1_609_459_200, 1_640_995_200);    // of the year 2021 in UTC
    /// let first = changes.next()?.at;                                  // 1615705200, in March
    /// let last = changes.next_back()?.at;                              // 1636264800, in November
    /// let more = changes.next();                                       // None
    /// ```
    pub fn changes(&self, from: i64, until: i64) -> Changes<'_>
        ensures { AreChanges (TypeAt self.now) from until (changes_left result) }
    {
        let _ = &self.changes;
        Changes {
            zone: self,
            after: second_before(from),
            last: second_before(until),
            near_after: usize::MAX,
            near_last: usize::MAX,
        }
    }
}

// The second before it; before the first one of 64 bits, after which changes begin, that one.
pub(in crate::zone) fn second_before(second: i64) -> i64
    ensures { (u : ℤ) → least_time <ℤ u → (result <ℤ u) ↔ (second ≤ℤ u) }
{
    if second == i64::MIN {
        second
    } else {
        second - 1
    }
}

impl Changes<'_> {
    // The change that is left and comes first in that direction.
    #[inline(always)]
    fn nearest(&self, forward: bool, near: &mut usize) -> Option<Change>
        ensures found { IsNearest forward (TypeAt self.now.zone.now)
            (IsInStretch self.now.after self.now.last) result }
        ensures valid { IsValid self.now.zone.now }
        ensures rule { IsRuleOrNone self.now.zone.now.rule }
    {
        self.zone.valid_law();
        if forward {
            let found = self.zone.next_change_near(self.after, near);
            if_within(found, self.after, self.last)
        } else {
            let found = self.zone.previous_change_near(self.last, near);
            if_within(found, self.after, self.last)
        }
    }
}

impl<'a> Iterator for Changes<'a> {
    type Item = Change;

    ghost next_gives = { YieldsFirst changes_left };

    ghost remaining = { item_count changes_left };

    #[tactic(auto, using(crate::proofs::ChangeLaws::steps_first, crate::proofs::Fits::fits, crate::proofs::ChangeLaws::steps_none))]
    fn next(&mut self) -> Option<Change> {
        let mut near = self.near_after;
        let change = self.nearest(true, &mut near)?;
        self.after = change.at;
        self.near_after = near.wrapping_add(1);
        Some(change)
    }
}

impl<'a> DoubleEndedIterator for Changes<'a> {
    ghost next_back_gives = { YieldsLast changes_left };

    fn next_back(&mut self) -> Option<Change> {
        let mut near = self.near_last;
        let change = self.nearest(false, &mut near)?;
        self.last = change.at - 1;
        self.near_last = near.wrapping_sub(1);
        Some(change)
    }
}

impl<'a> FusedIterator for Changes<'a> {}
