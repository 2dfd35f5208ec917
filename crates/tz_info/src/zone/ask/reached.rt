//! The last local time that clocks have shown up to a second.

ghost use Rattle.std.specs.Prelude.{◌+◌, length};
ghost use Rattle.{
  naive_base.specs.{NaiveDateTime.{reading}, Range.{IsWide}},
  tz_info.specs.{ShownSeconds.{IsLastReached}, Zones.{TypeAt}},
  tz_search.specs.{Counts.{HasRoom, RoseWithin}, Digits.{digits}},
};

use crate::answers::shown_at;
use crate::zone::ask::segment_search::{begin_of, latest_end};
use crate::zone::time_zone::TimeZone;
use naive_base::NaiveDateTime;
use tz_search::Probes;

impl TimeZone {
    /// Returns the last local time that a clock of this zone has shown up to that UTC date-time, both in
    /// whole seconds. It is counted in seconds from 1970-01-01 00:00:00 on the clock.
    ///
    /// It is the local time at that second, unless clocks have been set back and haven't caught up yet. A
    /// later second never has an earlier answer. A local time is at or before this one if and only if the
    /// second that [`TimeZone::find_first_at_or_after`] finds for it is at or before that date-time.
    ///
    /// ```
    /// let second_pass = NaiveDate::from_ymd_opt(2021, 11, 7)?.and_hms_opt(6, 30, 0)?; // at 01:30 EST
    /// let reached = new_york.find_reached(second_pass); // 1636250399: 2021-11-07 01:59:59
    /// ```
    pub fn find_reached(&self, utc: NaiveDateTime) -> i64
        ensures { IsLastReached (TypeAt self.now) (reading utc).s result }
    {
        self.find_reached_counted(utc, &mut Probes::new())
    }

    /// As [`TimeZone::find_reached`], and counts the transition probes and the questions to the rule: at most
    /// two probes more than the number of transitions has binary digits, and two questions.
    ///
    /// Requires: [`Probes::has_room`].
    pub fn find_reached_counted(&self, utc: NaiveDateTime, probes: &mut Probes) -> i64
        requires { HasRoom probes.old }
        ensures reached { IsLastReached (TypeAt self.now) (reading utc).s result }
        ensures cost { RoseWithin probes.old probes.new
            (digits (length self.now.transitions) + 2) 2 }
    {
        self.reached_at(utc.secs_since_epoch(), probes)
    }

    // The same of a second: the last local time of the segment that it lies in, or of the segments before.
    #[tactic(auto, using(crate::proofs::Fits::fits, crate::proofs::Words::ints, crate::proofs::SegmentEndLaws::begun_by))]
    fn reached_at(&self, second: i64, probes: &mut Probes) -> i64
        requires second { IsWide second }
        requires room { HasRoom probes.old }
        ensures reached { IsLastReached (TypeAt self.now) second result }
        ensures cost { RoseWithin probes.old probes.new
            (digits (length self.now.transitions) + 2) 2 }
    {
        let _ = (self.extremes.least, self.extremes.greatest);
        let place = self.changes.count(second, probes);
        let (index, begin) = begin_of(&self.local_types, &self.changes, place, probes);
        let reached = match self.changes.rule_at(place, &self.last_rule) {
            Some(rule) => rule.reached_since(begin, second, probes),
            None => shown_at(second, &self.local_types[index]),
        };
        let end = latest_end(&self.local_types, &self.changes, &self.index, place, probes);
        if reached < end { end - 1 } else { reached }
    }
}
