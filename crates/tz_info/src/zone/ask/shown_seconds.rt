//! When clocks show certain local times: the first and the last second of a day or of any other
//! stretch of local time, and the first second at or after a local time.

ghost use Rattle.std.specs.Prelude.{◌≡◌, ◌≤◌, ◌+◌, ◌*◌, ◌^◌, ◌<ℤ◌, ◌+ℤ◌, ◌-ℤ◌, ◌*ℤ◌, if◌then◌else◌, length, pos, MatchOption};
ghost use Rattle.{
  naive_base.specs.{NaiveDate.{day_of}, NaiveDateTime.{reading}, Range.{IsWide}},
  tz_info.specs.{Leaps.{IsNear}, Zones.{TypeAt}},
  tz_info.specs.ShownSeconds.{AreShownWithin, IsFirstAtOrAfter, IsNeverWithin},
  tz_info.specs.Steps.Runs.{AreWithin, HaveOneTypeFrom, IsEnd, IsEndOfRun, IsEndWithin, IsNextRun},
  tz_search.specs.{Counts.{HasRoom, RoseWithin}, Digits.{digits}, RisingCounts.{HasRoomFor}},
};

use crate::answers::second_showing;
use crate::change::{HeldSecond, TypedSecond};
use crate::zone::ask::runs::{end_by, first_of_run, last_of_run, start_by};
use crate::zone::ask::segment_search::{begin_of, first_of, first_reaching};
use crate::zone::time_zone::TimeZone;
use naive_base::{NaiveDate, NaiveDateTime, NaiveTime};
use tz_base::LocalTimeType;
use tz_search::Probes;

/// The first and the last second at which clocks show a local time of a certain stretch, such as a
/// day. If clocks are set back, some seconds between the two may show other local times.
#[derive(Clone, Copy, Debug, PartialEq, Eq)]
pub struct ShownSeconds {
    /// The first second.
    pub first: TypedSecond,
    /// The last second, which still shows a local time of the stretch.
    pub last: TypedSecond,
}

// The seconds from `low` to before `high`.
#[derive(Clone, Copy)]
struct Interval {
    low: i64,
    high: i64,
}

impl TimeZone {
    /// Returns the first and the last second at which a clock of this zone shows a local time from
    /// `from` to before `until`, both in whole seconds; `None` if no clock ever does.
    ///
    /// The search goes over the changes of the clocks that come in that stretch, or within the
    /// zone's offsets from it, and takes no memory.
    pub fn find_seconds_within(
        &self,
        from: NaiveDateTime,
        until: NaiveDateTime,
    ) -> Option<ShownSeconds>
        ensures { AreShownWithin (TypeAt self.now) (reading from).s (reading until).s result }
    {
        self.seconds_between(from.secs_since_epoch(), until.secs_since_epoch())
    }

    /// Returns the first and the last second at which a clock of this zone shows that date; `None`
    /// if clocks were set forward over the whole day.
    ///
    /// An ordinary day has 86,400 seconds. Two days may overlap: if clocks are set back over
    /// midnight, they show the old date again after they have shown the new one.
    ///
    /// ```
    /// let skipped = apia.find_seconds_of_day(NaiveDate::from_ymd_opt(2011, 12, 30)?); // None: skipped
    /// let day = apia.find_seconds_of_day(NaiveDate::from_ymd_opt(2011, 12, 31)?)?;
    /// let at = day.first.at; // 1325239200: 2011-12-30 10:00:00 UTC
    /// ```
    pub fn find_seconds_of_day(&self, date: NaiveDate) -> Option<ShownSeconds>
        ensures { AreShownWithin (TypeAt self.now)
            (pos 86_400 *ℤ day_of date) (pos 86_400 *ℤ day_of date +ℤ pos 86_400) result }
    {
        let midnight = date.and_time(NaiveTime::MIN).secs_since_epoch();
        self.seconds_between(midnight, midnight + 86_400)
    }

    /// Returns the first second at which a clock of this zone shows that local time, in whole
    /// seconds, or a later one.
    ///
    /// If the local time lies in a gap, it is the second at which the gap ends; in a fold, the
    /// first of its two seconds. A later local time never has an earlier answer. So the seconds of
    /// midnights divide time into days, each of which lasts until the next one begins.
    ///
    /// ```
    /// let local = NaiveDate::from_ymd_opt(2021, 3, 14)?.and_hms_opt(2, 30, 0)?; // in a gap
    /// let at = new_york.find_first_at_or_after(local).at; // 1615705200: 03:00 EDT
    /// ```
    pub fn find_first_at_or_after(&self, local: NaiveDateTime) -> TypedSecond
        ensures { IsFirstAtOrAfter (TypeAt self.now) (reading local).s
            result.at result.local_time_type }
    {
        self.held_first_at_or_after(local).copied()
    }

    /// As [`TimeZone::find_first_at_or_after`], with a reference to the zone's type.
    pub fn held_first_at_or_after(&self, local: NaiveDateTime) -> HeldSecond<'_>
        ensures { IsFirstAtOrAfter (TypeAt self.now) (reading local).s
            result.at result.local_time_type.now }
    {
        self.first_at_or_after(local.secs_since_epoch(), &mut Probes::new())
    }

    /// As [`TimeZone::find_first_at_or_after`], and counts the probes of the zone's transitions and the
    /// questions to the rule: at most twice as many probes as the number of transitions has binary digits,
    /// and two questions.
    ///
    /// Requires: [`Probes::has_room`].
    pub fn find_first_at_or_after_counted(
        &self,
        local: NaiveDateTime,
        probes: &mut Probes,
    ) -> TypedSecond
        requires { HasRoom probes.old }
        ensures found { IsFirstAtOrAfter (TypeAt self.now) (reading local).s
            result.at result.local_time_type }
        ensures cost { RoseWithin probes.old probes.new
            (2 * digits (length self.now.transitions)) 2 }
    {
        self.first_at_or_after(local.secs_since_epoch(), probes)
            .copied()
    }

    // The first second at which a clock shows that local time or a later one.
    pub(super) fn first_at_or_after(&self, local: i64, probes: &mut Probes) -> HeldSecond<'_>
        requires local { IsWide local }
        requires room { HasRoomFor (2 ^ 64) probes.old.reads }
        requires questions { HasRoomFor 2 probes.old.rule_questions }
        ensures found { IsFirstAtOrAfter (TypeAt self.now) local
            result.at result.local_time_type.now }
        ensures cost { RoseWithin probes.old probes.new
            (2 * digits (length self.now.transitions)) 2 }
        ensures few { probes.new.reads ≤ probes.old.reads + 2 ^ 64 }
    {
        let _ = (self.extremes.least, self.extremes.greatest);
        let place = first_reaching(&self.local_types, &self.changes, &self.index, local, probes);
        let Some(rule) = self.changes.rule_at(place, &self.last_rule) else {
            return first_of(&self.local_types, &self.changes, place, local, probes);
        };
        let (_, begin) = begin_of(&self.local_types, &self.changes, place, probes);
        rule.first_since(begin, local, probes)
    }

    fn seconds_between(&self, from: i64, until: i64) -> Option<ShownSeconds>
        requires from { IsEnd from }
        requires until { IsEnd until }
        ensures { AreShownWithin (TypeAt self.now) from until result }
    {
        let first = self.end_within(from, until, true)?;
        let last = self.end_within(from, until, false)?;
        Some(ShownSeconds {
            first: first.copied(),
            last: last.copied(),
        })
    }

    // The first second that shows a local time of the stretch, or the last one: goes from run to run
    // in that direction, until one has such a second.
    #[tactic(auto, using(crate::proofs::Words::ints))]
    fn end_within(&self, from: i64, until: i64, forward: bool) -> Option<HeldSecond<'_>>
        requires from { IsEnd from }
        requires until { IsEnd until }
        ensures { MatchOption result (IsNeverWithin (TypeAt self.now) from until)
            (λ s. IsEndWithin forward (TypeAt self.now) from until s.at s.local_time_type.now) }
    {
        let mut left = self.seconds_around(from, until);
        while left.low < left.high {
            let (run, local_type) = self.next_run(left, forward);
            let since = second_showing(from, local_type.offset());
            let before = second_showing(until, local_type.offset());
            if let Some(at) = run.end_between(since, before, forward) {
                return Some(HeldSecond {
                    at,
                    local_time_type: local_type,
                });
            }
            left = left.without(run, forward);
        }
        None
    }

    // The seconds at which clocks may show a local time of the stretch.
    fn seconds_around(&self, from: i64, until: i64) -> Interval
        requires from { IsEnd from }
        requires until { IsEnd until }
        ensures { AreWithin self.now from until result.low result.high }
    {
        Interval {
            low: second_showing(from, self.extremes.greatest),
            high: second_showing(until, self.extremes.least),
        }
    }

    // The first run of the interval, or the last one, and its type: the part that the interval has
    // of the span of its first second, or of its last one.
    #[tactic(auto, using(crate::proofs::Fits::fits, crate::proofs::Words::ints, crate::proofs::RunLaws::near_end))]
    fn next_run(&self, left: Interval, forward: bool) -> (Interval, &LocalTimeType)
        requires low { IsNear left.low }
        requires high { IsNear left.high }
        requires some { left.low <ℤ left.high }
        ensures run { IsNextRun forward left.low left.high result.0.low result.0.high }
        ensures one_type { HaveOneTypeFrom (TypeAt self.now)
            result.0.low result.0.high result.1.now }
    {
        let _ = &self.changes;
        let span = self.near_span_at(left.end(forward));
        let run = Interval {
            low: start_by(span.from, left.low),
            high: end_by(span.until, left.high),
        };
        (run, span.local_time_type)
    }
}

impl Interval {
    // Its first second, or its last one.
    fn end(self, forward: bool) -> i64
        requires { IsNear self.high }
        ensures { result ≡ (if forward then self.low else self.high -ℤ pos 1) }
    {
        if forward { self.low } else { self.high - 1 }
    }

    // The first of its seconds, or the last one, that is `from` or later and comes before `until`.
    fn end_between(self, from: i64, until: i64, forward: bool) -> Option<i64>
        ensures { IsEndOfRun forward self.low self.high from until result }
    {
        if forward {
            first_of_run(self.low, self.high, from, until)
        } else {
            last_of_run(self.low, self.high, from, until)
        }
    }

    // What its first run leaves of it, or its last one.
    fn without(self, run: Interval, forward: bool) -> Interval
        ensures low { result.low ≡ (if forward then run.high else self.low) }
        ensures high { result.high ≡ (if forward then self.high else run.low) }
    {
        if forward {
            Interval {
                low: run.high,
                high: self.high,
            }
        } else {
            Interval {
                low: self.low,
                high: run.low,
            }
        }
    }
}
