//! The walk: a wall clock by one search in the transitions, and from there on from segment to
//! segment.

ghost use Rattle.std.specs.{Prelude.{◌≡◌, ◌↔◌, ◌<◌, ◌≤◌, ◌+◌, length, IsTrue}, Result.{IsOkAnd}};
ghost use Rattle.{
  naive_base.specs.{NaiveDateTime.{reading}, Range.{IsWide}},
  offset_core.specs.{LocalResult.{map_of}, WallAnswer.{IsWallAnswer}},
  tz_info.specs.Steps.{Segments.{begin_of, index_of}, Walk.{IsCandidate, IsShownIn, IsTimeWithin, IsTried}},
  tz_info.specs.{Looks.{RoseByWalk}, WallClocks.{Shows}, Zones.{TypeAt}, Questions.{IsAskedFor}},
  tz_search.specs.{Counts.{HasRoom, RoseWithin}, RisingCounts.{HasRoomFor}},
};

use crate::answers::{joined, second_showing, types_copied};
use crate::zone::TimeZone;
use naive_base::NaiveDateTime;
use offset_core::MappedLocalTime;
use tz_base::{Error, LocalTimeType, Transition};
use tz_search::Probes;

impl TimeZone {
    /// As [`TimeZone::find_local_time_type_from_local_counted`], but with transition probes instead of
    /// piece probes: at most two more than the number of transitions has binary digits, plus one for
    /// each transition near the local time. Near it are those at leap times after that of the
    /// local time less the zone's greatest offset, and not after that of the local time less its
    /// least.
    ///
    /// The zone keeps the times of its first and its last transition: a comparison with one of them
    /// that does not decide is not counted.
    ///
    /// Requires: [`Probes::has_room`].
    ///
    /// # Errors
    ///
    /// None: the `Result` is that of chrono's signature, and is always `Ok`.
    pub fn find_local_time_type_from_local_by_walk(
        &self,
        local: NaiveDateTime,
        probes: &mut Probes,
    ) -> Result<MappedLocalTime<LocalTimeType>, Error>
        requires { HasRoom probes.old }
        ensures found { IsOkAnd result (IsWallAnswer (Shows (TypeAt self.now) (reading local).s)) }
        ensures cost { RoseByWalk self.now (reading local).s probes.old probes.new }
        ensures questions { IsAskedFor self.now (reading local).s
            probes.old.rule_questions probes.new.rule_questions }
    {
        Ok(types_copied(self.walked_answer(local.secs_since_epoch(), probes)))
    }

    // One search for the transitions near the local time, and a walk through those, segment by
    // segment, in the order of the seconds. They come after the leap time `low`, and not after `high`.
    fn walked_answer(&self, local: i64, probes: &mut Probes) -> MappedLocalTime<&LocalTimeType>
        requires local { IsWide local }
        requires room { HasRoom probes.old }
        ensures found { IsWallAnswer (Shows (TypeAt self.now) local)
            (map_of (λ r. r.now) result) }
        ensures cost { RoseByWalk self.now local probes.old probes.new }
        ensures counted { IsAskedFor self.now local
            probes.old.rule_questions probes.new.rule_questions }
    {
        let count = self.transition_count();
        let low = self.leap_time_near(second_showing(local, self.extremes.greatest));
        let high = self.leap_time_near(second_showing(local, self.extremes.least));
        let first = self.passed_count(low, probes);
        let mut current = self.latest(first, probes);
        let mut answer = MappedLocalTime::None;
        for place in first..count {
            let next = self.transition(place, probes);
            answer = self.try_until(local, current, Some(next.unix_leap_time), answer);
            if high < next.unix_leap_time {
                return answer;
            }
            current = next;
        }
        self.try_last(local, current, answer, probes)
    }

    // The last of the first n transitions; before all of them the first type is in force,
    // from the least time on.
    #[tactic(auto, using(crate::proofs::SegmentLaws::begin_next, crate::proofs::SegmentLaws::index_next))]
    pub(in crate::zone) fn latest(&self, passed: usize, probes: &mut Probes) -> Transition
        requires passed { passed ≤ length self.now.transitions }
        requires room { HasRoomFor 1 probes.old.reads }
        ensures begin { result.unix_leap_time ≡ begin_of self.now.transitions passed }
        ensures index { result.type_index ≡ index_of self.now.transitions passed }
        ensures listed { result.type_index < length self.now.types }
        ensures cost { RoseWithin probes.old probes.new 1 0 }
    {
        if passed == 0 {
            let _ = &self.changes;
            return Transition::new(i64::MIN, 0);
        }
        self.transition(passed - 1, probes)
    }

    // Tries the type in force from the transition on, and before that leap time, if there is one.
    fn try_until<'a>(
        &'a self,
        local: i64,
        current: Transition,
        until: Option<i64>,
        answer: MappedLocalTime<&'a LocalTimeType>,
    ) -> MappedLocalTime<&'a LocalTimeType>
        requires local { IsWide local }
        requires listed { current.type_index < length self.now.types }
        ensures { IsTried self.now local current.type_index current.unix_leap_time until
            (map_of (λ r. r.now) answer.entry) (map_of (λ r. r.now) result) }
    {
        let (local_type, time) = self.candidate(local, current.type_index);
        if is_within(current.unix_leap_time, until, time) {
            joined(answer, MappedLocalTime::Single(local_type))
        } else {
            answer
        }
    }

    // The type of that index, and the leap time of the one second that could show the local time
    // by it.
    fn candidate(&self, local: i64, index: usize) -> (&LocalTimeType, i64)
        requires local { IsWide local }
        requires listed { index < length self.now.types }
        ensures { IsCandidate self.now local index result.0.now result.1 }
    {
        let local_type = self.listed(index);
        let second = second_showing(local, local_type.offset());
        (local_type, self.leap_time_near(second))
    }

    // Tries what is in force from the last transition on: the rule, or without one that
    // transition's type.
    #[tactic(auto, using(crate::proofs::QuestionLaws::asked_none))]
    fn try_last<'a>(
        &'a self,
        local: i64,
        current: Transition,
        answer: MappedLocalTime<&'a LocalTimeType>,
        probes: &mut Probes,
    ) -> MappedLocalTime<&'a LocalTimeType>
        requires local { IsWide local }
        requires room { HasRoomFor 2 probes.old.rule_questions }
        requires begin { current.unix_leap_time
            ≡ begin_of self.now.transitions (length self.now.transitions) }
        requires index { current.type_index
            ≡ index_of self.now.transitions (length self.now.transitions) }
        requires listed { current.type_index < length self.now.types }
        requires seen { IsWallAnswer
            (IsShownIn self.now local (length self.now.transitions))
            (map_of (λ r. r.now) answer) }
        ensures found { IsWallAnswer (IsShownIn self.now local
            (length self.now.transitions + 1)) (map_of (λ r. r.now) result) }
        ensures cost { RoseWithin probes.old probes.new 0 2 }
        ensures counted { IsAskedFor self.now local
            probes.old.rule_questions probes.new.rule_questions }
    {
        match &self.last_rule {
            None => self.try_until(local, current, None, answer),
            Some(rule) => self.try_rule(rule, local, answer, probes).1,
        }
    }
}

fn is_within(since: i64, until: Option<i64>, time: i64) -> bool
    ensures { IsTrue result ↔ IsTimeWithin since until time }
{
    let is_before = match until {
        Some(end) => time < end,
        None => true,
    };
    since <= time && is_before
}
