//! The type in force at an instant, and the reads that several lookups share.

ghost use Rattle.std.specs.Prelude.{◌≡◌, ◌↔◌, ◌<◌, ◌≤◌, ◌+◌, ◌^◌, length, slice_index_or, take, IfOk, IfSome, IsTrue, MatchOption, MatchResult};
ghost use Rattle.{
  naive_base.specs.Range.{IsWide},
  offset_core.specs.WallAnswer.{IsShownOnce},
  tz_info.specs.Steps.{Starts.{leap_time_at}, Entries.{HaveComeAt}, Asked.{IsAskedAtLeapTime}},
  tz_info.specs.{HeldChanges.{span_held}, Looks.{RoseByInstant}, Leaps.{IsLeapTime, IsLeapTimeRefused, IsNear}},
  tz_info.specs.{Questions.{IsAskedAt}, Spans.{IsSpanAt}, Transitions.{passed}, WallClocks.{Shows}},
  tz_info.specs.Zones.{IsFromLast, IsRefusedBy, IsTypeError, RuleOrType, TypeAt, TypeAtLeapTime},
  tz_search.specs.{Counts.{HasRoom, RoseWithin}, RisingCounts.{HasRoomFor}, Digits.{digits}},
};

use crate::change::HeldSpan;
use crate::rule::TransitionRule;
use crate::zone::TimeZone;
use crate::zone::made::change_table::Come;
use tz_base::{Error, Expected, LocalTimeType, Transition};
use tz_search::Probes;

impl TimeZone {
    /// The type in force at the second of Unix time.
    ///
    /// ```
    /// let zone = TimeZone::from_posix_tz(alloc, "CET-1CEST,M3.5.0,M10.5.0/3")?;
    /// let winter = zone.find_local_time_type(1_609_459_200)?.name();    // Some("CET")
    /// ```
    ///
    /// Before the last transition it is the type of the latest transition that has come, and the
    /// first type before all of them. From the last transition on it is the rule's type, or without
    /// a rule the last transition's. Transitions are compared with the second's leap time, so that
    /// two of them a leap second apart may come at one second: with the leap second (78796800, 1)
    /// and transitions at 78796800 and 78796801 the type before both is in force at 78796799, and
    /// the second one's at 78796800.
    ///
    /// # Errors
    ///
    /// [`Error::FindLocalTimeType`] if there is a transition and the second's leap time leaves 64
    /// bits, or if the rule says the type, has two types, and the second's UTC year is below
    /// `i32::MIN + 2` or above `i32::MAX - 2`.
    #[inline(always)]
    pub fn find_local_time_type(&self, unix_time: i64) -> Result<&LocalTimeType, Error>
        ensures { MatchResult result
            (λ t. TypeAt self.now unix_time t.now)
            (IsTypeError self.now unix_time) }
    {
        if let Some(span) = self.last_span_at(unix_time) {
            return Ok(span.local_time_type);
        }
        let mut probes = Probes::new();
        self.find_local_time_type_counted(unix_time, &mut probes)
    }

    /// As [`TimeZone::find_local_time_type`], and counts the transition probes and the questions to
    /// the rule: at most as many probes as the number of transitions has binary digits, and one
    /// question if the rule gives the type, else none.
    ///
    /// It always searches: [`TimeZone::find_local_time_type`] needs no search after the last change.
    ///
    /// The zone keeps the times of its first and its last transition: a comparison with one of them
    /// that decides nothing is not counted. Nor is a probe of a hint.
    ///
    /// Requires: [`Probes::has_room`].
    ///
    /// ```
    /// let mut probes = Probes::new();
    /// let local = zone.find_local_time_type_counted(0, &mut probes)?;
    /// let reads = probes.reads(); // 0, since the rule answers
    /// ```
    ///
    /// # Errors
    ///
    /// As [`TimeZone::find_local_time_type`].
    #[inline(always)]
    pub fn find_local_time_type_counted(
        &self,
        unix_time: i64,
        probes: &mut Probes,
    ) -> Result<&LocalTimeType, Error>
        requires { HasRoom probes.old }
        ensures found { MatchResult result
            (λ t. TypeAt self.now unix_time t.now)
            (IsTypeError self.now unix_time) }
        ensures cost { RoseByInstant self.now probes.old probes.new }
        // If it answers and there is a transition, at least one is probed.
        ensures looked { IfOk result (λ _. 0 < length self.now.transitions
            → probes.old.reads < probes.new.reads) }
        // The rule is asked once if it gives the type, else not.
        ensures questions { IsAskedAt self.now unix_time
            probes.old.rule_questions probes.new.rule_questions }
    {
        self.type_counted(unix_time, probes)
    }

    // The same, in a search that goes on counting.
    #[inline(always)]
    pub(super) fn type_counted(
        &self,
        unix_time: i64,
        probes: &mut Probes,
    ) -> Result<&LocalTimeType, Error>
        requires room { HasRoomFor (2 ^ 64) probes.old.reads }
        requires question { HasRoomFor 1 probes.old.rule_questions }
        ensures found { MatchResult result
            (λ t. TypeAt self.now unix_time t.now)
            (IsTypeError self.now unix_time) }
        ensures cost { RoseByInstant self.now probes.old probes.new }
        ensures looked { IfOk result (λ _. 0 < length self.now.transitions
            → probes.old.reads < probes.new.reads) }
        ensures questions { IsAskedAt self.now unix_time
            probes.old.rule_questions probes.new.rule_questions }
    {
        let _ = &self.changes;
        // The search makes the first test too, so that the second costs nothing if there are entries.
        if self.changes.len() == 0 && self.has_no_transition() {
            return self.rule_or_type(unix_time, 0, probes);
        }
        match self.come_at(unix_time, probes) {
            Some(come) => self.type_after(unix_time, come, probes),
            None => Err(Error::FindLocalTimeType(Expected::LeapTimeOf64Bits)),
        }
    }

    // The last span, if the second is known to lie in it.
    #[inline(always)]
    pub(super) fn last_span_at(&self, unix_time: i64) -> Option<HeldSpan<'_>>
        ensures { IfSome result (λ s. IsSpanAt (TypeAt self.now) unix_time (span_held s)) }
    {
        let _ = &self.changes;
        if self.last_span.has(unix_time) {
            Some(HeldSpan::of(&self.last_span.span))
        } else {
            None
        }
    }

    // The type at the only second that shows the local time, if the last span is known to have it.
    #[inline(always)]
    pub(super) fn last_type_at(&self, local: i64) -> Option<&LocalTimeType>
        requires { IsWide local }
        ensures { IfSome result (λ t. IsShownOnce (Shows (TypeAt self.now) local) t.now) }
    {
        let _ = &self.changes;
        if self.last_span.local_after < local {
            Some(&self.last_span.span.local_time_type)
        } else {
            None
        }
    }

    // Whether the zone has no transition.
    #[inline(always)]
    pub(super) fn has_no_transition(&self) -> bool
        ensures { IsTrue result ↔ (length self.now.transitions ≡ 0) }
    {
        self.changes.is_empty()
    }

    // What has come at the second, if it has a leap time.
    #[inline(always)]
    fn come_at(&self, unix_time: i64, probes: &mut Probes) -> Option<Come>
        requires some { 0 < length self.now.transitions }
        requires room { HasRoomFor (2 ^ 64) probes.old.reads }
        ensures come { MatchOption result (IsLeapTimeRefused self.now.leaps unix_time)
            (HaveComeAt self.now unix_time) }
        ensures cost { RoseWithin probes.old probes.new (digits (length self.now.transitions)) 0 }
        ensures looked { IfSome result (λ _. probes.old.reads < probes.new.reads) }
    {
        if self.leap_seconds.has_leap_time(unix_time) {
            Some(self.changes.come(unix_time, probes))
        } else {
            None
        }
    }

    // The type in force at a second at which that has come.
    #[inline(always)]
    fn type_after(
        &self,
        unix_time: i64,
        come: Come,
        probes: &mut Probes,
    ) -> Result<&LocalTimeType, Error>
        requires some { 0 < length self.now.transitions }
        requires room { HasRoomFor 1 probes.old.rule_questions }
        requires come { HaveComeAt self.now unix_time come }
        ensures found { MatchResult result
            (λ t. TypeAtLeapTime self.now unix_time (leap_time_at self.now unix_time) t.now)
            (λ e. (e ≡ Error.FindLocalTimeType Expected.YearThatRuleAnswersIn)
            × IsFromLast self.now (leap_time_at self.now unix_time)
            × IsRefusedBy self.now.rule unix_time) }
        ensures cost { RoseWithin probes.old probes.new 0 1 }
        ensures counted { IsAskedAtLeapTime self.now (leap_time_at self.now unix_time)
            probes.old.rule_questions probes.new.rule_questions }
    {
        if come.are_all {
            self.rule_or_type(unix_time, come.index, probes)
        } else {
            Ok(&self.local_types[come.index])
        }
    }

    // The rule's type at the second, or without a rule the type of that index.
    #[inline(always)]
    fn rule_or_type(
        &self,
        unix_time: i64,
        index: usize,
        probes: &mut Probes,
    ) -> Result<&LocalTimeType, Error>
        requires index { index < length self.now.types }
        requires room { HasRoomFor 1 probes.old.rule_questions }
        ensures found { MatchResult result
            (λ t. RuleOrType self.now unix_time index t.now)
            (λ e. (e ≡ Error.FindLocalTimeType Expected.YearThatRuleAnswersIn)
            × IsRefusedBy self.now.rule unix_time) }
        ensures cost { RoseWithin probes.old probes.new 0 1 }
        // A question to the rule is counted as one.
        ensures asked { (rule : TransitionRule) → self.now.rule ≡ Some rule
            → probes.new.rule_questions ≡ probes.old.rule_questions + 1 }
        ensures unasked { self.now.rule ≡ None
            → probes.new.rule_questions ≡ probes.old.rule_questions }
    {
        let rule = match &self.last_rule {
            Some(rule) => rule,
            None => return Ok(&self.local_types[index]),
        };
        probes.count_question();
        match rule.find_local_time_type(unix_time) {
            Ok(local) => Ok(local),
            Err(_) => Err(Error::FindLocalTimeType(Expected::YearThatRuleAnswersIn)),
        }
    }

    // The leap time of a second that is near enough to have one.
    #[tactic(auto, using(crate::proofs::LeapOrder::leap_times_answer))]
    pub(super) fn leap_time_near(&self, second: i64) -> i64
        requires { IsNear second }
        ensures { IsLeapTime self.now.leaps second result }
    {
        match self.leap_seconds.leap_time(second) {
            Ok(leap_time) => leap_time,
            Err(_) => unreachable!(),
        }
    }

    // How many transitions come at or before the leap time.
    #[tactic(auto, using(crate::proofs::SegmentEndLaws::steps))]
    pub(in crate::zone) fn passed_count(&self, leap_time: i64, probes: &mut Probes) -> usize
        requires { HasRoomFor (2 ^ 64) probes.old.reads }
        ensures within { result ≤ length self.now.transitions }
        ensures passed { passed self.now.transitions leap_time ≡ take result self.now.transitions }
        ensures cost { RoseWithin probes.old probes.new (digits (length self.now.transitions)) 0 }
        ensures looked { 0 < length self.now.transitions → probes.old.reads < probes.new.reads }
    {
        let listed = self.changes.listed();
        if listed.len() == 0 {
            return 0;
        }
        listed.passed(leap_time, probes).count
    }

    pub(in crate::zone) fn transition(&self, place: usize, probes: &mut Probes) -> Transition
        requires place { place < length self.now.transitions }
        requires room { HasRoomFor 1 probes.old.reads }
        ensures item { result ≡ slice_index_or self.now.transitions place result }
        ensures index { result.type_index < length self.now.types }
        ensures cost { probes.new ≡ record probes.old { reads = probes.old.reads + 1 } }
    {
        self.changes.listed().read(place, probes)
    }
}
