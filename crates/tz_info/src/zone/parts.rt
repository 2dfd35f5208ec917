//! What a zone lists, and how much of it there is.

ghost use Rattle.std.specs.{List.{slice_get}, Prelude.{◌≡◌, ◌<◌, ◌≤◌, ◌*◌, length, option_map}};
ghost use Rattle.tz_info.specs.{Windows.{offsets, IsGreatest, IsLeast}, Zones.{IsRuleOrNone, IsValid}};

use crate::rule::TransitionRule;
use crate::zone::time_zone::TimeZone;
use tz_base::{LeapSecond, LocalTimeType, Transition};
use tz_search::Probes;

impl TimeZone {
    /// How many transitions the zone has.
    pub fn transition_count(&self) -> usize
        ensures { result ≡ length self.now.transitions }
    {
        self.changes.listed().len()
    }

    /// How many types of local time the zone has; one at least.
    pub fn type_count(&self) -> usize
        ensures count { result ≡ length self.now.types }
        ensures some { 0 < length self.now.types }
    {
        self.local_types.len()
    }

    /// The types of local time that the zone lists. Its rule may have others.
    pub fn local_time_types(&self) -> &[LocalTimeType]
        ensures types { result.now ≡ self.now.types }
        // The zone is a valid one, and its rule's numbers are in their limits.
        ensures valid { IsValid self.now }
        ensures rule { IsRuleOrNone self.now.rule }
    {
        &self.local_types
    }

    /// The transition at that place, from 0 in the order of time, or `None` if the zone has fewer.
    pub fn transition_at(&self, place: usize) -> Option<Transition>
        ensures { result ≡ slice_get self.now.transitions place }
    {
        if place >= self.transition_count() {
            return None;
        }
        let mut probes = Probes::new();
        Some(self.transition(place, &mut probes))
    }

    /// The leap seconds that the zone lists, in the order of time.
    pub fn leap_seconds(&self) -> &[LeapSecond]
        ensures { result.now ≡ self.now.leaps }
    {
        self.leap_seconds.entries()
    }

    /// How many leap seconds the zone has.
    pub fn leap_count(&self) -> usize
        ensures { result ≡ length self.now.leaps }
    {
        self.leap_seconds.entries().len()
    }

    /// The rule that says what follows the last transition, or `None` if the zone has none.
    pub fn rule(&self) -> Option<&TransitionRule>
        ensures { option_map (λ r. r.now) result ≡ self.now.rule }
    {
        self.last_rule.as_ref()
    }

    /// The least offset of the zone's types and of its rule's, in seconds east of UTC.
    pub fn least_offset(&self) -> i32
        ensures { IsLeast (offsets self.now.types self.now.rule) result }
    {
        self.extremes.least
    }

    /// The greatest offset of the zone's types and of its rule's, in seconds east of UTC.
    pub fn greatest_offset(&self) -> i32
        ensures { IsGreatest (offsets self.now.types self.now.rule) result }
    {
        self.extremes.greatest
    }

    /// How many pieces the zone's index of the wall-clock axis has: at most two for each transition.
    pub fn piece_count(&self) -> usize
        ensures { result ≤ 2 * length self.now.transitions }
    {
        self.index.len()
    }
}
