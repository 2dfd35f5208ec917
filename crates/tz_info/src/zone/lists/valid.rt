//! Whether lists make a zone.

ghost use Rattle.std.specs.Prelude.{◌↔◌, ◌<◌, ◌≤ℤ◌, ◌+ℤ◌, length, map, pos, All, IfSome, IsTrue, MatchResult};
ghost use Rattle.{
  tz_info.specs.{Leaps.{AreLeapSeconds, IsFirstLeap, IsNextLeap, IsOneStep}, Steps.Segments.{Stands}},
  tz_info.specs.{Transitions.{AreTransitions}, Zones.{last_transition, Agrees, IsValid, ListFault, Zone}},
};

use crate::change::is_same_type;
use crate::rule::TransitionRule;
use crate::zone::lists::kept::AsTransition;
use crate::zone::lists::leap_time::unix_time;
use tz_base::{Error, Expected, LeapSecond, LocalTimeType, Transition};

// Nothing if the lists make a zone, or else their first fault, in one pass over each.
#[tactic(auto, using(crate::proofs::ListFaults::list_tests))]
pub(crate) fn check<T: AsTransition>(
    transitions: &[T],
    types: &[LocalTimeType],
    leaps: &[LeapSecond],
    rule: &Option<TransitionRule>,
) -> Result<(), Error>
    ensures { let lists : Zone = record {
      transitions = map T.transition transitions.now;
      types = types.now;
      leaps = leaps.now;
      rule = rule.now;
    } in
        MatchResult result (λ _. IsValid lists) (λ e. ListFault lists e × ¬ (IsValid lists)) }
{
    if types.is_empty() {
        return Err(Error::TimeZone(Expected::AtLeastOneLocalTimeType));
    }
    if !are_transitions(types.len(), transitions) {
        if !name_types(types.len(), transitions) {
            return Err(Error::TimeZone(Expected::TypeIndexesWithinTypes));
        }
        return Err(Error::TimeZone(Expected::TransitionTimesThatRise));
    }
    if !are_leap_seconds(leaps) {
        return Err(Error::TimeZone(Expected::LeapSecondsInOrder));
    }
    if !rule_agrees(transitions, types, leaps, rule) {
        return Err(Error::TimeZone(Expected::RuleThatAgreesWithLastTransition));
    }
    Ok(())
}

// Whether the rule, if there is one, agrees with the last transition, if there is one.
fn rule_agrees<T: AsTransition>(
    transitions: &[T],
    types: &[LocalTimeType],
    leaps: &[LeapSecond],
    rule: &Option<TransitionRule>,
) -> bool
    requires transitions { AreTransitions (length types.now) (map T.transition transitions.now) }
    requires leaps { AreLeapSeconds leaps.now }
    ensures { IsTrue result ↔ IfSome rule.now (λ r. IfSome
        (last_transition (map T.transition transitions.now)) (Agrees types.now leaps.now r)) }
{
    match rule {
        Some(rule) => match transitions.last() {
            Some(last) => agrees(types, leaps, rule, last.transition()),
            None => true,
        },
        None => true,
    }
}

// Whether at the Unix time of the last transition the rule has that transition's type.
#[tactic(auto, using(crate::proofs::RuleLaws::rule_not_refused))]
fn agrees(
    types: &[LocalTimeType],
    leaps: &[LeapSecond],
    rule: &TransitionRule,
    last: Transition,
) -> bool
    requires leaps { AreLeapSeconds leaps.now }
    requires index { last.type_index < length types.now }
    ensures { IsTrue result ↔ Agrees types.now leaps.now rule.now last }
{
    match unix_time(leaps, last.unix_leap_time) {
        Ok(time) => match rule.find_local_time_type(time) {
            Ok(local) => is_same_type(local, &types[last.type_index]),
            Err(_) => false,
        },
        Err(_) => false,
    }
}

// Whether each transition names one of that many types.
fn name_types<T: AsTransition>(type_count: usize, transitions: &[T]) -> bool
    ensures { IsTrue result ↔ All (λ t. (T.transition t).type_index < type_count) transitions.now }
{
    transitions
        .iter()
        .all(|entry| entry.transition().type_index < type_count)
}

// Whether a zone of that many types may have the transitions, in one pass over them. The pass goes
// on after an invalid one, so that the loop has no branch.
#[tactic(auto, using(crate::proofs::Prefixes::stand_more))]
fn are_transitions<T: AsTransition>(type_count: usize, transitions: &[T]) -> bool
    ensures { IsTrue result ↔ AreTransitions type_count (map T.transition transitions.now) }
{
    if transitions.is_empty() {
        return true;
    }
    let mut all_stand = transitions[0].transition().type_index < type_count;
    for place in 1..transitions.len() {
        all_stand = all_stand & stands(type_count, transitions, place);
    }
    all_stand
}

// Whether the transition at that place names a type and comes later than the one before it.
fn stands<T: AsTransition>(type_count: usize, transitions: &[T], place: usize) -> bool
    requires some { 0 < place }
    requires place { place < length transitions.now }
    ensures { IsTrue result ↔ Stands type_count (map T.transition transitions.now) place }
{
    let before = transitions[place - 1].transition();
    let here = transitions[place].transition();
    (here.type_index < type_count) & (before.unix_leap_time < here.unix_leap_time)
}

// Whether the entries may be those of a zone, in one pass over them.
fn are_leap_seconds(entries: &[LeapSecond]) -> bool
    ensures { IsTrue result ↔ AreLeapSeconds entries.now }
{
    for i in 1..entries.len() {
        if !is_next(entries[i - 1], entries[i]) {
            return false;
        }
    }
    match entries.first() {
        Some(first) => is_first(*first),
        None => true,
    }
}

pub(crate) fn is_first(entry: LeapSecond) -> bool
    ensures { IsTrue result ↔ IsFirstLeap entry }
{
    entry.unix_leap_time >= 0 && is_one_step(0, entry.correction)
}

pub(crate) fn is_next(before: LeapSecond, entry: LeapSecond) -> bool
    ensures { IsTrue result ↔ IsNextLeap before entry }
{
    is_far_enough(before.unix_leap_time, entry.unix_leap_time)
        && is_one_step(before.correction, entry.correction)
}

fn is_far_enough(before: i64, after: i64) -> bool
    ensures { IsTrue result ↔ ((before +ℤ pos 2_419_199) ≤ℤ after) }
{
    match before.checked_add(2_419_199) {
        Some(earliest) => earliest <= after,
        None => false,
    }
}

fn is_one_step(before: i32, after: i32) -> bool
    ensures { IsTrue result ↔ IsOneStep before after }
{
    after as i64 == before as i64 + 1 || after as i64 == before as i64 - 1
}
