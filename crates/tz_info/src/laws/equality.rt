//! Theorems of equality and clones: each function is empty, its contract is proved; never called.

ghost use Rattle.std.specs.Prelude.{◌≡◌, ◌↔◌, IsTrue};
ghost use Rattle.{
  tz_info.specs.{HeldChanges.{change_held, second_held, span_held}, ChangesLeft.{changes_left}},
  tz_info.specs.{Rules.{Alternate as AlternateRule}, Zones.{Zone}},
};

use crate::DayForm;
use crate::change::{HeldChange, HeldSecond, HeldSpan, TypedSecond};
use crate::rule::{AlternateTime, RuleDay, TransitionRule};
use crate::zone::TimeZone;
use crate::zone::ask::all_changes::Changes;
use crate::zone::ask::differences::Difference;
use crate::zone::ask::shown_seconds::ShownSeconds;
use tz_base::{LeapSecond, Transition};

/// Transitions are equal if and only if their times and their indexes are. A clone is the value,
/// and does not fail.
pub fn transitions()
    ensures equal { (a b : Transition)
        → IsTrue (⟦<Transition as PartialEq>⟧.eq a b) ↔ (a ≡ b) }
    ensures clone { (a b : Transition)
        → ⟦<Transition as Clone>⟧.is_clone a b ↔ (b ≡ a) }
    ensures infallible { (a : Transition) → ⟦<Transition as Clone>⟧.is_infallible a }
{}

/// Leap seconds are equal if and only if their times and their corrections are. A clone is the
/// value, and does not fail.
pub fn leap_seconds()
    ensures equal { (a b : LeapSecond) → IsTrue (⟦<LeapSecond as PartialEq>⟧.eq a b) ↔ (a ≡ b) }
    ensures clone { (a b : LeapSecond) → ⟦<LeapSecond as Clone>⟧.is_clone a b ↔ (b ≡ a) }
    ensures infallible { (a : LeapSecond) → ⟦<LeapSecond as Clone>⟧.is_infallible a }
{}

/// Days are equal if and only if their forms and their numbers are. A clone is the value, and does
/// not fail.
pub fn rule_days()
    ensures equal { (a b : DayForm) → IsTrue (⟦<RuleDay as PartialEq>⟧.eq a b) ↔ (a ≡ b) }
    ensures clone { (a b : DayForm) → ⟦<RuleDay as Clone>⟧.is_clone a b ↔ (b ≡ a) }
    ensures infallible { (a : DayForm) → ⟦<RuleDay as Clone>⟧.is_infallible a }
{}

/// Rules of two types are equal if and only if their types, days and times are. A clone is the
/// value, and does not fail.
#[tactic(auto, using(crate::proofs::Equalities::alternate_exact))]
pub fn alternate_times()
    ensures equal { (a b : AlternateRule)
        → IsTrue (⟦<AlternateTime as PartialEq>⟧.eq a b) ↔ (a ≡ b) }
    ensures clone { (a b : AlternateRule) → ⟦<AlternateTime as Clone>⟧.is_clone a b ↔ (b ≡ a) }
    ensures infallible { (a : AlternateRule) → ⟦<AlternateTime as Clone>⟧.is_infallible a }
{}

/// Rules are equal if and only if they are the same rule. A clone is the value, and does not fail.
#[tactic(auto, using(crate::proofs::Equalities::rule_exact))]
pub fn transition_rules()
    ensures equal { (a b : TransitionRule) → IsTrue (⟦<TransitionRule as PartialEq>⟧.eq a b) ↔ (a ≡ b) }
    ensures clone { (a b : TransitionRule) → ⟦<TransitionRule as Clone>⟧.is_clone a b ↔ (b ≡ a) }
    ensures infallible { (a : TransitionRule) → ⟦<TransitionRule as Clone>⟧.is_infallible a }
{}

/// Zones are equal if and only if their transitions, types, leap seconds and rules are.
#[tactic(auto, using(crate::proofs::Equalities::zone_exact))]
pub fn zones()
    ensures { (a b : Zone) → IsTrue (⟦<TimeZone as PartialEq>⟧.eq a b) ↔ (a ≡ b) }
{}

/// A clone of a list of changes has the same changes left, and does not fail.
pub fn lists_of_changes<'a>(a: &Changes<'a>, b: &Changes<'a>)
    ensures cloned { ⟦<Changes<'a> as Clone>⟧.is_clone a.now b.now
        → changes_left b.now ≡ changes_left a.now }
    ensures infallible { ⟦<Changes<'a> as Clone>⟧.is_infallible a.now }
{}

/// A clone of a change, or of a span, that refers to the zone's types is the same change or span, and
/// does not fail.
pub fn held_changes<'a>(a: &HeldChange<'a>, b: &HeldChange<'a>, c: &HeldSpan<'a>, d: &HeldSpan<'a>)
    ensures cloned { ⟦<HeldChange<'a> as Clone>⟧.is_clone a.now b.now
        → change_held b.now ≡ change_held a.now }
    ensures infallible { ⟦<HeldChange<'a> as Clone>⟧.is_infallible a.now }
    ensures span_cloned { ⟦<HeldSpan<'a> as Clone>⟧.is_clone c.now d.now
        → span_held d.now ≡ span_held c.now }
    ensures span_infallible { ⟦<HeldSpan<'a> as Clone>⟧.is_infallible c.now }
{}

/// A clone of a second that refers to the zone's type is the same second, and does not fail.
pub fn held_seconds<'a>(a: &HeldSecond<'a>, b: &HeldSecond<'a>)
    ensures cloned { ⟦<HeldSecond<'a> as Clone>⟧.is_clone a.now b.now
        → second_held b.now ≡ second_held a.now }
    ensures infallible { ⟦<HeldSecond<'a> as Clone>⟧.is_infallible a.now }
{}

/// Seconds with their types are equal if and only if the seconds and the types are. A clone is the
/// value, and does not fail.
#[tactic(auto, using(crate::proofs::Equalities::typed_second_exact))]
pub fn typed_seconds()
    ensures equal { (a b : TypedSecond) → IsTrue (⟦<TypedSecond as PartialEq>⟧.eq a b) ↔ (a ≡ b) }
    ensures clone { (a b : TypedSecond) → ⟦<TypedSecond as Clone>⟧.is_clone a b ↔ (b ≡ a) }
    ensures infallible { (a : TypedSecond) → ⟦<TypedSecond as Clone>⟧.is_infallible a }
{}

/// First and last seconds are equal if and only if both are. A clone is the value, and does not
/// fail.
#[tactic(auto, using(crate::proofs::Equalities::shown_seconds_exact))]
pub fn shown_seconds()
    ensures equal { (a b : ShownSeconds) → IsTrue (⟦<ShownSeconds as PartialEq>⟧.eq a b) ↔ (a ≡ b) }
    ensures clone { (a b : ShownSeconds) → ⟦<ShownSeconds as Clone>⟧.is_clone a b ↔ (b ≡ a) }
    ensures infallible { (a : ShownSeconds) → ⟦<ShownSeconds as Clone>⟧.is_infallible a }
{}

/// Differences are equal if and only if their seconds and their types are. A clone is the value,
/// and does not fail.
#[tactic(auto, using(crate::proofs::Equalities::difference_exact))]
pub fn differences()
    ensures equal { (a b : Difference) → IsTrue (⟦<Difference as PartialEq>⟧.eq a b) ↔ (a ≡ b) }
    ensures clone { (a b : Difference) → ⟦<Difference as Clone>⟧.is_clone a b ↔ (b ≡ a) }
    ensures infallible { (a : Difference) → ⟦<Difference as Clone>⟧.is_infallible a }
{}
