//! Standard time on both sides of a second of daylight saving time, and changes to a type.

ghost use Rattle.std.specs.{Int.{w64}, Prelude.{◌≡◌, ◌↔◌, ◌-ℤ◌, pos, true, FitsSigned, IsTrue, option_map}};
ghost use Rattle.{
  tz_info.specs.{Changes.{IsNearest}, HeldChanges.{change_held}, Zones.{TypeAt}},
  tz_saving.specs.Sides.{IsAfter, IsFound, IsRuleStandard},
  tz_saving.specs.Steps.Walks.{far_second, far_type, is_forward, HasFlag, IsBeyond, IsStandardFound, IsTurnFound},
  tz_saving.specs.Steps.Walks.{IsWanted},
};

use tz_info::{HeldChange, LocalTimeType, TimeZone, TransitionRule};

// How many clock changes away standard time, or the next use of a type, may be.
const REACH: u32 = 64;

// A side of a second.
#[derive(Clone, Copy)]
pub(crate) enum Side {
    Before,
    After,
}

// The types that a change may lead to: those of standard time, or one.
#[derive(Clone, Copy)]
pub(crate) enum Wanted<'a> {
    Standard,
    Same(&'a LocalTimeType),
}

// The offset of the first standard second after that one, at which a type with the DST flag is in
// force, or, if none is within reach, that of the rule's standard time.
#[tactic(auto, using(tz_info::proofs::Fits::fits, crate::proofs::SideLaws::after_found))]
pub(crate) fn standard_after(zone: &TimeZone, second: i64) -> Option<i32>
    requires { HasFlag zone.now true second }
    ensures { IsFound (IsAfter (TypeAt zone.now) zone.now.rule second) result }
{
    match nearest_standard(zone, second, Side::After) {
        Some(offset) => Some(offset),
        None => rule_standard(zone),
    }
}

// The offset of the nearest standard second on that side; none if it is out of reach.
pub(crate) fn nearest_standard(zone: &TimeZone, second: i64, side: Side) -> Option<i32>
    requires { HasFlag zone.now true second }
    ensures { IsStandardFound (is_forward side) zone.now second result }
{
    zone.valid_law();
    far_offset(nearest_turn(zone, second, side, Wanted::Standard), side)
}

// The offset of standard time of the zone's rule, if that has two types.
fn rule_standard(zone: &TimeZone) -> Option<i32>
    ensures { IsFound (IsRuleStandard zone.now.rule) result }
{
    match zone.rule()? {
        TransitionRule::Fixed(_) => None,
        TransitionRule::Alternate(turns) => Some(turns.std().offset()),
    }
}

// The first change after the second, or the last one up to it, that has a wanted type on its far
// side; none if it is out of reach.
pub(crate) fn nearest_turn<'a>(
    zone: &'a TimeZone,
    second: i64,
    side: Side,
    wanted: Wanted<'_>,
) -> Option<HeldChange<'a>>
    ensures { IsTurnFound (is_forward side) zone.now (IsWanted wanted.entry) second
        (option_map change_held result) }
{
    let mut reached = second;
    let mut left = REACH;
    'changes: while left > 0 {
        let Some(change) = nearest_change(zone, reached, side) else {
            return None;
        };
        if is_wanted(far_type(change, side), wanted) {
            return Some(change);
        }
        reached = far_second(change, side);
        left -= 1;
    }
    None
}

// The first change after the second, or the last one up to it.
fn nearest_change(zone: &TimeZone, second: i64, side: Side) -> Option<HeldChange<'_>>
    ensures { IsNearest (is_forward side) (TypeAt zone.now) (IsBeyond (is_forward side) second)
        (option_map change_held result) }
{
    match side {
        Side::Before => zone.previous_held_change(second),
        Side::After => zone.next_held_change(second),
    }
}

// The nearest second on the far side of the change.
fn far_second(change: HeldChange<'_>, side: Side) -> i64
    requires { FitsSigned w64 (change.at -ℤ pos 1) }
    ensures { result ≡ far_second (is_forward side) change.entry.at }
{
    match side {
        Side::Before => change.at - 1,
        Side::After => change.at,
    }
}

// The type on the far side of the change.
fn far_type<'a>(change: HeldChange<'a>, side: Side) -> &'a LocalTimeType
    ensures { result.now ≡ far_type (is_forward side) (change_held change.entry) }
{
    match side {
        Side::Before => change.before,
        Side::After => change.after,
    }
}

// The offset on the far side of the change, if there is one.
#[tactic(auto, using(tz_info::proofs::Fits::fits))]
fn far_offset(change: Option<HeldChange<'_>>, side: Side) -> Option<i32>
    ensures { result ≡ option_map (λ c. (far_type (is_forward side) c).offset)
        (option_map change_held change.entry) }
{
    match change {
        Some(change) => Some(far_type(change, side).offset()),
        None => None,
    }
}

fn is_wanted(found: &LocalTimeType, wanted: Wanted<'_>) -> bool
    ensures { IsTrue result ↔ IsWanted wanted.entry found.now }
{
    match wanted {
        Wanted::Standard => !found.is_dst(),
        Wanted::Same(local) => *found == *local,
    }
}
