//! The instants of local times.
#![tactic(auto, using(crate::proofs::Casts::passed_on))]

ghost use Rattle.std.specs.Prelude.{◌≡◌, ◌≢◌, ◌⊎◌, length, pos};
ghost use Rattle.{
  tz_info.specs.Zones.{Zone},
  zoned_ffi.specs.Columns.{fold_asked, gap_asked, missing_of, AreAnswered, IsFirstWithout, IsRowNumber},
  zoned_ffi.specs.Units.{per_second, IsUnit},
  zoned_ffi.specs.Handles.{IsLent, IsNoneLent, IsUnanswered},
  zoned_ffi.specs.Resolved.{AreReached, AreResolved, IsChoice, IsChoiceOf, IsReachedAt, IsResolvedAt},
};

use crate::choice::{Choice, Missing, choice_of, column_choice_of};
use crate::column::{Way, answer_times};
use crate::lent::Lent;
use crate::refusal::{NOT_OPEN, OTHER_SIZE, UNKNOWN_CHOICE, UNKNOWN_UNIT};
use crate::resolved::{Resolved, write_reached, write_resolved};
use crate::unit::Unit;

/// Writes the instant that a choice takes for the local time.
#[unsafe(no_mangle)]
pub extern "C" fn zoned_zone_instant(
    zone: &Lent,
    gap: u32,
    fold: u32,
    local: i64,
    resolved: &mut Resolved,
) -> u32
    // 0: the answer is the zone's, under the policy of those numbers.
    ensures answered { result ≡ 0 → (choice : Choice) × IsChoiceOf gap fold choice
        × ((z : Zone) × IsLent zone.now z × IsResolvedAt z choice local resolved.new) }
    // 34: no choice has these numbers. 33: no zone is open. Nothing is written.
    ensures refused { result ≢ 0 → (((result ≡ 34) × ¬ (IsChoice gap fold))
        ⊎ ((result ≡ 33) × IsChoice gap fold × IsNoneLent zone.now)) × (resolved.new ≡ resolved.old) }
{
    let Some(choice) = choice_of(gap, fold) else {
        return UNKNOWN_CHOICE;
    };
    let Some(share) = zone.share() else {
        return NOT_OPEN;
    };
    *resolved = Resolved::at(share, choice, local);
    0
}

/// Writes the instant that a choice takes for each local time.
#[unsafe(no_mangle)]
pub extern "C" fn zoned_zone_instants(
    zone: &Lent,
    gap: u32,
    fold: u32,
    locals: &[i64],
    resolved: &mut [Resolved],
) -> u32
    // 0: each answer is the zone's, under the policy of those numbers.
    ensures answered { result ≡ 0 → (choice : Choice) × IsChoiceOf gap fold choice
        × ((z : Zone) × IsLent zone.now z × AreResolved z choice locals.now resolved.new) }
    // 34: no choice has these numbers. Others as in the calls above. Nothing is written.
    ensures refused { result ≢ 0 → (((result ≡ 34) × ¬ (IsChoice gap fold))
        ⊎ (IsChoice gap fold
        × IsUnanswered zone.now (length locals.now) (length resolved.old) result))
        × (resolved.new ≡ resolved.old) }
{
    let Some(choice) = choice_of(gap, fold) else {
        return UNKNOWN_CHOICE;
    };
    let Some(share) = zone.share() else {
        return NOT_OPEN;
    };
    if locals.len() != resolved.len() {
        return OTHER_SIZE;
    }
    write_resolved(share, choice, locals, resolved);
    0
}

/// Writes the first instant at which a clock of the zone shows the local time or a later one.
#[unsafe(no_mangle)]
pub extern "C" fn zoned_zone_first_at_or_after(
    zone: &Lent,
    local: i64,
    reached: &mut Resolved,
) -> u32
    // 0: it is written.
    ensures answered { result ≡ 0 → (z : Zone) × IsLent zone.now z × IsReachedAt z local reached.new }
    // 33: no zone is open, and nothing is written.
    ensures refused { result ≢ 0 → (result ≡ 33) × IsNoneLent zone.now × (reached.new ≡ reached.old) }
{
    let Some(share) = zone.share() else {
        return NOT_OPEN;
    };
    *reached = Resolved::first_at_or_after(share, local);
    0
}

/// Writes the first instant at which a clock of the zone shows each local time or a later one.
#[unsafe(no_mangle)]
pub extern "C" fn zoned_zone_firsts_at_or_after(
    zone: &Lent,
    locals: &[i64],
    reached: &mut [Resolved],
) -> u32
    // 0: each answer is the zone's.
    ensures answered { result ≡ 0
        → (z : Zone) × IsLent zone.now z × AreReached z locals.now reached.new }
    // Others as in the calls above. Nothing is written.
    ensures refused { result ≢ 0 → IsUnanswered zone.now (length locals.now) (length reached.old) result
        × (reached.new ≡ reached.old) }
{
    let Some(share) = zone.share() else {
        return NOT_OPEN;
    };
    if locals.len() != reached.len() {
        return OTHER_SIZE;
    }
    write_reached(share, locals, reached);
    0
}

/// Writes the instant of each local time under the choice, both counted in the unit of which `count`
/// make a second. The least number of 64 bits is no time, and stays. 4 for gaps and 3 for folds give what is
/// rejected no time.
#[unsafe(no_mangle)]
pub extern "C" fn zoned_column_instants(
    zone: &Lent,
    gap: u32,
    fold: u32,
    count: i64,
    locals: &[i64],
    instants: &mut [i64],
    row: &mut usize,
) -> u32
    // 0: each answer is that of the zone.
    ensures answered { result ≡ 0 → (choice : Choice) × IsChoiceOf (gap_asked gap) (fold_asked fold) choice
        × ((unit : Unit) × (count ≡ pos (per_second unit))
        × ((z : Zone) × IsLent zone.now z
        × AreAnswered z unit (Way.ToInstants choice (missing_of gap fold)) locals.now instants.new)
        × (row.new ≡ row.old)) }
    // 21 to 23: the local time in the row that is written has none. Those before it are answered.
    ensures without { IsRowNumber result → (choice : Choice) × IsChoiceOf (gap_asked gap) (fold_asked fold) choice
        × ((unit : Unit) × (count ≡ pos (per_second unit))
        × ((z : Zone) × IsLent zone.now z × IsFirstWithout z unit (Way.ToInstants choice (missing_of gap fold))
        locals.now instants.old instants.new row.new result)) }
    // 34: no choice has these numbers. 36: no unit has that count in a second. Others as in the calls
    // above. Nothing is written.
    ensures refused { result ≢ 0 → ¬ (IsRowNumber result)
        → (((result ≡ 34) × ¬ (IsChoice (gap_asked gap) (fold_asked fold)))
        ⊎ (IsChoice (gap_asked gap) (fold_asked fold) × (((result ≡ 36) × ¬ (IsUnit count))
        ⊎ (IsUnit count × IsUnanswered zone.now (length locals.now) (length instants.old) result))))
        × (instants.new ≡ instants.old) × (row.new ≡ row.old) }
{
    let Some(choice) = column_choice_of(gap, fold) else {
        return UNKNOWN_CHOICE;
    };
    let Some(unit) = Unit::of_count(count) else {
        return UNKNOWN_UNIT;
    };
    let Some(share) = zone.share() else {
        return NOT_OPEN;
    };
    answer_times(
        share,
        unit,
        choice,
        Missing::of(gap, fold),
        locals,
        instants,
        row,
    )
}
