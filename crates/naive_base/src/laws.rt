//! Theorems: the contract of each function is proved, and none is called. Each is empty, except one
//! that names constants.
ghost use Rattle.std.specs.Prelude.{◌≡◌, ◌↔◌, ◌<◌, ◌+ℤ◌, ◌-ℤ◌, ◌*ℤ◌, neg_ℤ, pos, ℕ, ℤ};
ghost use Rattle.{
  gregorian.specs.{Date.{day_number}, DateOf.{year_of}, Year.{floor_div}},
  naive_base.specs.{IsoWeek.{iso_number, iso_year, IsWeekOf}, NaiveDate.{day_of, printed_date}},
  naive_base.specs.NaiveTime.{fraction_of, printed_time, second_of},
  naive_base.specs.NaiveDateTime.{debug_reading, printed_reading, reading},
};
ghost use Rattle.naive_base.specs.Range as range;
ghost use Rattle.naive_base.specs.Reading as readings;

use crate::{IsoWeek, NaiveDate, NaiveDateTime, NaiveTime};

pub mod comparisons;

/// The range is that of the years -262143 to 262142, by days as by seconds, and the buffer days lie
/// in the years next to it. The inner years are all but the first and the last.
pub fn range_law()
    ensures days { (day : ℤ) → range.IsDayInRange day ↔ range.IsYearInRange (year_of day) }
    ensures seconds { (s : ℤ) → range.IsInRange s ↔ range.IsDayInRange (floor_div s 86_400) }
    ensures inner_days { (day : ℤ) → range.IsInnerDay day ↔ range.IsInnerYear (year_of day) }
    ensures inner_seconds { (s : ℤ) → range.IsInner s ↔ range.IsInnerDay (floor_div s 86_400) }
    ensures wide_days { (day : ℤ) → range.IsWideDay day → range.IsWideYear (year_of day) }
    ensures wide_seconds { (s : ℤ) → range.IsWide s ↔ range.IsWideDay (floor_div s 86_400) }
{}

/// The constants: the first local date-time in range, the last that is no leap second, midnight,
/// and the epoch.
pub fn constants() -> (NaiveDateTime, NaiveDateTime, NaiveTime, NaiveDateTime)
    ensures least { reading result.0 ≡ range.first_reading }
    ensures greatest { reading result.1 ≡ range.last_reading }
    ensures midnight { (second_of result.2 ≡ 0) × (fraction_of result.2 ≡ 0) }
    ensures epoch { reading result.3 ≡ range.epoch }
{
    (
        NaiveDateTime::MIN,
        NaiveDateTime::MAX,
        NaiveTime::MIN,
        NaiveDateTime::UNIX_EPOCH,
    )
}

/// The first and the last date in range.
pub fn first_and_last_date() -> (NaiveDate, NaiveDate)
    ensures first { day_of result.0 ≡ range.first_day }
    ensures last { day_of result.1 ≡ range.last_day }
{
    (NaiveDate::MIN, NaiveDate::MAX)
}

/// A local date-time is its day and its time, and any day and time make one.
pub fn parts_law()
    ensures joined { (r : readings.Reading)
        → readings.reading_at (readings.day_at r) (readings.second_at r) r.f ≡ r }
    ensures parted { (day : ℤ) (second f : ℕ) → second < 86_400
        → (readings.day_at (readings.reading_at day second f) ≡ day)
        × (readings.second_at (readings.reading_at day second f) ≡ second) }
{}

/// If no leap second is among them, the time from a first local date-time to a second and that from
/// there to a third add up to the time from the first to the third. If one is, they miss it by the
/// leap seconds that count between two of the three but not between the others.
pub fn lengths_add()
    ensures plain { (a b c : readings.Reading) → a.f < 1_000_000_000 → b.f < 1_000_000_000
        → c.f < 1_000_000_000
        → readings.difference b a +ℤ readings.difference c b ≡ readings.difference c a }
    ensures leaps { (a b c : readings.Reading)
        → readings.difference b a +ℤ readings.difference c b -ℤ readings.difference c a
        ≡ pos 1_000_000_000 *ℤ (readings.leap_between b a +ℤ readings.leap_between c b
        -ℤ readings.leap_between c a) }
{}

/// The order of local date-times is the order of their days and, on one day, of their times.
pub fn order_law()
    ensures { (a b : readings.Reading) → readings.IsEarlier a b ↔ readings.IsEarlierByDay a b }
{}

/// Away from leap seconds a move is undone by its opposite, and the difference says how far it
/// went. A move of no length changes no local date-time, in leap seconds too, and each is no time
/// away from itself.
#[tactic(auto, using(crate::proofs::Moves::moves_back))]
pub fn moves_law()
    ensures back { (r : readings.Reading) (d : ℤ) → r.f < 1_000_000_000
        → ((readings.moved r d).f < 1_000_000_000) × (readings.moved (readings.moved r d) (neg_ℤ d) ≡ r) }
    ensures difference { (r : readings.Reading) (d : ℤ) → r.f < 1_000_000_000
        → readings.difference (readings.moved r d) r ≡ d }
    ensures stays { (r : readings.Reading) → r.f < 2_000_000_000 → readings.moved r (pos 0) ≡ r }
    ensures itself { (r : readings.Reading) → readings.difference r r ≡ pos 0 }
{}

/// Each day lies in one ISO week, and in each year 4 January lies in the first.
pub fn iso_weeks_law()
    ensures first { (y : ℤ) (week : IsoWeek) → IsWeekOf (day_number y 1 4) week
        → (iso_year week ≡ y) × (iso_number week ≡ 1) }
    ensures once { (day : ℤ) (a b : IsoWeek) → IsWeekOf day a → IsWeekOf day b → a ≡ b }
{}

/// What prints alike is equal, leap seconds aside: 12:00:30 with 1,500,000,000 nanoseconds prints
/// as 12:00:31.500 does.
pub fn print_law()
    ensures dates { (a b : NaiveDate) → printed_date a ≡ printed_date b → a ≡ b }
    ensures times { (a b : NaiveTime) → fraction_of a < 1_000_000_000 → fraction_of b < 1_000_000_000
        → printed_time a ≡ printed_time b → a ≡ b }
    ensures readings { (a b : NaiveDateTime) → (reading a).f < 1_000_000_000
        → (reading b).f < 1_000_000_000
        → printed_reading a ≡ printed_reading b → a ≡ b }
    ensures debugged { (a b : NaiveDateTime) → (reading a).f < 1_000_000_000
        → (reading b).f < 1_000_000_000
        → debug_reading a ≡ debug_reading b → a ≡ b }
{}
