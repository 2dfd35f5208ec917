//! Years, laid end to end.
ghost use Rattle.std.specs.{Int.{IsInRange}, Prelude.{◌≡◌, ◌↔◌, ◌<◌, ◌≤◌, ◌+◌, ◌*◌, ◌/◌, ◌%◌, ◌+ℤ◌, pos, IsTrue, ℤ}};
ghost use Rattle.{
  gregorian.specs.{DateOf.{day_of_year, year_of}, Steps.Cycle.{days_of_years}},
  gregorian.specs.Year.{days_in_year, is_leap, year_start, IsDay, IsYear, LiesIn},
};

/// The first day of the years that an `i32` holds.
pub const FIRST_DAY: i64 = -784_353_015_833;

/// The last day of the years that an `i32` holds.
pub const LAST_DAY: i64 = 784_351_576_776;

// Years are counted from the year -BASE_YEAR, a multiple of 400 before every year of an `i32`.
const BASE_YEAR: i64 = 2_147_484_000;

// The days from the 1 January after 1 March of the base year to 1970-01-01.
const DAYS_FROM_JANUARY: i64 = 784_353_144_032;

const TWO_TO_32: u64 = 4_294_967_296;

// 2^32 divided by the quarter days of a year, 1461, and rounded up. A multiple of it has the year
// above 32 bits, and the year's share of them below.
const YEAR_SHARE: u64 = 2_939_745;

pub(crate) fn years_since_base(year: i32) -> u64
    ensures value { year +ℤ pos 2_147_484_000 ≡ pos result }
    ensures bound { IsInRange 352 4_294_967_647 result }
{
    (year as i64 + BASE_YEAR) as u64
}

pub(crate) fn year_from_base(years: u64) -> i32
    requires { IsInRange 352 4_294_967_647 years }
    ensures { result +ℤ pos 2_147_484_000 ≡ pos years }
{
    (years as i64 - BASE_YEAR) as i32
}

// The days of the first years of a cycle of 400 years that ends with a leap year.
pub(crate) fn days_of_years(years: u64) -> u64
    requires { years ≤ 4_294_968_000 }
    ensures value { result ≡ days_of_years years }
    ensures bound { result < 2_000_000_000_000 }
{
    let century = years / 100;
    1461 * years / 4 - century + century / 4
}

// The place of a day: how many whole centuries, years and days after a January.
#[derive(Clone, Copy)]
pub(crate) struct Place {
    pub(crate) century: u64,
    pub(crate) year: u32,
    pub(crate) passed: u32,
}

pub(crate) fn place_of(days: u64) -> Place
    requires { days < 2_000_000_000_000 }
    ensures value { days_of_years (100 * result.century + result.year) + result.passed ≡ days }
    ensures within { days < days_of_years (100 * result.century + result.year + 1) }
    ensures century { result.century < 100_000_000 }
    ensures year { result.year < 100 }
    ensures bound { result.passed < 366 }
{
    let scaled = 4 * days + 3;
    let product = YEAR_SHARE * in_century(scaled) as u64;
    Place {
        century: scaled / 146_097,
        year: (product / TWO_TO_32) as u32,
        passed: (product % TWO_TO_32) as u32 / YEAR_SHARE as u32 / 4,
    }
}

// Four times the days that whole centuries leave, and 3.
fn in_century(scaled: u64) -> u32
    ensures value { result ≡ scaled % 146_097 / 4 * 4 + 3 }
    ensures bound { result < 146_100 }
{
    (scaled % 146_097) as u32 / 4 * 4 + 3
}

// How many whole years of such cycles fit into a number of days, and how many days are left over.
pub(crate) fn split_years(days: u64) -> (u64, u64)
    requires { days < 2_000_000_000_000 }
    ensures value { days_of_years result.0 + result.1 ≡ days }
    ensures within { days < days_of_years (result.0 + 1) }
    ensures bound { result.1 < 366 }
{
    let place = place_of(days);
    (100 * place.century + place.year as u64, place.passed as u64)
}

/// Whether the day lies in a year that an `i32` holds.
pub fn is_day(day: i64) -> bool
    ensures { IsTrue result ↔ IsDay day }
{
    FIRST_DAY <= day && day <= LAST_DAY
}

/// Whether the year has a 29 February.
pub fn is_leap_year(year: i32) -> bool
    ensures { result ≡ is_leap year }
{
    let years = years_since_base(year);
    (years % 4 == 0) & ((years % 100 != 0) | (years % 16 == 0))
}

/// How many days the year has, 365 or 366.
pub fn days_in_year(year: i32) -> u32
    ensures value { result ≡ days_in_year year }
    ensures bound { IsInRange 365 366 result }
{
    if is_leap_year(year) { 366 } else { 365 }
}

/// The day number of the year's 1 January.
pub fn year_start(year: i32) -> i64
    ensures value { result ≡ year_start year }
    ensures bound { IsDay result }
{
    days_of_years(years_since_base(year) - 1) as i64 - DAYS_FROM_JANUARY
}

pub(crate) fn days_since_january(day: i64) -> u64
    requires { IsDay day }
    ensures value { day +ℤ pos 784_353_144_032 ≡ pos result }
    ensures bound { IsInRange 128_199 1_568_704_720_808 result }
{
    (day + DAYS_FROM_JANUARY) as u64
}

/// The year that the day lies in. Requires: a day of the years of an `i32`.
pub fn year_of(day: i64) -> i32
    requires { IsDay day }
    ensures { result ≡ year_of day }
{
    let (years, _) = split_years(days_since_january(day));
    year_from_base(years + 1)
}

/// How many days of its year come before the day, from 0. Requires: a day of the years of an `i32`.
pub fn day_of_year(day: i64) -> u32
    requires { IsDay day }
    ensures value { result ≡ day_of_year day }
    ensures bound { result < 366 }
{
    let (_, passed) = split_years(days_since_january(day));
    passed as u32
}

/// The year 1970 begins with day 0, the years are laid end to end, each of 365 or 366 days, and
/// each day lies in exactly one of them.
pub fn years_law()
    ensures first { year_start (pos 1970) ≡ pos 0 }
    ensures step { (y : ℤ) → year_start (y +ℤ pos 1) ≡ year_start y +ℤ pos (days_in_year y) }
    ensures found { (day : ℤ) → LiesIn day (year_of day) }
    ensures once { (day a b : ℤ) → LiesIn day a → LiesIn day b → a ≡ b }
    ensures fits { (day y : ℤ) → LiesIn day y → IsDay day ↔ IsYear y }
{}
