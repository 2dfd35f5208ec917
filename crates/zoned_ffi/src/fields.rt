//! Dates and times of day, as C reads and writes them.

ghost use Rattle.std.specs.Prelude.{◌≡◌, ◌≢◌, ◌↔◌, IsTrue, MatchResult};
ghost use Rattle.{
  gregorian.specs.Year.{floor_div, floor_mod},
  naive_base.specs.Range.{IsInRange},
  zoned_ffi.specs.Fields.{AreFieldsAt, AreFieldsOf, AreNoFieldsAt, IsDateTime, IsLocalOf, IsNoLocalOf},
};

use crate::refusal::{INSTANT_OUT_OF_RANGE, NO_DATE_TIME, NO_LOCAL_TIME};
use gregorian::{date_of, day_number, day_of_year, is_date, weekday_of};
use tz_info::TimeZone;

/// The first second of the calendar's range.
pub const FIRST: i64 = -8_334_601_228_800;

/// The first second after it.
pub const END: i64 = 8_210_266_876_800;

const DAY: i64 = 86_400;

/// A date and a time of day on a clock, and what the calendar says of the date.
#[repr(C)]
#[derive(Clone, Copy)]
pub struct Fields {
    /// The year, from -262143 to 262142. The year 0 is 1 BC.
    pub year: i32,
    /// The month, from 1 to 12.
    pub month: u32,
    /// The day of the month, from 1 to 31.
    pub day: u32,
    /// The hour, from 0 to 23.
    pub hour: u32,
    /// The minute, from 0 to 59.
    pub minute: u32,
    /// The second, from 0 to 59.
    pub second: u32,
    /// The weekday, from 0 for Sunday to 6 for Saturday.
    pub weekday: u32,
    /// The day of the year, from 1 to 366.
    pub day_of_year: u32,
}

impl Fields {
    // Those of the local time.
    fn of(local: i64) -> Fields
        requires { IsInRange local }
        ensures { AreFieldsOf local result }
    {
        let day = day_of(local);
        let time = time_of(local);
        let date = date_of(day);
        Fields {
            year: date.year,
            month: date.month,
            day: date.day,
            hour: time / 3_600,
            minute: time / 60 % 60,
            second: time % 60,
            weekday: weekday_of(day),
            day_of_year: day_of_year(day) + 1,
        }
    }

    // Whether the calendar has the date, and a clock shows the time.
    fn are_date_time(&self) -> bool
        ensures { IsTrue result ↔ IsDateTime self.now }
    {
        is_date(self.year, self.month, self.day)
            && self.hour < 24
            && self.minute < 60
            && self.second < 60
    }

    // The local time of the date and the time of day, or the number of the error.
    fn local(&self) -> Result<i64, u32>
        ensures { MatchResult result (IsLocalOf self.now) (IsNoLocalOf self.now) }
    {
        if !self.are_date_time() {
            return Err(NO_DATE_TIME);
        }
        let time = 3_600 * self.hour + 60 * self.minute + self.second;
        let local = day_number(self.year, self.month, self.day) * DAY + i64::from(time);
        if is_in_range(local) {
            Ok(local)
        } else {
            Err(INSTANT_OUT_OF_RANGE)
        }
    }
}

// The day that the local time lies in.
fn day_of(local: i64) -> i64
    ensures { result ≡ floor_div local 86_400 }
{
    local.div_euclid(DAY)
}

// The seconds of that day before it.
fn time_of(local: i64) -> u32
    ensures { result ≡ floor_mod local 86_400 }
{
    local.rem_euclid(DAY) as u32
}

// Whether the local time is in the calendar's range.
fn is_in_range(local: i64) -> bool
    ensures { IsTrue result ↔ IsInRange local }
{
    FIRST <= local && local < END
}

/// Writes the fields of the local time: 0, or 23 if it is out of range.
#[unsafe(no_mangle)]
pub extern "C" fn zoned_fields_of(local: i64, fields: &mut Fields) -> u32
    // 0: they are written.
    ensures answered { result ≡ 0 → IsInRange local × AreFieldsOf local fields.new }
    // 23: the local time is out of range, and nothing is written.
    ensures refused { result ≢ 0 → (result ≡ 23) × ¬ (IsInRange local) × (fields.new ≡ fields.old) }
{
    if !is_in_range(local) {
        return INSTANT_OUT_OF_RANGE;
    }
    *fields = Fields::of(local);
    0
}

/// Writes the local time of the date and the time of day: 0, or the number of an error. The weekday and
/// the day of the year are not read.
#[unsafe(no_mangle)]
pub extern "C" fn zoned_local_of(fields: &Fields, local: &mut i64) -> u32
    // 0: it is written.
    ensures answered { result ≡ 0 → IsLocalOf fields.now local.new }
    // 39: the calendar doesn't have the date, or a clock the time. 23: it is out of range. Nothing is
    // written.
    ensures refused { result ≢ 0 → IsNoLocalOf fields.now result × (local.new ≡ local.old) }
{
    match fields.local() {
        Ok(found) => {
            *local = found;
            0
        }
        Err(number) => number,
    }
}

/// Writes the fields of the local time of the instant: 0, or the number of an error.
#[tactic(auto, using(crate::proofs::FieldLaws::saturations))]
pub fn answer_fields(zone: &TimeZone, instant: i64, fields: &mut Fields) -> u32
    ensures answered { result ≡ 0 → AreFieldsAt zone.now instant fields.new }
    ensures refused { result ≢ 0 → AreNoFieldsAt zone.now instant result
        × (fields.new ≡ fields.old) }
{
    match zone.find_local_time_type(instant) {
        // A sum outside 64 bits is outside the calendar's range, and so is the nearest number of 64 bits.
        Ok(found) => zoned_fields_of(instant.saturating_add(i64::from(found.offset())), fields),
        Err(_) => NO_LOCAL_TIME,
    }
}
