//! The answers, as numbers, and their sums.

use crate::dates;
use crate::place::Place;
use crate::question::Question;
use crate::values::{NONE, Pair, Typed, Values};
use naive_base::{Datelike, Days, Months, NaiveDate, NaiveDateTime, NaiveTime, Timelike};
use offset_core::{Choice, FoldChoice, GapChoice, LocalResult, TimeDelta};
use std::alloc::Global;
use std::fmt;
use zoned_round::DurationRound;
use zoned_series::DailySeries;
use zoned_time::{DateTime, Offset, TimeZone};

// How many days a series has.
const DAYS: u32 = 28;

// What java.time and Abseil take if they aren't asked.
const CHOICE: Choice = Choice {
    gap: GapChoice::ShiftForward,
    fold: FoldChoice::Earliest,
};

/// The sum of the answers about the values from one number to before another; of dates, the latest.
/// Each question has a loop of its own, so that nothing but its answers is timed, and each place of
/// the program a copy of it.
pub fn sum_of<Tz: TimeZone, P: Place>(
    alloc: Global,
    values: &Values<Tz>,
    question: Question,
    from: usize,
    end: usize,
) -> i64
where
    Tz::Offset: fmt::Display,
{
    let zone = &values.zone;
    let instants = part(&values.instants, from, end);
    let pairs = part(&values.pairs, from, end);
    let readings = part(&values.readings, from, end);
    let typed = part(&values.typed, from, end);
    let dates = part(&values.dates, from, end);
    match question {
        Question::FieldsAt => fields_at::<Tz, P>(zone, part(&values.seconds, from, end)),
        Question::Fields => fields::<Tz, P>(instants),
        Question::FromFields => from_fields::<Tz, P>(zone, typed),
        Question::MonthLater => months_later::<Tz, P>(instants),
        Question::DayLater => days_later::<Tz, P>(instants),
        Question::AtNine => at_nine::<Tz, P>(instants),
        Question::FiveMinutes => cut::<Tz, P>(instants, TimeDelta::minutes(5)),
        Question::WholeDay => cut::<Tz, P>(instants, TimeDelta::days(1)),
        Question::Difference => differences::<Tz, P>(pairs),
        Question::Order => orders::<Tz, P>(pairs),
        Question::Print => printed::<Tz, P>(alloc, instants),
        Question::Elsewhere => elsewhere::<Tz, P>(&values.other, instants),
        Question::Resolve => resolved::<Tz, P>(zone, readings),
        Question::InGap => resolved::<Tz, P>(zone, part(&values.skipped, from, end)),
        Question::Daily => daily::<Tz, P>(zone, readings),
        Question::DateFields => dates::date_fields::<P>(dates),
        Question::DateWeekday => dates::weekdays::<P>(dates),
        Question::DateOrdinal => dates::ordinals::<P>(dates),
        Question::DateIsoWeek => dates::iso_weeks::<P>(dates),
        Question::DateMonthLater => dates::dates_months_later::<P>(dates),
        Question::DateInJune => dates::in_june::<P>(dates),
        Question::DateOfMonth => dates::of_month::<P>(typed),
        Question::DateOfYear => dates::of_year::<P>(part(&values.ordinals, from, end)),
        Question::DateOfWeek => dates::of_week::<P>(part(&values.weeks, from, end)),
        Question::LocalFields => dates::local_fields::<P>(readings),
        Question::LocalMonthLater => dates::local_months_later::<P>(readings),
    }
}

fn part<T>(items: &[T], from: usize, end: usize) -> &[T] {
    items.get(from..end).unwrap_or(&[])
}

fn fields_at<Tz: TimeZone, P: Place>(zone: &Tz, seconds: &[i64]) -> i64 {
    let mut sum = 0i64;
    for second in seconds {
        sum = sum.wrapping_add(number_at::<Tz, P>(zone, *second));
    }
    sum
}

fn fields<Tz: TimeZone, P: Place>(instants: &[DateTime<Tz>]) -> i64 {
    let mut sum = 0i64;
    for instant in instants {
        sum = sum.wrapping_add(number_of::<Tz, P>(instant));
    }
    sum
}

fn from_fields<Tz: TimeZone, P: Place>(zone: &Tz, typed: &[Typed]) -> i64 {
    let mut sum = 0i64;
    for fields in typed {
        sum = sum.wrapping_add(second_typed::<Tz, P>(zone, fields));
    }
    sum
}

fn months_later<Tz: TimeZone, P: Place>(instants: &[DateTime<Tz>]) -> i64 {
    let mut sum = 0i64;
    for instant in instants {
        sum = sum.wrapping_add(second_of::<Tz, P>(instant.checked_add_months(Months::new(1))));
    }
    sum
}

fn days_later<Tz: TimeZone, P: Place>(instants: &[DateTime<Tz>]) -> i64 {
    let mut sum = 0i64;
    for instant in instants {
        sum = sum.wrapping_add(second_of::<Tz, P>(instant.checked_add_days(Days::new(1))));
    }
    sum
}

fn at_nine<Tz: TimeZone, P: Place>(instants: &[DateTime<Tz>]) -> i64 {
    let mut sum = 0i64;
    for instant in instants {
        sum = sum.wrapping_add(second_of::<Tz, P>(instant.with_hour(9)));
    }
    sum
}

fn cut<Tz: TimeZone, P: Place>(instants: &[DateTime<Tz>], length: TimeDelta) -> i64 {
    let mut sum = 0i64;
    for instant in instants {
        sum = sum.wrapping_add(second_cut::<Tz, P>(instant, length));
    }
    sum
}

fn differences<Tz: TimeZone, P: Place>(pairs: &[Pair<Tz>]) -> i64 {
    let mut sum = 0i64;
    for pair in pairs {
        sum = sum.wrapping_add(pair.one.signed_duration_since(&pair.other).num_seconds());
    }
    sum
}

fn orders<Tz: TimeZone, P: Place>(pairs: &[Pair<Tz>]) -> i64 {
    let mut sum = 0i64;
    for pair in pairs {
        sum = sum.wrapping_add(i64::from(pair.one < pair.other));
    }
    sum
}

fn printed<Tz: TimeZone, P: Place>(alloc: Global, instants: &[DateTime<Tz>]) -> i64
where
    Tz::Offset: fmt::Display,
{
    let mut sum = 0i64;
    for instant in instants {
        sum = sum.wrapping_add(length_printed::<Tz, P>(alloc, instant));
    }
    sum
}

fn elsewhere<Tz: TimeZone, P: Place>(other: &Tz, instants: &[DateTime<Tz>]) -> i64 {
    let mut sum = 0i64;
    for instant in instants {
        sum = sum.wrapping_add(second_shown::<Tz, P>(other, instant));
    }
    sum
}

fn resolved<Tz: TimeZone, P: Place>(zone: &Tz, readings: &[NaiveDateTime]) -> i64 {
    let mut sum = 0i64;
    for reading in readings {
        sum = sum.wrapping_add(second_resolved::<Tz, P>(zone, reading));
    }
    sum
}

fn daily<Tz: TimeZone, P: Place>(zone: &Tz, readings: &[NaiveDateTime]) -> i64 {
    let mut sum = 0i64;
    for reading in readings {
        sum = sum.wrapping_add(seconds_daily::<Tz, P>(*zone, reading));
    }
    sum
}

fn number_at<Tz: TimeZone, P: Place>(zone: &Tz, second: i64) -> i64 {
    match zone.timestamp_opt(second, 0) {
        LocalResult::Single(instant) => number_of::<Tz, P>(&instant),
        _ => NONE,
    }
}

// A number of the digits of 2020-01-02 03:04:05.
fn number_of<Tz: TimeZone, P: Place>(instant: &DateTime<Tz>) -> i64 {
    let date = i64::from(instant.year())
        .wrapping_mul(10_000)
        .wrapping_add(i64::from(instant.month()).wrapping_mul(100))
        .wrapping_add(i64::from(instant.day()));
    let time = i64::from(instant.hour())
        .wrapping_mul(10_000)
        .wrapping_add(i64::from(instant.minute()).wrapping_mul(100))
        .wrapping_add(i64::from(instant.second()));
    date.wrapping_mul(1_000_000).wrapping_add(time)
}

fn second_typed<Tz: TimeZone, P: Place>(zone: &Tz, typed: &Typed) -> i64 {
    let Some(date) = NaiveDate::from_ymd_opt(typed.year, typed.month, typed.day) else {
        return NONE;
    };
    match date.and_hms_opt(typed.hour, typed.minute, typed.second) {
        Some(reading) => second_resolved::<Tz, P>(zone, &reading),
        None => NONE,
    }
}

fn second_cut<Tz: TimeZone, P: Place>(instant: &DateTime<Tz>, length: TimeDelta) -> i64 {
    match instant.duration_trunc(length) {
        Ok(cut) => cut.timestamp(),
        Err(_) => NONE,
    }
}

// The length of its text.
fn length_printed<Tz: TimeZone, P: Place>(alloc: Global, instant: &DateTime<Tz>) -> i64
where
    Tz::Offset: fmt::Display,
{
    match format!(in alloc; "{instant}") {
        Ok(text) => text.len() as i64,
        Err(_) => NONE,
    }
}

// The second that clocks of the other zone show, as if it were of UTC.
fn second_shown<Tz: TimeZone, P: Place>(other: &Tz, instant: &DateTime<Tz>) -> i64 {
    let there = instant.with_timezone(other);
    there
        .timestamp()
        .wrapping_add(i64::from(there.offset().fix().local_minus_utc()))
}

fn second_resolved<Tz: TimeZone, P: Place>(zone: &Tz, reading: &NaiveDateTime) -> i64 {
    second_of::<Tz, P>(zone.resolve(reading, CHOICE).ok())
}

// The sum of the instants on four weeks, from the day of the local date-time on.
fn seconds_daily<Tz: TimeZone, P: Place>(zone: Tz, reading: &NaiveDateTime) -> i64 {
    let Some(half_past_two) = NaiveTime::from_hms_opt(2, 30, 0) else {
        return NONE;
    };
    let series = DailySeries::new(zone, reading.date(), half_past_two, CHOICE);
    let mut sum = 0i64;
    for instant in series.days(DAYS) {
        sum = sum.wrapping_add(second_of::<Tz, P>(instant.ok()));
    }
    sum
}

fn second_of<Tz: TimeZone, P: Place>(instant: Option<DateTime<Tz>>) -> i64 {
    match instant {
        Some(instant) => instant.timestamp(),
        None => NONE,
    }
}
