//! What is asked about: the values that `bench/make_inputs.py` draws for the years 2020 to 2029.

use naive_base::{Datelike, NaiveDate, NaiveDateTime, Timelike, Weekday};
use std::alloc::{AllocError, Global};
use zoned_time::{DateTime, TimeZone};

/// The number for no answer, as of a month later at a local date-time in a gap.
pub const NONE: i64 = i64::MIN;

// 2020-01-01 00:00:00, and the seconds from there to 2030-01-01 00:00:00.
const FIRST: i64 = 1_577_836_800;

const SECONDS: u64 = 315_619_200;

// The seeds of the instants, and of the local date-times.
const INSTANTS: u64 = 2;

const READINGS: u64 = 4;

// The local date-times at which New York's clocks were set forward from two to three, in each of
// the years.
const GAPS: [i64; 10] = [
    1_583_632_800,
    1_615_687_200,
    1_647_136_800,
    1_678_586_400,
    1_710_036_000,
    1_741_485_600,
    1_772_935_200,
    1_804_989_600,
    1_836_439_200,
    1_867_888_800,
];

/// A date and a time of day, as they are typed in.
#[derive(Clone, Copy)]
pub struct Typed {
    pub year: i32,
    pub month: u32,
    pub day: u32,
    pub hour: u32,
    pub minute: u32,
    pub second: u32,
}

/// A year and one of its days, counted from 1.
#[derive(Clone, Copy)]
pub struct OfYear {
    pub year: i32,
    pub ordinal: u32,
}

/// An ISO week and one of its days.
#[derive(Clone, Copy)]
pub struct OfWeek {
    pub year: i32,
    pub week: u32,
    pub weekday: Weekday,
}

/// Two instants.
#[derive(Drop)]
pub struct Pair<Tz: TimeZone> {
    pub one: DateTime<Tz>,
    pub other: DateTime<Tz>,
}

/// The zones, and what is asked about.
#[derive(Drop)]
pub struct Values<Tz: TimeZone> {
    pub zone: Tz,
    pub other: Tz,
    /// Unix times.
    pub seconds: Vec<i64>,
    /// The instants of those, in the zone.
    pub instants: Vec<DateTime<Tz>>,
    /// Each of the instants, and that of its local time as a Unix time.
    pub pairs: Vec<Pair<Tz>>,
    pub readings: Vec<NaiveDateTime>,
    /// The local times as they are typed in.
    pub typed: Vec<Typed>,
    /// Local times that New York's clocks skip.
    pub skipped: Vec<NaiveDateTime>,
    /// The dates of the readings, as dates and by two of their names.
    pub dates: Vec<NaiveDate>,
    pub ordinals: Vec<OfYear>,
    pub weeks: Vec<OfWeek>,
}

impl<Tz: TimeZone> Values<Tz> {
    /// The first of each, up to that number.
    pub fn new(alloc: Global, zone: Tz, other: Tz, count: usize) -> Result<Values<Tz>, AllocError> {
        let mut values = Values {
            zone,
            other,
            seconds: Vec::new(alloc),
            instants: Vec::new(alloc),
            pairs: Vec::new(alloc),
            readings: Vec::new(alloc),
            typed: Vec::new(alloc),
            skipped: Vec::new(alloc),
            dates: Vec::new(alloc),
            ordinals: Vec::new(alloc),
            weeks: Vec::new(alloc),
        };
        let (mut instants, mut readings) = (Drawn::new(INSTANTS), Drawn::new(READINGS));
        for _ in 0..count {
            values.add(instants.next(), readings.next())?;
        }
        Ok(values)
    }

    // A Unix time more, and a second of a wall clock.
    fn add(&mut self, second: i64, local_second: i64) -> Result<(), AllocError> {
        self.seconds.push(second)?;
        if let Some(instant) = self.zone.timestamp_opt(second, 0).single() {
            self.instants.push(instant)?;
        }
        if let Some(one) = self.zone.timestamp_opt(second, 0).single() {
            if let Some(other) = self.zone.timestamp_opt(local_second, 0).single() {
                self.pairs.push(Pair { one, other })?;
            }
        }
        if let Some(reading) = NaiveDateTime::from_timestamp_opt(local_second, 0) {
            self.typed.push(as_typed(&reading))?;
            self.dates.push(reading.date())?;
            self.ordinals.push(year_form(&reading))?;
            self.weeks.push(week_form(&reading))?;
            self.readings.push(reading)?;
        }
        if let Some(reading) = NaiveDateTime::from_timestamp_opt(skipped(local_second), 0) {
            self.skipped.push(reading)?;
        }
        Ok(())
    }
}

// Seconds of those years, as the generator SplitMix64 draws them.
#[derive(Drop)]
struct Drawn {
    state: u64,
}

impl Drawn {
    fn new(seed: u64) -> Drawn {
        Drawn { state: seed }
    }

    fn next(&mut self) -> i64 {
        self.state = self.state.wrapping_add(0x9E37_79B9_7F4A_7C15);
        let mixed = (self.state ^ (self.state >> 30)).wrapping_mul(0xBF58_476D_1CE4_E5B9);
        let mixed = (mixed ^ (mixed >> 27)).wrapping_mul(0x94D0_49BB_1331_11EB);
        FIRST + ((mixed ^ (mixed >> 31)) % SECONDS) as i64
    }
}

fn as_typed(reading: &NaiveDateTime) -> Typed {
    Typed {
        year: reading.year(),
        month: reading.month(),
        day: reading.day(),
        hour: reading.hour(),
        minute: reading.minute(),
        second: reading.second(),
    }
}

fn year_form(reading: &NaiveDateTime) -> OfYear {
    OfYear {
        year: reading.year(),
        ordinal: reading.ordinal(),
    }
}

fn week_form(reading: &NaiveDateTime) -> OfWeek {
    let week = reading.iso_week();
    OfWeek {
        year: week.year(),
        week: week.week(),
        weekday: reading.weekday(),
    }
}

// A second of the skipped hour of one of the years.
fn skipped(local_second: i64) -> i64 {
    let drawn = local_second.unsigned_abs();
    GAPS[(drawn / 3600) as usize % 10] + (drawn % 3600) as i64
}
