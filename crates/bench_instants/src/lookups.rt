//! A zone is asked for instants or for wall clocks, many times over, and what the answers sum up to.

use naive_base::NaiveDateTime;
use offset_core::{Choice, FoldChoice, GapChoice, LocalResult};
use zoned_time::{DateTime, Offset, TimeZone};

/// What a zone is asked.
#[derive(Clone, Copy, PartialEq, Eq)]
pub enum Lookup {
    /// What its clocks show at an instant.
    Instant,
    /// At which instants its clocks show a local time.
    Wall,
    /// Which instant is taken for a local time that they skip.
    Gap,
}

impl Lookup {
    /// That of a word.
    pub fn of_word(word: &str) -> Option<Lookup> {
        match word {
            "instant" => Some(Lookup::Instant),
            "wall" => Some(Lookup::Wall),
            "gap" => Some(Lookup::Gap),
            _ => None,
        }
    }
}

// 1900-01-01 00:00:00, and the seconds from there to 2100-01-01 00:00:00.
const FIRST: i64 = -2_208_988_800;

const SECONDS: u64 = 6_311_433_600;

// Half past two on days when New York's clocks are set forward at two, one of eight years each.
const GAPS: [i64; 16] = [
    9_945_000,
    262_751_400,
    514_953_000,
    765_340_200,
    1_018_146_600,
    1_268_533_800,
    1_520_735_400,
    1_772_937_000,
    2_025_743_400,
    2_277_945_000,
    2_530_751_400,
    2_782_953_000,
    3_035_759_400,
    3_287_961_000,
    3_540_162_600,
    3_792_969_000,
];

/// The sum over that many questions, whose seconds are drawn from the years 1900 to 2099 by a fixed
/// rule.
pub fn sum_of_lookups<Tz: TimeZone>(zone: &Tz, lookup: Lookup, count: u32) -> i64 {
    let mut drawn = 1u64;
    let mut sum = 0i64;
    for _ in 0..count {
        drawn = drawn
            .wrapping_mul(6_364_136_223_846_793_005)
            .wrapping_add(1_442_695_040_888_963_407);
        let second = FIRST + ((drawn >> 11) % SECONDS) as i64;
        sum = sum.wrapping_add(match lookup {
            Lookup::Instant => at_instant(zone, second),
            Lookup::Wall => at_wall_clock(zone, second),
            Lookup::Gap => in_gap(zone, GAPS[(drawn >> 11) as usize % 16]),
        });
    }
    sum
}

// The seconds east of UTC at an instant.
fn at_instant<Tz: TimeZone>(zone: &Tz, second: i64) -> i64 {
    match zone.timestamp_opt(second, 0) {
        LocalResult::Single(instant) => ahead(&instant),
        _ => 0,
    }
}

// Those at the first and the last instant that show a local date-time, the last one's twice.
fn at_wall_clock<Tz: TimeZone>(zone: &Tz, second: i64) -> i64 {
    let Some(local) = NaiveDateTime::from_timestamp_opt(second, 0) else {
        return 0;
    };
    match zone.from_local_datetime(&local) {
        LocalResult::None => 1,
        LocalResult::Single(only) => ahead(&only),
        LocalResult::Ambiguous(first, last) => {
            ahead(&first).wrapping_add(ahead(&last).wrapping_mul(2))
        }
    }
}

// Those at the instant that is taken for a local date-time in a gap.
fn in_gap<Tz: TimeZone>(zone: &Tz, second: i64) -> i64 {
    let Some(local) = NaiveDateTime::from_timestamp_opt(second, 0) else {
        return 0;
    };
    let choice = Choice {
        gap: GapChoice::ShiftForward,
        fold: FoldChoice::Earliest,
    };
    match zone.resolve(&local, choice) {
        Ok(instant) => ahead(&instant),
        Err(_) => 0,
    }
}

fn ahead<Tz: TimeZone>(instant: &DateTime<Tz>) -> i64 {
    i64::from(instant.offset().fix().local_minus_utc())
}
