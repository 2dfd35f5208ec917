//! The fields of a line: `2021-11-07 01:30:00 -04:00 started`.

use zoned::{FixedOffset, NaiveDate, NaiveDateTime};

/// Returns the local time with which a line begins, or `None` if it begins otherwise. A second 60 is
/// a leap second.
pub fn local_time(line: &str) -> Option<NaiveDateTime> {
    let year = line.get(0..4)?.parse().ok()?;
    let date = NaiveDate::from_ymd_opt(year, two_digits(line, 5)?, two_digits(line, 8)?)?;
    let (hour, minute) = (two_digits(line, 11)?, two_digits(line, 14)?);
    match two_digits(line, 17)? {
        60 => date.and_hms_milli_opt(hour, minute, 59, 1_000),
        second => date.and_hms_opt(hour, minute, second),
    }
}

/// Returns the offset after the local time, or `None` if the line has no offset there.
pub fn offset(line: &str) -> Option<FixedOffset> {
    let seconds = two_digits(line, 21)?
        .checked_mul(3_600)?
        .checked_add(two_digits(line, 24)?.checked_mul(60)?)?;
    let seconds = i32::try_from(seconds).ok()?;
    match line.get(20..21)? {
        "+" => FixedOffset::east_opt(seconds),
        "-" => FixedOffset::west_opt(seconds),
        _ => None,
    }
}

fn two_digits(line: &str, from: usize) -> Option<u32> {
    let to = from.checked_add(2)?;
    line.get(from..to)?.parse().ok()
}
