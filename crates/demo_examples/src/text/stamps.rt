//! The forms of standards.
ghost use Rattle.std.specs.Prelude.{◌≡◌, ◌++◌, string_bytes, IfOk};
ghost use Rattle.zoned.specs.{DateTime.{wall_of, zoned}, FixedOffset.{printed_offset}, Text.{reading_text}};

use std::alloc::{AllocError, Global};
use std::fmt;
use zoned::{DateTime, Datelike, FixedOffset, Offset, TimeZone, Timelike};

/// The month names of RFC 2822 and HTTP.
const MONTHS: [&str; 12] = [
    "Jan", "Feb", "Mar", "Apr", "May", "Jun", "Jul", "Aug", "Sep", "Oct", "Nov", "Dec",
];

/// RFC 3339, with a fraction if there is one: `2021-11-07T01:30:00-04:00`.
#[derive(Drop)]
pub struct Rfc3339<'a, Tz: TimeZone>(&'a DateTime<Tz>);

impl<'a, Tz: TimeZone> Rfc3339<'a, Tz> {
    /// Returns `None` if the year isn't one from 0 to 9999 or the offset isn't whole minutes: the form
    /// has no place for them.
    pub fn of(instant: &'a DateTime<Tz>) -> Option<Rfc3339<'a, Tz>> {
        let seconds = instant.offset().fix().local_minus_utc();
        if (0..=9999).contains(&instant.year()) && seconds % 60 == 0 {
            Some(Rfc3339(instant))
        } else {
            None
        }
    }
}

impl<Tz: TimeZone> fmt::Display for Rfc3339<'_, Tz> {
    fn fmt<W: fmt::Write>(&self, f: &mut fmt::Formatter<W>) -> fmt::Result {
        // `{:?}` of a local date-time has the `T`, and `:60` in a leap second.
        write!(f, "{:?}{}", self.0.naive_local(), self.0.offset().fix())
    }
}

/// Returns what `{:?}` writes of an instant at a fixed offset: what the clock shows, then the offset.
///
/// # Errors
///
/// Running out of memory.
pub fn rfc3339_text(alloc: Global, instant: &DateTime<FixedOffset>) -> Result<String, AllocError>
    ensures { IfOk result (λ text. string_bytes text ≡ reading_text 84 (wall_of instant.now)
        ++ printed_offset (zoned instant.now).offset) }
{
    format!(in alloc; "{instant:?}")
}

/// RFC 2822, section 3.3: `Sun, 7 Nov 2021 01:30:00 -0400`. The offset's seconds are left out.
#[derive(Drop)]
pub struct Rfc2822<'a, Tz: TimeZone>(pub &'a DateTime<Tz>);

impl<Tz: TimeZone> fmt::Display for Rfc2822<'_, Tz> {
    fn fmt<W: fmt::Write>(&self, f: &mut fmt::Formatter<W>) -> fmt::Result {
        let local = self.0.naive_local();
        let month = MONTHS[local.month0() as usize];
        write!(
            f,
            "{}, {} {month} {:04} ",
            local.weekday(),
            local.day(),
            local.year()
        )?;
        let second = local.second() + local.nanosecond() / 1_000_000_000;
        write!(f, "{:02}:{:02}:{second:02} ", local.hour(), local.minute())?;
        let offset = self.0.offset().fix().local_minus_utc();
        let sign = if offset < 0 { '-' } else { '+' };
        let minutes = offset.unsigned_abs() / 60;
        write!(f, "{sign}{:02}{:02}", minutes / 60, minutes % 60)
    }
}

/// The date of HTTP (RFC 9110, section 5.6.7), in UTC: `Sun, 07 Nov 2021 05:30:00 GMT`.
#[derive(Drop)]
pub struct HttpDate<'a, Tz: TimeZone>(pub &'a DateTime<Tz>);

impl<Tz: TimeZone> fmt::Display for HttpDate<'_, Tz> {
    fn fmt<W: fmt::Write>(&self, f: &mut fmt::Formatter<W>) -> fmt::Result {
        let utc = self.0.naive_utc();
        let month = MONTHS[utc.month0() as usize];
        write!(
            f,
            "{}, {:02} {month} {:04} ",
            utc.weekday(),
            utc.day(),
            utc.year()
        )?;
        write!(
            f,
            "{:02}:{:02}:{:02} GMT",
            utc.hour(),
            utc.minute(),
            utc.second()
        )
    }
}

/// The compact form of iCalendar (RFC 5545, section 3.3.5), in UTC: `20211107T053000Z`.
#[derive(Drop)]
pub struct Compact<'a, Tz: TimeZone>(pub &'a DateTime<Tz>);

impl<Tz: TimeZone> fmt::Display for Compact<'_, Tz> {
    fn fmt<W: fmt::Write>(&self, f: &mut fmt::Formatter<W>) -> fmt::Result {
        let utc = self.0.naive_utc();
        write!(f, "{:04}{:02}{:02}T", utc.year(), utc.month(), utc.day())?;
        write!(
            f,
            "{:02}{:02}{:02}Z",
            utc.hour(),
            utc.minute(),
            utc.second()
        )
    }
}
