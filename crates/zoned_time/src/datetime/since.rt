//! Stored offsets, and the time between two instants in calendar units.
ghost use Rattle.std.specs.Prelude.{◌≡◌, ◌↔◌, ◌⊎◌, ◌+◌, ◌<◌, ◌<ℤ◌, pos, IsTrue, MatchOption, MatchResult};
ghost use Rattle.{
  naive_base.specs.{NaiveDateTime.{reading}, Reading.{IsEarlier}},
  offset_core.specs.{FixedOffset.{seconds_of}, TimeDelta.{nanos_of}},
  zoned_time.specs.Calendar.{HasNoLength, HasNoSum, IsAtOffset, IsCalendarLength, IsCalendarSum, IsMovedBy, NoneAtOffset},
  zoned_time.specs.{Choice.{IsResolved, IsUnresolved}, DateTime.{home_law_of, wall_of, zoned}, Zone.{SameLaw}},
  zoned_time.specs.Steps.Reached.{AreCountedBy, IsLastReachedBy, IsNotMoved},
};

use super::DateTime;
use crate::{CalendarLength, Offset, TimeZone, ZoneDays};
use naive_base::{NaiveDateTime, Timelike};
use offset_core::{Choice, ResolveError, TimeDelta};

impl<Tz: TimeZone> DateTime<Tz> {
    /// Returns the instant of this one's zone at which clocks show that local time: while this one's
    /// offset is in force, if they show it then, and otherwise the one of [`TimeZone::resolve`].
    ///
    /// So a field that is changed on [`naive_local`](DateTime::naive_local), or a day or a month that is
    /// added there, keeps its pass of a fold.
    ///
    /// # Errors
    ///
    /// Those of [`TimeZone::resolve`].
    ///
    /// ```
    /// let second_pass = Utc.timestamp(1_636_266_600, 0).with_timezone(&new_york); // 2021-11-07 01:30:00 -05:00
    /// let local = second_pass.naive_local().with_minute(5)?;
    /// let policy = Choice { gap: GapChoice::ShiftForward, fold: FoldChoice::Earliest };
    /// let changed = second_pass.with_naive_local(local, policy)?; // 2021-11-07 01:05:00 -05:00
    /// ```
    pub fn with_naive_local(
        &self,
        local: NaiveDateTime,
        choice: Choice,
    ) -> Result<DateTime<Tz>, ResolveError>
        ensures { let law = home_law_of Tz.meaning self.now in let l = reading local in
            let k = Tz.Offset.seconds (zoned self.now).offset in
            MatchResult result
            (λ d. IsAtOffset law l k (zoned d)
            ⊎ (NoneAtOffset law.off l.s k × IsResolved law l choice (zoned d)))
            (λ e. NoneAtOffset law.off l.s k × IsUnresolved law.off l.s choice e) }
    {
        let zone = self.timezone();
        match zone.at_offset(&local, self.offset().fix()) {
            Some(instant) => Ok(instant),
            None => zone.resolve(&local, choice),
        }
    }
}

impl<Tz: ZoneDays> DateTime<Tz> {
    /// Returns the time from an earlier instant to this one in months, days and a rest, on the clocks of
    /// the earlier one's zone.
    ///
    /// A month has passed when clocks have reached the same day of the month and time of day in the next
    /// month: from 31 January the first one has passed on 1 March. The days are the zone's, of 23 or 25 hours
    /// too, and are counted from the same day of the month or, if the month has fewer days, its last one.
    /// The rest is exact.
    ///
    /// `None` if this instant is earlier. Two rare cases are `None` too: the earlier instant moved by the
    /// months and the days is out of the range of [`DateTime`], or it lies in a leap second and
    /// [`signed_duration_since`](DateTime::signed_duration_since) from there is negative.
    ///
    /// ```
    /// // In New York clocks were set back at 02:00 on 2021-11-07.
    /// let start = new_york.with_ymd_and_hms(2021, 9, 30, 12, 0, 0).single()?;
    /// let end = new_york.with_ymd_and_hms(2021, 11, 7, 12, 30, 0).single()?;
    /// let length = end.calendar_since(&start)?; // a month, 8 days and 30 minutes
    /// ```
    pub fn calendar_since(&self, earlier: &DateTime<Tz>) -> Option<CalendarLength>
        ensures { let off = (home_law_of Tz.meaning earlier.now).off in
            let e = (zoned earlier.now).utc in let m = wall_of earlier.now in
            let t = (zoned self.now).utc in
            MatchOption result (HasNoLength off e m t) (λ length. IsCalendarLength off e m t length) }
    {
        if is_earlier(self.naive_utc(), earlier.naive_utc()) {
            return None;
        }
        let (months, days) = self.months_and_days_since(earlier);
        let from = earlier.moved_by(months, days)?;
        let time = self.signed_duration_since(&from);
        if is_negative(time) {
            return None;
        }
        Some(CalendarLength { months, days, time })
    }

    /// Returns this instant moved by the months and days of a length, and then by its time.
    ///
    /// Moved by no months and no days it stays. Otherwise it moves to the first instant at which clocks
    /// show its local time that many months later, on the same day of the month or on its last, and then
    /// that many days later, or a later local time: in a gap to its end, and in a fold to the first pass.
    ///
    /// What [`calendar_since`](DateTime::calendar_since) returns leads back, unless a leap second is
    /// involved. `None` if a value is out of the range of [`DateTime`].
    ///
    /// ```
    /// // In New York clocks were set back at 02:00 on 2021-11-07.
    /// let start = new_york.with_ymd_and_hms(2021, 9, 30, 12, 0, 0).single()?;
    /// let length = CalendarLength { months: 1, days: 8, time: TimeDelta::minutes(30) };
    /// let end = start.checked_add_calendar(length)?; // 2021-11-07 12:30:00 -05:00
    /// ```
    pub fn checked_add_calendar(&self, length: CalendarLength) -> Option<DateTime<Tz>>
        ensures { let law = home_law_of Tz.meaning self.now in
            let e = (zoned self.now).utc in let m = wall_of self.now in
            let nanos = nanos_of length.time in
            MatchOption result (HasNoSum law.off e m length.months length.days nanos)
            (λ d. IsCalendarSum law e m length.months length.days nanos (zoned d)) }
    {
        self.moved_by(length.months, length.days)?
            .checked_add_signed(length.time)
    }

    // The months and the days that have passed since an earlier instant.
    fn months_and_days_since(&self, earlier: &DateTime<Tz>) -> (u32, u32)
        ensures { AreCountedBy (home_law_of Tz.meaning earlier.now).off (wall_of earlier.now)
            (zoned self.now).utc result.0 result.1 }
    {
        let reached = local_reached(&earlier.timezone(), self);
        reached.months_and_days_since(&earlier.local())
    }

    // The instant moved by months and days.
    fn moved_by(&self, months: u32, days: u32) -> Option<DateTime<Tz>>
        ensures { let law = home_law_of Tz.meaning self.now in
            let e = (zoned self.now).utc in let m = wall_of self.now in
            MatchOption result (IsNotMoved law.off e m months days)
            (λ d. IsMovedBy law.off e m months days (zoned d).utc
            × SameLaw (home_law_of Tz.meaning d) law) }
    {
        if are_none(months, days) {
            return Some(*self);
        }
        self.timezone()
            .first_at_or_after(&self.local().later_by(months, days)?)
    }
}

fn is_earlier(utc: NaiveDateTime, other: NaiveDateTime) -> bool
    ensures { IsTrue result ↔ IsEarlier (reading utc) (reading other) }
{
    utc < other
}

fn is_negative(length: TimeDelta) -> bool
    ensures { IsTrue result ↔ (nanos_of length <ℤ pos 0) }
{
    length.whole_nanoseconds() < 0
}

fn are_none(months: u32, days: u32) -> bool
    ensures { IsTrue result ↔ (months + days ≡ 0) }
{
    months == 0 && days == 0
}

// The last local date-time that the clocks of a zone have reached by an instant: with its nanoseconds, if
// they show that second for the first time then, and otherwise with the most that there are.
fn local_reached<Tz: ZoneDays>(zone: &Tz, instant: &DateTime<Tz>) -> NaiveDateTime
    ensures { IsLastReachedBy (Tz.law zone.now).off (zoned instant.now).utc (reading result) }
{
    let whole = zone.reached(instant);
    if zone.first_second_at_or_after(&whole) == instant.timestamp() {
        with_nanos(whole, instant.naive_utc().nanosecond())
    } else {
        with_nanos(whole, 1_999_999_999)
    }
}

fn with_nanos(local: NaiveDateTime, nanos: u32) -> NaiveDateTime
    requires { nanos < 2_000_000_000 }
    ensures { reading result ≡ record { s = (reading local).s; f = nanos } }
{
    match local.with_nanosecond(nanos) {
        Some(local) => local,
        None => unreachable!(),
    }
}
