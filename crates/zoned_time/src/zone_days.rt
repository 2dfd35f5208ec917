//! The days of a zone.
ghost use Rattle.std.specs.Prelude.{◌≡◌, ◌≤ℤ◌, ◌+ℤ◌, ◌-ℤ◌, pos, IfSome, MatchOption, ℤ};
ghost use Rattle.{
  naive_base.specs.{NaiveDate.{day_of}, Year.{floor_div}, NaiveDateTime.{reading}},
  naive_base.specs.{Range.{IsInRange, IsWideDay}, Weekday.{weekday_number}},
  offset_core.specs.{Offset.{IsWithinDay}, TimeDelta.{nanos_of}},
  zoned_time.specs.{DateTime.{zoned}, Zone.{IsOffsetStretch, IsReachedAt}},
};
ghost use Rattle.zoned_time.specs.Days as instants;
ghost use Rattle.zoned_time.specs.DayEnds as ends;

use crate::reached::reached_at;
use crate::resolve::instant_at;
use crate::{DateTime, Offset, TimeZone};
use naive_base::{Datelike, Days, NaiveDate, NaiveDateTime, NaiveTime, Weekday};
use offset_core::{FixedOffset, TimeDelta};

/// The first and the last second at which clocks show a date: of a zone's instants, or of Unix time.
#[derive(Clone, Copy, Debug)]
pub struct ShownDay<T> {
    /// The first second.
    pub first: T,
    /// The last second, which still shows the date: the day ends when it is over.
    pub last: T,
}

/// A stretch of seconds of Unix time at all of which a zone has one offset.
#[derive(Clone, Copy, Debug)]
pub struct OffsetStretch {
    /// Its first second.
    pub from: i64,
    /// The second after its last one.
    pub until: i64,
    /// The offset, in seconds east of UTC.
    pub offset: i32,
}

/// A zone whose days can be found.
///
/// An implementation writes [`ZoneDays::seconds_of_day`] and
/// [`ZoneDays::first_second_at_or_after`]. It may replace [`ZoneDays::whole_second_at_or_after`],
/// [`ZoneDays::reached_offset`] and [`ZoneDays::offset_stretch_at`] if the zone has a shorter way to
/// them. It can't replace the other calls, which mean the same in every zone.
///
/// A day has two meanings. [`ZoneDays::day`] answers when clocks show a date. If clocks are set
/// back over midnight, as in St. John's on 2005-10-30 at 00:01, they show the date before again,
/// and the two days overlap. [`ZoneDays::start_of_day`] divides time: each instant lies in exactly
/// one day, which lasts from its start to before the next day's start, and clocks that show the date
/// before again do so within the new day. [`ZoneDays::date_of`] is the date of that day. A date over
/// which clocks were set forward, as 2011-12-30 in Apia, is never shown, and starts when the next date
/// does: it is empty.
pub trait ZoneDays: TimeZone {
    /// Returns the first and the last second of Unix time at which clocks show that date; `None` if
    /// no second shows it.
    fn seconds_of_day(&self, date: NaiveDate) -> Option<ShownDay<i64>>
        ensures { let off = (Self.law self.now).off in
            MatchOption result (instants.IsNeverOnDay off (day_of date))
            (λ s. instants.AreEndsOfDay off (day_of date) s.first s.last) };

    /// Returns the first second of Unix time at which clocks show that local time, in whole seconds,
    /// or a later one.
    fn first_second_at_or_after(&self, local: &NaiveDateTime) -> i64
        ensures { instants.IsFirstToReach (Self.law self.now).off (reading local.now).s result };

    /// Returns the first second at which clocks show that local time, in whole seconds, or a later one, as
    /// an instant; `None` if it is out of the range of [`DateTime`]. Here it is found by two lookups.
    ///
    /// [`ZoneDays::first_at_or_after`] keeps the fraction of a second.
    fn whole_second_at_or_after(&self, local: &NaiveDateTime) -> Option<DateTime<Self>>
        ensures { let law = Self.law self.now in let l = (reading local.now).s in
            MatchOption result (instants.IsFirstSecondOutOfRange law.off l)
            (λ d. instants.IsZonedFirst law l (zoned d)) }
    {
        instant_at(self, self.first_second_at_or_after(local), 0)
    }

    /// Returns by how many seconds the last local time that clocks have shown up to an instant, given by
    /// its UTC date-time, is ahead of that date-time, if the zone has a search of its own for that: here
    /// `None`. It is the offset then, unless clocks have been set back and haven't caught up yet.
    ///
    /// [`ZoneDays::reached`] is the local time itself. Of a zone that returns `None` it takes one lookup if
    /// [`ZoneDays::offset_stretch_at`] begins two days before the instant or earlier, and up to 19 more
    /// otherwise.
    ///
    /// Requires: the date-time is in range.
    fn reached_offset(&self, utc: &NaiveDateTime) -> Option<i32>
        requires { IsInRange (reading utc.now).s }
        ensures { let s = (reading utc.now).s in
            IfSome result (λ o. IsWithinDay o × IsReachedAt (Self.law self.now).off s (s +ℤ o)) }
    {
        let _ = utc;
        None
    }

    /// Returns the offset at an instant, given by its UTC date-time, and a stretch of seconds around it at
    /// which the zone has that offset. The stretch may be a part of a longer one: here it is one second.
    ///
    /// A zone whose clocks are seldom set should return long stretches: a plan that fires on each pass of a
    /// fold is searched stretch by stretch.
    fn offset_stretch_at(&self, utc: &NaiveDateTime) -> OffsetStretch
        ensures { IsOffsetStretch (Self.law self.now).off (reading utc.now).s
            result.from result.until result.offset }
    {
        let second = utc.secs_since_epoch();
        OffsetStretch {
            from: second,
            until: second + 1,
            offset: self.offset_from_utc_datetime(utc).fix().local_minus_utc(),
        }
    }

    /// Returns the first and the last second at which clocks show that date; `None` if no second
    /// shows it, or if one of the two is out of the range of [`DateTime`].
    ///
    /// ```
    /// let day = new_york.day(NaiveDate::from_ymd_opt(2021, 3, 14)?)?;
    /// let seconds = day.last.signed_duration_since(&day.first).num_seconds(); // 82799
    /// ```
    final fn day(&self, date: NaiveDate) -> Option<ShownDay<DateTime<Self>>>
        ensures { MatchOption result (instants.IsNoDay (Self.law self.now).off (day_of date))
            (λ d. instants.AreInstantsOfDay (Self.law self.now) (day_of date) (zoned d.first) (zoned d.last)) }
    {
        let seconds = self.seconds_of_day(date)?;
        let first = instant_at(self, seconds.first, 0)?;
        let last = instant_at(self, seconds.last, 0)?;
        Some(ShownDay { first, last })
    }

    /// Returns the day of the date that clocks of this zone show at an instant of any zone; `None`
    /// if an end of that day is out of the range of [`DateTime`].
    final fn day_of<Tz: TimeZone>(&self, instant: &DateTime<Tz>) -> Option<ShownDay<DateTime<Self>>>
        ensures { let s = (zoned instant.now).utc.s in
            let law = Self.law self.now in
            let day = floor_div (s +ℤ law.off s) 86_400 in
            MatchOption result (instants.IsNoDay law.off day)
            (λ d. instants.AreInstantsOfDay law day (zoned d.first) (zoned d.last)
            × ((zoned d.first).utc.s ≤ℤ s) × (s ≤ℤ (zoned d.last).utc.s)) }
    {
        let local = instant.with_timezone(self);
        self.day(local.date_naive())
    }

    /// Returns the first instant at which clocks show that local time or a later one; `None` if it
    /// is out of the range of [`DateTime`].
    ///
    /// In a gap it is the instant at which the gap ends, and in a fold the first of the two. A later
    /// local time never has an earlier answer.
    ///
    /// ```
    /// let local = NaiveDate::from_ymd_opt(2021, 3, 14)?.and_hms_opt(2, 30, 0)?; // in a gap
    /// let instant = new_york.first_at_or_after(&local)?; // 2021-03-14 03:00:00 -04:00
    /// ```
    final fn first_at_or_after(&self, local: &NaiveDateTime) -> Option<DateTime<Self>>
        ensures { let law = Self.law self.now in
            MatchOption result (instants.IsFirstOutOfRange law.off (reading local.now))
            (λ d. instants.IsZonedAtOrAfter law (reading local.now) (zoned d)) }
    {
        let whole = self.whole_second_at_or_after(local)?;
        if whole.naive_local().secs_since_epoch() == local.secs_since_epoch() {
            DateTime::<Self>::from_local_opt(local, *whole.offset())
        } else {
            Some(whole)
        }
    }

    /// Returns the last local time, in whole seconds, that the clocks of this zone have shown up to an
    /// instant of any zone.
    ///
    /// It is the local time at that instant, unless clocks have been set back and haven't caught up yet.
    /// A later instant never has an earlier answer. For a local time in whole seconds,
    /// [`ZoneDays::first_at_or_after`] is at or before the instant if and only if the local time is at or
    /// before this one.
    ///
    /// ```
    /// let second_pass = Utc.with_ymd_and_hms(2021, 11, 7, 6, 30, 0).single()?; // at 01:30:00 -05:00
    /// let reached = new_york.reached(&second_pass); // 2021-11-07 01:59:59
    /// ```
    final fn reached<Tz: TimeZone>(&self, instant: &DateTime<Tz>) -> NaiveDateTime
        ensures reached { IsReachedAt (Self.law self.now).off (zoned instant.now).utc.s
            (reading result).s }
        ensures whole { (reading result).f ≡ 0 }
    {
        reached_at(self, instant.naive_utc())
    }

    /// Returns the date of the day that an instant of any zone lies in, from the day's start to before
    /// the next day's start.
    ///
    /// It is the date that clocks show, unless they have been set back over midnight and show the date
    /// before again. [`DateTime::date_naive`] is the date that is shown.
    ///
    /// ```
    /// let second_pass = Utc.with_ymd_and_hms(2005, 10, 30, 3, 2, 0).single()?; // at 2005-10-29 23:32:00 -03:30
    /// let date = st_johns.date_of(&second_pass); // 2005-10-30
    /// ```
    final fn date_of<Tz: TimeZone>(&self, instant: &DateTime<Tz>) -> NaiveDate
        ensures { instants.IsInDay (Self.law self.now).off (day_of result) (zoned instant.now).utc }
    {
        self.reached(instant).date()
    }

    /// Returns the first instant at which clocks show midnight of that date or a later local time;
    /// `None` if it is out of the range of [`DateTime`].
    ///
    /// It is the midnight itself unless clocks are set forward over it. In Toronto clocks were set
    /// forward on 1919-03-30 at 23:30, by an hour, and the next day started at 00:30.
    ///
    /// ```
    /// let start = toronto.start_of_day(NaiveDate::from_ymd_opt(1919, 3, 31)?)?; // 1919-03-31 00:30:00 -04:00
    /// ```
    final fn start_of_day(&self, date: NaiveDate) -> Option<DateTime<Self>>
        ensures { let law = Self.law self.now in
            MatchOption result (instants.IsFirstOutOfRange law.off (instants.midnight (day_of date)))
            (λ d. instants.IsZonedAtOrAfter law (instants.midnight (day_of date)) (zoned d)) }
    {
        self.first_at_or_after(&date.and_time(NaiveTime::MIN))
    }

    /// Returns the last instant of the day of that date: the nanosecond before the next day starts.
    /// `None` if the day is empty, since clocks were set forward over it, or if that instant is out of
    /// the range of [`DateTime`].
    ///
    /// An interval that includes the whole day is simpler with its exclusive end, the
    /// [`ZoneDays::start_of_day`] of the next date.
    ///
    /// ```
    /// let end = toronto.end_of_day(NaiveDate::from_ymd_opt(1919, 3, 30)?)?; // 1919-03-30 23:29:59.999999999 -05:00
    /// ```
    final fn end_of_day(&self, date: NaiveDate) -> Option<DateTime<Self>>
        ensures { let law = Self.law self.now in
            MatchOption result (ends.HasNoEnd law.off (day_of date))
            (λ d. ends.IsZonedEnd law (day_of date) (zoned d)) }
    {
        let (start, next) = starts_of_days(self, date)?;
        if start == next {
            return None;
        }
        instant_at(self, next - 1, 999_999_999)
    }

    /// Returns the time from the start of the day of that date to that of the next day: 24 hours
    /// unless clocks are set in between, and none at all for a date that clocks never show. `None` for
    /// a date on the buffer day after the range, which has no next date.
    ///
    /// ```
    /// let length = new_york.length_of_day(NaiveDate::from_ymd_opt(2021, 3, 14)?)?; // 23 hours
    /// ```
    final fn length_of_day(&self, date: NaiveDate) -> Option<TimeDelta>
        ensures { MatchOption result (¬ (IsWideDay (day_of date +ℤ pos 1)))
            (λ length. ends.IsLengthOfDay (Self.law self.now).off (day_of date) (nanos_of length)) }
    {
        let (start, next) = starts_of_days(self, date)?;
        Some(TimeDelta::seconds(next - start))
    }

    /// Returns the start of the week of that date, if weeks begin on that weekday: the first instant
    /// at which clocks show midnight of its first date or a later local time. `None` if it is out of
    /// the range of [`DateTime`].
    ///
    /// ```
    /// let date = NaiveDate::from_ymd_opt(2021, 3, 17)?;
    /// let start = new_york.start_of_week(date, Weekday::Mon)?; // 2021-03-15 00:00:00 -04:00
    /// ```
    final fn start_of_week(&self, date: NaiveDate, start: Weekday) -> Option<DateTime<Self>>
        ensures { let law = Self.law self.now in
            (first : ℤ) × ends.IsFirstOfWeek (weekday_number start) (day_of date) first
            × MatchOption result (instants.IsFirstOutOfRange law.off (instants.midnight first))
            (λ d. instants.IsZonedAtOrAfter law (instants.midnight first) (zoned d)) }
    {
        start_of_earlier_day(self, date, date.weekday().days_since(start))
    }

    /// Returns the start of the month of that date: the first instant at which clocks show midnight
    /// of its first date or a later local time. `None` if it is out of the range of [`DateTime`].
    ///
    /// ```
    /// let date = NaiveDate::from_ymd_opt(2021, 3, 17)?;
    /// let start = new_york.start_of_month(date)?; // 2021-03-01 00:00:00 -05:00
    /// ```
    final fn start_of_month(&self, date: NaiveDate) -> Option<DateTime<Self>>
        ensures { let law = Self.law self.now in
            let first = ends.first_of_month (day_of date) in
            MatchOption result (instants.IsFirstOutOfRange law.off (instants.midnight first))
            (λ d. instants.IsZonedAtOrAfter law (instants.midnight first) (zoned d)) }
    {
        start_of_earlier_day(self, date, date.day0())
    }

    /// Returns the start of the year of that date: the first instant at which clocks show midnight of
    /// its first date or a later local time. `None` if it is out of the range of [`DateTime`].
    ///
    /// ```
    /// let date = NaiveDate::from_ymd_opt(2021, 3, 17)?;
    /// let start = new_york.start_of_year(date)?; // 2021-01-01 00:00:00 -05:00
    /// ```
    final fn start_of_year(&self, date: NaiveDate) -> Option<DateTime<Self>>
        ensures { let law = Self.law self.now in
            let first = ends.first_day_of_year (day_of date) in
            MatchOption result (instants.IsFirstOutOfRange law.off (instants.midnight first))
            (λ d. instants.IsZonedAtOrAfter law (instants.midnight first) (zoned d)) }
    {
        start_of_earlier_day(self, date, date.ordinal0())
    }
}

// The first second of the day of a date, and of the next day; `None` for the last date of all.
fn starts_of_days<Tz: ZoneDays>(zone: &Tz, date: NaiveDate) -> Option<(i64, i64)>
    ensures { MatchOption result (¬ (IsWideDay (day_of date +ℤ pos 1)))
        (λ s. ends.AreStartsOfDays (Tz.law zone.now).off (day_of date) s.0 s.1) }
{
    let start = zone.first_second_at_or_after(&date.and_time(NaiveTime::MIN));
    let next = zone.first_second_at_or_after(&midnight_after(date)?);
    Some((start, next))
}

// The midnight after a date, which may be on the buffer day after the range.
fn midnight_after(date: NaiveDate) -> Option<NaiveDateTime>
    ensures { MatchOption result (¬ (IsWideDay (day_of date +ℤ pos 1)))
        (λ local. reading local ≡ instants.midnight (day_of date +ℤ pos 1)) }
{
    let start = date.and_time(NaiveTime::MIN);
    if !start.is_in_range() {
        return Some(date.succ_opt()?.and_time(NaiveTime::MIN));
    }
    let half_a_day = FixedOffset::east(43_200);
    let noon = start.overflowing_add_offset(half_a_day);
    Some(noon.overflowing_add_offset(half_a_day))
}

// The start of the day that many days before that of a date.
#[tactic(auto, using(crate::proofs::DayEnds::earlier_day))]
fn start_of_earlier_day<Tz: ZoneDays>(zone: &Tz, date: NaiveDate, days: u32) -> Option<DateTime<Tz>>
    ensures { let law = Tz.law zone.now in
        let first = day_of date -ℤ pos days in
        MatchOption result (instants.IsFirstOutOfRange law.off (instants.midnight first))
        (λ d. instants.IsZonedAtOrAfter law (instants.midnight first) (zoned d)) }
{
    zone.start_of_day(date.checked_sub_days(Days::new(days as u64))?)
}
