//! Zones.
ghost use Rattle.std.specs.Prelude.{◌≡◌, pos, IsSome, MatchOption, MatchResult, ℤ};
ghost use Rattle.{
  naive_base.specs.{Clock.{clock_second, IsClock}, Range.{IsInRange, IsInnerYear, IsYearInRange}},
  naive_base.specs.{Date.{day_number, IsDate}, Reading.{behind, of_total, reading_at}, NaiveDateTime.{reading}},
  naive_base.specs.Stamp.{of_secs, IsStamp},
  offset_core.specs.{FixedOffset.{seconds_of}, LocalResult.{map_of, single_of}, Offset.{IsWithinDay}},
  zoned_time.specs.Calendar.{IsAtOffset, NoneAtOffset},
  zoned_time.specs.{Choice.{AreOffsetsAround, IsOffsetBeforeGap, IsResolved, IsUnresolved}, Relocal.{IsRelocal}},
  zoned_time.specs.{Stamps.{of_micros, of_millis, IsAtWhere}, Zoned.{shown, IsAt}},
};
ghost use Rattle.zoned_time.specs.Zone as zones;

use crate::resolve::{instant_by, shifted};
use crate::{DateTime, Offset, Utc};
use naive_base::{NaiveDate, NaiveDateTime, NaiveTime};
use offset_core::{Around, Choice, FixedOffset, LocalResult, ResolveError, Taken};

/// A time zone: an offset for each second.
///
/// An implementation writes [`TimeZone::from_offset`], [`TimeZone::offset_from_utc_datetime`],
/// [`TimeZone::offset_from_local_datetime`] and [`TimeZone::offset_before_gap`]. It may replace
/// [`TimeZone::offsets_around`] and the lookups of a date if the zone has a shorter way to them.
/// It can't replace the other calls, which mean the same in every zone.
///
/// A wall clock needn't show each local time once. In New York clocks were set forward on 2021-03-14
/// at 02:00:00, to 03:00:00: no clock showed 02:30:00, which lies in a gap. On 2021-11-07 they were
/// set back at 02:00:00, to 01:00:00: they showed 01:30:00 twice, which lies in a fold, first at
/// -04:00 and an hour later at -05:00.
pub trait TimeZone: Sized + Copy {
    /// What the zone's lookups give.
    type Offset: Offset;

    // what an offset means
    ghost meaning: { zones.Meaning Self.Offset };

    // how many seconds the zone's clocks are ahead of UTC at each second, and which offsets are in
    // force then
    ghost law: { Self → zones.Law meaning };

    /// A zone of the same offsets as the one that gave this offset.
    fn from_offset(offset: &Self::Offset) -> Self
        ensures { zones.SameLaw (law result) (zones.home_law meaning offset.now) };

    /// The offset at an instant, given by its UTC date-time.
    fn offset_from_utc_datetime(&self, utc: &NaiveDateTime) -> Self::Offset
        ensures { zones.IsOffsetAt (law self.now) (reading utc.now).s result };

    /// The offset at the midnight of UTC that begins a date.
    fn offset_from_utc_date(&self, utc: &NaiveDate) -> Self::Offset
        ensures { zones.IsOffsetAt (law self.now) (zones.midnight_of utc.now) result }
    {
        self.offset_from_utc_datetime(&midnight(utc))
    }

    /// The offset at the instant when the zone's clocks show a local time: none in a gap, and in a
    /// fold those at the first and at the last such instant.
    fn offset_from_local_datetime(&self, local: &NaiveDateTime) -> LocalResult<Self::Offset>
        ensures { zones.AreOffsetsFor (law self.now) (reading local.now).s result };

    /// [`TimeZone::offset_from_local_datetime`] of the midnight that begins a date.
    fn offset_from_local_date(&self, local: &NaiveDate) -> LocalResult<Self::Offset>
        ensures { zones.AreOffsetsFor (law self.now) (zones.midnight_of local.now) result }
    {
        self.offset_from_local_datetime(&midnight(local))
    }

    /// In a gap the offset before it: that at the second before the first one at which a clock of
    /// the zone shows a later local time. `None` if and only if a clock shows the local time.
    fn offset_before_gap(&self, local: &NaiveDateTime) -> Option<Self::Offset>
        ensures { IsOffsetBeforeGap (law self.now) (reading local.now).s result };

    /// Returns what [`TimeZone::offset_from_local_datetime`] and [`TimeZone::offset_before_gap`]
    /// return, in one call: of a gap the offset before it.
    fn offsets_around(&self, local: &NaiveDateTime) -> Around<Self::Offset, Self::Offset>
        ensures { AreOffsetsAround (law self.now) (reading local.now).s result }
    {
        match self.offset_from_local_datetime(local) {
            LocalResult::Single(only) => Around::Single(only),
            LocalResult::Ambiguous(first, last) => Around::Ambiguous(first, last),
            LocalResult::None => match self.offset_before_gap(local) {
                Some(before) => Around::Gap(before),
                None => unreachable!(),
            },
        }
    }

    // clocks are never a day or more away from UTC
    ghost within_day: { (zone : Self) (u : ℤ) → zones.IsZoneSecond u → IsWithinDay ((law zone).off u) };

    // the offset's own seconds
    ghost told: { (offset : Self.Offset) → meaning.seconds offset ≡ Self.Offset.seconds offset };

    /// The instant of a UTC date-time in range.
    final fn from_utc_datetime(&self, utc: &NaiveDateTime) -> DateTime<Self>
        requires { IsInRange (reading utc.now).s }
        ensures { IsAt (law self.now) (reading utc.now) (shown result.datetime result.offset) }
    {
        DateTime::from_naive_utc_and_offset(*utc, self.offset_from_utc_datetime(utc))
    }

    /// The instant when the zone's clocks show a local time: none in a gap, and in a fold the first
    /// and the last such instant. If the UTC date-time of one of them is out of range, there is
    /// none.
    final fn from_local_datetime(&self, local: &NaiveDateTime) -> LocalResult<DateTime<Self>>
        ensures instants { IsRelocal (law self.now) (reading local.now)
            (map_of (λ d. shown d.datetime d.offset) result) }
        // A zone of one offset has exactly one, if it is in range.
        ensures fixed { zones.IsFixed (law self.now)
            → IsInRange (behind (reading local.now) ((law self.now).off (pos 0))).s
            → IsSome (single_of result) }
        ensures utc { zones.IsUtc (law self.now) → IsInRange (reading local.now).s
            → IsSome (single_of result) }
    {
        self.offset_from_local_datetime(local)
            .and_then(|offset| DateTime::<Self>::from_local_opt(local, offset))
    }

    /// The instant that a policy selects for a local time. There are seven outcomes. New York's clocks
    /// were set forward on 2021-03-14 at 02:00, and back on 2021-11-07 at 02:00:
    ///
    /// | local time | shown | choice | answer |
    /// |---|---|---|---|
    /// | 2021-03-14 02:30 | never | gap: [`GapChoice::Refuse`] | [`ResolveError::Gap`], whose number is 21 |
    /// | 2021-03-14 02:30 | never | gap: [`GapChoice::ShiftForward`] | 2021-03-14 03:30 -04:00 |
    /// | 2021-11-07 01:30 | twice | fold: [`FoldChoice::Refuse`] | [`ResolveError::Fold`], whose number is 22 |
    /// | 2021-11-07 01:30 | twice | fold: [`FoldChoice::Earliest`] | 2021-11-07 01:30 -04:00 |
    /// | 2021-11-07 01:30 | twice | fold: [`FoldChoice::Latest`] | 2021-11-07 01:30 -05:00 |
    /// | 2021-07-01 12:00 | once | any | 2021-07-01 12:00 -04:00 |
    /// | +262142-12-31 23:30 | once | any | [`ResolveError::OutOfRange`], whose number is 23: the UTC date-time is in the year 262143 |
    ///
    /// Nanoseconds are kept.
    ///
    /// # Errors
    ///
    /// As in the table: [`ResolveError::Gap`], [`ResolveError::Fold`], and
    /// [`ResolveError::OutOfRange`] if the UTC date-time of the selected instant is out of range.
    #[tactic(auto, using(crate::proofs::Choices::refused_of))]
    final fn resolve(
        &self,
        local: &NaiveDateTime,
        choice: Choice,
    ) -> Result<DateTime<Self>, ResolveError>
        ensures { MatchResult result
            (λ d. IsResolved (law self.now) (reading local.now) choice (shown d.datetime d.offset))
            (λ e. IsUnresolved (law self.now).off (reading local.now).s choice e) }
    {
        match self.offsets_around(local).take(choice) {
            Ok(Taken::Shown(offset)) => instant_by(local, offset),
            Ok(Taken::InGap(before)) => shifted(self, local, before),
            Err(refused) => Err(refused),
        }
    }

    /// Returns the instant at which clocks show that local time while that offset is in force; there is
    /// never more than one. `None` if there is none, or if it is out of the range of [`DateTime`].
    ///
    /// A local time that was stored with its offset is read back so. In a fold the offset says which pass
    /// is meant. `None` means that the local time lies in a gap, that the offset is wrong, or that the tz
    /// database has changed since.
    ///
    /// ```
    /// let stored = NaiveDate::from_ymd_opt(2021, 11, 7)?.and_hms_opt(1, 30, 0)?;
    /// let offset = FixedOffset::west(5 * 3600);
    /// let second_pass = new_york.at_offset(&stored, offset)?; // 2021-11-07 01:30:00 -05:00
    /// // Prefer the stored offset, otherwise take a policy.
    /// let policy = Choice { gap: GapChoice::ShiftForward, fold: FoldChoice::Earliest };
    /// let instant = new_york.at_offset(&stored, offset).or(new_york.resolve(&stored, policy).ok());
    /// ```
    final fn at_offset(&self, local: &NaiveDateTime, offset: FixedOffset) -> Option<DateTime<Self>>
        ensures { let l = reading local.now in let k = seconds_of offset in
            MatchOption result (NoneAtOffset (law self.now).off l.s k)
            (λ d. IsAtOffset (law self.now) l k (shown d.datetime d.offset)) }
    {
        let utc = local.checked_sub_offset(offset)?;
        let instant = self.from_utc_datetime(&utc);
        if instant.offset().fix().local_minus_utc() != offset.local_minus_utc() {
            return None;
        }
        Some(instant)
    }

    /// [`TimeZone::from_local_datetime`] of a date and a time, as
    /// `zone.with_ymd_and_hms(2021, 11, 7, 1, 30, 0).earliest()`. `None` also if the date isn't
    /// one of the calendar in the years -262143 to 262142, or a day has no such hour, minute or
    /// second.
    final fn with_ymd_and_hms(
        &self,
        year: i32,
        month: u32,
        day: u32,
        hour: u32,
        min: u32,
        sec: u32,
    ) -> LocalResult<DateTime<Self>>
        ensures exists { IsYearInRange year → IsDate year month day → IsClock hour min sec
            → IsRelocal (law self.now)
            (reading_at (day_number year month day) (clock_second hour min sec) 0)
            (map_of (λ d. shown d.datetime d.offset) result) }
        // A zone of one offset has exactly one.
        ensures fixed { zones.IsFixed (law self.now) → IsInnerYear year → IsDate year month day
            → IsClock hour min sec
            → IsSome (single_of result) }
        ensures missing { (IsYearInRange year → IsDate year month day → IsClock hour min sec → ⊥)
            → result ≡ LocalResult.None }
    {
        let Some(date) = NaiveDate::from_ymd_opt(year, month, day) else {
            return LocalResult::None;
        };
        match date.and_hms_opt(hour, min, sec) {
            Some(local) => self.from_local_datetime(&local),
            None => LocalResult::None,
        }
    }

    /// Returns the instant of [`DateTime::from_timestamp`] in this zone, or `None`.
    ///
    /// ```
    /// let noon = new_york.timestamp_opt(1_625_155_200, 0).single()?; // 2021-07-01 12:00:00 -04:00
    /// ```
    final fn timestamp_opt(&self, secs: i64, nsecs: u32) -> LocalResult<DateTime<Self>>
        ensures { let r = of_secs secs nsecs in
            IsAtWhere (law self.now) (IsStamp r) r
            (map_of (λ d. shown d.datetime d.offset) result) }
    {
        match DateTime::<Utc>::from_timestamp(secs, nsecs) {
            Some(instant) => LocalResult::Single(instant.with_timezone(self)),
            None => LocalResult::None,
        }
    }

    /// Returns the instant of [`TimeZone::timestamp_opt`]. Requires: there is one.
    final fn timestamp(&self, secs: i64, nsecs: u32) -> DateTime<Self>
        requires { IsStamp (of_secs secs nsecs) }
        ensures { IsAt (law self.now) (of_secs secs nsecs) (shown result.datetime result.offset) }
    {
        DateTime::<Utc>::from_timestamp(secs, nsecs)
            .unwrap()
            .with_timezone(self)
    }

    /// Returns the instant of [`DateTime::from_timestamp_millis`] in this zone, or `None`.
    ///
    /// ```
    /// let noon = new_york.timestamp_millis_opt(1_625_155_200_250).single()?; // 2021-07-01 12:00:00.250 -04:00
    /// ```
    final fn timestamp_millis_opt(&self, millis: i64) -> LocalResult<DateTime<Self>>
        ensures { let r = of_millis millis in
            IsAtWhere (law self.now) (IsInRange r.s) r
            (map_of (λ d. shown d.datetime d.offset) result) }
    {
        match DateTime::<Utc>::from_timestamp_millis(millis) {
            Some(instant) => LocalResult::Single(instant.with_timezone(self)),
            None => LocalResult::None,
        }
    }

    /// Returns the instant of [`TimeZone::timestamp_millis_opt`]. Requires: there is one.
    final fn timestamp_millis(&self, millis: i64) -> DateTime<Self>
        requires { IsInRange (of_millis millis).s }
        ensures { IsAt (law self.now) (of_millis millis) (shown result.datetime result.offset) }
    {
        DateTime::<Utc>::from_timestamp_millis(millis)
            .unwrap()
            .with_timezone(self)
    }

    /// Returns the instant of [`DateTime::from_timestamp_micros`] in this zone, or `None`.
    final fn timestamp_micros(&self, micros: i64) -> LocalResult<DateTime<Self>>
        ensures { let r = of_micros micros in
            IsAtWhere (law self.now) (IsInRange r.s) r
            (map_of (λ d. shown d.datetime d.offset) result) }
    {
        match DateTime::<Utc>::from_timestamp_micros(micros) {
            Some(instant) => LocalResult::Single(instant.with_timezone(self)),
            None => LocalResult::None,
        }
    }

    /// Returns the instant of [`DateTime::from_timestamp_nanos`] in this zone.
    ///
    /// ```
    /// let noon = new_york.timestamp_nanos(1_625_155_200_000_000_007); // 2021-07-01 12:00:00.000000007 -04:00
    /// ```
    final fn timestamp_nanos(&self, nanos: i64) -> DateTime<Self>
        ensures { IsAt (law self.now) (of_total nanos) (shown result.datetime result.offset) }
    {
        DateTime::<Utc>::from_timestamp_nanos(nanos).with_timezone(self)
    }
}

// The local time at which a date begins.
fn midnight(date: &NaiveDate) -> NaiveDateTime
    ensures { (reading result).s ≡ zones.midnight_of date.now }
{
    date.and_time(NaiveTime::MIN)
}
