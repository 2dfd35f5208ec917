//! Zoned time, proved: the zoned-time layer of chrono 0.4.45, under chrono's names.
//!
//! This is the only library of Sahvumbi that a client names, unless it needs
//! [less](#which-libraries-to-name). It passes on what the libraries below it make, and the words of
//! their contracts. Its own are the theorems of [`headline`], which join those contracts, and those of
//! [`client_laws`], for a client's own contracts.
//!
//! Each call returns what its contract says, and no call panics, overflows, reads out of bounds or
//! loops forever; no contract bounds the stack. The caller proves what a call requires, such as a
//! range; for a literal the check mostly finds the proof by itself.
//!
//! # Programs to read first
//!
//! Four small clients in the repository, modules of `demo_examples`, each written as a user would write
//! it, tested against values from outside, and proved. They name only `zoned`:
//!
//! | you write | read | its fact |
//! |---|---|---|
//! | a scheduler | `scheduler`: jobs of several zones, at several times of day, in a queue | no run is skipped, and one in a gap runs at its end |
//! | a calendar | `calendar`: events, days of 23 and 25 hours, weeks, birthdays | no instant is in two days |
//! | a reader of logs | `log_reader`: local times with and without offsets, in order through a fold | an instant's local time and offset spell that instant |
//! | texts | `text`: RFC 3339, RFC 2822, HTTP, iCalendar, ISO weeks, lengths | the bytes of RFC 3339's form |
//!
//! # The types
//!
//! | type | is |
//! |---|---|
//! | [`NaiveDate`], [`NaiveTime`], [`NaiveDateTime`] | what a calendar and a clock show: no zone, and so no instant |
//! | [`DateTime<Tz>`](DateTime) | an instant, and how far the clocks of its zone are from UTC then |
//! | [`TimeDelta`], [`Days`], [`Months`] | lengths: of time, by the calendar |
//! | [`FixedOffset`] | seconds ahead of UTC, less than a day either way; as a zone, one whose clocks are never set |
//! | [`Utc`] | UTC as a zone |
//! | [`tz_info::TimeZone`] | a zone parsed from the bytes of a TZif file or from a TZ string |
//! | [`TimeZoneRef`] | such a zone, borrowed, as the zone of `DateTime`s |
//! | [`KeptZone`] | such a zone, kept until the program ends: a zone of `DateTime`s without a lifetime |
//! | [`TimeZone`], [`Offset`] | the traits that each zone, and each zone's offset, implements |
//! | [`LocalResult`] | what a lookup by local time returns: `None`, `Single` or `Ambiguous` |
//! | [`Choice`] | the policy for gaps and folds |
//! | [`ZoneDays`], [`ShownDay`] | the trait of zones whose days can be found, and a day |
//! | [`ZonePlans`], [`Plan`] | the calls of such a zone that take a plan or a step of the clock, and the trait of plans |
//! | [`DailySeries`] | a local time on each day |
//!
//! `TimeZone` is the trait, as in chrono. The parsed zone is `tz_info::TimeZone`.
//!
//! # A gap and a fold
//!
//! A wall clock needn't show each time once. On 2021-03-14 at 02:00 New York's clocks were set
//! forward to 03:00: none showed 02:30, which lies in a gap. On 2021-11-07 at 02:00 they were set
//! back to 01:00: they showed 01:30 twice, which lies in a fold, first at -04:00 and an hour later
//! at -05:00.
//!
//! ```
//! let parsed = tz_info::TimeZone::from_tz_data(alloc, bytes)?;
//! let new_york = TimeZoneRef::new(&parsed).ok_or(MyError::WideZone)?;
//! let gap = new_york.with_ymd_and_hms(2021, 3, 14, 2, 30, 0); // None
//! let fold = new_york.with_ymd_and_hms(2021, 11, 7, 1, 30, 0); // Ambiguous(2021-11-07 01:30:00 -04:00, 2021-11-07 01:30:00 -05:00)
//! let noon = new_york.with_ymd_and_hms(2021, 7, 1, 12, 0, 0); // Single(2021-07-01 12:00:00 -04:00)
//! ```
//!
//! [`TimeZone::resolve`] returns the one instant that a policy selects, or the reason why there isn't
//! one. There are seven outcomes:
//!
//! | local time | shown | choice | answer |
//! |---|---|---|---|
//! | 2021-03-14 02:30 | never | gap: `Refuse` | [`ResolveError::Gap`], number 21 |
//! | 2021-03-14 02:30 | never | gap: `ShiftForward` | 2021-03-14 03:30:00 -04:00 |
//! | 2021-11-07 01:30 | twice | fold: `Refuse` | [`ResolveError::Fold`], number 22 |
//! | 2021-11-07 01:30 | twice | fold: `Earliest` | 2021-11-07 01:30:00 -04:00 |
//! | 2021-11-07 01:30 | twice | fold: `Latest` | 2021-11-07 01:30:00 -05:00 |
//! | 2021-07-01 12:00 | once | any | 2021-07-01 12:00:00 -04:00 |
//! | +262142-12-31 23:00, on the last day of the range | once, when it is the next day in UTC | any | [`ResolveError::OutOfRange`], number 23 |
//!
//! ```
//! let choice = Choice { gap: GapChoice::ShiftForward, fold: FoldChoice::Earliest };
//! let day = NaiveDate::from_ymd_opt(2021, 3, 14).ok_or(MyError::NoSuchTime)?;
//! let local = day.and_hms_opt(2, 30, 0).ok_or(MyError::NoSuchTime)?;
//! let instant = new_york.resolve(&local, choice)?; // 2021-03-14 03:30:00 -04:00
//! ```
//!
//! # A meeting on each day
//!
//! No day of a [`DailySeries`] depends on another, so the meeting goes back to its time on the day
//! after a clock change.
//!
//! ```
//! let half_past_two = NaiveTime::from_hms_opt(2, 30, 0).ok_or(MyError::NoSuchTime)?;
//! let first = NaiveDate::from_ymd_opt(2021, 3, 13).ok_or(MyError::NoSuchTime)?;
//! let mut lines = Vec::new(alloc);
//! for instant in DailySeries::new(new_york, first, half_past_two, choice).days(3) {
//!     let instant = instant?;
//!     lines.push(format!(in alloc; "{instant}")?)?;
//! }
//! let after_the_gap = lines[1].as_str(); // 2021-03-14 03:30:00 -04:00
//! ```
//!
//! | 02:30 from 2021-03-13 on | 01:30 from 2021-11-06 on |
//! |---|---|
//! | 2021-03-13 02:30:00 -05:00 | 2021-11-06 01:30:00 -04:00 |
//! | 2021-03-14 03:30:00 -04:00 | 2021-11-07 01:30:00 -04:00 |
//! | 2021-03-15 02:30:00 -04:00 | 2021-11-08 01:30:00 -05:00 |
//!
//! Two days can have the same instant. Clocks in Apia skipped 2011-12-30: with `ShiftForward`, 12:00 on
//! that day is 2011-12-31 12:00:00 +14:00, as it is on the next one.
//!
//! # When a day starts
//!
//! [`ZoneDays::start_of_day`] returns the first instant at which clocks show midnight or a later
//! local time: midnight isn't always shown. It divides time into days, so each instant lies in exactly
//! one: [`ZoneDays::date_of`] is its date, and [`DateTime::start_of_day`] when it starts. Clocks that are
//! set back over midnight show the date before again, within the new day: in St. John's the instant
//! 2005-10-29 23:32:00 -03:30 lies in 2005-10-30. [`ZoneDays::first_at_or_after`] is for any local time:
//! in a gap it returns the end of the gap.
//!
//! ```
//! let day = NaiveDate::from_ymd_opt(2021, 3, 14).ok_or(MyError::NoSuchTime)?;
//! let start = new_york.start_of_day(day); // Some(2021-03-14 00:00:00 -05:00)
//! let local = day.and_hms_opt(2, 30, 0).ok_or(MyError::NoSuchTime)?;
//! let first = new_york.first_at_or_after(&local); // Some(2021-03-14 03:00:00 -04:00)
//! ```
//!
//! # When the clocks change next
//!
//! A zone returns the next clock change after an instant, and the last one up to it, as two instants:
//! the last second before the change and its first second. If the offset, the DST flag and the
//! abbreviation stay the same, nothing changes, whatever a file lists.
//!
//! ```
//! let new_year = Utc.timestamp(1_609_459_200, 0); // 2021-01-01 00:00:00 UTC
//! if let Some(change) = new_york.next_change(&new_year) {
//!     let before = change.before; // 2021-03-14 01:59:59 -05:00, EST
//!     let at = change.at; // 2021-03-14 03:00:00 -04:00, EDT
//! }
//! ```
//!
//! # Which call for which question
//!
//! | you have | you want | call |
//! |---|---|---|
//! | the bytes of a TZif file | a zone | [`tz_info::TimeZone::from_tz_data`] |
//! | a TZ string | a zone | [`tz_info::TimeZone::from_posix_tz`] |
//! | a parsed zone | a zone of `DateTime`s | [`TimeZoneRef::new`]: `None` if one of its offsets is a day or more |
//! | a parsed zone | one for the whole program, without a lifetime | [`KeptZone::open`] from the bytes of a file; [`KeptZone::keep`], whose error gives the zone back |
//! | a local time | each instant that shows it | [`TimeZone::with_ymd_and_hms`], [`TimeZone::from_local_datetime`] |
//! | a local time | one instant | [`TimeZone::resolve`] |
//! | a Unix time | the instant | [`TimeZone::timestamp_opt`], [`DateTime::from_timestamp`] |
//! | a UTC date-time | the instant | [`TimeZone::from_utc_datetime`], [`NaiveZoned::and_utc`] |
//! | an instant | what clocks elsewhere show then | [`DateTime::with_timezone`] |
//! | an instant | what its clock shows | [`DateTime::naive_local`], and the fields of [`Datelike`] and [`Timelike`] |
//! | an instant of a parsed zone | its abbreviation | `instant.offset().name()`: [`ZoneOffset`] |
//! | an instant of a parsed zone | if it is daylight saving time | `instant.offset().is_dst()` |
//! | a parsed zone and a second | how much of its offset is daylight saving time | [`daylight_saving`] |
//! | a parsed zone and a Unix time | the local time type, since when and until when | [`tz_info::TimeZone::span_at`] |
//! | a borrowed or a kept zone | when its clocks change next | [`TimeZoneRef::next_change`] |
//! | a borrowed or a kept zone | when they changed last | [`TimeZoneRef::previous_change`] |
//! | an instant of a parsed zone | one that borrows nothing | [`DateTime::fixed_offset`] |
//! | an instant | one that much time later | [`DateTime::checked_add_signed`], `+` |
//! | an instant | the same clock time some days later | [`DateTime::checked_add_days`] |
//! | an instant | the same clock time some months later | [`DateTime::checked_add_months`] |
//! | two instants | the time between them | [`DateTime::signed_duration_since`], `-` |
//! | a date | when it starts | [`ZoneDays::start_of_day`] |
//! | a date | its last instant; how long it lasts | [`ZoneDays::end_of_day`]; [`ZoneDays::length_of_day`] |
//! | a date | when its week, month or year starts | [`ZoneDays::start_of_week`], [`ZoneDays::start_of_month`], [`ZoneDays::start_of_year`] |
//! | an instant | the date of the day that it lies in; when that day starts | [`ZoneDays::date_of`]; [`DateTime::start_of_day`] |
//! | an instant | the last local time that clocks have shown by then | [`ZoneDays::reached`] |
//! | an instant | when its day, week, month, year, hour or another [`ClockStep`] begins and ends | [`ZonePlans::floor`], [`ZonePlans::ceil`], [`ZonePlans::step_at`] |
//! | a rule of RFC 5545 and its start | its local times, as a plan | [`Recurrence::new`] |
//! | the text of a rule, such as `FREQ=MONTHLY;BYDAY=-1FR` | the rule | [`RuleText::parse`] |
//! | local times, or several plans | a plan of them | [`LocalTimes`], [`Union`], [`Intersection`], [`Except`] |
//! | a plan, such as a line of a crontab ([`Cron`]) | when it fires next, or fired last | [`ZonePlans::next_fire`], [`ZonePlans::first_fire`]; [`ZonePlans::last_fire`], [`ZonePlans::previous_fire`] |
//! | a plan | each time that it fires between two instants | [`ZonePlans::fires`] |
//! | a plan, and a [`FirePolicy`] for its local times in gaps and folds | when it fires next | [`ZonePlans::next_fire_by`] |
//! | two versions of a zone, and a plan | the runs that only one of them has | [`moved`] |
//! | a date | the first and the last second at which clocks show it | [`ZoneDays::day`] |
//! | a local time | the first instant at which clocks have reached it | [`ZoneDays::first_at_or_after`] |
//! | two versions of a zone | what differs | [`tz_info::TimeZone::differences`] |
//! | an instant | it, rounded | [`DurationRound`], [`SubsecRound`] |
//! | a local time | it, on each day | [`DailySeries::new`] |
//! | a date | the next day, the days or the week from it | [`NaiveDate::succ_opt`], [`NaiveDate::iter_days`], [`NaiveDate::week`] |
//! | a year and a month | the n-th Sunday; the days of the month | [`NaiveDate::from_weekday_of_month_opt`]; [`Month::num_days`], [`gregorian::days_in_month`] |
//! | the bytes or a text, and a local time | types of local time and instants in one call | [`WallClock`] |
//! | a rule, or a zone that has only a rule | its TZ string | [`ToTzString::to_tz_string`], [`ToPosixTz::to_posix_tz`] |
//! | a parsed zone | the bytes of its TZif file | [`ToTzData::to_tz_data`] |
//! | a zone that no file describes | it, as the zone of `DateTime`s | an implementation of [`TimeZone`] |
//!
//! # Zones that are borrowed, and zones that are kept
//!
//! A `DateTime<TimeZoneRef>` borrows the parsed zone, and can be used no longer than that zone. It
//! prints, compares and sorts as any other, in any function, and is a key of maps and sets.
//! [`DateTime::fixed_offset`] of it prints alike and borrows nothing.
//!
//! A [`KeptZone`] and its instants have no lifetime, so a struct or a list can hold both. Its memory
//! is never freed, so keep the zones that live as long as the program.
//!
//! Kept zones are equal if and only if their lists are, and a struct that holds one derives what it
//! likes.
//!
//! ```
//! let new_york = KeptZone::open(alloc, bytes)?;
//! let alarm = Alarm { zone: new_york, next: new_york.resolve(&local, choice)? };
//!
//! #[derive(Clone, Copy, Debug, PartialEq, Eq, Hash)]
//! pub struct Alarm {
//!     pub zone: KeptZone,
//!     pub next: DateTime<KeptZone>,
//! }
//! ```
//!
//! # Which libraries to name
//!
//! The first check of a program proves each library that its line of `crates.txt` names, and those
//! below; later checks use what was kept. `zoned` brings all of them. A program that needs fewer can
//! name these in place of it, and import from each library what `zoned` passes on:
//!
//! | you need | name | minutes |
//! |---|---|---|
//! | dates, times of day, lengths | `offset_core naive_base` | 5 |
//! | instants of UTC and of fixed offsets too | `offset_core naive_base zoned_time` | 12 |
//! | zones of files and TZ strings too, borrowed | `offset_core naive_base tz_info zoned_time zoned_ref` | 32 |
//! | rounding too | the same and `zoned_round` | 5 more |
//! | a local time on each day too | the same and `zoned_series` | 2 more |
//! | everything, with what writes zones | `zoned` | 45 |
//!
//! The minutes are a sum over the libraries, each checked from nothing on a machine of 4 processors on
//! which three or more other checks ran (2026-11-26). Libraries that don't need one another can be
//! checked at once.
//!
//! # What the checker doesn't cover
//!
//! What is written every day needs no contract, no lemma and no proof file: the repository's crate
//! `tests_idioms` has some two hundred such functions over instants of a kept zone, those whose code
//! differs over UTC or over a borrowed zone, and those over dates, times of day and lengths.
//! These aren't covered yet:
//!
//! | of | in place of | write |
//! |---|---|---|
//! | an instant of a borrowed or of a kept zone | a copy in place: `*instant`, `(instant, instant)`, `Some(*now)`, `map.insert(*instant, ..)`, since the zone's type holds a reference | a reference; `iter().copied()`, `instant.clone()?`, or `copy_of(instant)` by `fn copy_of<T: Copy>(value: &T) -> T { *value }` |
//! | an instant in a struct or an enum that is borrowed | `Some(heap.peek()?.at)`; `match self.when { When::Timed { start, .. } => .. }` | `Some(heap.peek().copied()?.at)`; `match &self.when { .. }` |
//! | instants of a borrowed zone | a closure that captures an instant, as `any(\|instant\| instant > than)`, or asks the zone, as `map(\|instant\| instant.hour())` | a `for`, or a kept zone |
//! | dates, times, lengths, and instants of UTC and of fixed offsets | a guard that compares what its pattern takes: `Some(next) if next <= until` | the same over a reference: `match &next { Some(next) if *next <= until => .. }`; `next.is_some_and(\|next\| next <= until)`; `let .. else` and an `if`; an `if` in the arm; or `max` |
//! | an enum that holds an instant or a date | a literal in its pattern: `When::AllDay { first, days: 1 }` | a guard on the number: `When::AllDay { first, days } if days == 1` |
//! | a `WallClock` | `?` on the call that makes it | `match` with `Ok(clock) => match clock.instants { .. }` |
//! | a map keyed by instants or dates | `map.entry(key)` | `map.get` and `map.insert` |
//! | loops | `while` | a `for` with a bound |
//! | an instant in a struct over any zone | `#[derive(Copy)]` | `#[derive(Clone, Drop)]`, and `Debug`, `PartialEq`, `Eq`, `PartialOrd` and `Ord`; a struct over one zone type can be `Copy` |
//! | an error of your own | `#[from]` for what `write!` returns | `impl From<fmt::Error>`, by hand |
//! | an error of your own | `#[from]` for what `push` returns | `impl<T: Drop> From<AllocFailed<T>>`, by hand |
//! | items of one module | names that differ only in case, as `Rfc3339` and `rfc3339` | another name |
#![tactic(auto)]

pub mod client_laws;
pub mod headline;
pub mod prelude;

pub use gregorian;
pub use naive_base::{
    Datelike, Days, IsoWeek, Month, Months, NaiveDate, NaiveDateDaysBack, NaiveDateDaysIterator,
    NaiveDateTime, NaiveDateWeeksBack, NaiveDateWeeksIterator, NaiveTime, NaiveWeek, OutOfRange,
    Timelike, Weekday,
};
pub use naive_plans::{
    ClockStep, Cron, DailyTime, DayPlan, Except, Intersection, LocalTimes, PartOfDay, Plan,
    ReversibleDayPlan, ReversiblePlan, Union, last_local_time, next_local_time,
};
pub use naive_rrule::{
    Frequency, NthWeekday, Recurrence, RecurrenceEnd, RecurrenceError, RecurrenceRule,
    RuleExpected, RuleText, RuleTextError,
};
pub use offset_core::{
    Around, Choice, FixedOffset, FoldChoice, GapChoice, LocalResult, MappedLocalTime,
    OutOfRangeError, ResolveError, Taken, TimeDelta, TimeDelta as Duration,
};
pub use tz_base;
pub use tz_info;
pub use tz_saving::{Saving, daylight_saving};
pub use tz_write::{ToPosixTz, ToTzData, ToTzString, TzText};
pub use zoned_plans::{
    FirePolicy, Fires, FoldFires, GapFires, Move, Moves, StepBounds, ZonePlans, moved,
};
pub use zoned_ref::{
    KeepError, KeptChange, KeptZone, OpenError, TimeZoneRef, WallClock, ZoneChange, ZoneOffset,
};
pub use zoned_round::{DurationRound, RoundingError, SubsecRound};
pub use zoned_series::{DailyItems, DailySeries, SeriesError};
pub use zoned_time::{
    AsInstant, CalendarLength, DateTime, Instant, MAX_DATETIME, MIN_DATETIME, NaiveZoned, Offset,
    OffsetStretch, ShownDay, TimeZone, Utc, ZoneDays,
};
