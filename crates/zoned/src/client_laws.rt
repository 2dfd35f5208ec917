//! Theorems for a client's own contracts: that a question has one answer, that an instant made from
//! one of a zone is one of that zone, and some in the shape of a client's clauses. Calling one makes
//! its statement available in the caller's proof, and does nothing when it runs.
ghost use Rattle.std.specs.Prelude.{◌≡◌, ◌≢◌, ◌⊎◌, ◌<ℤ◌, ◌≤ℤ◌, ◌+ℤ◌, ◌-ℤ◌, ◌∷◌, [], pos, List, MatchOption, Option, ℕ, ℤ};
ghost use Rattle.{
  naive_base.specs.{NaiveDate.{day_of}, NaiveDateTime.{reading}, Range.{last_second, IsInRange}},
  naive_base.specs.Reading.{total, IsEarlier, Reading},
  offset_core.specs.{LocalResult.{map_of}, WallAnswer.{IsNeverShown, IsWallAnswer}, TimeDelta.{nanos_of}},
  tz_info.specs.{Changes.{AreChanges, IsFirst}, Zones.{TypeAt, Zone}},
  zoned.specs.Headline.{IsFromFirstToLast},
  zoned_ref.specs.ZoneChange.{IsAfter},
  zoned_round.specs.{Durations.{IsRoundedTo}, Laws.{IsMultiple}, Multiples.{multiple_below, IsItselfOr}},
  zoned_time.specs.{Choice.{IsResolved}, Days.{midnight, IsZonedAtOrAfter}, Relocal.{IsRelocal}, Zone.{Each, ShowsByOffset}},
  zoned_time.specs.{DateTime.{home_law_of, wall_of, zoned, IsDaysAdded, IsIn}, Zoned.{in_seconds, IsAt}},
};

use crate::{
    Choice, DateTime, DurationRound, LocalResult, NaiveDate, NaiveDateTime, Offset, TimeDelta,
    TimeZone, ZoneDays,
};
use tz_base::Change;
pub use zoned_ref::laws::one_change;
pub use zoned_time::laws::days::{days_partition, first_instants};
pub use zoned_time::laws::{
    earlier_is_less, in_zone_after_move, in_zone_at_time, in_zone_on_day, local_times_come_back,
};

/// Two instants that one policy selects for one local time are the same, at offsets of the same seconds.
///
/// ```
/// let first = zone.resolve(&local, choice)?;
/// let second = zone.resolve(&local, choice)?;
/// client_laws::resolved_alike(&zone, &local, choice, &first, &second);
/// ```
pub fn resolved_alike<Tz: TimeZone>(
    zone: &Tz,
    local: &NaiveDateTime,
    choice: Choice,
    first: &DateTime<Tz>,
    second: &DateTime<Tz>,
)
    requires first { IsResolved (Tz.law zone.now) (reading local.now) choice (zoned first.now) }
    requires second { IsResolved (Tz.law zone.now) (reading local.now) choice (zoned second.now) }
    ensures { let seconds = Tz.Offset.seconds in
        in_seconds seconds (zoned first.now) ≡ in_seconds seconds (zoned second.now) }
{}

/// What `duration_trunc` makes of an instant isn't later, and less than the length earlier, in
/// nanoseconds of UTC, also from within a leap second. If it has the instant's offset, its clock
/// shows a multiple of the length.
///
/// ```
/// let length = TimeDelta::minutes(5);
/// let start = instant.duration_trunc(length)?;
/// client_laws::truncated(&instant, length, &start);
/// ```
pub fn truncated<Tz: TimeZone>(instant: &DateTime<Tz>, length: TimeDelta, start: &DateTime<Tz>)
    requires { let round = ⟦<DateTime<Tz> as DurationRound>⟧ in
        IsRoundedTo multiple_below round.fault (round.IsMoved instant.now)
        (total (wall_of instant.now)) (nanos_of length) instant.now (Ok start.now) }
    ensures not_later { total (zoned start.now).utc ≤ℤ total (zoned instant.now).utc }
    ensures near { (span : ℕ) → nanos_of length ≡ pos span
        → total (zoned instant.now).utc <ℤ (total (zoned start.now).utc +ℤ pos span) }
    ensures multiple { (span : ℕ) → nanos_of length ≡ pos span
        → Tz.Offset.seconds (zoned start.now).offset ≡ Tz.Offset.seconds (zoned instant.now).offset
        → IsMultiple span (total (wall_of start.now)) }
{}

/// The instants at which the clocks of a zone show a local time show it.
pub fn shown_by_clock<Tz: TimeZone>(
    zone: &Tz,
    local: &NaiveDateTime,
    instants: &LocalResult<DateTime<Tz>>,
)
    requires { IsRelocal (Tz.law zone.now) (reading local.now)
        (map_of (λ d. zoned d) instants.now) }
    ensures { Each (λ d. wall_of d ≡ reading local.now) instants.now }
{}

/// Every second at which a zone's clocks show a local time is that of its only instant, or lies
/// between those of its first and its last. If the local time has no instant, no second shows it, or
/// one that does is out of range.
///
/// ```
/// let instants = new_york.from_local_datetime(&local);
/// client_laws::shown_only(&new_york, &local, &instants);
/// ```
pub fn shown_only<Tz: TimeZone>(
    zone: &Tz,
    local: &NaiveDateTime,
    instants: &LocalResult<DateTime<Tz>>,
)
    requires { IsRelocal (Tz.law zone.now) (reading local.now)
        (map_of (λ d. zoned d) instants.now) }
    // The second `u` shows it at the offset `l - s`, and is the instant's second `s`.
    ensures some { let off = (Tz.law zone.now).off in let l = (reading local.now).s in
        instants.now ≢ LocalResult.None → IsWallAnswer (λ u s. ShowsByOffset off l u (l -ℤ s) × (s ≡ u))
        (map_of (λ d. (zoned d).utc.s) instants.now) }
    ensures none { let off = (Tz.law zone.now).off in let l = (reading local.now).s in
        instants.now ≡ LocalResult.None → IsNeverShown (ShowsByOffset off l)
        ⊎ ((u : ℤ) × (k : ℤ) × ShowsByOffset off l u k × (IsInRange u → ⊥)) }
{}

/// A second at which a zone's clocks show a local time is that of its only instant, or isn't before
/// the first of two, nor after the last.
pub fn shown_within<Tz: TimeZone>(
    zone: &Tz,
    local: &NaiveDateTime,
    instants: &LocalResult<DateTime<Tz>>,
)
    requires { IsRelocal (Tz.law zone.now) (reading local.now)
        (map_of (λ d. zoned d) instants.now) }
    ensures { (u k : ℤ) → ShowsByOffset (Tz.law zone.now).off (reading local.now).s u k
        → IsFromFirstToLast u (map_of (λ d. (zoned d).utc.s) instants.now) }
{}

/// The instants at which the clocks of a zone show a local time are instants of that zone: their
/// offsets are in force there, with abbreviation and DST flag. The clauses of `resolve`, of a series
/// and of `with_timezone` say the same of what these return.
///
/// ```
/// let instants = new_york.from_local_datetime(&local);
/// client_laws::in_zone_by_clock(&new_york, &local, &instants);
/// ```
pub fn in_zone_by_clock<Tz: TimeZone>(
    zone: &Tz,
    local: &NaiveDateTime,
    instants: &LocalResult<DateTime<Tz>>,
)
    requires { IsRelocal (Tz.law zone.now) (reading local.now)
        (map_of (λ d. zoned d) instants.now) }
    ensures { Each (λ d. IsIn (Tz.law zone.now) d) instants.now }
{}

/// What `checked_add_days` makes of an instant of a zone is one of that zone; for 0 days it is that
/// instant.
pub fn in_zone_after_days<Tz: TimeZone>(zone: &Tz, before: &DateTime<Tz>, after: &DateTime<Tz>)
    requires before { IsIn (Tz.law zone.now) before.now }
    requires after { (days : ℕ) × IsDaysAdded Tz.meaning before.now days (Some after.now) }
    ensures { IsIn (Tz.law zone.now) after.now }
{}

/// An instant that `duration_trunc` makes of an instant of a zone is one of that zone: its offset is
/// in force there, with abbreviation and DST flag.
///
/// ```
/// let hour = TimeDelta::hours(1);
/// let start = instant.duration_trunc(hour)?;
/// client_laws::in_zone_after_truncation(&new_york, &instant, hour, &start);
/// start.offset().name() // the abbreviation in force at that start
/// ```
pub fn in_zone_after_truncation<Tz: TimeZone>(
    zone: &Tz,
    before: &DateTime<Tz>,
    length: TimeDelta,
    after: &DateTime<Tz>,
)
    requires before { IsIn (Tz.law zone.now) before.now }
    requires after { let round = ⟦<DateTime<Tz> as DurationRound>⟧ in
        IsRoundedTo multiple_below round.fault (round.IsMoved before.now)
        (total (wall_of before.now)) (nanos_of length) before.now (Ok after.now) }
    ensures { IsIn (Tz.law zone.now) after.now }
{}

/// And so is one that `duration_round` or `duration_round_up` makes.
pub fn in_zone_after_rounding<Tz: TimeZone>(
    zone: &Tz,
    before: &DateTime<Tz>,
    length: TimeDelta,
    after: &DateTime<Tz>,
)
    requires before { IsIn (Tz.law zone.now) before.now }
    requires after { let round = ⟦<DateTime<Tz> as DurationRound>⟧ in (choose : ℤ → ℕ → ℤ)
        × IsRoundedTo choose round.fault (round.IsMoved before.now)
        (total (wall_of before.now)) (nanos_of length) before.now (Ok after.now) }
    ensures { IsIn (Tz.law zone.now) after.now }
{}

/// And so is one that `round_subsecs` or `trunc_subsecs` makes.
pub fn in_zone_after_digits<Tz: TimeZone>(zone: &Tz, before: &DateTime<Tz>, after: &DateTime<Tz>)
    requires before { IsIn (Tz.law zone.now) before.now }
    requires after { (behind : ℕ) × (r : Reading) × IsItselfOr (behind ≡ 0)
        (λ e. IsAt (home_law_of Tz.meaning before.now) r (zoned e))
        before.now after.now }
    ensures { IsIn (Tz.law zone.now) after.now }
{}

/// Days start in the order of their dates: that of a later date starts no earlier. Both start at once if
/// clocks were set forward over the days between.
///
/// ```
/// let start = zone.start_of_day(date)?;
/// let end = zone.start_of_day(later)?;
/// client_laws::days_rise(&zone, date, later, &start, &end);
/// ```
pub fn days_rise<Z: ZoneDays>(
    zone: &Z,
    date: NaiveDate,
    later: NaiveDate,
    start: &DateTime<Z>,
    end: &DateTime<Z>,
)
    requires start { IsZonedAtOrAfter (Z.law zone.now) (midnight (day_of date)) (zoned start.now) }
    requires end { IsZonedAtOrAfter (Z.law zone.now) (midnight (day_of later)) (zoned end.now) }
    ensures { day_of date ≤ℤ day_of later → ¬ (IsEarlier (zoned end.now).utc (zoned start.now).utc) }
{}

/// The first of the changes of a stretch is the first change from its first second on: of a stretch
/// that ends in the range of [`DateTime`], `changes(from, until)` begins with what `next_change` gives
/// at the second before `from`, if that comes before `until`, and is empty if it doesn't.
pub fn first_of_changes()
    ensures { (z : Zone) (from until : ℤ) (changes : List Change) (next : Option Change)
        → AreChanges (TypeAt z) from until changes
        → IsFirst (TypeAt z) (IsAfter (from -ℤ pos 1)) next
        → until ≤ℤ (last_second +ℤ pos 1)
        → MatchOption next (changes ≡ []) (λ c. (until ≤ℤ c.at → changes ≡ [])
        × (c.at <ℤ until → (rest : List Change) × (changes ≡ c ∷ rest))) }
{}
