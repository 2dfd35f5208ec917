//! Facts about instants, stated in the words that the library passes on. None has a proof file.
ghost use Rattle.std.specs.Int.{w64};
ghost use Rattle.std.specs.Prelude.{IfOk, IfSome, ℤ, ◌≡◌, ◌<ℤ◌, ◌≤ℤ◌, ◌+ℤ◌, ◌++◌, ◌∷◌, option_map, pos, string_bytes, FitsSigned, IfErr};
ghost use Rattle.{
  zoned.specs.{Choice.{IsUnresolved}, Relocal.{IsOnly}, Laws.{IsMultiple}, LocalTypes.{LocalType}},
  zoned.specs.{DateTime.{wall_of, zoned, IsIn}, NaiveDateTime.{reading}, Reading.{reading_at, total}},
  zoned.specs.{FixedOffset.{printed_offset, seconds_of}, KeptZone.{change_of, law_of, off_of, zone_of}},
  zoned.specs.{NaiveDate.{day_of}, Range.{IsInRange}, Zone.{ShowsByOffset}, Zoned.{in_seconds}, Zones.{TypeAt}},
};

use std::alloc::{AllocError, Global};
use zoned::tz_info::TimeZoneName;
use zoned::{
    Choice, DailySeries, DateTime, Days, DurationRound, FixedOffset, KeptChange, KeptZone,
    LocalResult, Months, NaiveDate, NaiveDateTime, NaiveTime, Offset, ResolveError, RoundingError,
    TimeDelta, TimeZone, Timelike, Utc, client_laws,
};

/// The seconds from 1970-01-01 00:00:00 UTC to an instant.
pub fn seconds(instant: &DateTime<Utc>) -> i64
    ensures { result ≡ (zoned instant.now).utc.s }
{
    instant.timestamp()
}

/// An instant, by the clocks of another zone.
pub fn elsewhere<A: TimeZone, B: TimeZone>(instant: &DateTime<A>, zone: &B) -> DateTime<B>
    // It is the same instant.
    ensures { (zoned result).utc ≡ (zoned instant.now).utc }
{
    instant.with_timezone(zone)
}

/// The instant at which a daily job runs: when the clocks of its zone show 09:00 on a day.
pub fn fire<Tz: TimeZone>(zone: &Tz, day: &NaiveDate) -> Option<DateTime<Tz>>
    ensures nine { IfSome result (λ d. wall_of d ≡ reading_at (day_of day.now) 32_400 0) }
    ensures only { IsOnly (Tz.law zone.now) (reading_at (day_of day.now) 32_400 0)
        (option_map (λ d. zoned d) result) }
{
    let nine = day.and_hms_opt(9, 0, 0)?;
    zone.from_local_datetime(&nine).single()
}

/// What a policy selects for a local time, asked for twice.
pub fn twice<Tz: TimeZone>(
    zone: &Tz,
    local: &NaiveDateTime,
    choice: Choice,
) -> Result<(DateTime<Tz>, DateTime<Tz>), ResolveError>
    ensures same { IfOk result (λ pair. in_seconds Tz.Offset.seconds (zoned pair.0)
        ≡ in_seconds Tz.Offset.seconds (zoned pair.1)) }
    ensures error { let law = Tz.law zone.now in
        IfErr result (λ e. IsUnresolved law.off (reading local.now).s choice e) }
{
    let first = zone.resolve(local, choice)?;
    let second = zone.resolve(local, choice)?;
    client_laws::resolved_alike(zone, local, choice, &first, &second);
    Ok((first, second))
}

/// The abbreviation of the local time in a zone at an instant, given by its UTC date-time.
pub fn abbreviation(zone: &KeptZone, utc: &NaiveDateTime) -> Option<TimeZoneName>
    ensures { (t : LocalType) × TypeAt (zone_of zone.now) (reading utc.now).s t
        × (t.name ≡ result) }
{
    zone.offset_from_utc_datetime(utc).name().copied()
}

/// The abbreviation that an instant of a zone shows, and whether it is daylight saving time: those
/// of the type of local time in force at its second.
pub fn clock_of(zone: &KeptZone, instant: &DateTime<KeptZone>) -> (Option<TimeZoneName>, bool)
    ensures { IsIn (law_of zone.now) instant.now
        → (t : LocalType) × TypeAt (zone_of zone.now) (zoned instant.now).utc.s t
        × (t.name ≡ result.0) × (t.dst ≡ result.1) }
{
    let offset = instant.offset();
    (offset.name().copied(), offset.is_dst())
}

/// The offset of a zone at an instant, and the instant at which its clocks change next: what to
/// keep where many instants are asked in order of time.
pub fn offset_until<Tz: TimeZone>(
    zone: &KeptZone,
    instant: &DateTime<Tz>,
) -> (FixedOffset, Option<DateTime<KeptZone>>)
    // Up to that instant, or without one to the end of the range, it is the zone's offset.
    ensures { (u : ℤ) → IsInRange u → (zoned instant.now).utc.s ≤ℤ u
        → IfSome result.1 (λ change. u <ℤ (zoned change).utc.s)
        → off_of zone.now u ≡ seconds_of result.0 }
{
    let offset = zone.offset_from_utc_datetime(&instant.naive_utc()).fix();
    match zone.next_change(instant) {
        Some(change) => (offset, Some(change.at)),
        None => (offset, None),
    }
}

/// When the clocks of a zone change next, asked twice.
pub fn next_change_twice<Tz: TimeZone>(
    zone: &KeptZone,
    instant: &DateTime<Tz>,
) -> (Option<KeptChange>, Option<KeptChange>)
    ensures { option_map change_of result.0 ≡ option_map change_of result.1 }
{
    client_laws::one_change();
    (zone.next_change(instant), zone.next_change(instant))
}

/// The instant of a line of a log, by the clock of a zone and the line before it.
pub fn place<Tz: TimeZone>(
    zone: &Tz,
    shown: &NaiveDateTime,
    before: &DateTime<Tz>,
) -> Option<DateTime<Tz>>
    // The clock shows what the line says.
    ensures shown { IfSome result (λ d. wall_of d ≡ reading shown.now) }
    // It isn't earlier than the line before, if the clock shows that then or later.
    ensures in_order { let s = (zoned before.now).utc.s in (u k : ℤ)
        → ShowsByOffset (Tz.law zone.now).off (reading shown.now).s u k → s ≤ℤ u
        → IfSome result (λ d. s ≤ℤ (zoned d).utc.s) }
{
    let instants = zone.from_local_datetime(shown);
    client_laws::shown_by_clock(zone, shown, &instants);
    client_laws::shown_within(zone, shown, &instants);
    match instants {
        LocalResult::None => None,
        LocalResult::Single(only) => Some(only),
        LocalResult::Ambiguous(first, last) => {
            if first.timestamp() < before.timestamp() {
                Some(last)
            } else {
                Some(first)
            }
        }
    }
}

/// The first instant after another one at which the clock of a zone shows a local time, of the first
/// and the last of them.
pub fn next_shown<Tz: TimeZone>(
    zone: &Tz,
    shown: &NaiveDateTime,
    after: &DateTime<Tz>,
) -> Option<DateTime<Tz>>
    ensures shown { IfSome result (λ d. wall_of d ≡ reading shown.now) }
    ensures later { IfSome result (λ d. (zoned after.now).utc.s <ℤ (zoned d).utc.s) }
{
    let instants = zone.from_local_datetime(shown);
    client_laws::local_times_come_back::<Tz>();
    match instants {
        LocalResult::None => None,
        LocalResult::Single(only) => {
            if after.timestamp() < only.timestamp() {
                Some(only)
            } else {
                None
            }
        }
        LocalResult::Ambiguous(first, last) => {
            if after.timestamp() < first.timestamp() {
                Some(first)
            } else if after.timestamp() < last.timestamp() {
                Some(last)
            } else {
                None
            }
        }
    }
}

/// The instant a length after the one that a policy selects for a local time.
pub fn later<Tz: TimeZone>(
    zone: &Tz,
    local: &NaiveDateTime,
    choice: Choice,
    length: TimeDelta,
) -> Option<DateTime<Tz>>
    // Its offset is in force then, with all its parts; so in those below.
    ensures { IfSome result (IsIn (Tz.law zone.now)) }
{
    let first = zone.resolve(local, choice).ok()?;
    let later = first.checked_add_signed(length)?;
    client_laws::in_zone_after_move(zone, &first, &later);
    Some(later)
}

/// Some months after an instant, at an hour.
pub fn months_later<Tz: TimeZone>(
    zone: &Tz,
    instant: &DateTime<Tz>,
    months: Months,
    hour: u32,
) -> Option<DateTime<Tz>>
    requires { IsIn (Tz.law zone.now) instant.now }
    ensures { IfSome result (IsIn (Tz.law zone.now)) }
{
    let there = instant.checked_add_months(months)?;
    client_laws::in_zone_on_day(zone, instant, &there);
    let then = there.with_hour(hour)?;
    client_laws::in_zone_at_time(zone, &there, &then);
    Some(then)
}

/// An instant truncated to an hour is an instant of its zone. It need not be the start of an hour there:
/// in Lord Howe, whose clocks are set by half an hour, 2021-04-04 01:45:00 +10:30 becomes 01:30:00 +11:00.
pub fn truncated_in_zone<Tz: TimeZone>(zone: &Tz, instant: &DateTime<Tz>) -> Option<DateTime<Tz>>
    requires { IsIn (Tz.law zone.now) instant.now }
    ensures { IfSome result (IsIn (Tz.law zone.now)) }
{
    let hour = TimeDelta::hours(1);
    let truncated = instant.duration_trunc(hour).ok()?;
    client_laws::in_zone_after_truncation(zone, instant, hour, &truncated);
    Some(truncated)
}

/// The only instant at which the clocks of a zone show a local time, some days later.
pub fn days_later<Tz: TimeZone>(
    zone: &Tz,
    local: &NaiveDateTime,
    days: Days,
) -> Option<DateTime<Tz>>
    ensures { IfSome result (IsIn (Tz.law zone.now)) }
{
    let instants = zone.from_local_datetime(local);
    client_laws::in_zone_by_clock(zone, local, &instants);
    let first = instants.single()?;
    let later = first.checked_add_days(days)?;
    client_laws::in_zone_after_days(zone, &first, &later);
    Some(later)
}

/// The instant of a daily job on the n-th day after its first.
pub fn on_day<Tz: TimeZone>(
    zone: &Tz,
    first: NaiveDate,
    time: NaiveTime,
    choice: Choice,
    days: u32,
) -> Option<DateTime<Tz>>
    ensures { IfSome result (IsIn (Tz.law zone.now)) }
{
    DailySeries::new(*zone, first, time, choice).at(days).ok()
}

/// The start of the five minutes in which an instant lies.
pub fn bucket(instant: DateTime<Utc>) -> Result<DateTime<Utc>, RoundingError>
    ensures multiple { IfOk result (λ start. IsMultiple 300_000_000_000 (total (wall_of start))) }
    ensures not_later { IfOk result (λ start. total (zoned start).utc
        ≤ℤ total (zoned instant).utc) }
    ensures near { IfOk result (λ start. total (zoned instant).utc
        <ℤ (total (zoned start).utc +ℤ pos 300_000_000_000)) }
    // The nanoseconds since 1970 of an instant that has no start don't fit an `i64`.
    ensures error { IfErr result (λ e. FitsSigned w64 (total (wall_of instant)) → ⊥) }
{
    let length = TimeDelta::minutes(5);
    let start = instant.duration_trunc(length)?;
    client_laws::truncated(&instant, length, &start);
    Ok(start)
}

/// The place of each value of a lookup's answer, reported by a closure that counts its calls: it is
/// called once for each, in order.
pub fn places(values: LocalResult<u32>) -> LocalResult<u32>
    ensures single { values ≡ LocalResult.Single 5 → result ≡ LocalResult.Single 0 }
    ensures both { values ≡ LocalResult.Ambiguous 7 9 → result ≡ LocalResult.Ambiguous 0 1 }
{
    let mut calls = 0u32;
    values.map(|_value| {
        let place = calls;
        calls = calls.wrapping_add(1);
        place
    })
}

/// An offset, printed for users and for programmers: what `format!` gives is what the definition
/// says.
pub fn printed_both_ways(alloc: Global, offset: FixedOffset) -> Result<String, AllocError>
    ensures { IfOk result (λ text. string_bytes text
        ≡ printed_offset offset ++ (32 ∷ printed_offset offset)) }
{
    format!(in alloc; "{offset} {offset:?}")
}
