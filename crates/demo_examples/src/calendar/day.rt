//! Days of a zone.
ghost use Rattle.std.specs.Prelude.{◌≡◌, ◌↔◌, ◌≤ℤ◌, IfSome, IsTrue};
ghost use Rattle.zoned.specs.{DateTime.{zoned}, Days.{IsInDay}, NaiveDate.{day_of}, Reading.{IsEarlier}};

use zoned::{DateTime, KeptZone, NaiveDate, TimeDelta, TimeZone, ZoneDays, client_laws};

/// Returns how long the day of a date is: 23 or 25 hours on most days of a clock change, zero if clocks
/// skip it. `None` if an end of it is out of range.
pub fn length_of_day(zone: &KeptZone, date: NaiveDate) -> Option<TimeDelta> {
    let start = zone.start_of_day(date)?;
    let end = zone.start_of_day(date.succ_opt()?)?;
    Some(end - start)
}

/// Returns whether an instant lies in the day of a date. `None` if an end of it is out of range.
pub fn is_in_day<Z: ZoneDays, Tz: TimeZone>(
    zone: &Z,
    date: NaiveDate,
    instant: &DateTime<Tz>,
) -> Option<bool>
    ensures { IfSome result (λ b. IsTrue b
        ↔ IsInDay (Z.law zone.now).off (day_of date) (zoned instant.now).utc) }
{
    let start = zone.start_of_day(date)?;
    let end = zone.start_of_day(date.succ_opt()?)?;
    client_laws::first_instants();
    client_laws::earlier_is_less();
    Some(instant.cmp_instant(&start).is_ge() && instant.cmp_instant(&end).is_lt())
}

/// Returns whether an instant lies in the days of both dates. Each instant lies in one day, so the two
/// dates are the same if it does. `None` if an end of a day is out of range.
pub fn one_day<Z: ZoneDays, Tz: TimeZone>(
    zone: &Z,
    one: NaiveDate,
    other: NaiveDate,
    instant: &DateTime<Tz>,
) -> Option<bool>
    ensures { IfSome result (λ b. IsTrue b → day_of one ≡ day_of other) }
{
    client_laws::days_partition::<Z>();
    Some(is_in_day(zone, one, instant)? && is_in_day(zone, other, instant)?)
}

/// Returns when the days of two dates start. That of the later date starts no earlier. `None` if one
/// starts out of range.
pub fn starts<Z: ZoneDays>(
    zone: &Z,
    date: NaiveDate,
    later: NaiveDate,
) -> Option<(DateTime<Z>, DateTime<Z>)>
    ensures { IfSome result (λ starts. day_of date ≤ℤ day_of later
        → ¬ (IsEarlier (zoned starts.1).utc (zoned starts.0).utc)) }
{
    let start = zone.start_of_day(date)?;
    let end = zone.start_of_day(later)?;
    client_laws::days_rise(zone, date, later, &start, &end);
    Some((start, end))
}
