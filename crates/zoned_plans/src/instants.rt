//! Instants of whole seconds.
ghost use Rattle.std.specs.Prelude.{◌≡◌, ◌-ℤ◌, pos, MatchOption};
ghost use Rattle.{
  naive_base.specs.{Range.{IsInRange}, Stamp.{of_secs}},
  zoned_plans.specs.Fires.{second_before},
  zoned_time.specs.{DateTime.{zoned}, Zoned.{IsAt}},
};

use zoned_time::{DateTime, TimeZone, Utc};

// The instant of a second, if it is in range.
pub(crate) fn instant_at<Tz: TimeZone>(zone: &Tz, second: i64) -> Option<DateTime<Tz>>
    ensures { MatchOption result (IsInRange second → ⊥)
        (λ d. IsInRange second × IsAt (Tz.law zone.now) (of_secs second 0) (zoned d)) }
{
    zone.timestamp_opt(second, 0).single()
}

// The same in UTC.
pub(crate) fn utc_at(second: i64) -> Option<DateTime<Utc>>
    ensures { MatchOption result (IsInRange second → ⊥)
        (λ d. IsInRange second × ((zoned d).utc.s ≡ second)) }
{
    instant_at(&Utc, second)
}

// The instant of the second before another one, if it is in range.
pub(crate) fn utc_before(second: i64) -> Option<DateTime<Utc>>
    ensures { MatchOption result (IsInRange (second -ℤ pos 1) → ⊥)
        (λ d. IsInRange (second -ℤ pos 1) × ((zoned d).utc.s ≡ second -ℤ pos 1)) }
{
    if second == i64::MIN {
        return None;
    }
    utc_at(second - 1)
}

// The last whole second before an instant.
pub(crate) fn last_second_before<Tz: TimeZone>(instant: &DateTime<Tz>) -> i64
    ensures { result ≡ second_before (zoned instant.now).utc }
{
    if instant.timestamp_subsec_nanos() > 0 {
        instant.timestamp()
    } else {
        instant.timestamp() - 1
    }
}
