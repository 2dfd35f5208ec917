//! When the day of an instant starts.
ghost use Rattle.{
  std.specs.Prelude.{ℤ, MatchOption},
  zoned_time.specs.{DateTime.{zoned, home_law_of}, Days.{IsFirstOutOfRange, IsInDay, IsZonedAtOrAfter, midnight}},
};

use super::DateTime;
use crate::ZoneDays;

impl<Tz: ZoneDays> DateTime<Tz> {
    /// Returns the start of the day that this instant lies in; `None` if it is out of the range of
    /// [`DateTime`]. It is never after the instant.
    ///
    /// That day is the one of [`ZoneDays::date_of`]: of the date that the instant shows, unless clocks
    /// have been set back over midnight and show the date before again.
    ///
    /// ```
    /// let noon = new_york.with_ymd_and_hms(2021, 3, 14, 12, 0, 0).single()?;
    /// let start = noon.start_of_day()?; // 2021-03-14 00:00:00 -05:00, eleven hours earlier
    /// ```
    pub fn start_of_day(&self) -> Option<DateTime<Tz>>
        ensures { let law = home_law_of Tz.meaning self.now in
            (day : ℤ) × IsInDay law.off day (zoned self.now).utc
            × MatchOption result (IsFirstOutOfRange law.off (midnight day))
            (λ d. IsZonedAtOrAfter law (midnight day) (zoned d)) }
    {
        let zone = self.timezone();
        let date = zone.date_of(self);
        zone.start_of_day(date)
    }
}
