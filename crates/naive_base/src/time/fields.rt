//! A time's fields, and times with a field changed.
ghost use Rattle.std.specs.Prelude.{◌≡◌, option_map};
ghost use Rattle.naive_base.specs.NaiveTime.{time_of};

use crate::{NaiveTime, Timelike};

impl Timelike for NaiveTime {
    ghost time_shown = { time_of };

    ghost IsAtTime = { λ _ time new. option_map time_of new ≡ time };

    fn hour(&self) -> u32 {
        self.secs / 3600
    }

    fn minute(&self) -> u32 {
        self.secs / 60 % 60
    }

    fn second(&self) -> u32 {
        self.secs % 60
    }

    fn nanosecond(&self) -> u32 {
        self.frac
    }

    fn with_hour(&self, hour: u32) -> Option<NaiveTime> {
        if hour > 23 {
            return None;
        }
        Some(NaiveTime::at(hour * 3600 + self.secs % 3600, self.frac))
    }

    fn with_minute(&self, min: u32) -> Option<NaiveTime> {
        if min > 59 {
            return None;
        }
        Some(NaiveTime::at(
            self.secs / 3600 * 3600 + min * 60 + self.secs % 60,
            self.frac,
        ))
    }

    fn with_second(&self, sec: u32) -> Option<NaiveTime> {
        if sec > 59 {
            return None;
        }
        Some(NaiveTime::at(self.secs / 60 * 60 + sec, self.frac))
    }

    fn with_nanosecond(&self, nano: u32) -> Option<NaiveTime> {
        if nano >= 2_000_000_000 {
            return None;
        }
        Some(NaiveTime::at(self.secs, nano))
    }
}
