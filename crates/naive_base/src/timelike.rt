//! Values that show a time of day.
ghost use Rattle.std.specs.Prelude.{◌≡◌, ◌<◌, Option};
ghost use Rattle.{
  naive_base.specs.Clock.{hour_hand, minute_hand, second_hand},
  naive_base.specs.Fields.{TimeOfDay, IsGiven, with_hour, with_minute, with_second, with_fraction},
};

/// A value that shows a time of day.
///
/// A `with_*` call returns `None` if the new value is not in the range that the call names; all
/// else that the value shows stays. Nanoseconds aren't checked against the second: from 10^9 on
/// they may follow any. An instant is returned only if it is the only one that shows the new time.
///
/// ```
/// let time = NaiveTime::from_hms_opt(23, 56, 4)?;
/// let hands = (time.hour(), time.minute(), time.second()); // (23, 56, 4)
/// let at_seven = time.with_hour(7); // Some(07:56:04)
/// let on_the_hour = time.with_minute(0); // Some(23:00:04)
/// let last = time.with_second(59); // Some(23:56:59)
/// let none = time.with_second(60); // None
/// let later = time.with_nanosecond(250_000_000)?; // 23:56:04.250
/// let nanos = later.nanosecond(); // 250000000
/// ```
pub trait Timelike: Sized {
    // the time that it shows
    ghost time_shown: { Self → TimeOfDay };

    // the value that shows the time given, and all else as it was, if there is one; `None` if
    // none is given
    ghost IsAtTime: { Self → Option TimeOfDay → Option Self → Type 0 };

    /// Returns the hour, from 0 to 23.
    fn hour(&self) -> u32
        ensures value { result ≡ hour_hand (time_shown self.now).second }
        ensures bound { result < 24 };

    /// Returns the minute, from 0 to 59.
    fn minute(&self) -> u32
        ensures value { result ≡ minute_hand (time_shown self.now).second }
        ensures bound { result < 60 };

    /// Returns the second of the minute, from 0 to 59; in a leap second that of the second before
    /// it.
    fn second(&self) -> u32
        ensures value { result ≡ second_hand (time_shown self.now).second }
        ensures bound { result < 60 };

    /// Returns the nanoseconds from the start of that second, from 10^9 on those of the leap second
    /// after it.
    fn nanosecond(&self) -> u32
        ensures value { result ≡ (time_shown self.now).fraction }
        ensures bound { result < 2_000_000_000 };

    /// Returns the same with another hour, from 0 to 23, or `None`.
    fn with_hour(&self, hour: u32) -> Option<Self>
        ensures { IsGiven time_shown (IsAtTime self.now) (hour < 24)
            (with_hour (time_shown self.now) hour) result };

    /// Returns the same with another minute, from 0 to 59, or `None`.
    fn with_minute(&self, min: u32) -> Option<Self>
        ensures { IsGiven time_shown (IsAtTime self.now) (min < 60)
            (with_minute (time_shown self.now) min) result };

    /// Returns the same with another second of the minute, from 0 to 59, or `None`.
    fn with_second(&self, sec: u32) -> Option<Self>
        ensures { IsGiven time_shown (IsAtTime self.now) (sec < 60)
            (with_second (time_shown self.now) sec) result };

    /// Returns the same with other nanoseconds, below 2*10^9, or `None`: from 10^9 on those of a
    /// leap second, after whatever second.
    fn with_nanosecond(&self, nano: u32) -> Option<Self>
        ensures { IsGiven time_shown (IsAtTime self.now) (nano < 2_000_000_000)
            (with_fraction (time_shown self.now) nano) result };
}
