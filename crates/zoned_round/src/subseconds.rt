//! Rounding to digits of a second.
ghost use Rattle.std.specs.Prelude.{◌≡◌, ◌<◌, ◌≤◌, ◌-◌, ◌%◌, ◌≤ℤ◌, ◌-ℤ◌, neg_ℤ, pos, ⊤};
ghost use Rattle.{
  naive_base.specs.{Fields.{reading_on, time_at}, NaiveDateTime.{reading}, NaiveTime.{time_of}, Range.{IsInRange}},
  naive_base.specs.Reading.{Reading},
  offset_core.specs.TimeDelta.{nanos_of},
  zoned_round.specs.{Multiples.{nearest_multiple}, Subseconds.{nanos_per_digit, IsRounded, IsTruncated, MayRound}},
  zoned_time.specs.{DateTime.{home_law_of, zoned}, Zoned.{IsAt}},
};

use naive_base::{NaiveDateTime, NaiveTime, Timelike};
use offset_core::TimeDelta;
use zoned_time::{DateTime, TimeZone};

/// Values that are rounded to digits of a second.
///
/// With no digits the last one counts 10^9 nanoseconds, with one digit a tenth of that, and so on;
/// with nine digits or more a call returns the value itself, and so it does if nothing is after the
/// last digit. A leap second's nanoseconds are from 10^9 to below 2*10^9.
pub trait SubsecRound: Sized {
    // its second and nanoseconds, a time's on the day 0
    ghost shown: { Self → Reading };

    // the value that shows others in their place
    ghost IsShowing: { Self → Reading → Self → Type 0 };

    // if there is one
    ghost MayShow: { Self → Reading → Type 0 };

    /// Returns the nearest value with that many digits of a second; if two are as near, the later
    /// one. It may be in the next second: of a value with a date it must be in range, and a time of
    /// day goes on at midnight.
    ///
    /// ```
    /// let noon = date.and_hms_nano_opt(12, 0, 0, 154_000_000)?; // 2018-01-11 12:00:00.154
    /// let hundredths = noon.round_subsecs(2); // 2018-01-11 12:00:00.150
    /// let tenths = noon.round_subsecs(1); // 2018-01-11 12:00:00.200
    /// ```
    fn round_subsecs(self, digits: u16) -> Self
        requires { MayRound (MayShow self) (shown self) digits }
        ensures { IsRounded (IsShowing self) (shown self) digits self result };

    /// Returns the value cut after that many digits of its second.
    ///
    /// ```
    /// let noon = date.and_hms_nano_opt(12, 0, 0, 154_000_000)?; // 2018-01-11 12:00:00.154
    /// let hundredths = noon.trunc_subsecs(2); // 2018-01-11 12:00:00.150
    /// let tenths = noon.trunc_subsecs(1); // 2018-01-11 12:00:00.100
    /// ```
    fn trunc_subsecs(self, digits: u16) -> Self
        ensures { IsTruncated (IsShowing self) (shown self) digits self result };
}

fn nanos_per_digit(digits: u16) -> u32
    ensures is { result ≡ nanos_per_digit digits }
    ensures some { 0 < result }
    ensures bound { result ≤ 1_000_000_000 }
{
    match digits {
        0 => 1_000_000_000,
        1 => 100_000_000,
        2 => 10_000_000,
        3 => 1_000_000,
        4 => 100_000,
        5 => 10_000,
        6 => 1_000,
        7 => 100,
        8 => 10,
        _ => 1,
    }
}

// The nanoseconds after the last digit.
fn nanos_behind(nanos: u32, digits: u16) -> u32
    ensures { result ≡ nanos % nanos_per_digit digits }
{
    nanos % nanos_per_digit(digits)
}

// From that many nanoseconds to the nearest number that the digits show.
fn way_to_digits(nanos: u32, digits: u16) -> TimeDelta
    ensures is { let n = pos nanos in
        nanos_of result ≡ nearest_multiple n (nanos_per_digit digits) -ℤ n }
    ensures early { neg_ℤ (pos 1_000_000_000) ≤ℤ nanos_of result }
    ensures late { nanos_of result ≤ℤ pos 1_000_000_000 }
{
    let behind = nanos_behind(nanos, digits);
    let ahead = nanos_per_digit(digits) - behind;
    if behind < ahead {
        TimeDelta::nanoseconds(-(behind as i64))
    } else {
        TimeDelta::nanoseconds(ahead as i64)
    }
}

impl SubsecRound for NaiveDateTime {
    ghost shown = { reading };

    ghost IsShowing = { λ _ r answer. reading answer ≡ r };

    ghost MayShow = { λ _ r. IsInRange r.s };

    fn round_subsecs(self, digits: u16) -> NaiveDateTime {
        if nanos_behind(NaiveDateTime::nanosecond(&self), digits) == 0 {
            return self;
        }
        self.checked_add_signed(way_to_digits(NaiveDateTime::nanosecond(&self), digits))
            .unwrap()
    }

    fn trunc_subsecs(self, digits: u16) -> NaiveDateTime {
        let nanos = NaiveDateTime::nanosecond(&self);
        match nanos_behind(nanos, digits) {
            0 => self,
            behind => self.with_nanosecond(nanos - behind).unwrap(),
        }
    }
}

impl<Tz: TimeZone> SubsecRound for DateTime<Tz> {
    ghost shown = { λ d. (zoned d).utc };

    ghost IsShowing = { λ d r answer. IsAt (home_law_of Tz.meaning d) r (zoned answer) };

    ghost MayShow = { λ _ r. IsInRange r.s };

    fn round_subsecs(self, digits: u16) -> DateTime<Tz> {
        let nanos = self.naive_utc().nanosecond();
        if nanos_behind(nanos, digits) == 0 {
            return self;
        }
        self.checked_add_signed(way_to_digits(nanos, digits))
            .unwrap()
    }

    fn trunc_subsecs(self, digits: u16) -> DateTime<Tz> {
        match nanos_behind(self.naive_utc().nanosecond(), digits) {
            0 => self,
            behind => instant_cut(self, behind),
        }
    }
}

impl SubsecRound for NaiveTime {
    ghost shown = { λ time. reading_on (pos 0) (time_of time) };

    ghost IsShowing = { λ _ r answer. time_of answer ≡ time_at r };

    ghost MayShow = { λ _ _. ⊤ };

    fn round_subsecs(self, digits: u16) -> NaiveTime {
        if nanos_behind(NaiveTime::nanosecond(&self), digits) == 0 {
            return self;
        }
        on_day_0(self).round_subsecs(digits).time()
    }

    fn trunc_subsecs(self, digits: u16) -> NaiveTime {
        let fraction = NaiveTime::nanosecond(&self);
        match nanos_behind(fraction, digits) {
            0 => self,
            behind => self.with_nanosecond(fraction - behind).unwrap(),
        }
    }
}

// That time of 1970-01-01.
fn on_day_0(time: NaiveTime) -> NaiveDateTime
    ensures { reading result ≡ reading_on (pos 0) (time_of time) }
{
    NaiveDateTime::default().date().and_time(time)
}

// The instant of the same second, that many nanoseconds earlier.
fn instant_cut<Tz: TimeZone>(here: DateTime<Tz>, behind: u32) -> DateTime<Tz>
    requires { behind ≤ (zoned here).utc.f }
    ensures { let utc = (zoned here).utc in
        IsAt (home_law_of Tz.meaning here) (record { s = utc.s; f = utc.f - behind }) (zoned result) }
{
    here.checked_sub_signed(TimeDelta::nanoseconds(behind as i64))
        .unwrap()
}
