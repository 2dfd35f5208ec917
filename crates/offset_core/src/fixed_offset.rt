//! Fixed offsets from UTC.
ghost use Rattle.std.specs.Prelude.{◌≡◌, neg_ℤ, ◌+◌, ◌<◌, ◌≤◌, ◌++◌, length, Some};
ghost use Rattle.offset_core.specs.Offset.{IsWithinDay, short_clock_text};

use crate::ShortText;
use std::fmt;

/// How many seconds a clock is ahead of UTC: a whole number, strictly less than a day either way.
///
/// It prints as `+HH:MM` or `-HH:MM`, with `:SS` after it if it isn't a whole number of minutes,
/// whatever width, fill or flags the formatter has. `{:?}` prints the same:
///
/// ```
/// let india = FixedOffset::east_opt(19_800); // Some(+05:30)
/// let last = FixedOffset::west_opt(86_399); // Some(-23:59:59)
/// let none = FixedOffset::west_opt(86_400); // None
/// ```
#[derive(Clone, Copy, PartialEq, Eq, Hash)]
pub struct FixedOffset {
    local_minus_utc: i32,
    pub ghost within_day: { IsWithinDay local_minus_utc },
}

const SECONDS_PER_DAY: i32 = 86_400;

impl FixedOffset {
    ghost use Rattle.offset_core.specs.FixedOffset.{seconds_of, IsOffsetOf};

    /// Returns the offset of that many seconds ahead of UTC, as clocks east of Greenwich are, or
    /// `None` if it is a day or more either way.
    ///
    /// ```
    /// let india = FixedOffset::east_opt(19_800); // Some(+05:30)
    /// ```
    pub fn east_opt(secs: i32) -> Option<FixedOffset>
        ensures { IsOffsetOf secs result }
    {
        if -SECONDS_PER_DAY < secs && secs < SECONDS_PER_DAY {
            Some(FixedOffset {
                local_minus_utc: secs,
            })
        } else {
            None
        }
    }

    /// Returns the offset of that many seconds behind UTC, as clocks west of Greenwich are, or
    /// `None` if it is a day or more either way.
    ///
    /// ```
    /// let last = FixedOffset::west_opt(86_399); // Some(-23:59:59)
    /// let none = FixedOffset::west_opt(86_400); // None
    /// ```
    pub fn west_opt(secs: i32) -> Option<FixedOffset>
        ensures { IsOffsetOf (neg_ℤ secs) result }
    {
        FixedOffset::east_opt(secs.checked_neg()?)
    }

    /// Returns the offset of that many seconds ahead of UTC. Requires: less than a day in either
    /// direction, so that [`FixedOffset::east_opt`] returns `Some`.
    pub fn east(secs: i32) -> FixedOffset
        requires { IsWithinDay secs }
        ensures { seconds_of result ≡ secs }
    {
        FixedOffset {
            local_minus_utc: secs,
        }
    }

    /// Returns the offset of that many seconds behind UTC. Requires: less than a day in either
    /// direction, so that [`FixedOffset::west_opt`] returns `Some`.
    pub fn west(secs: i32) -> FixedOffset
        requires { IsWithinDay secs }
        ensures { seconds_of result ≡ neg_ℤ secs }
    {
        FixedOffset {
            local_minus_utc: -secs,
        }
    }

    /// Returns the seconds to add to UTC to get the local time.
    pub fn local_minus_utc(&self) -> i32
        ensures { result ≡ seconds_of self.now }
    {
        self.local_minus_utc
    }

    /// Returns the seconds to add to the local time to get UTC.
    pub fn utc_minus_local(&self) -> i32
        ensures { result ≡ neg_ℤ (seconds_of self.now) }
    {
        -self.local_minus_utc
    }
}

impl fmt::Display for FixedOffset {
    ghost use Rattle.offset_core.specs.FixedOffset.{printed_offset};

    ghost output = { λ offset. Some (printed_offset offset) };

    ghost styled_output = { λ offset _. Some (printed_offset offset) };

    fn fmt<W: fmt::Write>(&self, f: &mut fmt::Formatter<W>) -> fmt::Result {
        let mut text = ShortText::new();
        text.push(if self.local_minus_utc < 0 { b'-' } else { b'+' });
        push_clock(self.local_minus_utc.unsigned_abs(), &mut text);
        f.write_str(text.as_str())
    }
}

impl fmt::Debug for FixedOffset {
    ghost use Rattle.offset_core.specs.FixedOffset.{printed_offset};

    ghost debug_output = { λ offset. Some (printed_offset offset) };

    fn fmt<W: fmt::Write>(&self, f: &mut fmt::Formatter<W>) -> fmt::Result {
        fmt::Display::fmt(self, f)
    }
}

// Hours and minutes, and the seconds if there are any.
fn push_clock(seconds: u32, text: &mut ShortText)
    requires seconds { seconds < 86_400 }
    requires room { length text.old + 8 ≤ 32 }
    ensures { text.new ≡ text.old ++ short_clock_text seconds }
{
    text.push_two_digits(seconds / 3600);
    text.push(b':');
    text.push_two_digits(seconds / 60 % 60);
    let second = seconds % 60;
    if second == 0 {
        return;
    }
    text.push(b':');
    text.push_two_digits(second);
}
