//! What clocks show at the second of a change.

ghost use Rattle.std.specs.Prelude.{◌≡◌, false, true, MatchOption, Some};
ghost use Rattle.{
  naive_base.specs.{NaiveDateTime.{printed_reading}, Stamp.{of_secs}, Text.{reading_text}},
  zonedump_lib.specs.Words.{clock_words, is_shown},
};

use naive_base::NaiveDateTime;
use std::fmt;

// The first and the last second of the calendar's range.
const FIRST_SECOND: i128 = -8_334_601_228_800;

const LAST_SECOND: i128 = 8_210_266_876_799;

/// What UTC shows at a second of Unix time, or the second itself if the calendar's range ends before it.
#[derive(Clone, Copy)]
pub struct Clock(pub i128);

impl fmt::Display for Clock {
    ghost output = { λ clock. Some (clock_words clock.0) };

    #[tactic(auto, unfolding(crate::specs::Words::clock_words))]
    fn fmt<W: fmt::Write>(&self, f: &mut fmt::Formatter<W>) -> fmt::Result {
        match reading_at(self.0) {
            Some(shown) => write!(f, "{shown}"),
            None => write!(f, "{}", self.0),
        }
    }
}

// The local date-time of a second, if it is in the calendar's range.
fn reading_at(second: i128) -> Option<NaiveDateTime>
    ensures { MatchOption result (is_shown second ≡ false)
        (λ shown. (is_shown second ≡ true)
        × (printed_reading shown ≡ reading_text 32 (of_secs second 0))) }
{
    if second < FIRST_SECOND || second > LAST_SECOND {
        return None;
    }
    NaiveDateTime::from_timestamp_opt(second as i64, 0)
}
