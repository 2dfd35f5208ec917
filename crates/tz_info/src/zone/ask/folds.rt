//! The clock change of a local time: the one that skips it, or the one that sets clocks back over it.

ghost use Rattle.std.specs.Prelude.{◌↔◌, ◌≤ℤ◌, ◌+ℤ◌, IsTrue, MatchOption};
ghost use Rattle.{
  naive_base.specs.NaiveDateTime.{reading},
  offset_core.specs.WallAnswer.{IsShownOnce},
  tz_base.specs.LocalTypes.{LocalType},
  tz_info.specs.{Folds.{HasFold, SkipsOrRepeats}, Steps.{Folds.{AreEndsOfFold}, Runs.{IsEnd}}, Leaps.{IsNear}},
  tz_info.specs.{WallClocks.{Shows}, Zones.{TypeAt}},
};

use crate::answers::second_showing;
use crate::change::HeldChange;
use crate::zone::time_zone::TimeZone;
use naive_base::NaiveDateTime;
use offset_core::Around;
use tz_base::{Change, LocalTimeType};

impl TimeZone {
    /// Returns the clock change of a local time: in a gap the one that skips it, and in a fold the one that
    /// sets clocks back, so that they show it again. `None` if one second shows it.
    ///
    /// If clocks are set back more than once between the first and the last second that show the local
    /// time, it is the last change at which they showed it, or a later time, the second before.
    ///
    /// ```
    /// let local = NaiveDate::from_ymd_opt(2021, 11, 7)?.and_hms_opt(1, 30, 0)?; // in a fold
    /// let at = new_york.find_change_around(local)?.at; // 1636264800: 06:00 UTC
    /// ```
    pub fn find_change_around(&self, local: NaiveDateTime) -> Option<Change>
        ensures { MatchOption result
            ((t : LocalType) × IsShownOnce (Shows (TypeAt self.now) (reading local).s) t)
            (SkipsOrRepeats (TypeAt self.now) (reading local).s) }
    {
        let around = self.find_local_time_type_around(local);
        let local = local.secs_since_epoch();
        match around {
            Around::Single(_) => None,
            Around::Ambiguous(first, last) => {
                let first = second_showing(local, first.offset());
                let last = second_showing(local, last.offset());
                Some(self.change_back(local, first, last).copied())
            }
            Around::Gap(change) => Some(change),
        }
    }

    // The change that sets clocks back over the local time, which they show first and last at these
    // seconds. From the last one it goes back by spans: mostly by one, and at most by as many as there
    // are changes between the two.
    fn change_back(&self, local: i64, first: i64, last: i64) -> HeldChange<'_>
        requires local { IsEnd local }
        requires ends { AreEndsOfFold self.now local first last }
        requires near_first { IsNear first }
        requires near_last { IsNear last }
        ensures { HasFold (TypeAt self.now) local
            result.before.now result.after.now result.at }
    {
        let mut end = last;
        loop {
            let span = self.near_span_at(end);
            let Some(at) = span.from else {
                unreachable!();
            };
            let before = self.type_at(at - 1);
            if has_reached(at - 1, before, local) {
                return HeldChange {
                    at,
                    before,
                    after: span.local_time_type,
                };
            }
            end = at - 1;
        }
    }
}

// Whether a clock of that type shows the local time, or a later one, at the second.
fn has_reached(second: i64, local_type: &LocalTimeType, local: i64) -> bool
    requires { IsEnd local }
    ensures { IsTrue result ↔ (local ≤ℤ (second +ℤ local_type.now.offset)) }
{
    second_showing(local, local_type.offset()) <= second
}
