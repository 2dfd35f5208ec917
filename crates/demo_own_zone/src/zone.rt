//! The odd zone.
ghost use Rattle.std.{proofs.Common.{rules}, specs.Prelude.{◌≡◌, refl}};
ghost use Rattle.demo_own_zone.specs.{Odd.{odd_offset}, OddOffset.{ahead_of, law_of, meaning_of}};

use crate::OddOffset;
use naive_base::{NaiveDate, NaiveDateTime, NaiveTime};
use offset_core::LocalResult;
use zoned_time::{ShownDay, TimeZone, ZoneDays};

/// The zone whose clocks are a second ahead of UTC at odd Unix seconds, and show UTC at even ones.
///
/// So no clock shows an odd second of the day, and each even one is shown twice: first by a clock
/// that is a second ahead, and a second later by one that isn't.
///
/// ```
/// let one = Odd.with_ymd_and_hms(1970, 1, 1, 0, 0, 1); // None
/// let two = Odd.with_ymd_and_hms(1970, 1, 1, 0, 0, 2).map(|instant| instant.timestamp()); // Ambiguous(1, 2)
/// ```
#[derive(Clone, Copy, Debug)]
pub struct Odd;

impl TimeZone for Odd {
    type Offset = OddOffset;

    ghost meaning = { meaning_of };

    ghost law = { law_of };

    ghost within_day = { Prim.search rules };

    ghost told = { λ _. refl };

    fn from_offset(_offset: &OddOffset) -> Odd {
        Odd
    }

    fn offset_from_utc_datetime(&self, utc: &NaiveDateTime) -> OddOffset {
        offset_at(utc.secs_since_epoch())
    }

    fn offset_from_local_datetime(&self, local: &NaiveDateTime) -> LocalResult<OddOffset> {
        match offset_at(local.secs_since_epoch()) {
            OddOffset::Even => LocalResult::Ambiguous(OddOffset::Odd, OddOffset::Even),
            OddOffset::Odd => LocalResult::None,
        }
    }

    #[tactic(auto, using(crate::proofs::Walls::shown_twice))]
    fn offset_before_gap(&self, local: &NaiveDateTime) -> Option<OddOffset> {
        match offset_at(local.secs_since_epoch()) {
            OddOffset::Even => None,
            OddOffset::Odd => Some(OddOffset::Even),
        }
    }
}

impl ZoneDays for Odd {
    fn seconds_of_day(&self, date: NaiveDate) -> Option<ShownDay<i64>> {
        // Midnight is an even second, which the clocks show first a second early.
        let first = self.first_second_at_or_after(&date.and_time(NaiveTime::MIN));
        Some(ShownDay {
            first,
            last: first + 86_399,
        })
    }

    #[tactic(auto, using(crate::proofs::OddDays::reached_early, crate::proofs::OddDays::reached_itself, zoned_time::proofs::Words::casts))]
    fn first_second_at_or_after(&self, local: &NaiveDateTime) -> i64 {
        let second = local.secs_since_epoch();
        match offset_at(second) {
            OddOffset::Even => second - 1,
            OddOffset::Odd => second,
        }
    }
}

fn offset_at(second: i64) -> OddOffset
    ensures { ahead_of result ≡ odd_offset second }
{
    if second.rem_euclid(2) == 0 {
        OddOffset::Even
    } else {
        OddOffset::Odd
    }
}
