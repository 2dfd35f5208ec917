//! A custom zone, whose clocks are never set.
ghost use Rattle.std.{proofs.Common.{rules}, specs.Prelude.{◌≡◌, refl}};
ghost use Rattle.{
  demo_examples.specs.Nepal.{ahead_of_utc, law_of, meaning_of},
  zoned.specs.FixedOffset.{seconds_of},
};

use zoned::{FixedOffset, LocalResult, NaiveDateTime, TimeZone};

/// Nepal's clocks since 1986: 5 hours and 45 minutes ahead of UTC.
#[derive(Clone, Copy, Debug)]
pub struct Nepal;

impl TimeZone for Nepal {
    type Offset = FixedOffset;

    ghost meaning = { meaning_of };

    ghost law = { law_of };

    ghost within_day = { Prim.search rules };

    ghost told = { λ _. refl };

    fn from_offset(_offset: &FixedOffset) -> Nepal {
        Nepal
    }

    fn offset_from_utc_datetime(&self, _utc: &NaiveDateTime) -> FixedOffset {
        ahead()
    }

    fn offset_from_local_datetime(&self, _local: &NaiveDateTime) -> LocalResult<FixedOffset> {
        LocalResult::Single(ahead())
    }

    fn offset_before_gap(&self, _local: &NaiveDateTime) -> Option<FixedOffset> {
        None
    }
}

// The offset of each instant.
fn ahead() -> FixedOffset
    ensures { seconds_of result ≡ ahead_of_utc }
{
    FixedOffset::east(20_700)
}
