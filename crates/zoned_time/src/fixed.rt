//! Zones of one offset.
ghost use Rattle.{
  offset_core.specs.FixedOffset.{seconds_of},
  std.specs.Prelude.{refl},
  zoned_time.specs.Zone.{law_by_seconds, meaning_by_seconds},
};

use crate::{Offset, TimeZone};
use naive_base::NaiveDateTime;
use offset_core::{FixedOffset, LocalResult};

impl Offset for FixedOffset {
    ghost seconds = { seconds_of };

    fn fix(&self) -> FixedOffset {
        *self
    }
}

impl TimeZone for FixedOffset {
    type Offset = FixedOffset;

    ghost meaning = { meaning_by_seconds seconds_of (λ offset _. seconds_of offset) };

    ghost law = { λ zone. law_by_seconds (λ _. seconds_of zone) };

    ghost within_day = { λ zone _ _. zone.within_day };

    ghost told = { λ _. refl };

    fn from_offset(offset: &FixedOffset) -> FixedOffset {
        *offset
    }

    fn offset_from_utc_datetime(&self, _utc: &NaiveDateTime) -> FixedOffset {
        *self
    }

    fn offset_from_local_datetime(&self, _local: &NaiveDateTime) -> LocalResult<FixedOffset> {
        LocalResult::Single(*self)
    }

    fn offset_before_gap(&self, _local: &NaiveDateTime) -> Option<FixedOffset> {
        None
    }
}
