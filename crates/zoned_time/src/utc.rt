//! Coordinated universal time.
ghost use Rattle.std.{proofs.Common.{rules}, specs.Prelude.{codes, pos, refl, Some}};
ghost use Rattle.zoned_time.specs.Zone.{law_by_seconds, meaning_by_seconds};

use crate::{Offset, TimeZone};
use naive_base::NaiveDateTime;
use offset_core::{FixedOffset, LocalResult};
use std::fmt;

/// UTC as a zone, and as its only offset, which is 0.
///
/// It prints as `UTC`, and by `{:?}` as `Z`, whatever width, fill or flags the formatter has.
#[derive(Clone, Copy, PartialEq, Eq, Hash)]
pub struct Utc;

impl Offset for Utc {
    ghost seconds = { λ _. pos 0 };

    fn fix(&self) -> FixedOffset {
        FixedOffset::east(0)
    }
}

impl TimeZone for Utc {
    type Offset = Utc;

    ghost meaning = { meaning_by_seconds (λ _. pos 0) (λ _ _. pos 0) };

    ghost law = { λ _. law_by_seconds (λ _. pos 0) };

    ghost within_day = { Prim.search rules };

    ghost told = { λ _. refl };

    fn from_offset(_offset: &Utc) -> Utc {
        Utc
    }

    fn offset_from_utc_datetime(&self, _utc: &NaiveDateTime) -> Utc {
        Utc
    }

    fn offset_from_local_datetime(&self, _local: &NaiveDateTime) -> LocalResult<Utc> {
        LocalResult::Single(Utc)
    }

    fn offset_before_gap(&self, _local: &NaiveDateTime) -> Option<Utc> {
        None
    }
}

impl fmt::Display for Utc {
    ghost output = { λ _. Some (codes "UTC") };

    ghost styled_output = { λ _ _. Some (codes "UTC") };

    fn fmt<W: fmt::Write>(&self, f: &mut fmt::Formatter<W>) -> fmt::Result {
        f.write_str("UTC")
    }
}

impl fmt::Debug for Utc {
    ghost debug_output = { λ _. Some (codes "Z") };

    fn fmt<W: fmt::Write>(&self, f: &mut fmt::Formatter<W>) -> fmt::Result {
        f.write_str("Z")
    }
}
