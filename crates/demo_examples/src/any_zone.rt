//! A zone that is one of several kinds of zone, and asks the one that it is.
ghost use Rattle.std.{proofs.Common.{rules}, specs.Prelude.{refl}};
ghost use Rattle.demo_examples.specs.AnyZone.{ahead_of, law_of, meaning_of};

use zoned::{FixedOffset, KeptZone, LocalResult, NaiveDateTime, Offset, TimeZone, Utc, ZoneOffset};

/// UTC, a fixed offset, or the zone of a file.
#[derive(Clone, Copy, Debug)]
pub enum AnyZone {
    Utc,
    Fixed(FixedOffset),
    Named(KeptZone),
}

/// An offset of such a zone.
#[derive(Clone, Copy, Debug)]
pub enum AnyOffset {
    Utc,
    Fixed(FixedOffset),
    Named(ZoneOffset<'static>),
}

impl Offset for AnyOffset {
    ghost seconds = { ahead_of };

    fn fix(&self) -> FixedOffset {
        match self {
            AnyOffset::Utc => Utc.fix(),
            AnyOffset::Fixed(offset) => *offset,
            AnyOffset::Named(offset) => offset.fix(),
        }
    }
}

impl TimeZone for AnyZone {
    type Offset = AnyOffset;

    ghost meaning = { meaning_of };

    ghost law = { law_of };

    ghost within_day = { Prim.search rules };

    ghost told = { λ _. refl };

    fn from_offset(offset: &AnyOffset) -> AnyZone {
        match offset {
            AnyOffset::Utc => AnyZone::Utc,
            AnyOffset::Fixed(offset) => AnyZone::Fixed(*offset),
            AnyOffset::Named(offset) => AnyZone::Named(KeptZone::from_offset(offset)),
        }
    }

    fn offset_from_utc_datetime(&self, utc: &NaiveDateTime) -> AnyOffset {
        match self {
            AnyZone::Utc => AnyOffset::Utc,
            AnyZone::Fixed(offset) => AnyOffset::Fixed(*offset),
            AnyZone::Named(zone) => AnyOffset::Named(zone.offset_from_utc_datetime(utc)),
        }
    }

    fn offset_from_local_datetime(&self, local: &NaiveDateTime) -> LocalResult<AnyOffset> {
        match self {
            AnyZone::Utc => LocalResult::Single(AnyOffset::Utc),
            AnyZone::Fixed(offset) => LocalResult::Single(AnyOffset::Fixed(*offset)),
            AnyZone::Named(zone) => match zone.offset_from_local_datetime(local) {
                LocalResult::None => LocalResult::None,
                LocalResult::Single(only) => LocalResult::Single(AnyOffset::Named(only)),
                LocalResult::Ambiguous(first, last) => {
                    LocalResult::Ambiguous(AnyOffset::Named(first), AnyOffset::Named(last))
                }
            },
        }
    }

    fn offset_before_gap(&self, local: &NaiveDateTime) -> Option<AnyOffset> {
        match self {
            AnyZone::Utc => None,
            AnyZone::Fixed(_) => None,
            AnyZone::Named(zone) => Some(AnyOffset::Named(zone.offset_before_gap(local)?)),
        }
    }
}
