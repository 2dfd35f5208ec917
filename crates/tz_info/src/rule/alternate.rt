//! Two types that take turns each year.

ghost use Rattle.std.specs.Prelude.{◌≡◌, ◌↔◌, IsTrue, MatchResult};
ghost use Rattle.{
  offset_core.specs.Offset.{IsWithinDay},
  tz_info.specs.Rules.{expected_of_alternate, Alternate, IsAlternate, IsAlternateRule},
};

use crate::change::is_same_type;
use crate::rule::day::{DayTime, RuleDay};
use crate::rule::kinds::{are_steady, margin_of};
use std::fmt;
use std::marker::Model;
use tz_base::{Error, Expected, LocalTimeType};

/// Standard time and daylight saving time, and when in each year the one gives way to the other.
#[derive(Clone, Copy)]
pub struct AlternateTime {
    pub(super) std_type: LocalTimeType,
    pub(super) dst_type: LocalTimeType,
    dst_start: DayTime,
    dst_end: DayTime,
    // When in the year daylight saving time starts, by the year's kind.
    pub(super) starts: [i64; 14],
    // When it ends.
    pub(super) ends: [i64; 14],
    // How far inside its year each moment lies at least; below 0, how far outside at most.
    pub(super) margin: i64,
    // Whether clocks never change, whatever the types.
    is_steady: bool,
}

impl Model for AlternateTime {
    ghost use Rattle.std.{proofs.Common.{sym}, specs.Prelude.{◌≡◌}};
    ghost use Rattle.tz_info.specs.Rules.{Alternate, IsAlternateRule};
    ghost use Rattle.tz_info.specs.Steps.Kinds.{are_steady, ends_of, margin_of, starts_of};

    ghost Value = { Alternate };

    ghost view = { λ a. record {
      std = a.std_type;
      dst = a.dst_type;
      start = a.dst_start;
      end = a.dst_end;
    } };

    ghost invariant = { λ a. let shown : Alternate = record {
      std = a.std_type;
      dst = a.dst_type;
      start = a.dst_start;
      end = a.dst_end;
    } in
        IsAlternateRule shown
        × (a.starts ≡ starts_of shown)
        × (a.ends ≡ ends_of shown)
        × (a.margin ≡ margin_of (starts_of shown) (ends_of shown))
        × (a.is_steady ≡ are_steady (starts_of shown) (ends_of shown)) };

    ghost inverse = { λ a. record {
      std_type = a.std;
      dst_type = a.dst;
      dst_start = a.start;
      dst_end = a.end;
      starts = starts_of a;
      ends = ends_of a;
      margin = margin_of (starts_of a) (ends_of a);
      is_steady = are_steady (starts_of a) (ends_of a);
    } };

    ghost inverse_ok = { λ a h i. record {
      std_type = a.std_type;
      dst_type = a.dst_type;
      dst_start = a.dst_start;
      dst_end = a.dst_end;
      starts = sym h.1 i;
      ends = sym h.2 i;
      margin = sym h.3 i;
      is_steady = sym h.4 i;
    } };
}

impl PartialEq for AlternateTime {
    ghost use Rattle.std.specs.Cmp.{partial_equiv_from_equiv};
    ghost use Rattle.tz_base.specs.contracts.local_time_type.LocalTimeTypeEq.TheImpl.Laws.{laws-law as types};
    ghost use Rattle.tz_info.specs.{ZoneEquality.{alternate_eq}, Steps.Equivalences.{alternate_eq_equiv}};
    ghost use Rattle.tz_info.specs.contracts.rule.day.DayTimeEq.TheImpl.Laws.{laws-law as days};

    ghost eq = { alternate_eq ⟦<LocalTimeType as PartialEq>⟧.eq ⟦<DayTime as PartialEq>⟧.eq };

    ghost laws = { partial_equiv_from_equiv (alternate_eq_equiv types days) };

    fn eq(&self, other: &AlternateTime) -> bool {
        self.std_type == other.std_type
            && self.dst_type == other.dst_type
            && self.dst_start == other.dst_start
            && self.dst_end == other.dst_end
    }
}

impl Eq for AlternateTime {
    ghost use Rattle.tz_base.specs.contracts.local_time_type.LocalTimeTypeEq.TheImpl.Laws.{laws-law as types};
    ghost use Rattle.tz_info.specs.Steps.Equivalences.{alternate_eq_equiv};
    ghost use Rattle.tz_info.specs.contracts.rule.day.DayTimeEq.TheImpl.Laws.{laws-law as days};

    ghost laws = { alternate_eq_equiv types days };
}

// What the kinds of years hold follows from the days, and is not printed.
impl fmt::Debug for AlternateTime {
    fn fmt<W: fmt::Write>(&self, f: &mut fmt::Formatter<W>) -> fmt::Result {
        f.debug_struct("AlternateTime")
            .field("std_type", &self.std_type)
            .field("dst_type", &self.dst_type)
            .field("dst_start", &self.dst_start)
            .field("dst_end", &self.dst_end)
            .finish()
    }
}

impl AlternateTime {
    ghost use Rattle.tz_info.specs.Moments.{type_when, NeverChanges};

    /// The rule by which daylight saving time starts on one day and ends on another, each a
    /// number of seconds after the day's midnight: the start on the clock of standard time, the end on that
    /// of daylight saving time.
    ///
    /// # Errors
    ///
    /// [`Error::TransitionRule`] if an offset is not strictly within a day (86,400 seconds), or a
    /// time is not strictly within a week (604,800 seconds).
    #[inline(always)]
    pub fn new(
        std: LocalTimeType,
        dst: LocalTimeType,
        dst_start: RuleDay,
        dst_start_time: i32,
        dst_end: RuleDay,
        dst_end_time: i32,
    ) -> Result<AlternateTime, Error>
        ensures { let shown : Alternate = record {
          std = std;
          dst = dst;
          start = record { day = dst_start; time = dst_start_time };
          end = record { day = dst_end; time = dst_end_time };
        } in
            MatchResult result (λ a. IsAlternate shown × (a ≡ shown))
            (λ e. (e ≡ Error.TransitionRule (expected_of_alternate shown)) × ¬ (IsAlternate shown)) }
    {
        if !is_within_day(&std) || !is_within_day(&dst) {
            return Err(Error::TransitionRule(Expected::OffsetsWithinDay));
        }
        let Some(start) = dst_start.at(dst_start_time) else {
            return Err(Error::TransitionRule(Expected::StartWithinWeek));
        };
        let Some(end) = dst_end.at(dst_end_time) else {
            return Err(Error::TransitionRule(Expected::EndWithinWeek));
        };
        let starts = start.seconds_by_kind(std.offset());
        let ends = end.seconds_by_kind(dst.offset());
        let margin = margin_of(&starts, &ends);
        Ok(AlternateTime {
            std_type: std,
            dst_type: dst,
            dst_start: start,
            dst_end: end,
            starts,
            ends,
            margin,
            is_steady: are_steady(&starts, &ends),
        })
    }

    // Whether clocks are known never to change: no two seconds have different types.
    pub(crate) fn never_changes(&self) -> bool
        ensures { IsTrue result → NeverChanges self.now }
    {
        if self.is_steady {
            return true;
        }
        is_same_type(&self.std_type, &self.dst_type)
    }

    /// The type of standard time.
    pub fn std(&self) -> &LocalTimeType
        ensures value { result.now ≡ self.now.std }
        ensures rule { IsAlternateRule self.now }
    {
        &self.std_type
    }

    /// The type of daylight saving time.
    pub fn dst(&self) -> &LocalTimeType
        ensures value { result.now ≡ self.now.dst }
        ensures rule { IsAlternateRule self.now }
    {
        &self.dst_type
    }

    // The type of daylight saving time, or of standard time.
    #[inline(always)]
    pub(crate) fn type_when(&self, is_dst: bool) -> &LocalTimeType
        ensures { result.now ≡ type_when self.now is_dst }
    {
        if is_dst { self.dst() } else { self.std() }
    }

    /// The day on which daylight saving time starts.
    pub fn dst_start(&self) -> RuleDay
        ensures { result ≡ self.now.start.day }
    {
        self.dst_start.day
    }

    /// When on that day it starts: seconds after midnight by the clock of standard time, strictly
    /// within a week.
    pub fn dst_start_time(&self) -> i32
        ensures { result ≡ self.now.start.time }
    {
        self.dst_start.time
    }

    /// The day on which daylight saving time ends.
    pub fn dst_end(&self) -> RuleDay
        ensures { result ≡ self.now.end.day }
    {
        self.dst_end.day
    }

    /// When on that day it ends: seconds after midnight by the clock of daylight saving time,
    /// strictly within a week.
    pub fn dst_end_time(&self) -> i32
        ensures { result ≡ self.now.end.time }
    {
        self.dst_end.time
    }
}

// Whether the type's offset is strictly within a day.
fn is_within_day(local: &LocalTimeType) -> bool
    ensures { IsTrue result ↔ IsWithinDay local.now.offset }
{
    let offset = local.offset();
    -86_400 < offset && offset < 86_400
}
