//! The offsets of a borrowed zone.
ghost use Rattle.std.{proofs.Common.{rules}, specs.{Cmp.Rules.{hashing}, Prelude.{◌≡◌, option_map, Some}, Ordering.{on}}};
ghost use Rattle.offset_core.specs.Offset.{offset_text, IsWithinDay};
ghost use Rattle.std.specs.Hash as fed;

use crate::TimeZoneRef;
use offset_core::FixedOffset;
use std::fmt;
use std::hash::{Hash, Hasher};
use tz_info::{LocalTimeType, TimeZoneName};
use zoned_time::Offset;

/// How far the clocks of a borrowed zone are from UTC at some instant.
///
/// It knows its zone, so that what is moved from that instant to another one gets the offset that
/// the zone has there: [`TimeZone::from_offset`](zoned_time::TimeZone::from_offset) leads back to
/// the zone, and not to one that is fixed at this offset. It lives no longer than the parsed zone.
///
/// It prints as its [`FixedOffset`]. Two are equal if their local time types are: seconds, DST flag
/// and abbreviation. Their zones are not compared.
///
/// ```
/// let fold = new_york.with_ymd_and_hms(2021, 11, 7, 1, 30, 0).earliest()?;
/// fold.offset().name(); // Some("EDT")
/// fold.offset().is_dst(); // true
/// ```
#[derive(Clone, Copy)]
pub struct ZoneOffset<'a> {
    zone: TimeZoneRef<'a>,
    local_type: &'a LocalTimeType,
    pub ghost within_day: { IsWithinDay local_type.now.offset },
}

impl<'a> ZoneOffset<'a> {
    ghost use Rattle.zoned_ref.specs.ZoneOffset.{type_of};

    // The offset of a type of the zone.
    pub(crate) fn new(zone: TimeZoneRef<'a>, local_type: &'a LocalTimeType) -> ZoneOffset<'a>
        requires { IsWithinDay local_type.now.offset }
        ensures zone { result.zone ≡ zone.entry }
        ensures local_type { type_of result ≡ local_type.now }
    {
        ZoneOffset { zone, local_type }
    }

    /// Returns the zone that it came from.
    pub fn zone(&self) -> TimeZoneRef<'a>
        ensures { result ≡ self.now.zone }
    {
        self.zone
    }

    /// Returns the local time type that it is the offset of.
    pub fn local_type(&self) -> &'a LocalTimeType
        ensures local_type { result.now ≡ type_of self.now }
        ensures within_day { IsWithinDay result.now.offset }
    {
        self.local_type
    }

    /// Returns the abbreviation of the local time type, such as `EST` or `-03`. `None` if the zone
    /// gives it none.
    pub fn name(&self) -> Option<&'a TimeZoneName>
        ensures { option_map (λ n. n.now) result ≡ (type_of self.now).name }
    {
        self.local_type.name()
    }

    /// Returns whether it is daylight saving time: the DST flag of the local time type.
    pub fn is_dst(&self) -> bool
        ensures { result ≡ (type_of self.now).dst }
    {
        self.local_type.is_dst()
    }
}

impl PartialEq for ZoneOffset<'_> {
    ghost use Rattle.std.specs.Cmp.{on_per};
    ghost use Rattle.tz_base.specs.contracts.local_time_type.LocalTimeTypePartialEq.TheImpl.Laws.{laws-law};
    ghost use Rattle.zoned_ref.specs.ZoneOffset.{type_of};

    ghost eq = { on type_of ⟦<LocalTimeType as PartialEq>⟧.eq };

    ghost laws = { on_per type_of laws-law };

    fn eq(&self, other: &ZoneOffset<'_>) -> bool {
        *self.local_type == *other.local_type
    }
}

impl Eq for ZoneOffset<'_> {
    ghost use Rattle.std.specs.Cmp.{on_equiv};
    ghost use Rattle.tz_base.specs.contracts.local_time_type.LocalTimeTypeEq.TheImpl.Laws.{laws-law};
    ghost use Rattle.zoned_ref.specs.ZoneOffset.{type_of};

    ghost laws = { on_equiv type_of laws-law };
}

impl Hash for ZoneOffset<'_> {
    ghost use Rattle.zoned_ref.specs.ZoneOffset.{type_of};

    ghost hash_input = { λ o. fed.i32 (type_of o).offset };

    ghost respects_eq = { Prim.search (hashing, rules) };

    fn hash<H: Hasher>(&self, state: &mut H) {
        self.local_type.offset().hash(state);
    }
}

impl Offset for ZoneOffset<'_> {
    ghost use Rattle.zoned_ref.specs.ZoneOffset.{ahead_of};

    ghost seconds = { ahead_of };

    fn fix(&self) -> FixedOffset {
        FixedOffset::east(self.local_type.offset())
    }
}

impl fmt::Display for ZoneOffset<'_> {
    ghost use Rattle.zoned_ref.specs.ZoneOffset.{ahead_of};

    ghost output = { λ offset. Some (offset_text (ahead_of offset)) };

    ghost styled_output = { λ offset _. Some (offset_text (ahead_of offset)) };

    fn fmt<W: fmt::Write>(&self, f: &mut fmt::Formatter<W>) -> fmt::Result {
        fmt::Display::fmt(&self.fix(), f)
    }
}

impl fmt::Debug for ZoneOffset<'_> {
    ghost use Rattle.zoned_ref.specs.ZoneOffset.{ahead_of};

    ghost debug_output = { λ offset. Some (offset_text (ahead_of offset)) };

    fn fmt<W: fmt::Write>(&self, f: &mut fmt::Formatter<W>) -> fmt::Result {
        fmt::Display::fmt(self, f)
    }
}
