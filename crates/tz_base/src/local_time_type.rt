//! Local time types.

ghost use Rattle.std.specs.Prelude.{◌≡◌, option_map, pos, MatchResult};
ghost use Rattle.tz_base.specs.{LocalTypes.{expected_of_type, plain_type, IsUtOffset}, Names.{IsNameOrNone}};

use crate::error::{Error, Expected};
use crate::name::TimeZoneName;
use std::marker::Model;

/// A local time type: how far its clock is from UTC, whether it is daylight saving time, and its
/// abbreviation.
#[derive(Clone, Copy, Debug, PartialEq, Eq)]
pub struct LocalTimeType {
    ut_offset: i32,
    is_dst: bool,
    designation: Option<TimeZoneName>,
}

impl Model for LocalTimeType {
    ghost use Rattle.tz_base.specs.LocalTypes.{LocalType, IsUtOffset};

    ghost Value = { LocalType };

    ghost view = { λ t. record { offset = t.ut_offset; dst = t.is_dst; name = t.designation } };

    ghost invariant = { λ t. IsUtOffset t.ut_offset };

    ghost inverse = { λ t. record { ut_offset = t.offset; is_dst = t.dst; designation = t.name } };
}

impl LocalTimeType {
    /// Returns the type of that offset, in seconds east of UTC, with that DST flag, and with that
    /// name or none.
    ///
    /// ```
    /// let summer = LocalTimeType::new(7_200, true, Some(b"CEST".as_slice()))?;
    /// let seconds = summer.offset(); // 7200
    /// ```
    ///
    /// # Errors
    ///
    /// [`Error::LocalTimeType`] if the offset is `i32::MIN`, or if the name is one that
    /// [`TimeZoneName::new`] rejects.
    pub fn new(ut_offset: i32, is_dst: bool, name: Option<&[u8]>) -> Result<LocalTimeType, Error>
        ensures { let bytes = option_map (λ n. n.now) name.entry in
            MatchResult result
            (λ t. IsUtOffset ut_offset × IsNameOrNone bytes
            × (t ≡ record { offset = ut_offset; dst = is_dst; name = bytes }))
            (λ e. (e ≡ Error.LocalTimeType (expected_of_type ut_offset bytes))
            × ¬ (IsUtOffset ut_offset × IsNameOrNone bytes)) }
    {
        if ut_offset == i32::MIN {
            return Err(Error::LocalTimeType(Expected::OffsetAboveI32Min));
        }
        let designation = match name {
            Some(bytes) => Some(TimeZoneName::new(bytes)?),
            None => None,
        };
        Ok(LocalTimeType {
            ut_offset,
            is_dst,
            designation,
        })
    }

    /// Returns the type of that offset, in seconds east of UTC, which is not daylight saving time
    /// and has no name.
    ///
    /// # Errors
    ///
    /// [`Error::LocalTimeType`] if the offset is `i32::MIN`.
    pub fn with_offset(ut_offset: i32) -> Result<LocalTimeType, Error>
        ensures { MatchResult result (λ t. IsUtOffset ut_offset × (t ≡ plain_type ut_offset))
            (λ e. (e ≡ Error.LocalTimeType Expected.OffsetAboveI32Min) × ¬ (IsUtOffset ut_offset)) }
    {
        if ut_offset == i32::MIN {
            return Err(Error::LocalTimeType(Expected::OffsetAboveI32Min));
        }
        Ok(LocalTimeType {
            ut_offset,
            is_dst: false,
            designation: None,
        })
    }

    /// Returns the type of UTC: the offset 0, not daylight saving time, without a name.
    pub fn utc() -> LocalTimeType
        ensures { result ≡ plain_type (pos 0) }
    {
        LocalTimeType {
            ut_offset: 0,
            is_dst: false,
            designation: None,
        }
    }

    /// Returns the offset, in seconds east of UTC.
    #[inline(always)]
    pub fn offset(&self) -> i32
        ensures value { result ≡ self.now.offset }
        ensures bound { IsUtOffset self.now.offset }
    {
        self.ut_offset
    }

    /// Returns whether it is daylight saving time.
    pub fn is_dst(&self) -> bool
        ensures { result ≡ self.now.dst }
    {
        self.is_dst
    }

    /// Returns its name; `None` if it has none.
    pub fn name(&self) -> Option<&TimeZoneName>
        ensures { option_map (λ n. n.now) result ≡ self.now.name }
    {
        self.designation.as_ref()
    }
}
