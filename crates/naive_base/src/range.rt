//! The ends of the range of dates and local date-times.

pub(crate) const FIRST_YEAR: i32 = -262_143;

pub(crate) const LAST_YEAR: i32 = 262_142;

pub(crate) const FIRST_DAY_IN_RANGE: i32 = -96_465_292;

pub(crate) const LAST_DAY_IN_RANGE: i32 = 95_026_236;

pub(crate) const FIRST_SECOND: i64 = -8_334_601_228_800;

pub(crate) const LAST_SECOND: i64 = 8_210_266_876_799;
