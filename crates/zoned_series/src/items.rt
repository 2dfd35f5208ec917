//! The days of a series, one after another.
ghost use Rattle.std.specs.{Iterator.{at_most, UpTo, SizeHint.{IsWithinCount}}, Prelude.{◌≡◌, ◌-◌, IfSome}};
ghost use Rattle.{
  zoned_series.specs.{Series.{items_of, series_of}, Series.{GivesBack, GivesNext}},
  zoned_time.specs.DateTime.{zoned},
};

use crate::{DailySeries, SeriesError};
use std::iter::{DoubleEndedIterator, ExactSizeIterator, FusedIterator};
use zoned_time::{DateTime, TimeZone};

/// The days of a series, one after another. From [`DailySeries::days`].
///
/// A day without an instant is an `Err`, and the days after it still come.
#[derive(Clone, Copy)]
pub struct DailyItems<Tz> {
    series: DailySeries<Tz>,
    next: u32,
    end: u32,
}

impl<Tz: TimeZone> DailyItems<Tz> {
    pub(crate) fn new(series: DailySeries<Tz>, count: u32) -> DailyItems<Tz>
        ensures { items_of result ≡ record { series = series_of series; next = 0; end = count } }
    {
        DailyItems {
            series,
            next: 0,
            end: count,
        }
    }
}

impl<Tz: TimeZone> Iterator for DailyItems<Tz> {
    type Item = Result<DateTime<Tz>, SeriesError>;

    ghost next_gives = { λ s r t. GivesNext (Tz.law (items_of s).series.zone) zoned (items_of s) r
        (items_of t) };

    ghost remaining = { λ s. at_most ((items_of s).end - (items_of s).next) };

    fn next(&mut self) -> Option<Result<DateTime<Tz>, SeriesError>> {
        if self.next >= self.end {
            return None;
        }
        let item = self.series.at(self.next);
        self.next += 1;
        Some(item)
    }

    fn size_hint(&self) -> (usize, Option<usize>)
        ensures lower { let i = items_of self.now in
            IsWithinCount result.0 (at_most (i.end - i.next)) }
        ensures upper { let i = items_of self.now in
            IfSome result.1 (UpTo (at_most (i.end - i.next))) }
        // Both bounds are what is left.
        ensures exact { let i = items_of self.now in
            result ≡ (i.end - i.next, Some (i.end - i.next)) }
    {
        let len = self.len();
        (len, Some(len))
    }
}

impl<Tz: TimeZone> DoubleEndedIterator for DailyItems<Tz> {
    ghost next_back_gives = { λ s r t. GivesBack (Tz.law (items_of s).series.zone) zoned
        (items_of s) r (items_of t) };

    fn next_back(&mut self) -> Option<Result<DateTime<Tz>, SeriesError>> {
        if self.next >= self.end {
            return None;
        }
        self.end -= 1;
        Some(self.series.at(self.end))
    }
}

impl<Tz: TimeZone> FusedIterator for DailyItems<Tz> {}

impl<Tz: TimeZone> ExactSizeIterator for DailyItems<Tz> {
    fn len(&self) -> usize {
        self.end.saturating_sub(self.next) as usize
    }
}
