//! Theorems: each function is empty, its contract is proved; never called.
ghost use Rattle.std.specs.{Iterator.{at_most}, Prelude.{◌≡◌, ◌↔◌, ◌≤◌, ◌-◌, IsTrue, ℕ}};
ghost use Rattle.{
  zoned_series.specs.{Series.{items_of, series_of}, Series.{IsItem, IsMissing, Series}},
  zoned_time.specs.Zoned.{in_seconds, Zoned},
};

use crate::{DailyItems, DailySeries, SeriesError};
use zoned_time::{Offset, TimeZone};

/// Errors of a series are equal if and only if they are the same, and a clone is the error.
pub fn errors()
    ensures equal { (a b : SeriesError) → IsTrue (⟦<SeriesError as PartialEq>⟧.eq a b) ↔ (a ≡ b) }
    ensures cloned { (a b : SeriesError) → ⟦<SeriesError as Clone>⟧.is_clone a b ↔ (a ≡ b) }
    ensures infallible { (a : SeriesError) → ⟦<SeriesError as Clone>⟧.is_infallible a }
{}

/// Of each day there is one instant, at one offset in seconds, or one error, and never both.
pub fn one_item<Tz: TimeZone>()
    ensures item { (zone : Tz) (s : Series Tz) (n : ℕ) (d e : Zoned Tz.Offset)
        → IsItem (Tz.law zone) s n d → IsItem (Tz.law zone) s n e
        → in_seconds Tz.Offset.seconds d ≡ in_seconds Tz.Offset.seconds e }
    ensures missing { (zone : Tz) (s : Series Tz) (n : ℕ) (e f : SeriesError)
        → IsMissing (Tz.law zone) s n e → IsMissing (Tz.law zone) s n f → e ≡ f }
    ensures not_both { (zone : Tz) (s : Series Tz) (n : ℕ) (d : Zoned Tz.Offset) (e : SeriesError)
        → IsItem (Tz.law zone) s n d → IsMissing (Tz.law zone) s n e → ⊥ }
{}

/// A clone of a series is that series except for a clone of its zone, and so is one of its items. They
/// don't fail unless the clone of the zone does.
pub fn clones<Tz: TimeZone>(
    a: &DailySeries<Tz>,
    b: &DailySeries<Tz>,
    c: &DailyItems<Tz>,
    d: &DailyItems<Tz>,
)
    ensures series { ⟦<DailySeries<Tz> as Clone>⟧.is_clone a.now b.now
        → series_of b.now ≡ record (series_of a.now) { zone = (series_of b.now).zone } }
    ensures items { ⟦<DailyItems<Tz> as Clone>⟧.is_clone c.now d.now
        → ((items_of d.now).next ≡ (items_of c.now).next)
        × ((items_of d.now).end ≡ (items_of c.now).end)
        × ((items_of d.now).series
        ≡ record (items_of c.now).series { zone = (items_of d.now).series.zone }) }
    ensures series_infallible { Tz.is_infallible (series_of a.now).zone
        → ⟦<DailySeries<Tz> as Clone>⟧.is_infallible a.now }
    ensures items_infallible { Tz.is_infallible (items_of c.now).series.zone
        → ⟦<DailyItems<Tz> as Clone>⟧.is_infallible c.now }
{}

/// As many items are left as lie between the next one and the end: a step gives none only
/// past the end.
pub fn items_left<Tz: TimeZone>(before: &DailyItems<Tz>, after: &DailyItems<Tz>)
    ensures remaining { ⟦<DailyItems<Tz> as Iterator>⟧.remaining before.now
        ≡ at_most ((items_of before.now).end - (items_of before.now).next) }
    ensures none { ⟦<DailyItems<Tz> as Iterator>⟧.next_gives before.now None after.now
        → (items_of before.now).end ≤ (items_of before.now).next }
{}
