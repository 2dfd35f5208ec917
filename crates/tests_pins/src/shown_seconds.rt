//! The seconds at which clocks show a stretch of local time: clocks that are set by an hour at
//! 1970-01-01 00:00:00 UTC, back from `CET` to `UTC` or forward from `UTC` to `CET`.
#![tactic(auto, using(crate::proofs::Words::ints, crate::proofs::Words::fits_signed_from_abs))]

ghost use Rattle.{
  std.specs.Prelude.{neg_ℤ, pos},
  tests_pins.specs.Changes.{at_epoch, cet, ends, utc},
  tz_info.specs.ShownSeconds.{AreShownWithin, IsFirstAtOrAfter, IsFirstWithin, IsLastWithin, ShowsWithin},
  tz_info.specs.ShownSeconds.{IsLastReached},
};

/// Set back, they show the hour from 00:00 on twice: first from -3600 on by `CET`, last at 3599 by `UTC`.
/// They don't show 00:00 a second before that, nor before 01:00 at 3600.
pub fn set_back()
    ensures both { AreShownWithin (at_epoch cet utc) (pos 0) (pos 3_600)
        (Some (ends (neg_ℤ (pos 3_600)) cet (pos 3_599) utc)) }
    ensures not_none { ¬ (AreShownWithin (at_epoch cet utc) (pos 0) (pos 3_600) None) }
    ensures end { ¬ (ShowsWithin (at_epoch cet utc) (pos 0) (pos 3_600) (pos 3_600) utc) }
    ensures not_first { ¬ (IsFirstWithin (at_epoch cet utc) (pos 0) (pos 3_600) (pos 0) utc) }
    ensures not_last { ¬ (IsLastWithin (at_epoch cet utc) (pos 0) (pos 3_600) (neg_ℤ (pos 1)) cet) }
{}

/// Set forward, they never show the hour from 00:00 on. 00:30 is reached when they are set.
pub fn set_forward()
    ensures never { AreShownWithin (at_epoch utc cet) (pos 0) (pos 3_600) None }
    ensures reached { IsFirstAtOrAfter (at_epoch utc cet) (pos 1_800) (pos 0) cet }
    ensures later { ¬ (IsFirstAtOrAfter (at_epoch utc cet) (pos 1_800) (pos 1) cet) }
{}

/// Set back, they have shown 00:59:59 up to 100 seconds later, when they show 00:01:40 again.
pub fn reached_after_set_back()
    ensures reached { IsLastReached (at_epoch cet utc) (pos 100) (pos 3_599) }
    ensures not_shown { ¬ (IsLastReached (at_epoch cet utc) (pos 100) (pos 100)) }
    ensures not_later { ¬ (IsLastReached (at_epoch cet utc) (pos 100) (pos 3_600)) }
{}
