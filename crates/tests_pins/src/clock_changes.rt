//! Clock changes: New York's in 2021, and what counts as one.

ghost use Rattle.std.specs.Prelude.{◌∷◌, [], neg_ℤ, pos, ⊤};
ghost use Rattle.{
  tests_pins.specs.{Changes.{at_epoch, autumn, cet, change_at, dst_cet, renamed, spring}, NewYork.{new_york_zone}},
  tz_base.specs.LocalTypes.{LocalType},
  tz_info.specs.{Changes.{AreChanges, IsChange, IsFirst, IsFromUntil, IsLast}, Zones.{TypeAt}},
  tz_info.specs.OffsetChanges.{IsFirstOfOffset, IsLastOfOffset, IsOffsetChange, KeepsOffset},
};

/// EDT comes into force at 1615705200 and EST at 1636264800; nothing changes a second earlier.
pub fn new_york()
    ensures start { IsChange (TypeAt new_york_zone) spring }
    ensures stop { IsChange (TypeAt new_york_zone) autumn }
    ensures second_before { (before after : LocalType)
        → ¬ (IsChange (TypeAt new_york_zone) (change_at (pos 1_615_705_199) before after)) }
    ensures second_after { (before after : LocalType)
        → ¬ (IsChange (TypeAt new_york_zone) (change_at (pos 1_615_705_201) before after)) }
{}

/// These are the changes of 2021. A stretch has the change at its first second, and not the one at
/// its end.
pub fn year_2021()
    ensures year { AreChanges (TypeAt new_york_zone) (pos 1_609_459_200) (pos 1_640_995_200)
        (spring ∷ autumn ∷ []) }
    ensures ends { AreChanges (TypeAt new_york_zone) (pos 1_615_705_200) (pos 1_636_264_800)
        (spring ∷ []) }
    ensures backwards { ¬ (AreChanges (TypeAt new_york_zone) (pos 1_609_459_200)
        (pos 1_640_995_200) (autumn ∷ spring ∷ [])) }
    ensures one_left_out { ¬ (AreChanges (TypeAt new_york_zone) (pos 1_609_459_200)
        (pos 1_640_995_200) (spring ∷ [])) }
{}

/// The first change of 2021 and the last one; there is no change between them.
pub fn first_and_last()
    ensures first { IsFirst (TypeAt new_york_zone)
        (IsFromUntil (pos 1_609_459_200) (pos 1_640_995_200)) (Some spring) }
    ensures last { IsLast (TypeAt new_york_zone)
        (IsFromUntil (pos 1_609_459_200) (pos 1_640_995_200)) (Some autumn) }
    ensures not_first { ¬ (IsFirst (TypeAt new_york_zone)
        (IsFromUntil (pos 1_609_459_200) (pos 1_640_995_200)) (Some autumn)) }
    ensures not_last { ¬ (IsLast (TypeAt new_york_zone)
        (IsFromUntil (pos 1_609_459_200) (pos 1_640_995_200)) (Some spring)) }
    ensures none_first { IsFirst (TypeAt new_york_zone)
        (IsFromUntil (pos 1_615_705_201) (pos 1_636_264_800)) None }
    ensures none_last { IsLast (TypeAt new_york_zone)
        (IsFromUntil (pos 1_615_705_201) (pos 1_636_264_800)) None }
{}

/// Types that differ only in the name, or only in the DST flag, make a change; equal types make
/// none.
#[tactic(auto, using(crate::proofs::Words::ints, crate::proofs::Words::fits_signed_from_abs))]
pub fn differences()
    ensures name { IsChange (at_epoch cet renamed) (change_at (pos 0) cet renamed) }
    ensures flag { IsChange (at_epoch cet dst_cet) (change_at (pos 0) cet dst_cet) }
    ensures none { ¬ (IsChange (at_epoch cet cet) (change_at (pos 0) cet cet)) }
    ensures other_second { ¬ (IsChange (at_epoch cet renamed) (change_at (pos 1) cet renamed)) }
{}

/// A change of only the DST flag or of only the name keeps the offset, so it is no change of the offset. New York's
/// in spring is one, and the first one of 2021.
pub fn offset_changes()
    ensures flag { ¬ (IsOffsetChange (at_epoch cet dst_cet) (change_at (pos 0) cet dst_cet)) }
    ensures name { ¬ (IsOffsetChange (at_epoch cet renamed) (change_at (pos 0) cet renamed)) }
    ensures kept { KeepsOffset (at_epoch cet dst_cet) (λ u. ⊤) }
    ensures spring { IsOffsetChange (TypeAt new_york_zone) spring }
    ensures first { IsFirstOfOffset (TypeAt new_york_zone)
        (IsFromUntil (pos 1_609_459_200) (pos 1_640_995_200)) (Some spring) }
    ensures last { IsLastOfOffset (TypeAt new_york_zone)
        (IsFromUntil (pos 1_609_459_200) (pos 1_640_995_200)) (Some autumn) }
    ensures not_kept { ¬ (KeepsOffset (TypeAt new_york_zone)
        (IsFromUntil (pos 1_609_459_200) (pos 1_640_995_200))) }
{}

/// The first second of 64 bits has no change, since no second of 64 bits comes before it; the
/// second after it can have one.
#[tactic(auto, using(crate::proofs::Words::ints))]
pub fn first_second()
    ensures none { (before after : LocalType) → ¬ (IsChange (λ u t. ⊤)
        (change_at (neg_ℤ (pos 9_223_372_036_854_775_808)) before after)) }
    ensures next { IsChange (λ u t. ⊤)
        (change_at (neg_ℤ (pos 9_223_372_036_854_775_807)) cet renamed) }
{}
