//! Theorems of when clocks show certain local times, over all seconds: each function is empty, its
//! contract is proved; never called.

ghost use Rattle.std.specs.{Int.{w64}, Prelude.{◌≡◌, ◌↔◌, ◌<ℤ◌, ◌≤ℤ◌, ◌+ℤ◌, ◌-ℤ◌, pos, FitsSigned, Option, ℤ}};
ghost use Rattle.{
  tz_base.specs.LocalTypes.{LocalType},
  tz_info.specs.ShownSeconds.{AreEndsWithin, AreShownWithin, IsFirstAtOrAfter, IsFirstWithin, IsNeverWithin},
  tz_info.specs.ShownSeconds.{ShowsWithin},
  tz_info.specs.{Windows.{offsets, IsGreatest, IsLeast}, ShownSeconds.{IsLastReached}, WallClocks.{Shows}},
  tz_info.specs.Zones.{TypeAt, Zone},
};

use crate::zone::ask::shown_seconds::ShownSeconds;

/// A stretch of local time has one answer.
#[tactic(auto, using(crate::proofs::ShownSecondLaws::one_answer))]
pub fn one_answer_within_law()
    ensures { (z : Zone) (from until : ℤ) (a b : Option ShownSeconds)
        → AreShownWithin (TypeAt z) from until a → AreShownWithin (TypeAt z) from until b → a ≡ b }
{}

/// The seconds that a wall-clock lookup answers with are those of a stretch of one second.
pub fn one_second_law()
    ensures { (z : Zone) (local u : ℤ) (t : LocalType)
        → ShowsWithin (TypeAt z) local (local +ℤ pos 1) u t ↔ Shows (TypeAt z) local u t }
{}

/// A second whose clock shows a local time of the stretch lies between the first and the last.
pub fn own_answer_within_law()
    ensures { (z : Zone) (from until u : ℤ) (t : LocalType) (found : Option ShownSeconds)
        → ShowsWithin (TypeAt z) from until u t → AreShownWithin (TypeAt z) from until found
        → (s : ShownSeconds) × (found ≡ Some s) × (s.first.at ≤ℤ u) × (u ≤ℤ s.last.at) }
{}

/// If one type is in force from `from` less the greatest offset of the zone to before `until` less
/// the least, clocks show the stretch from its first to its last second exactly as long as it is.
pub fn ordinary_length_law()
    ensures { (z : Zone) (from until greatest least : ℤ) (t : LocalType) (s : ShownSeconds)
        → FitsSigned w64 (from -ℤ t.offset) → FitsSigned w64 ((until -ℤ t.offset) -ℤ pos 1)
        → IsGreatest (offsets z.types z.rule) greatest
        → IsLeast (offsets z.types z.rule) least
        → ((u : ℤ) → (from -ℤ greatest) ≤ℤ u → u <ℤ (until -ℤ least) → TypeAt z u t)
        → AreEndsWithin (TypeAt z) from until s
        → (s.first.at ≡ from -ℤ t.offset) × ((s.last.at +ℤ pos 1) ≡ until -ℤ t.offset) }
{}

/// A local time has one first second at or after it, and a later local time no earlier one.
#[tactic(auto, using(crate::proofs::ShownSecondLaws::one_first))]
pub fn first_at_or_after_law()
    ensures once { (z : Zone) (local u v : ℤ) (s t : LocalType)
        → IsFirstAtOrAfter (TypeAt z) local u s → IsFirstAtOrAfter (TypeAt z) local v t
        → (u ≡ v) × (s ≡ t) }
    ensures rises { (z : Zone) (local later u v : ℤ) (s t : LocalType) → local ≤ℤ later
        → IsFirstAtOrAfter (TypeAt z) local u s → IsFirstAtOrAfter (TypeAt z) later v t → u ≤ℤ v }
{}

/// The first second at or after the begin of a stretch is its first one if it shows a local time of
/// the stretch. If no second does, it is also the first at or after the stretch's end: a day over
/// which clocks are set forward begins when the next one does.
pub fn first_of_stretch_law()
    ensures within { (z : Zone) (from until u : ℤ) (t : LocalType)
        → IsFirstAtOrAfter (TypeAt z) from u t → (u +ℤ t.offset) <ℤ until
        → IsFirstWithin (TypeAt z) from until u t }
    ensures skipped { (z : Zone) (from until u v : ℤ) (s t : LocalType) → from ≤ℤ until
        → IsNeverWithin (TypeAt z) from until → IsFirstAtOrAfter (TypeAt z) from u s
        → IsFirstAtOrAfter (TypeAt z) until v t → u ≡ v }
{}

/// Clocks have one last local time up to a second, and none that is earlier up to a later second. The first
/// second at or after a local time has come if and only if the local time isn't after it.
pub fn reached_law()
    ensures once { (z : Zone) (t l m : ℤ)
        → IsLastReached (TypeAt z) t l → IsLastReached (TypeAt z) t m → l ≡ m }
    ensures rises { (z : Zone) (t later l m : ℤ) → t ≤ℤ later
        → IsLastReached (TypeAt z) t l → IsLastReached (TypeAt z) later m → l ≤ℤ m }
    ensures adjoint { (z : Zone) (local u t m : ℤ) (s : LocalType)
        → IsFirstAtOrAfter (TypeAt z) local u s → IsLastReached (TypeAt z) t m
        → (u ≤ℤ t) ↔ (local ≤ℤ m) }
{}
