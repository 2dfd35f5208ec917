//! Theorems of days and of the first instants at or after local times: each function is empty, its
//! contract is proved; never called.
ghost use Rattle.std.specs.Prelude.{◌≡◌, ◌↔◌, ◌≤ℤ◌, ◌+ℤ◌, ◌-ℤ◌, pos, ℤ};
ghost use Rattle.{
  naive_base.specs.{Range.{IsInRange}, Reading.{behind, IsEarlier, Reading}, Year.{floor_div}},
  offset_core.specs.WallAnswer.{IsNeverShown, IsShownBetween, IsShownOnce},
  zoned_time.specs.{DayEnds.{IsGapEnd, NonePassed}, Zone.{IsZoneSecond, ShowsByOffset}},
  zoned_time.specs.Days.{midnight, AreEndsOfDay, IsFirstInstantFrom, IsFirstToReach, IsInDay, IsNeverOnDay, IsOnDay},
  zoned_time.specs.Zone.{IsReachedAt},
};

use crate::{ShownDay, TimeZone};

/// A local time has one first instant at or after it, and a later local time no earlier one.
pub fn first_instants()
    ensures once { (off : ℤ → ℤ) (l a b : Reading) → IsFirstInstantFrom off l a
        → IsFirstInstantFrom off l b → a ≡ b }
    ensures rises { (off : ℤ → ℤ) (l m a b : Reading) → ¬ (IsEarlier m l)
        → IsFirstInstantFrom off l a → IsFirstInstantFrom off m b → ¬ (IsEarlier b a) }
{}

/// The first instant at or after a local time, as a policy for gaps and folds. A local time that is
/// shown once gives its instant, one in a fold the first of its instants, and one in a gap the
/// instant at which the gap ends. If clocks had been set forward over a local time before they first
/// showed it, the instant is an earlier one, when they were.
pub fn gaps_and_folds()
    ensures once { (off : ℤ → ℤ) (l a : Reading) (k : ℤ) → IsShownOnce (ShowsByOffset off l.s) k
        → NonePassed off l.s (l.s -ℤ k) → IsFirstInstantFrom off l a → a ≡ behind l k }
    ensures fold { (off : ℤ → ℤ) (l a : Reading) (k last : ℤ)
        → IsShownBetween (ShowsByOffset off l.s) k last → NonePassed off l.s (l.s -ℤ k)
        → IsFirstInstantFrom off l a → a ≡ behind l k }
    ensures gap { (off : ℤ → ℤ) (l a : Reading) → IsNeverShown (ShowsByOffset off l.s)
        → IsFirstInstantFrom off l a → IsGapEnd off l.s a }
    ensures not_later { (off : ℤ → ℤ) (l a : Reading) (u k : ℤ) → ShowsByOffset off l.s u k
        → IsFirstInstantFrom off l a → ¬ (IsEarlier (behind l k) a) }
{}

/// The last local time that clocks have shown up to a second. Another local time isn't later if and only
/// if clocks have reached it by that second (`adjoint`). There is at most one, and it never falls.
#[tactic(auto, using(crate::proofs::ReachedTimes::one_reached))]
pub fn reached_times()
    ensures adjoint { (off : ℤ → ℤ) (l u t m : ℤ) → IsFirstToReach off l u → IsReachedAt off t m
        → (u ≤ℤ t) ↔ (l ≤ℤ m) }
    ensures once { (off : ℤ → ℤ) (t l m : ℤ) → IsReachedAt off t l → IsReachedAt off t m → l ≡ m }
    ensures rises { (off : ℤ → ℤ) (t v l m : ℤ) → t ≤ℤ v → IsReachedAt off t l
        → IsReachedAt off v m → l ≤ℤ m }
{}

/// Days start in the order of their dates: a later day never starts before an earlier one. Both start
/// at once if clocks were set forward over the days between.
#[tactic(auto, using(crate::proofs::DayStarts::days_rise))]
pub fn days_rise()
    ensures { (off : ℤ → ℤ) (c d : ℤ) (a b : Reading) → c ≤ℤ d
        → IsFirstInstantFrom off (midnight c) a → IsFirstInstantFrom off (midnight d) b
        → ¬ (IsEarlier b a) }
{}

/// The starts of days divide time: each instant in range lies in exactly one day.
pub fn days_partition<Tz: TimeZone>()
    ensures exists { (zone : Tz) (r : Reading) → IsInRange r.s
        → (day : ℤ) × IsInDay (Tz.law zone).off day r }
    ensures once { (zone : Tz) (r : Reading) (c d : ℤ) → IsInDay (Tz.law zone).off c r
        → IsInDay (Tz.law zone).off d r → c ≡ d }
{}

/// A date that clocks never show starts when the next one does: no instant lies in it. In a day
/// clocks show its date or, once they have been set back over midnight, an earlier one. If they show
/// its date when it starts, that is the first second at which they do.
#[tactic(auto, using(crate::proofs::DayStarts::no_later_date, crate::proofs::DayStarts::starts_with_first))]
pub fn dates_in_days()
    ensures skipped { (off : ℤ → ℤ) (day : ℤ) (a b : Reading) → IsNeverOnDay off day
        → IsFirstInstantFrom off (midnight day) a
        → IsFirstInstantFrom off (midnight (day +ℤ pos 1)) b → a ≡ b }
    ensures no_later_date { (off : ℤ → ℤ) (day : ℤ) (r : Reading) → IsZoneSecond r.s
        → IsInDay off day r → floor_div (r.s +ℤ off r.s) 86_400 ≤ℤ day }
    ensures first { (off : ℤ → ℤ) (day first last : ℤ) (r : Reading)
        → IsFirstInstantFrom off (midnight day) r → IsOnDay off day r.s
        → AreEndsOfDay off day first last → r.s ≡ first }
{}

/// A clone of a day has clones of its ends, and fails only if one of these does.
pub fn shown_days<T: Clone>()
    ensures cloned { (x y : ShownDay T) → ⟦<ShownDay<T> as Clone>⟧.is_clone x y
        ↔ (T.Clone.is_clone x.first y.first × T.Clone.is_clone x.last y.last) }
    ensures infallible { (x : ShownDay T) → T.Clone.is_infallible x.first
        → T.Clone.is_infallible x.last → ⟦<ShownDay<T> as Clone>⟧.is_infallible x }
{}
