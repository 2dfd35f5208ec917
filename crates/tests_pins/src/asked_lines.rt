//! Lines that `zoneq` reads, and their answers.

ghost use Rattle.std.specs.Prelude.{◌≡◌, ◌∷◌, [], codes, neg_ℤ, pos};
ghost use Rattle.{
  naive_base.specs.Stamp.{of_secs},
  tests_pins.specs.{Changes.{unnamed}, NewYork.{edt, est, new_york_zone}, Zones.{honolulu, hst10}},
  tz_base.specs.Grammar.{Spells},
  zoneq_lib.specs.Answers.{shown_date_time, shown_refusal, shown_type, shown_wall, shown_zone, AnswersAt, AnswersWall},
  zoneq_lib.specs.{Runs.{ended_lines, last_line, IsSplit}, Runs.{message_of, status_of}, Runs.{fault_text}},
  zoneq_lib.specs.Questions.{choice, Asks, At, Data, IsBadLine, Resolve, Show, Wall},
};

use offset_core::{FoldChoice, GapChoice, LocalResult};
use zoneq_lib::RunError;

/// A line of each kind but `text`.
#[tactic(auto, using(crate::proofs::SpelledTexts::asks), unfolding(crate::proofs::Computed::lines))]
pub fn questions()
    ensures at { Asks (codes "at -1") (At (neg_ℤ (pos 1))) }
    ensures data { Asks (codes "data 01fF") (Data (1 ∷ 255 ∷ [])) }
    ensures wall { Asks (codes "wall 2021 3 14 2 30 0") (Wall (pos 1_615_689_000)) }
    ensures resolve { Asks (codes "wall 2021 3 14 2 30 0 shift/latest")
        (Resolve (of_secs (pos 1_615_689_000) 0)
        (record { gap = GapChoice.ShiftForward; fold = FoldChoice.Latest })) }
    ensures show { Asks (codes "show 1615705200 7") (Show (pos 1_615_705_200) 7) }
{}

/// Lines that ask nothing: the empty line, numbers above their limits, days that the calendar
/// doesn't have, a number too many.
pub fn bad_lines()
    ensures empty { IsBadLine [] }
    ensures month_13 { IsBadLine (codes "wall 2021 13 1 0 0 0") }
    ensures month_0 { IsBadLine (codes "wall 2021 0 1 0 0 0") }
    ensures day_29 { IsBadLine (codes "wall 2021 2 29 0 0 0") }
    ensures hour_24 { IsBadLine (codes "wall 2021 3 14 24 0 0") }
    ensures second_60 { IsBadLine (codes "wall 2021 3 14 2 30 60") }
    ensures second_of_64_bits { IsBadLine (codes "at 9223372036854775808") }
    ensures two_numbers { IsBadLine (codes "at 1 0") }
{}

/// How types, zones, instants and errors are written.
#[tactic(auto, using(crate::proofs::ChangeDays::march_2021), unfolding(crate::proofs::Computed::printing))]
pub fn words()
    ensures edt { shown_type edt ≡ codes "-14400 dst EDT" }
    ensures unnamed { shown_type unnamed ≡ codes "3600 std -" }
    ensures none { shown_wall LocalResult.None ≡ codes "none" }
    ensures single { shown_wall (LocalResult.Single est) ≡ codes "single -18000 std EST" }
    ensures ambiguous { shown_wall (LocalResult.Ambiguous edt est)
        ≡ codes "ambiguous -14400 dst EDT, -18000 std EST" }
    ensures new_york { shown_zone new_york_zone ≡ codes "ok 0 2 0 alternate" }
    ensures honolulu { shown_zone (honolulu hst10) ≡ codes "ok 7 6 0 fixed" }
    ensures no_rule { shown_zone (honolulu None) ≡ codes "ok 7 6 0 none" }
    ensures refused { shown_refusal 17 ≡ codes "refused 17" }
    ensures instant { shown_date_time (of_secs (pos 1_615_705_200) 0) (neg_ℤ (pos 14_400))
        ≡ codes "2021-03-14 03:00:00 -04:00" }
{}

/// How choices for gaps and folds are spelled.
#[tactic(auto, using(crate::proofs::SpelledTexts::chooses), unfolding(crate::proofs::Computed::lines))]
pub fn choices()
    ensures shift_earliest { Spells choice (codes "shift/earliest")
        (record { gap = GapChoice.ShiftForward; fold = FoldChoice.Earliest }) [] }
    ensures refuse_latest { Spells choice (codes "refuse/latest")
        (record { gap = GapChoice.Refuse; fold = FoldChoice.Latest }) [] }
    ensures refuse_refuse { Spells choice (codes "refuse/refuse")
        (record { gap = GapChoice.Refuse; fold = FoldChoice.Refuse }) [] }
{}

/// New York's answers: the type at an instant, no clock in the gap, two in the fold.
pub fn answers()
    ensures instant { AnswersAt (Some new_york_zone) (pos 1_615_705_200) (codes "-14400 dst EDT") }
    ensures gap { AnswersWall (Some new_york_zone) (pos 1_615_689_000) (codes "none") }
    ensures fold { AnswersWall (Some new_york_zone) (pos 1_636_248_600)
        (codes "ambiguous -14400 dst EDT, -18000 std EST") }
    ensures no_zone { AnswersAt None (pos 0) (codes "no zone") }
    ensures no_zone_yet { AnswersWall None (pos 0) (codes "no zone") }
{}

/// A carriage return before a newline is no part of a line; what follows the last newline is one.
pub fn lines()
    ensures cut { IsSplit (codes "at 1\r\nat 2") (codes "at 1\r" ∷ []) (codes "at 2") }
    ensures ended { ended_lines (codes "at 1\r" ∷ codes "at 2" ∷ [])
        ≡ codes "at 1" ∷ codes "at 2" ∷ [] }
    ensures last { last_line (codes "at 2") ≡ codes "at 2" ∷ [] }
    ensures none_left { last_line [] ≡ [] }
{}

/// The exit status and the message of a run.
pub fn endings()
    ensures fine { status_of (Ok tt) ≡ 0 }
    ensures failed { status_of (Err RunError.Read) ≡ 1 }
    ensures silent { message_of (Ok tt) ≡ [] }
    ensures read { message_of (Err RunError.Read) ≡ codes "zoneq: read failed\n" }
    ensures write { fault_text RunError.Write ≡ codes "zoneq: write failed" }
    ensures memory { fault_text RunError.Memory ≡ codes "zoneq: out of memory" }
    ensures too_long { fault_text RunError.TooLong ≡ codes "zoneq: input too long" }
{}
