//! Facts about only the definitions, each proved with no code between: the numbers that the header
//! gives to C. The functions are empty, and never called.

ghost use Rattle.std.specs.Prelude.{◌≡◌, ◌⊎◌, ◌-ℤ◌, ◌∷◌, [], codes, false, neg_ℤ, pos, true, List, ℕ, ℤ};
ghost use Rattle.{
  naive_base.specs.Stamp.{of_secs},
  naive_plans.specs.ClockSteps.{BeginsStep},
  offset_core.specs.WallAnswer.{IsShownBetween, IsShownOnce},
  tz_base.specs.LocalTypes.{LocalType},
  tz_file.specs.FilePieces.{HasCounts},
  tz_info.specs.{Around.{Skips}, PosixZones.{IsExtendedZone}, WallClocks.{Shows}},
  tz_info.specs.{Folds.{HasFold, Repeats, SkipsOrRepeats}, TzFiles.{IsTzFile}},
  tz_info.specs.Zones.{IsTypeRefused, IsValid, TypeAt, Zone},
  tz_write.specs.WrittenTexts.{IsWrittenText},
  zoned_ffi.specs.Columns.{
    fold_asked,
    gap_asked,
    missing_of,
    second_holding,
    IsAnsweredOrNone,
    IsFirstWithout,
    IsInstantOf,
    IsMissing,
    IsMissingInstant,
    IsNoInstant,
  },
  zoned_ffi.specs.Columns.{IsNoWholeSecondOf, IsRowNumber, IsSoughtNumber, IsWholeSecondOf},
  zoned_ffi.specs.{FaultPlaces.{no_position, IsFaultPosition}, Steps.SetBack.{set_back, summer, winter}},
  zoned_ffi.specs.{Fields.{AreFieldsOf, IsNoLocalOf}, WrittenSpans.{written_span, IsWrittenSpanAt}},
  zoned_ffi.specs.{Handles.{IsUnanswered}, Kinds.{kind_number, IsKind}, Texts.{written_over, IsTextOf}},
  zoned_ffi.specs.{WrittenTypes.{no_offset, IsWrittenOffsetAt}, WrittenTypes.{written_saving}, Kinds.{IsAboveLimits}},
  zoned_ffi.specs.{WrittenSpans.{IsLocalInfo}, Texts.{IsRuleString}},
  zoned_ffi.specs.Refusals.{detail_number, refusal_number, IsErrorOfKind, IsReaderNumber},
  zoned_ffi.specs.Resolved.{unresolved, IsChoice, IsChoiceOf, IsNoneTaken, IsReachedAt, IsResolvedAt, IsTakenGapEnd},
  zoned_ffi.specs.Resolved.{IsTakenType, TakesOf},
  zoned_ffi.specs.WallClocks.{out_of_range, written},
  zoned_ffi.specs.Units.{local_by, no_time, per_second, IsCounted, IsLocal, IsUnit},
  zoned_ffi.specs.WholeSeconds.{step_number, IsDayAt, IsFound, IsNoDayAt, IsStep},
  zoned_ffi.specs.WrittenChanges.{written_change, written_into, IsNoLocalChange},
  zoned_ffi.specs.WrittenTypes.{mark, no_type, written_type, zero_ended, zeros},
  zoned_plans.specs.StepBounds.{AreStepBounds},
  zoned_ref.specs.Offsets.{AreOffsetsOf},
  zoned_time.specs.Days.{IsInDay},
};

use crate::choice::{Choice, ChoiceInGap};
use crate::column::Way;
use crate::kind::Kind;
use crate::lent::Lent;
use crate::local_info::WrittenLocalInfo;
use crate::refusal::Refusal;
use crate::span::WrittenSpan;
use crate::unit::Unit;
use crate::whole_second::WholeSecond;
use naive_base::Weekday;
use naive_plans::ClockStep;
use offset_core::{FoldChoice, LocalResult, Taken};
use tz_info::{Change, Error, Expected, FileCounts, TransitionRule};

/// A file is of kind 0, a TZ string of kind 1, and one with extensions of kind 2; there is no kind 3.
pub fn kind_numbers()
    ensures file { kind_number Kind.File ≡ 0 }
    ensures text { kind_number Kind.Text ≡ 1 }
    ensures extended { kind_number Kind.ExtendedText ≡ 2 }
    ensures three { ¬ (IsKind 3) }
{}

/// A file of a valid zone has no position of a fault, nor has a string that spells a zone.
pub fn fault_positions()
    ensures file { (bytes : List ℕ) (z : Zone) → IsTzFile bytes z → IsValid z
        → IsFaultPosition 0 bytes no_position }
    ensures only_file { (bytes : List ℕ) (n : ℕ) (z : Zone) → IsTzFile bytes z → IsValid z
        → IsFaultPosition 0 bytes n → n ≡ no_position }
    ensures zone { (bytes : List ℕ) (z : Zone) → IsExtendedZone bytes z
        → IsFaultPosition 2 bytes no_position }
    ensures only_zone { (bytes : List ℕ) (n : ℕ) (z : Zone) → IsExtendedZone bytes z
        → IsFaultPosition 2 bytes n → n ≡ no_position }
{}

/// A TZ string is above no limits, and a file is above them if and only if it has one entry more than they
/// allow.
pub fn limits()
    ensures text { (bytes : List ℕ) → ¬ (IsAboveLimits 1 bytes 0 0) }
    ensures as_many { (bytes : List ℕ) (c : FileCounts) → HasCounts bytes c
        → ¬ (IsAboveLimits 0 bytes c.transitions c.leap_seconds) }
    ensures transition { (bytes : List ℕ) (c : FileCounts) → HasCounts bytes c
        → c.transitions ≡ 1 → IsAboveLimits 0 bytes 0 c.leap_seconds }
    ensures leap_second { (bytes : List ℕ) (c : FileCounts) → HasCounts bytes c
        → c.leap_seconds ≡ 1 → IsAboveLimits 0 bytes c.transitions 0 }
{}

/// For a gap 0 refuses, 1 shifts forward, 2 takes its end and 3 shifts backward; for a fold 0 refuses, 1
/// takes the earliest and 2 the latest.
pub fn choice_numbers()
    ensures refused { IsChoiceOf 0 0 (record { gap = ChoiceInGap.Refuse; fold = FoldChoice.Refuse }) }
    ensures earliest { IsChoiceOf 1 1 (record { gap = ChoiceInGap.ShiftForward; fold = FoldChoice.Earliest }) }
    ensures latest { IsChoiceOf 1 2 (record { gap = ChoiceInGap.ShiftForward; fold = FoldChoice.Latest }) }
    ensures end { IsChoiceOf 2 0 (record { gap = ChoiceInGap.End; fold = FoldChoice.Refuse }) }
    ensures backward { IsChoiceOf 3 0 (record { gap = ChoiceInGap.ShiftBackward; fold = FoldChoice.Refuse }) }
    ensures gap_4 { ¬ (IsChoice 4 0) }
    ensures fold_3 { ¬ (IsChoice 0 3) }
{}

/// In a column 4 for gaps and 3 for folds reject local times too, and those become no time. One out of range
/// doesn't.
pub fn column_choice_numbers()
    ensures gap { gap_asked 4 ≡ 0 }
    ensures other_gap { gap_asked 3 ≡ 3 }
    ensures fold { fold_asked 3 ≡ 0 }
    ensures other_fold { fold_asked 4 ≡ 4 }
    ensures of_gaps { missing_of 4 0 ≡ record { in_gaps = true; in_folds = false } }
    ensures of_folds { missing_of 0 3 ≡ record { in_gaps = false; in_folds = true } }
    ensures in_gap { IsMissing (missing_of 4 0) 21 }
    ensures in_fold { IsMissing (missing_of 0 3) 22 }
    ensures not_in_gap { ¬ (IsMissing (missing_of 0 3) 21) }
    ensures outside { ¬ (IsMissing (missing_of 4 3) 23) }
    ensures instant { (z : Zone) (choice : Choice) → IsNoneTaken z (pos 1_615_689_000) choice 21
        → IsMissingInstant z Unit.Milliseconds choice (missing_of 4 0) (pos 1_615_689_000_500) }
    ensures no_time { (z : Zone) (choice : Choice) → IsNoneTaken z (pos 1_615_689_000) choice 21
        → IsAnsweredOrNone z Unit.Milliseconds (Way.ToInstants choice (missing_of 4 0))
        (pos 1_615_689_000_500) no_time }
{}

/// In a gap a policy that shifts forward takes the type before it, and one that shifts backward the type
/// after it. By that New York's 02:30:00 on 2021-03-14 is 06:30:00 UTC, at which clocks showed 01:30:00.
pub fn shifted_gaps()
    ensures forward { (z : Zone) (local : ℤ) (change : Change)
        → TakesOf z local (record { gap = ChoiceInGap.ShiftForward; fold = FoldChoice.Refuse })
        (Ok (Taken.InGap change))
        → IsTakenType z local (record { gap = ChoiceInGap.ShiftForward; fold = FoldChoice.Refuse })
        change.before }
    ensures backward { (z : Zone) (local : ℤ) (change : Change)
        → TakesOf z local (record { gap = ChoiceInGap.ShiftBackward; fold = FoldChoice.Refuse })
        (Ok (Taken.InGap change))
        → IsTakenType z local (record { gap = ChoiceInGap.ShiftBackward; fold = FoldChoice.Refuse })
        change.after }
    ensures instant { (z : Zone) (choice : Choice) (t : LocalType)
        → IsTakenType z (pos 1_615_689_000) choice t → t.offset ≡ neg_ℤ (pos 14_400)
        → IsWrittenOffsetAt z (pos 1_615_703_400) (neg_ℤ (pos 18_000))
        → IsResolvedAt z choice (pos 1_615_689_000)
        (record { number = 0; offset = neg_ℤ (pos 18_000); instant = pos 1_615_703_400 }) }
{}

/// 29 February 2000 was a Tuesday and the day 60 of its year, and its last second is 951868799. 2021
/// has no such day, and no clock shows 24:00:00.
pub fn fields()
    ensures leap_day { AreFieldsOf (pos 951_868_799) (record {
      year = pos 2_000;
      month = 2;
      day = 29;
      hour = 23;
      minute = 59;
      second = 59;
      weekday = 2;
      day_of_year = 60;
    }) }
    ensures no_day { IsNoLocalOf (record {
      year = pos 2_021;
      month = 2;
      day = 29;
      hour = 0;
      minute = 0;
      second = 0;
      weekday = 0;
      day_of_year = 0;
    }) 39 }
    ensures no_time { IsNoLocalOf (record {
      year = pos 2_021;
      month = 2;
      day = 28;
      hour = 24;
      minute = 0;
      second = 0;
      weekday = 0;
      day_of_year = 0;
    }) 39 }
{}

/// The DST flag is 1 or 0; `EST` has five zeros after it; no type has the offset INT32_MIN.
pub fn types()
    ensures daylight { mark true ≡ pos 1 }
    ensures standard { mark false ≡ pos 0 }
    ensures named { zero_ended (Some (69 ∷ 83 ∷ 84 ∷ []))
        ≡ 69 ∷ 83 ∷ 84 ∷ 0 ∷ 0 ∷ 0 ∷ 0 ∷ 0 ∷ [] }
    ensures unnamed { zero_ended None ≡ 0 ∷ 0 ∷ 0 ∷ 0 ∷ 0 ∷ 0 ∷ 0 ∷ 0 ∷ [] }
    ensures none { no_type ≡ record {
      offset = neg_ℤ (pos 2_147_483_648);
      is_dst = pos 0;
      abbreviation = zeros;
    } }
    ensures no_offset { no_offset ≡ neg_ℤ (pos 2_147_483_648) }
{}

/// New York's change at 1615705200, from EST to EDT.
pub fn changes()
    ensures written { written_change (record {
      at = pos 1_615_705_200;
      before = record { offset = neg_ℤ (pos 18_000); dst = false; name = Some (69 ∷ 83 ∷ 84 ∷ []) };
      after = record { offset = neg_ℤ (pos 14_400); dst = true; name = Some (69 ∷ 68 ∷ 84 ∷ []) };
    }) ≡ record {
      at = pos 1_615_705_200;
      before = record {
        offset = neg_ℤ (pos 18_000);
        is_dst = pos 0;
        abbreviation = 69 ∷ 83 ∷ 84 ∷ 0 ∷ 0 ∷ 0 ∷ 0 ∷ 0 ∷ [];
      };
      after = record {
        offset = neg_ℤ (pos 14_400);
        is_dst = pos 1;
        abbreviation = 69 ∷ 68 ∷ 84 ∷ 0 ∷ 0 ∷ 0 ∷ 0 ∷ 0 ∷ [];
      };
    } }
    ensures room { written_into {A = ℕ} (1 ∷ 2 ∷ []) (7 ∷ 8 ∷ 9 ∷ []) ≡ 1 ∷ 2 ∷ 9 ∷ [] }
    ensures no_room { written_into {A = ℕ} (1 ∷ 2 ∷ []) (7 ∷ []) ≡ 1 ∷ [] }
{}

/// A span without a change before it begins at INT64_MIN, and one without a change after it ends at
/// INT64_MAX.
pub fn spans()
    ensures open { (t : LocalType)
        → written_span (record { local_time_type = t; from = None; until = None }) ≡ record {
          from = neg_ℤ (pos 9_223_372_036_854_775_808);
          until = pos 9_223_372_036_854_775_807;
          local_type = written_type t;
        } }
    ensures closed { (t : LocalType)
        → written_span (record { local_time_type = t; from = Some (pos 5); until = Some (pos 9) })
        ≡ record { from = pos 5; until = pos 9; local_type = written_type t } }
{}

/// In Dublin's winter standard time is an hour ahead of UTC, and clocks are an hour behind that.
pub fn savings()
    ensures winter { written_saving (record { standard_offset = pos 3_600; amount = neg_ℤ (pos 3_600) })
        ≡ record { standard_offset = pos 3_600; amount = neg_ℤ (pos 3_600) } }
{}

/// A local time is shown never, once or more than once, by 0, 1 and 2; 3 is out of range. The
/// earlier second comes first.
pub fn wall_clocks()
    ensures never { written LocalResult.None ≡ record {
      shown = pos 0;
      first_offset = pos 0;
      last_offset = pos 0;
      first = pos 0;
      last = pos 0;
    } }
    ensures once { written (LocalResult.Single (pos 5, pos 60)) ≡ record {
      shown = pos 1;
      first_offset = pos 60;
      last_offset = pos 60;
      first = pos 5;
      last = pos 5;
    } }
    ensures more { written (LocalResult.Ambiguous (pos 5, pos 60) (pos 35, pos 30)) ≡ record {
      shown = pos 2;
      first_offset = pos 60;
      last_offset = pos 30;
      first = pos 5;
      last = pos 35;
    } }
    ensures out { out_of_range ≡ record {
      shown = pos 3;
      first_offset = pos 0;
      last_offset = pos 0;
      first = pos 0;
      last = pos 0;
    } }
{}

/// A refused gap is 21 and a refused fold 22; a closed handle is 33, and another count of answers 32.
pub fn refusal_numbers()
    ensures unresolved { unresolved 21 ≡ record { number = 21; offset = pos 0; instant = pos 0 } }
    ensures none_taken { (z : Zone) (local : ℤ) (choice : Choice) (n : ℕ)
        → IsNoneTaken z local choice n → (n ≡ 21) ⊎ (n ≡ 22) }
    ensures gap { (z : Zone) (local : ℤ) (n : ℕ)
        → IsNoneTaken z local (record { gap = ChoiceInGap.Refuse; fold = FoldChoice.Latest }) n → n ≡ 21 }
    ensures fold { (z : Zone) (local : ℤ) (n : ℕ)
        → IsNoneTaken z local (record { gap = ChoiceInGap.ShiftForward; fold = FoldChoice.Refuse }) n
        → n ≡ 22 }
    ensures unanswered { (handle : Lent) (wanted n : ℕ)
        → IsUnanswered handle wanted wanted n → n ≡ 33 }
{}

/// A second has 1, 1,000, 1,000,000 or 1,000,000,000 of a unit. INT64_MIN is no time, and a time
/// before 1970 lies in the second before it.
pub fn units()
    ensures seconds { per_second Unit.Seconds ≡ 1 }
    ensures milliseconds { per_second Unit.Milliseconds ≡ 1_000 }
    ensures microseconds { per_second Unit.Microseconds ≡ 1_000_000 }
    ensures nanoseconds { per_second Unit.Nanoseconds ≡ 1_000_000_000 }
    ensures unit { IsUnit (pos 1_000) }
    ensures no_unit { ¬ (IsUnit (pos 60)) }
    ensures none { no_time ≡ neg_ℤ (pos 9_223_372_036_854_775_808) }
    ensures counted { IsCounted (neg_ℤ (pos 9_223_372_036_854_775_807)) }
    ensures not_counted { ¬ (IsCounted no_time) }
    ensures holding { second_holding Unit.Milliseconds (neg_ℤ (pos 1)) ≡ neg_ℤ (pos 1) }
    ensures local { (t : LocalType) → t.offset ≡ neg_ℤ (pos 18_000)
        → local_by Unit.Milliseconds (pos 1_615_705_199_500) t ≡ pos 1_615_687_199_500 }
{}

/// New York's 02:30:00.500 on 2021-03-14, 1615689000500 ms, lies in the gap that ends at 1615705200: it is
/// that second, or by the offset before the gap 1615707000500 ms. No time stays none, a row without an
/// answer ends a column, and a second after the calendar's range has no instant.
pub fn columns()
    ensures gap_end { (z : Zone) (choice : Choice) (after : LocalType)
        → IsTakenGapEnd z (pos 1_615_689_000) choice (pos 1_615_705_200) after
        → IsInstantOf z Unit.Milliseconds choice (pos 1_615_689_000_500) (pos 1_615_705_200_000) }
    ensures shifted { (z : Zone) (choice : Choice) (t : LocalType)
        → IsTakenType z (pos 1_615_689_000) choice t → t.offset ≡ neg_ℤ (pos 18_000)
        → IsInstantOf z Unit.Milliseconds choice (pos 1_615_689_000_500) (pos 1_615_707_000_500) }
    ensures local { (z : Zone) (t : LocalType)
        → TypeAt z (pos 1_615_705_199) t → t.offset ≡ neg_ℤ (pos 18_000)
        → IsLocal z Unit.Milliseconds (pos 1_615_705_199_500) (pos 1_615_687_199_500) }
    ensures outside { (z : Zone) (choice : Choice)
        → IsNoInstant z Unit.Seconds choice (pos 8_210_266_876_800) 23 }
    ensures none { (z : Zone) (unit : Unit) (way : Way) → IsAnsweredOrNone z unit way no_time no_time }
    ensures none_only { (z : Zone) (unit : Unit) (way : Way)
        → ¬ (IsAnsweredOrNone z unit way no_time (pos 0)) }
    ensures stops { (z : Zone) (y : ℤ) → IsTypeRefused z (pos 5)
        → IsFirstWithout z Unit.Seconds Way.ToLocal (no_time ∷ pos 5 ∷ [])
        (y ∷ y ∷ []) (no_time ∷ y ∷ []) 1 37 }
    ensures rest { (z : Zone) (n : ℕ)
        → ¬ (IsFirstWithout z Unit.Seconds Way.ToLocal (pos 5 ∷ []) (pos 7 ∷ []) (pos 0 ∷ []) 0 n) }
    ensures not_later { (z : Zone) (n : ℕ)
        → ¬ (IsFirstWithout z Unit.Seconds Way.ToLocal (no_time ∷ []) (no_time ∷ [])
        (no_time ∷ []) 0 n) }
    ensures first_number { IsRowNumber 21 }
    ensures last_number { IsRowNumber 23 }
    ensures no_number { ¬ (IsRowNumber 37) }
{}

/// A day is the step 86400, and a quarter of an hour 900. A week from Sunday is 100000 and one from Monday
/// 100001, a month 200000 and a year 300000. No step has seven seconds.
pub fn steps()
    ensures day { step_number ClockStep.Day ≡ 86_400 }
    ensures from_sunday { step_number (ClockStep.Week Weekday.Sun) ≡ 100_000 }
    ensures from_monday { step_number (ClockStep.Week Weekday.Mon) ≡ 100_001 }
    ensures month { step_number ClockStep.Month ≡ 200_000 }
    ensures year { step_number ClockStep.Year ≡ 300_000 }
    ensures quarter_hour { IsStep 900 }
    ensures seven { ¬ (IsStep 7) }
{}

/// 5.001 lies in the second 5, which is the last second before it, and before 5.000 that is 4. A second
/// that is found is counted in milliseconds.
pub fn whole_seconds()
    ensures after { (z : Zone) (sought : WholeSecond) → IsFound z sought (pos 5) (pos 5) (pos 7)
        → IsWholeSecondOf z Unit.Milliseconds sought (pos 5_001) (pos 7_000) }
    ensures at { (z : Zone) (sought : WholeSecond) → IsFound z sought (pos 5) (pos 4) (pos 5)
        → IsWholeSecondOf z Unit.Milliseconds sought (pos 5_000) (pos 5_000) }
    ensures outside { (z : Zone) (sought : WholeSecond)
        → IsNoWholeSecondOf z Unit.Seconds sought (pos 8_210_266_876_800) 23 }
    ensures out_of_range { IsSoughtNumber 23 }
    ensures wide { IsSoughtNumber 40 }
    ensures no_number { ¬ (IsSoughtNumber 37) }
{}

/// St. John's on 2005-10-30: clocks went from 00:01 back to 23:01, so at 03:02:00 UTC they show the day
/// before. That instant lies in the day 13086, whose midnight is 1130630400.
pub fn days()
    ensures date { (z : Zone) (off : ℤ → ℤ) → AreOffsetsOf z off
        → IsInDay off (pos 13_086) (of_secs (pos 1_130_641_320) 0)
        → AreStepBounds off (BeginsStep ClockStep.Day) (pos 1_130_641_320) (pos 1_130_639_400)
        (pos 1_130_729_400)
        → IsDayAt z (pos 1_130_641_320) (record {
          date = pos 1_130_630_400;
          begin = pos 1_130_639_400;
          end = pos 1_130_729_400;
        }) }
    ensures outside { (z : Zone) → IsNoDayAt z (pos 8_210_266_876_800) 23 }
{}

/// The numbers of errors: a TZ string that is not UTF-8 is 16, an unknown kind 31. Lists that make no zone
/// have the numbers 41 to 44; each other error keeps its own.
pub fn numbers()
    ensures not_utf8 { refusal_number Refusal.TextNotUtf8 ≡ 16 }
    ensures unknown_kind { refusal_number Refusal.UnknownKind ≡ 31 }
    ensures kind_3 { (bytes : List ℕ) → IsErrorOfKind 3 bytes 31 }
    ensures index { detail_number (Error.TimeZone Expected.TypeIndexesWithinTypes) ≡ 41 }
    ensures times { detail_number (Error.TimeZone Expected.TransitionTimesThatRise) ≡ 42 }
    ensures leaps { detail_number (Error.TimeZone Expected.LeapSecondsInOrder) ≡ 43 }
    ensures rule { detail_number (Error.TimeZone Expected.RuleThatAgreesWithLastTransition) ≡ 44 }
    ensures memory { detail_number Error.OutOfMemory ≡ 17 }
    ensures last_of_reader { IsReaderNumber 17 }
    ensures last_of_lists { IsReaderNumber 44 }
    ensures not_of_reader { ¬ (IsReaderNumber 21) }
    ensures not_after_lists { ¬ (IsReaderNumber 45) }
{}

/// The words of 33, and of a number that means nothing; a text is cut for the zero byte at its end.
pub fn number_texts()
    ensures closed { IsTextOf 33 (codes "no zone is open") }
    ensures unknown { IsTextOf 99 (codes "no number of this library") }
    ensures cut { written_over (1 ∷ 2 ∷ 3 ∷ []) (9 ∷ 9 ∷ []) ≡ 1 ∷ 0 ∷ [] }
    ensures room { written_over (1 ∷ []) (9 ∷ 9 ∷ 9 ∷ []) ≡ 1 ∷ 0 ∷ 9 ∷ [] }
    ensures no_room { written_over (1 ∷ []) [] ≡ [] }
{}

/// A local time after the calendar's range has no instant, by 23.
pub fn out_of_range_numbers()
    ensures resolved { (z : Zone) (choice : Choice)
        → IsResolvedAt z choice (pos 8_210_266_876_800) (unresolved 23) }
    ensures reached { (z : Zone) → IsReachedAt z (pos 8_210_266_876_800) (unresolved 23) }
{}

/// Clocks that are an hour ahead of UTC before second 0, and not from then on, show 1800 at -1800 and at
/// 1800. The change of that fold is at 0.
pub fn folds()
    ensures fold { HasFold set_back (pos 1_800) summer winter (pos 0) }
    ensures only { (before after : LocalType) (at : ℤ)
        → HasFold set_back (pos 1_800) before after at → at ≡ pos 0 }
    ensures repeats { Repeats set_back (pos 1_800)
        (record { at = pos 0; before = summer; after = winter }) }
    ensures either { SkipsOrRepeats set_back (pos 1_800)
        (record { at = pos 0; before = summer; after = winter }) }
{}

/// A local time that one second shows has no clock change, by 35, and one after the calendar's range by 23.
pub fn local_changes()
    ensures once { (z : Zone) (local : ℤ) (t : LocalType) → IsShownOnce (Shows (TypeAt z) local) t
        → IsNoLocalChange z local 35 }
    ensures outside { (z : Zone) → IsNoLocalChange z (pos 8_210_266_876_800) 23 }
    ensures others { (z : Zone) (local : ℤ) (n : ℕ) → IsNoLocalChange z local n
        → (n ≡ 23) ⊎ (n ≡ 35) }
{}

/// A local time in a gap is shown never, by 0, between the span of the second before the change and that of
/// the change. In a fold it is shown several times, by 2, in the spans of its first and its last second; and
/// otherwise once, by 1, in one span.
pub fn local_infos()
    ensures never { (z : Zone) (local : ℤ) (c : Change) (a b : WrittenSpan) → Skips (TypeAt z) local c
        → IsWrittenSpanAt z (c.at -ℤ pos 1) a → IsWrittenSpanAt z c.at b
        → IsLocalInfo z local (record { shown = pos 0; first = a; last = b }) }
    ensures several { (z : Zone) (local : ℤ) (s t : LocalType) (a b : WrittenSpan)
        → (shown : IsShownBetween (Shows (TypeAt z) local) s t)
        → IsWrittenSpanAt z shown.first a → IsWrittenSpanAt z shown.last b
        → IsLocalInfo z local (record { shown = pos 2; first = a; last = b }) }
    ensures once { (z : Zone) (local : ℤ) (t : LocalType) (a : WrittenSpan)
        → (shown : IsShownOnce (Shows (TypeAt z) local) t) → IsWrittenSpanAt z shown.second a
        → IsLocalInfo z local (record { shown = pos 1; first = a; last = a }) }
    ensures no_other { (z : Zone) (local : ℤ) (w : WrittenLocalInfo) → IsLocalInfo z local w
        → (w.shown ≡ pos 0) ⊎ (w.shown ≡ pos 1) ⊎ (w.shown ≡ pos 2) }
{}

/// Without a rule the string is empty; the string of a rule is the one that is written of it.
pub fn rule_strings()
    ensures no_rule { IsRuleString None [] }
    ensures only { (text : List ℕ) → IsRuleString None text → text ≡ [] }
    ensures spelled { (rule : TransitionRule) (text : List ℕ) → IsWrittenText rule text true
        → IsRuleString (Some rule) text }
{}
