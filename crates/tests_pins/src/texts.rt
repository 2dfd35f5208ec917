//! TZ strings and the rules that they spell (POSIX.1 section 8.3, RFC 8536 section 3.3.1).

ghost use Rattle.std.specs.Prelude.{◌≡◌, ◌++◌, ◌∷◌, [], codes, false, neg_ℤ, pos, true, Bool, ℕ};
ghost use Rattle.{
  tests_pins.specs.NewYork.{edt, est, new_york_rule, new_york_zone},
  tests_pins.specs.Texts.{day_0, fo_5, foo, foo_23, foo_23_rule, foo_24, foo_5_06_07, foo_5_30, foo_5_60, foo_ahead},
  tests_pins.specs.Texts.{foo_behind, foo_minus_5, foo_plus_5, jerusalem_rule, jerusalem_text, new_york_text, no_days},
  tests_pins.specs.Texts.{numbered_rule, numbered_text, nuuk_rule, nuuk_text, small, utc_rule, utc_text},
  tz_base.specs.Names.{IsName},
  tz_info.specs.PosixZones.{posix_zone, types_of, IsExtendedFaultPlace, IsPlaced, IsPosixFaultPlace, IsPosixZone},
  tz_info.specs.Zones.{plain_zone, Zone},
  tz_info.specs.TzGrammar.{signed_seconds, text_fault_position, time_limit, IsTextFault, IsTzText},
};

use tz_base::{Error, Expected};
use tz_info::TransitionRule;

/// `EST5EDT,M3.2.0,M11.1.0` spells that rule, as it does with the offset of EDT in it; and `UTC0` one
/// of one type.
pub fn rules()
    ensures new_york { (extended : Bool) → IsTzText extended new_york_text new_york_rule }
    ensures offset_given { (extended : Bool)
        → IsTzText extended (codes "EST5EDT4,M3.2.0,M11.1.0") new_york_rule }
    ensures utc { (extended : Bool) → IsTzText extended utc_text utc_rule }
    ensures zone { IsPosixZone new_york_text new_york_zone }
{}

/// Offsets count west of UTC: `+5`, like `5`, means -5 hours from UTC, and `-5` means +5 hours.
pub fn signs()
    ensures plus { (extended : Bool) → IsTzText extended foo_plus_5 foo_behind }
    ensures minus { (extended : Bool) → IsTzText extended foo_minus_5 foo_ahead }
{}

/// `J60` is the 60th day of a common year, and `300` the day 300 after 1 January.
pub fn numbered_days()
    ensures rule { (extended : Bool) → IsTzText extended numbered_text numbered_rule }
{}

/// White space around a text is no part of it, and no text at all gives the zone of UTC.
pub fn zones()
    ensures spaced { IsPosixZone (32 ∷ (utc_text ++ (10 ∷ []))) (posix_zone utc_rule) }
    ensures empty { IsPosixZone [] (plain_zone (pos 0)) }
    ensures types { types_of new_york_rule ≡ est ∷ edt ∷ [] }
{}

/// A name has three to seven letters, digits, `+` or `-`.
#[tactic(auto, using(tz_base::specs::Steps::TextTests::name_from, tz_base::specs::Steps::TextTests::name_to))]
pub fn names()
    ensures three { IsName (codes "EST") }
    ensures seven { IsName (codes "+123-Zz") }
    ensures two { ¬ (IsName (codes "ES")) }
    ensures eight { ¬ (IsName (codes "ESTESTES")) }
    ensures underscore { ¬ (IsName (codes "E_T")) }
{}

/// Hours of a time of day go to 24, and with extensions to 167. An offset of 1:30:15 west is
/// 5,415 seconds less than UTC.
pub fn times()
    ensures plain { time_limit false ≡ 24 }
    ensures extended { time_limit true ≡ 167 }
    ensures west { signed_seconds true 1 30 15 ≡ neg_ℤ (pos 5_415) }
    ensures east { signed_seconds false 1 30 15 ≡ pos 5_415 }
{}

/// RFC 8536's examples of its extensions: a time of 26 hours, and times before midnight.
pub fn extensions()
    ensures jerusalem { IsTzText true jerusalem_text jerusalem_rule }
    ensures nuuk { IsTzText true nuuk_text nuuk_rule }
{}

/// `EST5EDT` ends before the days of its rule, and gives no zone.
pub fn faults()
    ensures ends { IsTextFault false no_days
        (Error.UnsupportedTzString Expected.DaysWhenDaylightSavingTimeStartsAndEnds) }
    ensures none { (zone : Zone) → ¬ (IsPosixZone no_days zone) }
{}

/// A minute is below 60, an offset has a digit, a name three letters, and the first date of a year
/// is `J1`.
pub fn fault_numbers()
    ensures minute_60 { (extended : Bool) → IsTextFault extended foo_5_60
        (Error.InvalidTzString Expected.HoursMinutesAndSecondsWithinTheirLimits) }
    ensures no_digit { (extended : Bool) → IsTextFault extended foo (Error.ParseInt Expected.Digit) }
    ensures two_letters { (extended : Bool) → IsTextFault extended fo_5
        (Error.LocalTimeType Expected.NameOfThreeToSevenBytes) }
    ensures date_0 { (extended : Bool) → IsTextFault extended day_0
        (Error.TransitionRule Expected.DayFromJ1ToJ365) }
{}

/// A fault is at the number, the time or the name whose value is rejected, at the first byte that no
/// string goes on with, or at the end of a string that is too short.
pub fn fault_places()
    ensures month { (extended : Bool)
        → text_fault_position extended (codes "EST5EDT,M3.2.0,M13.1.0") ≡ 16 }
    ensures week { (extended : Bool)
        → text_fault_position extended (codes "EST5EDT,M3.6.0,M11.1.0") ≡ 11 }
    ensures weekday { (extended : Bool)
        → text_fault_position extended (codes "EST5EDT,M3.2.7,M11.1.0") ≡ 13 }
    ensures hours { (extended : Bool) → text_fault_position extended foo_24 ≡ 3 }
    ensures name { (extended : Bool)
        → text_fault_position extended (codes "EST5ED,M3.2.0,M11.1.0") ≡ 4 }
    ensures offset_left_out { (extended : Bool)
        → text_fault_position extended (codes "EST-23:30EDT,M3.2.0,M11.1.0") ≡ 12 }
    ensures no_dot { (extended : Bool)
        → text_fault_position extended (codes "EST5EDT,M3,M11.1.0") ≡ 10 }
    ensures bytes_after { (extended : Bool)
        → text_fault_position extended (codes "EST5EDT,M3.2.0,M11.1.0;") ≡ 22 }
    ensures end { (extended : Bool) → text_fault_position extended no_days ≡ 7 }
{}

/// White space in front of the TZ string of a zone is counted, and a string of white space has its
/// fault at its end.
pub fn zone_fault_places()
    ensures spaced { IsPosixFaultPlace (32 ∷ (foo_24 ++ (10 ∷ []))) 4 }
    ensures only_spaced { (place : ℕ) → IsPosixFaultPlace (32 ∷ (foo_24 ++ (10 ∷ []))) place
        → place ≡ 4 }
    ensures spaces { IsPosixFaultPlace (32 ∷ 32 ∷ 32 ∷ []) 3 }
    ensures only_spaces { (place : ℕ) → IsPosixFaultPlace (32 ∷ 32 ∷ 32 ∷ []) place → place ≡ 3 }
    ensures extended { IsExtendedFaultPlace foo_24 3 }
    ensures only_extended { (place : ℕ) → IsExtendedFaultPlace foo_24 place → place ≡ 3 }
{}

/// A fault has a place, and running out of memory has none.
pub fn placed_errors()
    ensures there { IsPlaced (λ n. n ≡ 3) (record { error = Error.ParseInt Expected.Digit; position = Some 3 }) }
    ensures elsewhere { ¬ (IsPlaced (λ n. n ≡ 3)
        (record { error = Error.ParseInt Expected.Digit; position = Some 4 })) }
    ensures nowhere { ¬ (IsPlaced (λ n. n ≡ 3)
        (record { error = Error.ParseInt Expected.Digit; position = None })) }
    ensures memory { IsPlaced (λ n. n ≡ 3) (record { error = Error.OutOfMemory; position = None }) }
    ensures memory_there { ¬ (IsPlaced (λ n. n ≡ 3)
        (record { error = Error.OutOfMemory; position = Some 3 })) }
{}

/// The hours of an offset go to 23, and not to 24 as POSIX.1 allows.
pub fn limits()
    ensures hours_23 { (extended : Bool) → IsTzText extended foo_23 foo_23_rule }
    ensures hours_24 { (extended : Bool) → IsTextFault extended foo_24
        (Error.InvalidTzString Expected.HoursMinutesAndSecondsWithinTheirLimits) }
    ensures none { (zone : Zone) → ¬ (IsPosixZone foo_24 zone) }
{}

/// Minutes and seconds come after hours, each after a colon, and seconds may be left out; names have
/// small letters too.
pub fn clocks()
    ensures minutes { (extended : Bool) → IsTzText extended (codes "FOO5:30") foo_5_30 }
    ensures seconds { (extended : Bool) → IsTzText extended (codes "FOO5:06:07") foo_5_06_07 }
    ensures small_letters { (extended : Bool) → IsTzText extended (codes "foo5") small }
{}

/// These spell no rule: a second 60; an offset that is left out and would be a day; bytes after a rule; days, months, weeks and weekdays above
/// their limits; names of eight bytes, and with other bytes.
pub fn no_rules()
    ensures second_60 { (extended : Bool) (r : TransitionRule)
        → ¬ (IsTzText extended (codes "FOO5:00:60") r) }
    ensures left_out { (extended : Bool) (r : TransitionRule)
        → ¬ (IsTzText extended (codes "FOO-23BAR,J1,J2") r) }
    ensures left_over { (extended : Bool) (r : TransitionRule)
        → ¬ (IsTzText extended (codes "FOO5BAR,J1,J2,J3") r) }
    ensures julian_366 { (extended : Bool) (r : TransitionRule)
        → ¬ (IsTzText extended (codes "FOO5BAR,J366,J2") r) }
    ensures day_366 { (extended : Bool) (r : TransitionRule)
        → ¬ (IsTzText extended (codes "FOO5BAR,366,J2") r) }
    ensures month_13 { (extended : Bool) (r : TransitionRule)
        → ¬ (IsTzText extended (codes "FOO5BAR,M13.1.0,J2") r) }
    ensures week_6 { (extended : Bool) (r : TransitionRule)
        → ¬ (IsTzText extended (codes "FOO5BAR,M1.6.0,J2") r) }
    ensures weekday_7 { (extended : Bool) (r : TransitionRule)
        → ¬ (IsTzText extended (codes "FOO5BAR,M1.1.7,J2") r) }
    ensures eight_letters { (extended : Bool) (r : TransitionRule)
        → ¬ (IsTzText extended (codes "ABCDEFGH5") r) }
    ensures underscore { (extended : Bool) (r : TransitionRule)
        → ¬ (IsTzText extended (codes "<FO_>5") r) }
    ensures signed_time { (r : TransitionRule)
        → ¬ (IsTzText false (codes "FOO5BAR,J1/-1,J2") r) }
{}
