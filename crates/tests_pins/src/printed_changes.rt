//! Clock changes as text: the lines of `zdump -v`, a line of a table, and JSON.
#![tactic(auto, using(crate::proofs::ChangeDays::march_2021), unfolding(crate::proofs::Computed::wording))]

ghost use Rattle.std.specs.Prelude.{◌≡◌, ◌++◌, ◌∷◌, [], codes, false, neg_ℤ, pos, true};
ghost use Rattle.{
  json.specs.{Print.{print}, Tree.{json_tokens}},
  naive_base.specs.NaiveDate.{day_of},
  tests_pins.specs.{Changes.{change_at, spring, unnamed}, Differences.{in_march}, NewYork.{edt, est}},
  zonedump_lib.specs.{ChangeLines.{change_lines}, ChangeValues.{change_value, step_name, type_value}},
  zonedump_lib.specs.DifferenceForms.{difference_lines, differences_value, lone_value, moved_by},
  zonedump_lib.specs.Periods.{bound_value, bound_words, first_second, second_after, IsPeriod},
  zonedump_lib.specs.Words.{offset_words, step_words, type_words},
  zonedump_lib.specs.ZdumpLines.{short_weekday, first_lines, flag_text, last_lines, pair_lines, short_day, short_month},
};

use naive_base::NaiveDate;
use zonedump_lib::Bound;

/// What `zdump -v` prints of New York's change on 11 March 2007.
pub fn zdump_pair()
    ensures { pair_lines (codes "America/New_York") (change_at (pos 1_173_596_400) est edt)
        ≡ codes "America/New_York  Sun Mar 11 06:59:59 2007 UT = Sun Mar 11 01:59:59 2007 EST"
        ++ codes " isdst=0 gmtoff=-18000\n"
        ++ codes "America/New_York  Sun Mar 11 07:00:00 2007 UT = Sun Mar 11 03:00:00 2007 EDT"
        ++ codes " isdst=1 gmtoff=-14400\n" }
{}

/// The lines with which `zdump -v` begins and ends, of seconds that have no date in C.
pub fn zdump_ends()
    ensures first { first_lines (codes "UTC")
        ≡ codes "UTC  -9223372036854775808 = NULL\nUTC  -9223372036854689408 = NULL\n" }
    ensures last { last_lines (codes "UTC")
        ≡ codes "UTC  9223372036854689407 = NULL\nUTC  9223372036854775807 = NULL\n" }
{}

/// Months and weekdays as `asctime` has them; a day of one digit has a space in front.
pub fn zdump_names()
    ensures january { short_month 1 ≡ codes "Jan" }
    ensures february { short_month 2 ≡ codes "Feb" }
    ensures march { short_month 3 ≡ codes "Mar" }
    ensures april { short_month 4 ≡ codes "Apr" }
    ensures may { short_month 5 ≡ codes "May" }
    ensures june { short_month 6 ≡ codes "Jun" }
    ensures july { short_month 7 ≡ codes "Jul" }
    ensures august { short_month 8 ≡ codes "Aug" }
    ensures september { short_month 9 ≡ codes "Sep" }
    ensures october { short_month 10 ≡ codes "Oct" }
    ensures november { short_month 11 ≡ codes "Nov" }
    ensures december { short_month 12 ≡ codes "Dec" }
    ensures sunday { short_weekday 0 ≡ codes "Sun" }
    ensures monday { short_weekday 1 ≡ codes "Mon" }
    ensures tuesday { short_weekday 2 ≡ codes "Tue" }
    ensures wednesday { short_weekday 3 ≡ codes "Wed" }
    ensures thursday { short_weekday 4 ≡ codes "Thu" }
    ensures friday { short_weekday 5 ≡ codes "Fri" }
    ensures saturday { short_weekday 6 ≡ codes "Sat" }
    ensures one_digit { short_day 3 ≡ codes " 3" }
    ensures two_digits { short_day 10 ≡ codes "10" }
    ensures standard { flag_text false ≡ codes "0" }
    ensures daylight { flag_text true ≡ codes "1" }
{}

/// The line of New York's change on 14 March 2021.
pub fn table_line()
    ensures { change_lines (spring ∷ [])
        ≡ codes "2021-03-14 07:00:00 UTC  2021-03-14 02:00:00 -05:00 std EST"
        ++ codes " -> 2021-03-14 03:00:00 -04:00 dst EDT  gap of 3600 s at 1615705200\n" }
{}

/// Offsets, types and steps in words.
pub fn table_words()
    ensures within_a_day { offset_words (neg_ℤ (pos 86_399)) ≡ codes "-23:59:59" }
    ensures a_day { offset_words (pos 86_400) ≡ codes "86400" }
    ensures a_day_behind { offset_words (neg_ℤ (pos 86_400)) ≡ codes "-86400" }
    ensures standard { type_words est ≡ codes "-05:00 std EST" }
    ensures daylight { type_words edt ≡ codes "-04:00 dst EDT" }
    ensures unnamed { type_words unnamed ≡ codes "+01:00 std -" }
    ensures gap { step_words (pos 1_800) ≡ codes "gap of 1800 s" }
    ensures fold { step_words (neg_ℤ (pos 3_600)) ≡ codes "fold of 3600 s" }
    ensures none { step_words (pos 0) ≡ codes "no step" }
{}

/// New York's change on 14 March 2021 as JSON.
pub fn json_change()
    ensures { print (json_tokens (change_value spring))
        ≡ codes "{\"at\":1615705200,\"utc\":\"2021-03-14 07:00:00\","
        ++ codes "\"before\":{\"offset\":-18000,\"dst\":false,\"name\":\"EST\"},"
        ++ codes "\"after\":{\"offset\":-14400,\"dst\":true,\"name\":\"EDT\"},"
        ++ codes "\"step\":\"gap\",\"length\":3600}" }
{}

/// Steps of all three kinds, and a type without a name.
pub fn json_words()
    ensures gap { step_name (pos 0) (pos 3_600) ≡ codes "gap" }
    ensures fold { step_name (pos 3_600) (pos 0) ≡ codes "fold" }
    ensures none { step_name (pos 3_600) (pos 3_600) ≡ codes "none" }
    ensures unnamed { print (json_tokens (type_value unnamed))
        ≡ codes "{\"offset\":3600,\"dst\":false,\"name\":null}" }
{}

/// The day 2021-03-14 begins a period, which may end on that day or with that year, and not with
/// the year before.
pub fn days()
    ensures begins { (d : NaiveDate) → day_of d ≡ pos 18_700
        → first_second (Bound.Date d) ≡ pos 1_615_680_000 }
    ensures ends { (d : NaiveDate) → day_of d ≡ pos 18_700
        → second_after (Bound.Date d) ≡ pos 1_615_766_400 }
    ensures words { (d : NaiveDate) → day_of d ≡ pos 18_700
        → bound_words (Bound.Date d) ≡ codes "2021-03-14" }
    ensures json { (d : NaiveDate) → day_of d ≡ pos 18_700
        → print (json_tokens (bound_value (Bound.Date d))) ≡ codes "\"2021-03-14\"" }
    ensures one_day { (d : NaiveDate) → day_of d ≡ pos 18_700 → IsPeriod (Bound.Date d) (Bound.Date d) }
    ensures in_its_year { (d : NaiveDate) → day_of d ≡ pos 18_700
        → IsPeriod (Bound.Date d) (Bound.Year 2021) }
    ensures over_before { (d : NaiveDate) → day_of d ≡ pos 18_700
        → IsPeriod (Bound.Date d) (Bound.Year 2020) → ⊥ }
    ensures no_year { IsPeriod (Bound.Year 0) (Bound.Year 2021) → ⊥ }
    ensures five_digits { IsPeriod (Bound.Year 2021) (Bound.Year 10_000) → ⊥ }
{}

/// An hour in which one zone has EST and another one EDT, whose clocks are an hour ahead: as a line and as
/// JSON. A zone that only one of two folders has.
pub fn differences()
    ensures moved { moved_by in_march ≡ pos 3_600 }
    ensures line { difference_lines (in_march ∷ [])
        ≡ codes "2021-03-14 07:00:00 to 2021-03-14 08:00:00 UTC  -05:00 std EST"
        ++ codes " -> -04:00 dst EDT  moved by 3600 s\n" }
    ensures json { print (json_tokens (differences_value (codes "a") (codes "b")
        (Bound.Year 2021) (Bound.Year 2022) (in_march ∷ [])))
        ≡ codes "{\"old\":\"a\",\"new\":\"b\",\"from\":2021,\"to\":2022,\"differences\":["
        ++ codes "{\"from\":1615705200,\"from_utc\":\"2021-03-14 07:00:00\","
        ++ codes "\"until\":1615708800,\"until_utc\":\"2021-03-14 08:00:00\","
        ++ codes "\"old\":{\"offset\":-18000,\"dst\":false,\"name\":\"EST\"},"
        ++ codes "\"new\":{\"offset\":-14400,\"dst\":true,\"name\":\"EDT\"},\"moved\":3600}]}" }
    ensures lone { print (json_tokens (lone_value (codes "a"))) ≡ codes "{\"only\":\"a\"}" }
{}
