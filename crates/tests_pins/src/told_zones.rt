//! Rules, tables and zones as `zonedump` prints them.
#![tactic(auto, unfolding(crate::proofs::Computed::wording))]

ghost use Rattle.std.specs.Prelude.{◌≡◌, ◌++◌, ◌∷◌, [], codes, neg_ℤ, pos};
ghost use Rattle.{
  json.specs.{Print.{print}, Tree.{json_tokens}},
  tests_pins.specs.{Changes.{autumn, spring}, NewYork.{new_york_rule, new_york_zone}, Texts.{utc_rule}},
  tests_pins.specs.{LeapSeconds.{entry}, Zones.{utc_zone}},
  zonedump_lib.specs.{ChangeLines.{change_lines}, JsonValues.{day_value, leap_value, rule_value, zone_value}},
  zonedump_lib.specs.ZdumpLines.{IsZdump},
  zonedump_lib.specs.RuleWords.{day_words, moment_words, month_words, rule_words, week_words, weekday_words},
  zonedump_lib.specs.{Tables.{head_text, leap_text, table_text, BeginsTable, IsTable}, ZdumpLines.{zdump_text}},
};

use tz_info::DayForm;
use zonedump_lib::Bound;

/// New York's rule, one type, and no rule.
pub fn rules()
    ensures new_york { rule_words (Some new_york_rule)
        ≡ codes "-05:00 std EST, and -04:00 dst EDT from the second Sunday of March at 02:00:00"
        ++ codes " to the first Sunday of November at 02:00:00" }
    ensures utc { rule_words (Some utc_rule) ≡ codes "+00:00 std UTC always" }
    ensures none { rule_words None ≡ codes "none" }
    ensures julian { day_words (DayForm.Julian1 60) ≡ codes "date 60 of 365" }
    ensures numbered { day_words (DayForm.Julian0 300) ≡ codes "300 days after 1 January" }
    ensures next_day { moment_words (pos 93_600) ≡ codes "93600 s after midnight" }
    ensures day_before { moment_words (neg_ℤ (pos 3_600)) ≡ codes "-3600 s after midnight" }
    ensures midnight_after { moment_words (pos 86_400) ≡ codes "86400 s after midnight" }
{}

/// The names of months, weeks and weekdays.
pub fn names()
    ensures january { month_words 1 ≡ codes "January" }
    ensures february { month_words 2 ≡ codes "February" }
    ensures march { month_words 3 ≡ codes "March" }
    ensures april { month_words 4 ≡ codes "April" }
    ensures may { month_words 5 ≡ codes "May" }
    ensures june { month_words 6 ≡ codes "June" }
    ensures july { month_words 7 ≡ codes "July" }
    ensures august { month_words 8 ≡ codes "August" }
    ensures september { month_words 9 ≡ codes "September" }
    ensures october { month_words 10 ≡ codes "October" }
    ensures november { month_words 11 ≡ codes "November" }
    ensures december { month_words 12 ≡ codes "December" }
    ensures first { week_words 1 ≡ codes "first" }
    ensures second { week_words 2 ≡ codes "second" }
    ensures third { week_words 3 ≡ codes "third" }
    ensures fourth { week_words 4 ≡ codes "fourth" }
    ensures last { week_words 5 ≡ codes "last" }
    ensures sunday { weekday_words 0 ≡ codes "Sunday" }
    ensures monday { weekday_words 1 ≡ codes "Monday" }
    ensures tuesday { weekday_words 2 ≡ codes "Tuesday" }
    ensures wednesday { weekday_words 3 ≡ codes "Wednesday" }
    ensures thursday { weekday_words 4 ≡ codes "Thursday" }
    ensures friday { weekday_words 5 ≡ codes "Friday" }
    ensures saturday { weekday_words 6 ≡ codes "Saturday" }
{}

/// The head of the table of New York in 2021, and the line of a leap second.
pub fn table_heads()
    ensures new_york { head_text new_york_zone (Bound.Year 2021) (Bound.Year 2021) 2
        ≡ codes "0 transitions, 2 types, 0 leap seconds\n"
        ++ codes "rule: -05:00 std EST, and -04:00 dst EDT from the second Sunday of March"
        ++ codes " at 02:00:00 to the first Sunday of November at 02:00:00\n"
        ++ codes "changes from 2021 to 2021: 2\n" }
    ensures leap { leap_text (entry (pos 78_796_800) 1)
        ≡ codes "leap second: correction 1 from leap time 78796800" }
{}

/// New York in 2021 has two changes, in the table and in the lines of zdump. After its head and the
/// first one the line of the second one is left of the table.
pub fn year_2021()
    ensures table { IsTable new_york_zone (Bound.Year 2021) (Bound.Year 2021) (table_text
        new_york_zone (Bound.Year 2021) (Bound.Year 2021) (spring ∷ autumn ∷ [])) }
    ensures begun { BeginsTable new_york_zone (Bound.Year 2021) (Bound.Year 2021)
        (head_text new_york_zone (Bound.Year 2021) (Bound.Year 2021) 2
        ++ change_lines (spring ∷ [])) (autumn ∷ []) }
    ensures zdump { IsZdump (codes "NY") new_york_zone (Bound.Year 2021) (Bound.Year 2021)
        (zdump_text (codes "NY") (spring ∷ autumn ∷ [])) }
{}

/// Rules, leap seconds and a zone as JSON.
pub fn json()
    ensures julian { print (json_tokens (day_value (DayForm.Julian1 60)))
        ≡ codes "{\"form\":\"J\",\"n\":60}" }
    ensures numbered { print (json_tokens (day_value (DayForm.Julian0 300)))
        ≡ codes "{\"form\":\"n\",\"n\":300}" }
    ensures weekday { print (json_tokens (day_value (DayForm.MonthWeekday 3 2 0)))
        ≡ codes "{\"form\":\"M\",\"month\":3,\"week\":2,\"weekday\":0}" }
    ensures rule { print (json_tokens (rule_value (Some new_york_rule)))
        ≡ codes "{\"std\":{\"offset\":-18000,\"dst\":false,\"name\":\"EST\"},"
        ++ codes "\"dst\":{\"offset\":-14400,\"dst\":true,\"name\":\"EDT\"},"
        ++ codes "\"start\":{\"day\":{\"form\":\"M\",\"month\":3,\"week\":2,\"weekday\":0},"
        ++ codes "\"time\":7200},"
        ++ codes "\"end\":{\"day\":{\"form\":\"M\",\"month\":11,\"week\":1,\"weekday\":0},"
        ++ codes "\"time\":7200}}" }
    ensures leap { print (json_tokens (leap_value (entry (pos 78_796_800) 1)))
        ≡ codes "{\"leap_time\":78796800,\"correction\":1}" }
    ensures zone { print (json_tokens (zone_value
        (codes "UTC") (Bound.Year 2020) (Bound.Year 2021) utc_zone []))
        ≡ codes "{\"zone\":\"UTC\",\"from\":2020,\"to\":2021,\"transitions\":0,\"types\":1,"
        ++ codes "\"rule\":{\"always\":{\"offset\":0,\"dst\":false,\"name\":\"UTC\"}},"
        ++ codes "\"leap_seconds\":[],\"changes\":[]}" }
{}
