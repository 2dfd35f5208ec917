//! Tests of zones by values that come from outside: what files and lists give, the types in force
//! at instants, and the texts of errors. The files are in [`vectors`].
//!
//! The values that the port is asked for are in the tests of several crates:
//!
//! | values | tests |
//! |---|---|
//! | New York's gap and fold by a TZ string; an order that turns over at the new year; a local time that three instants show; two changes at one second; types that a clock shows alike | `zoned_vectors`: `wall_clocks` |
//! | Guayaquil's, Honolulu's and Jerusalem's files; each of them cut short; with bytes changed; headers with the greatest counts | `zoned_vectors`: `files`, `cuts`, `changed_bytes`, `headers` |
//! | lists that make a zone or none; the 27 leap seconds; counts of lookups by instant | `zoned_vectors`: `lists` |
//! | the counts of a zone of 1,024 changes, by the index and by the walk; all of a million changes | `zoned_vectors`: `local_search`; `tests_large_zone` |
//! | offsets of 68 years, the ends of 64 bits, a leap second taken away, a million zeros | `zoned_vectors`: `far_values` |
//! | TZ strings and the number of each fault; days of a rule | `tz_info`: `texts`, `rules` |
//! | lines of `zoneq`: a whole run with an earlier zone, files, instants, policies, ends that fail | `zoneq_lib`: `lines`, `files`, `instants`, `choices`, `ends` |
//! | local date-times in a leap second, their moves, differences and printed bytes | `naive_base`: `readings` |
//! | timestamps, instants at both ends of the range, printed instants | `zoned_time`: `instants`; `tests_idioms`: `ends` |
//! | days and months in a gap and a fold, whole years, offsets that disagree with their zone | `tests_idioms`: `calendar`, `moves`, `disagreeing_offsets` |
//! | rounded date-times and instants | `zoned_round`: `durations`, `subseconds`; `tests_idioms`: `rounding` |
//! | policies for gaps and folds, a daily series | `tests_idioms`: `choices` |
//! | a zone whose clocks are ahead at each odd second | `demo_own_zone`: `odd_seconds` |
//! | a zone with a clock a day ahead, an offset that leads back to its zone | `zoned_ref`: `zones` |
#![tactic(auto)]

pub mod vectors;
