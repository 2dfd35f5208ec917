//! Theorems about the definitions only, stated as contracts of empty functions.
//!
//! Contracts are written in the words of `specs/`. A wrong word makes each proof that uses it a
//! proof of something else, and no proof of code can notice. These facts can: they are worked
//! examples from the public standards and from the calendar, stated of the words and proved with no
//! code between.
#![tactic(auto)]

pub mod allowed_rules;
pub mod asked_lines;
pub mod calendar;
pub mod choices;
pub mod clock_changes;
pub mod days;
pub mod differences;
pub mod fault_places;
pub mod fields;
pub mod files;
pub mod fires;
pub mod gaps;
pub mod honolulu;
pub mod instants;
pub mod kept_zones;
pub mod leap_seconds;
pub mod lengths;
pub mod looks;
pub mod moves;
pub mod odd;
pub mod plans;
pub mod policies;
pub mod printed;
pub mod printed_changes;
pub mod questions;
pub mod readings;
pub mod recurrence_rules;
pub mod recurrence_sets;
pub mod roundings;
pub mod rule_texts;
pub mod rules;
pub mod runs;
pub mod savings;
pub mod series;
pub mod shown_seconds;
pub mod spans;
pub mod steps;
pub mod texts;
pub mod told_zones;
pub mod values;
pub mod wall_clocks;
pub mod written_zones;
pub mod zone_names;
pub mod zones;
