//! Recurrence rules of RFC 5545, as plans: sets of local times.
//!
//! A [`RecurrenceRule`] is the parts of a rule. [`Recurrence`] is the local times that it has from a start
//! on and up to an end, a [`Plan`](naive_plans::Plan).
#![tactic(auto)]

mod earlier_occasions;
mod empty_rules;
pub mod laws;
mod occasions;
mod positions;
mod recurrence;
mod rule;
mod rule_periods;
mod rule_print;
mod rule_text;
mod seconds;

pub use recurrence::{Recurrence, RecurrenceEnd, RecurrenceError};
pub use rule::{Frequency, NthWeekday, RecurrenceRule};
pub use rule_text::{RuleExpected, RuleText, RuleTextError};
