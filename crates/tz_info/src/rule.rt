//! The rule of a TZ string: one type forever, or two that take turns each year.

mod alternate;
mod asked;
mod beside;
mod changes;
mod day;
mod day_places;
mod kind_places;
mod kinds;
mod moments;
pub(crate) mod piece;
mod reached;
pub(crate) mod reader;
mod season;
mod transition_rule;
mod wall_clock;
mod years;

pub use alternate::AlternateTime;
pub use day::{DayForm, RuleDay};
pub(crate) use season::Season;
pub use transition_rule::TransitionRule;
