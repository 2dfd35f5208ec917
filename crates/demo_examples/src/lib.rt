//! The examples of the documents, compiled, proved and tested. It names one library, `zoned`.
//!
//! `readme` and `front_page` have the examples of README.md and of the library's front page, `fixed`
//! instants of UTC and of fixed offsets, `borrowed` instants of a borrowed zone, `calendar_days` when
//! days, weeks, months and years start, `own_zone` and `any_zone` the zones of docs/OWN_ZONE.md, and `facts` contracts
//! of a client's own.
//!
//! Four modules are clients as a user would write them: `scheduler` runs jobs at times of day, `calendar`
//! has events at instants and on whole days, `log_reader` reads logs whose lines have local times, and
//! `text` writes instants as text, for people and for other programs.
#![tactic(auto)]

mod any_zone;
mod borrowed;
pub mod calendar;
mod calendar_days;
mod error;
mod facts;
mod fixed;
mod front_page;
pub mod log_reader;
mod own_zone;
mod readme;
pub mod scheduler;
pub mod text;

pub use any_zone::{AnyOffset, AnyZone};
pub use borrowed::{by_clock, earliest_first, keep, line};
pub use calendar_days::{Question, day_answer, same_day, seconds_of_day};
pub use error::MyError;
pub use facts::{
    abbreviation, bucket, clock_of, elsewhere, fire, later, months_later, next_change_twice,
    next_shown, offset_until, on_day, place, seconds, truncated_in_zone, twice,
};
pub use fixed::{
    an_hour_ahead, is_before, new_year, new_year_in_the_west, noon, only_in_new_york,
    shown_in_new_york,
};
pub use front_page::{Alarm, alarm_at, daily, day_starts, next_change, outcome, reading, shown};
pub use own_zone::Nepal;
pub use readme::{ChangeLines, FirstLines, clocks_change, half_past_two};
