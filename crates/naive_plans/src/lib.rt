//! Plans: sets of local times, such as those of a crontab line. A plan knows no time zone.
//!
//! [`Plan`] and [`ReversiblePlan`] are what a plan answers: its next local time after one, and its last
//! one up to one. [`DayPlan`] and [`ReversibleDayPlan`] make such a plan of the seconds of the day that it
//! has on each date. [`Cron`] is one.
#![tactic(auto)]

mod clock_step;
mod cron;
mod daily_time;
mod day_plan;
pub mod days;
pub mod laws;
mod part_of_day;
mod plan;
mod sets;

pub use clock_step::ClockStep;
pub use cron::Cron;
pub use daily_time::DailyTime;
pub use day_plan::{DayPlan, ReversibleDayPlan, last_local_time, next_local_time};
pub use part_of_day::PartOfDay;
pub use plan::{Plan, ReversiblePlan};
pub use sets::{Except, Intersection, LocalTimes, Union};
