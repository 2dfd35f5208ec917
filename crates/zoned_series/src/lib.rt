//! One local time on each day: "every day at 02:30 in New York", with a policy for gaps and folds.
#![tactic(auto)]

mod items;
pub mod laws;
mod series;
mod series_error;

pub use items::DailyItems;
pub use series::DailySeries;
pub use series_error::SeriesError;
