//! A calendar: events at instants and on whole days, with day and week views in the viewer's time
//! zone.
//!
//! A day starts when clocks first show its midnight or a later time: mostly at 00:00, and later if
//! midnight lies in a gap. So days divide time, even if clocks are set back over midnight, and each
//! instant lies in one.
//!
//! ```
//! let mut agenda = Agenda::new(alloc, new_york);
//! agenda.add(Event::at("call", &new_york, day, nine, TimeDelta::hours(1))?)?;
//! agenda.add(Event::on_day("birthday", day))?;
//! let entries = agenda.on(alloc, day)?; // the birthday at 00:00 -04:00, the call at 09:00 -05:00
//! ```

mod agenda;
mod day;
mod event;
mod grid;

pub use agenda::{Agenda, Entry};
pub use day::{is_in_day, length_of_day, one_day};
pub use event::{Event, When};
pub use grid::{age_on, last_weekday, month_grid, next_birthday, thanksgiving};
