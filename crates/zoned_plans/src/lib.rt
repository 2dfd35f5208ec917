//! When plans fire in a zone, forward and backward, and what an update of the tz database moves.
#![tactic(auto)]

mod fires;
mod instants;
mod last_fires;
pub mod laws;
mod moves;
mod policies;
mod zone_plans;

pub use fires::Fires;
pub use moves::{Move, Moves, moved};
pub use policies::{FirePolicy, FoldFires, GapFires};
pub use zone_plans::{StepBounds, ZonePlans};
