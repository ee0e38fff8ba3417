//! The pruning of one object by sweeps: its shapes and bounds become exactly those of its points.
#![tactic(auto)]

mod counted;
mod far;
mod first_point;
mod gathering;
mod hints;
mod kept;
mod lasting;
mod move_ends;
mod near;
mod near_making;
mod outer_points;
mod places;
mod prune;
mod region_sweep;
mod row_making;
mod rows;
mod run_making;
mod settled;
mod unrefuted;

pub use kept::{Placed, is_same_point, retry, slots};
pub use near::Near;
pub use prune::{Pruned, prune_kept, prune_object};
pub use row_making::rows_of;
pub use rows::{Group, Rows, Run};
pub use unrefuted::are_possible;
