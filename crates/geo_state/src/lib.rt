//! A state that levels restore, and what propagation means.
#![tactic(auto)]

mod entries;
mod propagate;
mod small;
mod trailed;

#[doc(hidden)]
pub use entries::Saved;
pub use propagate::{Propagate, Settled};
pub use small::is_small;
pub use trailed::{MAX_LEVELS, Trailed};
