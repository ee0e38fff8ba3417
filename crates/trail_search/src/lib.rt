//! The search that gives the layouts in order, within a budget of steps.
#![tactic(auto)]

mod narrow;
mod search;
mod start;
mod step;
mod variable;
mod walk;
mod walker;

pub use search::{Parts, Search};
pub use step::Step;
