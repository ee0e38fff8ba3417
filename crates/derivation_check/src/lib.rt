//! The check of a derivation, event by event.
//!
//! A derivation shows that a state has no tuple on which every condition is true. Who believes a `Yes` has to believe the definitions
//! of conditions and states, of nodes and when they are valid, and this crate; nothing of a search stands below it.
#![tactic(auto)]

mod checker;
mod cuts;
mod fitting;
mod judged;
mod open_box;
mod progress;
mod saved;
mod tree;

pub use checker::{Checker, check};
pub use fitting::all_fit;
pub use judged::is_derivation;
pub use progress::Checked;
pub use tree::is_one_tree;
