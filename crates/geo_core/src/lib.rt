//! The rules of a problem that refuse together: an irreducible part of its rules under which it has
//! no layout, by a search without each rule in turn.
#![tactic(auto)]

mod laws;
mod leaving;
mod rounds;

pub use laws::rounds_are_one;
pub use leaving::{Core, find_core};
pub use rounds::conditions_of;
