//! From the rules of a problem to conditions on its tuples, the state in which a search begins, and the search order.
#![tactic(auto)]

mod apart;
pub mod beginning;
mod counts;
mod elements;
mod flat;
mod formulas;
pub mod ground;
mod laws;
pub mod literals;
mod named;
mod needs;
mod optional;
mod own;
pub mod quantifiers;
mod rows;
pub mod shapes;
mod signs;
mod told;
pub mod within;

pub use beginning::{order, start};
pub use laws::conditions_are_meant;
