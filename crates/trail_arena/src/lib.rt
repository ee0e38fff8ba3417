//! A stack in linked blocks that never move.
#![tactic(auto)]

mod block;
mod cells;
mod chain;
mod stack;

#[doc(hidden)]
pub use block::Block;
#[doc(hidden)]
pub use cells::{Base, Cells, Deed};
#[doc(hidden)]
pub use chain::Chain;
pub use stack::TrailStack;
