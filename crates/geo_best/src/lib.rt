//! The least extent in a dimension: rounds of searches, each of which asks for a layout that ends
//! before the last one found; and what shows that none ends before the last.
#![tactic(auto)]

mod extent;
mod least;
mod one_round;

pub use extent::Extent;
pub use least::find_best;
pub use one_round::{Best, Rounds};
