//! What the rules of a problem mean on a tuple, by direct evaluation: formulas from the left and no further than they have to go, in
//! whole numbers of 128 bits; `apart` and `within` by the cells that the boxes of the objects cover. The judge names the first rule that
//! does not hold.
#![tactic(auto)]

mod boxes;
mod formed;
pub mod judging;
mod numbers;
mod objects;
mod places;
mod truth;

pub use judging::{Judged, judge};
pub use objects::{lies_within, shares_no_cell};
