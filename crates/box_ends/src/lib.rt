//! The boxes of placed objects and their ends in each dimension: two boxes are compared by ends,
//! and what that says of cells stands in `proofs/Corners.antt`.
#![tactic(auto)]

mod placed;
mod spans;

pub use placed::boxes;
pub use spans::{ends, parts_in};
