//! Where placed objects end in one dimension, and conditions that they end by a number.
#![tactic(auto)]

mod capping;
mod ends;

pub use capping::{caps, push_caps};
pub use ends::end_of;
