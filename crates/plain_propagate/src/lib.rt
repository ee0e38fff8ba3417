//! Propagation to the greatest supported state.
#![tactic(auto)]

mod defects;
mod mending;
mod plain;
mod points;
mod recording;

pub use plain::PlainPropagate;
