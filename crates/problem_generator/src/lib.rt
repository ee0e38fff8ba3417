//! Problems that are made from a seed: forty objects of two shapes each in a rack, by pseudorandom
//! sizes.
#![tactic(auto)]

mod draws;
mod text;

pub use text::make_problem;
