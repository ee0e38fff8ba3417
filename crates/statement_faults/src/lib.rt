//! The first fault of the statements of a text.
#![tactic(auto)]

mod divisors;
mod each;
pub mod first;
mod named;
pub mod names;
pub mod numbers;
mod objects;
mod order;
mod pieces;
mod rules;
mod shapes;
