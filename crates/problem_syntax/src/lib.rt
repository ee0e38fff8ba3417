//! From the tokens of a text to the statements that they spell, or to the first fault of its grammar.
#![tactic(auto)]

mod end;
pub mod numbers;
pub mod objects;
pub mod order;
mod pieces;
pub mod rules;
mod shapes;
pub mod statements;
pub mod syntax;
