//! From comparisons of expressions to folded linear conditions.
#![tactic(auto)]

pub mod compare;
pub mod counter;
pub mod fault;
mod fields;
pub mod fixings;
pub mod fold;
pub mod forms;
pub mod laws;
mod leaves;
mod short;
mod sides;
pub mod verdict;
pub mod wide;
