//! The trees of the formulas and expressions of rules, the grammar that spells them, and reading expressions.
#![tactic(auto)]

pub mod expression;
pub mod tree;
pub mod words;
