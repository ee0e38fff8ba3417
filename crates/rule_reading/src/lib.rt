//! Reading the formulas and expressions of rules from the tokens of a text.
#![tactic(auto)]

pub mod formula;
pub mod quantifier;
pub mod read;
