//! Tests of least extents, of rules that refuse together and of loading orders.
//!
//! Expected values are worked by hand.
#![tactic(auto)]

#[cfg(test)]
mod tests;
