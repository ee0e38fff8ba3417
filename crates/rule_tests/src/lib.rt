//! Tests of the rules: their conditions or the first fault, and what the judge says of tuples.
//!
//! Expected values are worked by hand.
#![tactic(auto)]

#[cfg(test)]
mod optional;
#[cfg(test)]
mod tests;
