//! Tests of the crates that read and write texts, over their public calls.
//!
//! What a clause says is proved and not tested. Here stand values that were worked by hand, and
//! that calls succeed with ample memory.
#![tactic(auto)]

#[cfg(test)]
mod tests;
