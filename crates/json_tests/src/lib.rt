//! Tests of the crates of JSON, over their public calls.
//!
//! What a clause says is proved and not tested. Here stand texts that were worked by hand, and that
//! calls succeed with ample memory.
#![tactic(auto)]

#[cfg(test)]
mod tests;
