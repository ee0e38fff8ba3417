//! Tests of the sweep, of the pruning of one object, of settles, and of the check and the shortening of derivations: what they
//! record, how often they ask and what they keep, on small states and with numbers that were worked out by hand. What they
//! answer is said by clauses.
#![tactic(auto)]

#[cfg(test)]
mod tests;
