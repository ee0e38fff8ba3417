//! The laws of a problem with some of its rules: it has no fault where the whole one has none, and
//! each layout with more rules is one with fewer.
#![tactic(auto)]

mod laws;

pub use laws::{fewer_rules_hold, some_rules_ground};
