//! The problems that are made from seeds have no fault, and how many conditions they have.
#![tactic(auto)]

mod laws;

pub use laws::made_problems_are_accepted;
