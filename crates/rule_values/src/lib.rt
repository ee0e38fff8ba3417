//! What rules without macros speak of: the things that variables stand for, their fields, and what quantifiers range over.
#![tactic(auto)]

pub mod elements;
pub mod env;
pub mod fields;
pub mod floor;
pub mod shapes;
