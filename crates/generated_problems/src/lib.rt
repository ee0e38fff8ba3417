//! The texts that are made from seeds are read as the problems that they are made of.
#![tactic(auto)]

mod laws;

pub use laws::made_texts_are_read_back;
