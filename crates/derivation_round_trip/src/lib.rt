//! The text of a derivation is read back as its events.
#![tactic(auto)]

mod laws;

pub use laws::derivations_are_read_back;
