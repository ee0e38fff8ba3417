//! Whole derivations: how chains, endings and splits make one.
#![tactic(auto)]

mod laws;

pub use laws::{chains_go_on, endings_close, splits_join};
