//! The check of a derivation whose text comes in pieces: it is read, and each event is checked as soon as it is whole.
#![tactic(auto)]

mod stream;

pub use stream::StreamCheck;
