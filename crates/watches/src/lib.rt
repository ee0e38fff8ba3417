//! What conditions rest on: objects that make one of many parts of a condition possible, as long as
//! they do not change.
#![tactic(auto)]

mod beside;
mod parts;
mod watches;

pub use watches::Watches;
