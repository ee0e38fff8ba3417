//! The text of a derivation: one line for each event.
#![tactic(auto)]

mod naming;
mod print;

pub use naming::all_named;
pub use print::print_derivation;
