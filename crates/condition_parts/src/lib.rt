//! Conditions that ask for several things at once, taken apart into one condition for each.
#![tactic(auto)]

mod literals;
mod names;
mod parts;
mod taken;
mod together;

pub use taken::{TakenApart, take_apart};
pub use together::put_together;
