//! The laws of listings of a walk: each walk has one for each count and budget and no other, and pages join.
#![tactic(auto)]

mod laws;

pub use laws::{listings_are_by_fronts, listings_are_one, listings_go_on, pages_join};
