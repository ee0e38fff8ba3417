//! The sweep: the first point of a region, in a way's order, at which no picked condition is refuted.
#![tactic(auto)]

mod ask;
mod first_point;
mod marks;
mod record;
mod turn;

pub use first_point::{sweep, sweep_parts};
