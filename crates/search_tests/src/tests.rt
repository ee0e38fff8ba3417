//! Sweeps, prunes, settles and derivations, against points and events by hand.

mod boxes;
mod checking;
mod dimensions;
mod events;
mod first_points;
mod forbidden;
mod holes;
mod indexicals;
mod lines;
mod literals;
mod pruning;
mod records;
mod sweeping;
mod trail;
mod trimming;
mod ways;
