//! Propagation to the greatest supported state by a queue of objects, each pruned by sweeps.
#![tactic(auto)]

mod apart;
mod differences;
mod kept;
mod links;
mod marks;
mod pairs;
mod partners;
mod propagation;
mod queue;
mod waking;

pub use apart::Fixpoint;
