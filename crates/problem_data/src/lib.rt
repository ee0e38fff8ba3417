//! What a text of a problem says and what that means: its statements, their grammar and their faults, the problem that they spell,
//! and the cells and layouts of a problem.
//!
//! `specs` says all of this by sets and relations; here stand the types that carry it.
#![tactic(auto)]

pub mod fault;
pub mod parts;
pub mod problem;
pub mod seen;
pub mod tree;
