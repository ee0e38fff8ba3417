//! What a search begins with: the state in which nothing is decided yet, and the order in which values are tried.

pub mod order;
pub mod start;
