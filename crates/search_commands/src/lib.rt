//! The commands that search: `first`, `best`, `why`, `make` and `all`.
#![tactic(auto)]

mod all;
mod best;
mod blocks;
mod budget;
mod core_lines;
mod first;
mod listing;
mod make;
mod refutation;
mod search_reply;
mod shortening;
mod why;

pub use all::All;
pub use best::Best;
pub use first::First;
pub use make::Make;
pub use shortening::shorter;
pub use why::Why;
