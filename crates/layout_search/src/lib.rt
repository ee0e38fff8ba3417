//! Searches for layouts of a problem over its conditions, within a budget: the first layout, and a
//! listing that is written while its layouts are found.
#![tactic(auto)]

mod bounded;
mod dimensions;
mod first;
mod laws;
mod listing;
mod start;

pub use first::{Outcome, Searched, first_solution, search_first, search_first_unrecorded};
pub use laws::{listings_are_of_layouts, pages_pass_none_over};
pub use listing::{Ending, write_block, write_listing};
