//! White space and comments, and texts behind a line feed.
#![tactic(auto)]

mod laws;

pub use laws::{blanks_end, first_ends_stay, tokens_move};
