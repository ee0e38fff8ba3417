//! The texts of layouts: the layout block and the token are written, and a layout text and a token
//! are read.
//!
//! A text is read in four steps: tokens, what they say (`syntax`), its first fault (`faults`), and
//! the tuple that it gives (`build`).
#![tactic(auto)]

mod block;
mod build;
mod faults;
mod first;
mod given;
mod groups;
mod laws;
mod lines;
mod names;
mod pieces;
mod read;
mod spots;
mod syntax;
mod token;
mod tree;

pub use block::{print_layout, print_token, print_token_line};
pub use given::shape_of;
pub use laws::texts_are_read_back;
pub use read::read_layout;
pub use token::{TokenFault, read_token};
