//! A text that comes byte by byte, cut into tokens as soon as they are whole.
#![tactic(auto)]

mod run;
mod stream;
mod word;

pub use stream::{Taken, TokenStream};
