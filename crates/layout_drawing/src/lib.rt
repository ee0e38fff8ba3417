//! Drawings of layouts: a picture of the least box that holds all cells, with a sign for each cell.
//!
//! The boxes of the placed objects are made blocks of cells (`blocks`), whose least box is found
//! (`frame`). The picture is painted row by row (`row`, `picture`).
#![tactic(auto)]

mod blocks;
mod frame;
mod laws;
mod output;
mod owner;
mod picture;
mod row;
mod span;

pub use laws::drawings_are_one;
pub use output::{Drawn, draw, drawing};
