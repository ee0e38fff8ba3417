//! The commands that ask about a layout of a problem: `judge`, `draw` and `load`.
#![tactic(auto)]

mod draw;
mod judge;
mod load;

pub use draw::Draw;
pub use judge::Judge;
pub use load::Load;
