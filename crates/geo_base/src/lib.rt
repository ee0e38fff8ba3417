//! Points, intervals and boxes of a space of K dimensions, the orders in which points are swept, and
//! a counter of questions. No memory is taken.
#![tactic(auto)]

mod kbox;
mod point;
mod steps;
mod way;

pub use kbox::KBox;
pub use point::{Interval, Point};
pub use steps::Steps;
pub use way::{Way, advance, advance_between, before};

/// The greatest number of dimensions.
pub const MAX_DIMS: usize = 6;
