//! Layouts that are to be listed.

use geo_conditions::{Cond, Layout};
use problem_data::problem::Problem;

/// Layouts that are to be listed: as many as `most`, among `budget` members of the walk behind a
/// tuple, where one is given.
#[derive(Drop)]
pub struct Listing {
    pub problem: Problem,
    pub conditions: Vec<Cond>,
    pub after: Option<Layout>,
    pub most: u64,
    pub budget: u64,
}
