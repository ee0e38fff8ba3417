//! A layout and where it ends.

use geo_conditions::Layout;

/// A layout that was found, and the first number past its boxes in the dimension that is asked for.
#[derive(Drop)]
pub struct Extent {
    pub end: i64,
    pub layout: Layout,
}
