//! How near two objects are where a condition between them is refuted.

use geo_base::Point;
use geo_conditions::ObjId;

/// How near an object and another one are where a condition is refuted: in each dimension the other
/// one ends less than `ahead` behind the object's start, and the object less than `behind` behind
/// that of the other one.
#[derive(Clone, Copy)]
pub struct Nearness<const K: usize> {
    /// The other object.
    pub other: ObjId,
    pub ahead: Point<K>,
    pub behind: Point<K>,
}
