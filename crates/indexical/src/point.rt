//! Whether a condition is possible with an object at a point.

ghost use Rattle.std.specs.Prelude.{◌≡◌, ◌<◌, ◌≤◌, length};
ghost use Rattle.geo_conditions.specs.Conditions.{possible, FitsIn};
ghost use Rattle.geo_conditions.specs.Reach.{with_at, just};

use geo_base::{KBox, MAX_DIMS, Point};
use geo_conditions::{Cond, ObjId, State, refuted_at};

/// Whether a condition is possible with the object at that place and point.
pub fn tree_possible_at<const K: usize>(
    cond: &Cond,
    s: &State<K>,
    o: ObjId,
    place: u8,
    c: &Point<K>,
) -> bool
    requires k { K ≤ MAX_DIMS }
    requires fits { FitsIn cond.now s.now }
    requires object { o.0 < length s.now }
    ensures { result ≡ possible cond.now (with_at s.now o.0 place (just c.now.coordinates)) }
{
    !refuted_at(cond, s, o, place, &KBox::new(*c, *c))
}
