//! Literals on shapes with an object put at a place, which is all that they see of it.

ghost use Rattle.std.specs.Prelude.{◌≡◌, ◌<◌, ◌≤◌, length, not};
ghost use Rattle.geo_conditions.specs.Reach.{Region, has, is_only, reach, with_at};
ghost use Rattle.geo_conditions.specs.Conditions.{possible, FitsIn};
ghost use Rattle.indexical.specs.Forbidden.{IsOnShape};

use geo_base::MAX_DIMS;
use geo_conditions::{Cond, ObjId, State};

/// Whether the object u has that shape open, with o at a place.
#[inline(always)]
fn has_shape_at<const K: usize>(s: &State<K>, o: ObjId, place: u8, u: ObjId, shape: u8) -> bool
    requires k { K ≤ MAX_DIMS }
    requires object { o.0 < length s.now }
    requires other { u.0 < length s.now }
    ensures { (b : Region) → result ≡ has (with_at s.now o.0 place b) u.0 shape }
{
    if u.0 == o.0 {
        place != 0 && place == shape
    } else {
        s.has_shape(u, shape)
    }
}

/// Whether the object u has that shape open alone, with o at a place.
#[inline(always)]
fn is_only_shape_at<const K: usize>(s: &State<K>, o: ObjId, place: u8, u: ObjId, shape: u8) -> bool
    requires k { K ≤ MAX_DIMS }
    requires object { o.0 < length s.now }
    requires other { u.0 < length s.now }
    ensures { (b : Region) → result ≡ is_only (reach (with_at s.now o.0 place b) u.0).places shape }
{
    if u.0 == o.0 {
        place != 0 && place == shape
    } else {
        s.is_only_shape(u, shape)
    }
}

/// Whether a literal on a shape is refuted with the object at that place, in whichever box.
#[inline(always)]
pub fn shape_refuted<const K: usize>(c: &Cond, s: &State<K>, o: ObjId, place: u8) -> bool
    requires k { K ≤ MAX_DIMS }
    requires fits { FitsIn c.now s.now }
    requires object { o.0 < length s.now }
    requires literal { IsOnShape c.now }
    ensures { (b : Region) → result ≡ not (possible c.now (with_at s.now o.0 place b)) }
{
    match c {
        Cond::Shape(u, shape) => !has_shape_at(s, o, place, *u, *shape),
        Cond::NotShape(u, shape) => is_only_shape_at(s, o, place, *u, *shape),
        _ => false,
    }
}
