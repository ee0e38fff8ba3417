//! Why an object of a state is not supported: a place or an end of an interval without a point, or
//! an object without any.

ghost use Rattle.std.specs.Prelude.{◌<◌, ◌≤◌, length, MatchOption};
ghost use Rattle.std.specs.List.{All};
ghost use Rattle.geo_conditions.specs.Conditions.{FitsIn};
ghost use Rattle.plain_propagate.specs.Defects.{IsDefect, PlacesFine, EndsFine, ObjectFine};

use crate::points::{end_supported, place_supported};
use geo_base::MAX_DIMS;
use geo_conditions::{Cond, ObjId, State};

/// Why a state is not supported.
#[derive(Clone, Copy)]
pub enum Defect {
    /// The object has no point, at any place.
    Gone(ObjId),
    /// The object has no point at this place.
    NoPoint(ObjId, u8),
    /// The low end of this interval has no point, and the interval has another number.
    NoLow(ObjId, usize),
    /// The same of the high end.
    NoHigh(ObjId, usize),
}

/// What is wrong with the places of an object, if anything is.
fn place_defect<const K: usize>(cs: &[Cond], s: &State<K>, o: ObjId) -> Option<Defect>
    requires k { K ≤ MAX_DIMS }
    requires fits { All (λ c. FitsIn c s.now) cs.now }
    requires object { o.0 < length s.now }
    ensures { MatchOption result (PlacesFine cs.now s.now o.0) (IsDefect cs.now s.now) }
{
    let _region = s.region(o);
    let mut any = false;
    for place in 1..17u8 {
        if s.has_shape(o, place) {
            if !place_supported(cs, s, o, place) {
                return Some(Defect::NoPoint(o, place));
            }
            any = true;
        }
    }
    if any { None } else { Some(Defect::Gone(o)) }
}

/// What is wrong with an interval of an object, if anything is.
fn end_defect<const K: usize>(cs: &[Cond], s: &State<K>, o: ObjId, d: usize) -> Option<Defect>
    requires k { K ≤ MAX_DIMS }
    requires fits { All (λ c. FitsIn c s.now) cs.now }
    requires object { o.0 < length s.now }
    requires dimension { d < K }
    ensures { MatchOption result (EndsFine cs.now s.now o.0 d) (IsDefect cs.now s.now) }
{
    let _objects = s.objects();
    let region = s.region(o);
    let low = region.lo.get(d);
    let high = region.hi.get(d);
    if high < low {
        return Some(Defect::Gone(o));
    }
    if !end_supported(cs, s, o, d, low) {
        if low < high {
            return Some(Defect::NoLow(o, d));
        }
        return Some(Defect::Gone(o));
    }
    if !end_supported(cs, s, o, d, high) {
        if low < high {
            return Some(Defect::NoHigh(o, d));
        }
        return Some(Defect::Gone(o));
    }
    None
}

/// What is wrong with an object, if anything is.
pub fn object_defect<const K: usize>(cs: &[Cond], s: &State<K>, o: ObjId) -> Option<Defect>
    requires k { K ≤ MAX_DIMS }
    requires fits { All (λ c. FitsIn c s.now) cs.now }
    requires object { o.0 < length s.now }
    ensures { MatchOption result (ObjectFine cs.now s.now o.0) (IsDefect cs.now s.now) }
{
    let _objects = s.objects();
    if let Some(defect) = place_defect(cs, s, o) {
        return Some(defect);
    }
    for d in 0..K {
        if let Some(defect) = end_defect(cs, s, o, d) {
            return Some(defect);
        }
    }
    None
}
