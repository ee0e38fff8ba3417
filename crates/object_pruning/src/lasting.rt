//! Points at the low end of an interval that last.

ghost use Rattle.std.specs.Prelude.{◌≡◌, ◌<◌, ◌≤◌, length, map, slice_set, IfSome};
ghost use Rattle.geo_base.specs.Boxes.{coordinate};
ghost use Rattle.geo_conditions.specs.Conditions.{AllFit};
ghost use Rattle.geo_conditions.specs.Reach.{reach};
ghost use Rattle.geo_conditions.specs.Supported.{NoneRefuted};
ghost use Rattle.geo_state.specs.Trail.{HasSmallIntervals, IsSmallEnd};
ghost use Rattle.sweep.specs.Picks.{ArePicks, picked};
ghost use Rattle.object_pruning.specs.Ends.{IsOutermostPoint};
ghost use Rattle.object_pruning.specs.Kept.{placed};
ghost use Rattle.object_pruning.specs.Pruning.{IsSmallBox};
ghost use Rattle.object_pruning.specs.InRows.{AreRows};

use crate::kept::Placed;
use crate::region_sweep::first_point_in;
use crate::rows::Rows;
use derivation::NoRecord;
use geo_base::{KBox, MAX_DIMS, Way};
use geo_conditions::{ObjId, State};
use indexical::Indexical;

// The part of the object's region with that coordinate.
fn slice<const K: usize>(s: &State<K>, o: ObjId, d: usize, v: i64) -> KBox<K>
    requires k { K ≤ MAX_DIMS }
    requires object { o.0 < length s.now }
    requires dimension { d < K }
    requires small { HasSmallIntervals s.now × IsSmallEnd v }
    ensures lo { result.lo.coordinates ≡ slice_set (reach s.now o.0).region.lo d v }
    ensures hi { result.hi.coordinates ≡ slice_set (reach s.now o.0).region.hi d v }
    ensures small { IsSmallBox result }
{
    let region = s.region(o);
    KBox::new(region.lo.with(d, v), region.hi.with(d, v))
}

/// A point to keep for an end of an interval, whose outermost point is given: for a low end the
/// last one, by its other coordinates, with the same shape and end, for a high end the given one.
/// Where low values are tried first, other objects take it last. No picked condition is refuted
/// with the object there.
pub fn lasting_point<const K: usize, I: Indexical<K>>(
    s: &State<K>,
    o: ObjId,
    d: usize,
    up: bool,
    q: &Placed<K>,
    list: &[I],
    picks: &[u32],
    rows: Option<&Rows>,
) -> Placed<K>
    requires k { K ≤ MAX_DIMS }
    requires fits { AllFit (map I.cond list.now) s.now }
    requires object { o.0 < length s.now }
    requires dimension { d < K }
    requires picks { ArePicks (length list.now) picks.now }
    requires rows { IfSome rows (λ r. AreRows (map I.cond list.now) o.0 picks.now r.now) }
    requires small { HasSmallIntervals s.now }
    requires point { IsOutermostPoint (picked (map I.cond list.now) picks.now) s.now o.0 d up
        q.now }
    ensures { NoneRefuted (picked (map I.cond list.now) picks.now) (placed s.now o.0 result) }
{
    if !up {
        return *q;
    }
    let _objects = s.objects();
    let low = slice(s, o, d, q.point.get(d));
    if low.lo.coordinates == low.hi.coordinates {
        return *q;
    }
    let way = Way::new(0, false);
    let mut unrecorded = NoRecord::new();
    match first_point_in(
        s,
        o,
        q.place,
        &low,
        list,
        picks,
        rows,
        &way,
        &mut unrecorded,
    ) {
        Ok(Some(point)) => Placed {
            place: q.place,
            point,
        },
        _ => *q,
    }
}
