//! The outermost points of an object, and the record of what lies beyond them.

ghost use Rattle.std.specs.Prelude.{◌≡◌, ◌≢◌, ◌+◌, ◌-◌, ◌^◌, ◌<◌, ◌≤◌, ◌≤ℤ◌, ◌↔◌, false, true, ℤ, List, length, map, min, IfOk, IsOk, IsTrue, MatchOption, OnErr, IfSome};
ghost use Rattle.geo_base.specs.Boxes.{coordinate};
ghost use Rattle.geo_base.specs.Ways.{toward};
ghost use Rattle.geo_conditions.specs.Conditions.{AllFit};
ghost use Rattle.geo_state.specs.Trail.{HasSmallIntervals};
ghost use Rattle.derivation.specs.Chains.{bound_event};
ghost use Rattle.derivation.specs.Events.{Grows};
ghost use Rattle.sweep.specs.Picks.{ArePicks, picked};
ghost use Rattle.object_pruning.specs.Ends.{HasSome, IsFirstAt, IsOutermostPoint, IsSooner, end};
ghost use Rattle.object_pruning.specs.Pruning.{CanBe};
ghost use Rattle.derivation.specs.Chains.{IsLed};
ghost use Rattle.object_pruning.specs.Record.{AreListed, IsNotBeyond, ListsPlace, end_side, with_end};
ghost use Rattle.object_pruning.specs.InRows.{AreRows};

use crate::first_point::first_point;
use crate::kept::{Placed, end_of};
use crate::places::last_place;
use crate::rows::Rows;
use derivation::{Event, Recorder};
use geo_base::{MAX_DIMS, Way};
use geo_conditions::{ObjId, State};
use indexical::Indexical;
use std::alloc::AllocError;

// Whether the first number comes first, or is the same.
fn comes_first(up: bool, v: i64, w: i64) -> bool
    ensures { IsTrue result ↔ (toward up v ≤ℤ toward up w) }
{
    if up { v <= w } else { w <= v }
}

// The one of the two points that comes first in that dimension, or the only one.
fn sooner_of<const K: usize>(d: usize, up: bool, best: Option<Placed<K>>, q: Placed<K>) -> Placed<K>
    requires { d < K }
    ensures { IsSooner d up best.entry q.entry result }
{
    match best {
        None => q,
        Some(b) => {
            if comes_first(up, b.point.get(d), q.point.get(d)) {
                b
            } else {
                q
            }
        }
    }
}

// The point of the object at a place that comes first; none where the place is not there or has no
// point. The record goes on by a cover of what lies before the point at that place.
fn point_at<const K: usize, I: Indexical<K>, R: Recorder>(
    s: &State<K>,
    o: ObjId,
    place: u8,
    list: &[I],
    picks: &[u32],
    rows: Option<&Rows>,
    way: &Way<K>,
    rec: &mut R,
) -> Result<Option<Placed<K>>, AllocError>
    requires k { K ≤ MAX_DIMS }
    requires fits { AllFit (map I.cond list.now) s.now }
    requires object { o.0 < length s.now }
    requires place { 0 < place }
    requires picks { ArePicks (length list.now) picks.now }
    requires rows { IfSome rows (λ r. AreRows (map I.cond list.now) o.0 picks.now r.now) }
    requires small { HasSmallIntervals s.now }
    ensures point { let cs = picked (map I.cond list.now) picks.now in
        IfOk result (λ r. MatchOption r ((p : List ℤ) → CanBe cs s.now o.0 place p → ⊥)
        (λ q. IsFirstAt cs s.now o.0 place way.now.lead way.now.up q)) }
    ensures listed { IfOk result (λ r. R.keeps ≡ true → (v : ℤ)
        → IsNotBeyond way.now.lead way.now.up v r
        → ListsPlace (map I.cond list.now) s.now o.0 way.now.lead way.now.up v place
        (R.list rec.old) (R.list rec.new)) }
    ensures grows { Grows R.keeps R.list R.refusals rec.old rec.new result }
{
    if !s.has_shape(o, place) {
        return Ok(None);
    }
    let _objects = s.objects();
    rec.add(Event::Cover(place))?;
    match first_point(s, o, place, list, picks, rows, way, rec)? {
        Some(point) => Ok(Some(Placed { place, point })),
        None => Ok(None),
    }
}

// The object's outermost point in a dimension: a lowest one upwards, else a highest. Where it does
// not have the end as its coordinate, the record goes on by covers of what lies beyond it.
fn outermost<const K: usize, I: Indexical<K>, R: Recorder>(
    s: &State<K>,
    o: ObjId,
    d: usize,
    up: bool,
    list: &[I],
    picks: &[u32],
    rows: Option<&Rows>,
    rec: &mut R,
) -> Result<Placed<K>, AllocError>
    requires k { K ≤ MAX_DIMS }
    requires fits { AllFit (map I.cond list.now) s.now }
    requires object { o.0 < length s.now }
    requires dimension { d < K }
    requires picks { ArePicks (length list.now) picks.now }
    requires rows { IfSome rows (λ r. AreRows (map I.cond list.now) o.0 picks.now r.now) }
    requires small { HasSmallIntervals s.now }
    requires some { HasSome (picked (map I.cond list.now) picks.now) s.now o.0 }
    ensures point { IfOk result (λ q.
        IsOutermostPoint (picked (map I.cond list.now) picks.now) s.now o.0 d up q) }
    ensures listed { IfOk result (λ q. R.keeps ≡ true
        → coordinate q.point.coordinates d ≢ end up s.now o.0 d
        → AreListed (map I.cond list.now) s.now o.0 d up (coordinate q.point.coordinates d)
        (R.list rec.old) (R.list rec.new)) }
    ensures grows { Grows R.keeps R.list R.refusals rec.old rec.new result }
{
    let way = Way::new(d, up);
    let _objects = s.objects();
    let there = end_of(s, o, d, up);
    let last = last_place(s, o);
    let mut best = None;
    for before in 0..last {
        if let Some(q) = point_at(s, o, before + 1, list, picks, rows, &way, rec)? {
            if q.point.get(d) == there {
                return Ok(q);
            }
            best = Some(sooner_of(d, up, best, q));
        }
    }
    match best {
        Some(q) => Ok(q),
        None => unreachable!(),
    }
}

// The event of an end of an interval that moves there.
fn end_event(o: ObjId, d: usize, up: bool, v: i64) -> Event
    requires { d < MAX_DIMS }
    ensures { result ≡ bound_event o.0 (end_side up d v) }
{
    if up {
        Event::Raise(o, d as u32, v)
    } else {
        Event::Lower(o, d as u32, v)
    }
}

/// The object's outermost point in a dimension: a lowest one upwards, else a highest. The record
/// has the end moved to its coordinate, with covers of what lies beyond it; where that is the end
/// already, the record is as before.
pub fn sought_end<const K: usize, I: Indexical<K>, R: Recorder>(
    s: &State<K>,
    o: ObjId,
    d: usize,
    up: bool,
    list: &[I],
    picks: &[u32],
    rows: Option<&Rows>,
    rec: &mut R,
) -> Result<Placed<K>, AllocError>
    requires k { K ≤ MAX_DIMS }
    requires fits { AllFit (map I.cond list.now) s.now }
    requires object { o.0 < length s.now }
    requires dimension { d < K }
    requires picks { ArePicks (length list.now) picks.now }
    requires rows { IfSome rows (λ r. AreRows (map I.cond list.now) o.0 picks.now r.now) }
    requires small { HasSmallIntervals s.now }
    requires some { HasSome (picked (map I.cond list.now) picks.now) s.now o.0 }
    ensures point { IfOk result (λ q.
        IsOutermostPoint (picked (map I.cond list.now) picks.now) s.now o.0 d up q) }
    ensures stands { IfOk result (λ q. R.keeps ≡ true
        → coordinate q.point.coordinates d ≡ end up s.now o.0 d
        → R.list rec.new ≡ R.list rec.old) }
    ensures led { IfOk result (λ q. R.keeps ≡ true
        → coordinate q.point.coordinates d ≢ end up s.now o.0 d
        → IsLed (map I.cond list.now) s.now
        (with_end s.now o.0 d up (coordinate q.point.coordinates d))
        (R.list rec.old) (R.list rec.new)) }
    ensures grows { Grows R.keeps R.list R.refusals rec.old rec.new result }
{
    let _objects = s.objects();
    let there = end_of(s, o, d, up);
    let mark = rec.mark();
    rec.add(end_event(o, d, up, there))?;
    let q = outermost(s, o, d, up, list, picks, rows, rec)?;
    let v = q.point.get(d);
    if v == there {
        rec.cut_back(mark);
        return Ok(q);
    }
    rec.add(Event::EndCovers)?;
    rec.set(mark, end_event(o, d, up, v));
    Ok(q)
}
