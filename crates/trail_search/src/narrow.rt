//! How a variable is fixed, split off and bounded in a state with levels.

ghost use Rattle.std.specs.Prelude.{◌≡◌, ℕ, ℤ, ◌<◌, ◌≤◌, ◌<ℤ◌, ◌≤ℤ◌, ◌↔◌, IsTrue, true, false, pos, length, slice_set};
ghost use Rattle.geo_conditions.specs.Reach.{reach, has, low, high, with_low, with_high, NotEmpty};
ghost use Rattle.geo_conditions.specs.Walk.{PlaceOf, CoordinateOf, object_of, IsFirstValue, IsFixed};
ghost use Rattle.geo_state.specs.Trail.{HasSmallIntervals};
ghost use Rattle.trail_search.specs.Cursor.{after, Narrows, IsFrom, IsValueOf, HasAfter, HasDimension};
ghost use Rattle.trail_search.specs.Record.{with_first, with_later, IsFixedTo};
ghost use Rattle.trail_search.specs.Shed.{Clears, Sheds};
ghost use Rattle.trail_search.specs.Variables.{variable_of};

use crate::variable::Variable;
use geo_base::MAX_DIMS;
use geo_conditions::{ObjId, State};
use geo_state::Trailed;

/// The least place of an object.
fn least_place<const K: usize>(s: &State<K>, o: ObjId) -> u8
    requires k { K ≤ MAX_DIMS }
    requires object { o.0 < length s.now }
    requires full { NotEmpty (reach s.now o.0) }
    ensures there { has s.now o.0 result ≡ true }
    ensures least { (u : ℕ) → has s.now o.0 u ≡ true → result ≤ u }
    ensures small { result ≤ 16 }
{
    let _region = s.region(o);
    for place in 1..17u8 {
        if s.has_shape(o, place) {
            return place;
        }
    }
    0
}

/// The first value of a variable.
pub fn first_value<const K: usize>(s: &State<K>, x: Variable) -> i64
    requires k { K ≤ MAX_DIMS }
    requires object { object_of (variable_of x) < length s.now }
    requires dimension { HasDimension K (variable_of x) }
    requires full { NotEmpty (reach s.now (object_of (variable_of x))) }
    requires small { HasSmallIntervals s.now }
    ensures first { IsFirstValue s.now (variable_of x) result }
    ensures fits { IsValueOf (variable_of x) result }
{
    match x {
        Variable::Place(o) => least_place(s, o) as i64,
        Variable::Coordinate(o, d, down) => {
            let ends = s.interval(o, d);
            if down { ends.hi } else { ends.lo }
        }
    }
}

/// Whether the object has a place after that number.
fn has_place_after<const K: usize>(s: &State<K>, o: ObjId, v: i64) -> bool
    requires k { K ≤ MAX_DIMS }
    requires object { o.0 < length s.now }
    ensures { IsTrue result ↔ HasAfter s.now (PlaceOf o.0) v }
{
    let _region = s.region(o);
    for place in 1..17u8 {
        if v < i64::from(place) && s.has_shape(o, place) {
            return true;
        }
    }
    false
}

/// Whether the variable has a value after `v`.
pub fn has_after<const K: usize>(s: &State<K>, x: Variable, v: i64) -> bool
    requires k { K ≤ MAX_DIMS }
    requires object { object_of (variable_of x) < length s.now }
    requires dimension { HasDimension K (variable_of x) }
    ensures { IsTrue result ↔ HasAfter s.now (variable_of x) v }
{
    match x {
        Variable::Place(o) => has_place_after(s, o, v),
        Variable::Coordinate(o, d, down) => {
            let region = s.region(o);
            if down {
                region.lo.get(d) < v
            } else {
                v < region.hi.get(d)
            }
        }
    }
}

/// Takes away the places of an object from `from` up to before `to`.
fn shed<const K: usize>(t: &mut Trailed<K>, o: ObjId, from: u8, to: u8)
    requires k { K ≤ MAX_DIMS }
    requires object { o.0 < length t.old.state }
    requires from { 1 ≤ from }
    requires order { from ≤ to }
    requires to { to ≤ 17 }
    ensures sheds { Sheds t.old.state t.new.state o.0 from to }
    ensures clears { Clears t.old.state t.new.state o.0 from to }
    ensures levels { t.new.levels ≡ t.old.levels }
    ensures restores { t.new.restores ≡ t.old.restores }
{
    for place in from..to {
        t.drop_shape(o, place);
    }
}

/// Takes away the later values of a variable, and leaves its first one.
fn keep_first<const K: usize>(t: &mut Trailed<K>, x: Variable, u: i64)
    requires k { K ≤ MAX_DIMS }
    requires object { object_of (variable_of x) < length t.old.state }
    requires dimension { HasDimension K (variable_of x) }
    requires full { NotEmpty (reach t.old.state (object_of (variable_of x))) }
    requires first { IsFirstValue t.old.state (variable_of x) u }
    ensures narrows { Narrows t.old.state t.new.state (λ T. IsFixed T (variable_of x) u) }
    ensures first { t.new.state ≡ with_first (variable_of x) u t.old.state }
    ensures levels { t.new.levels ≡ t.old.levels }
    ensures restores { t.new.restores ≡ t.old.restores }
{
    match x {
        Variable::Place(o) => {
            let _region = t.state().region(o);
            let place = least_place(t.state(), o);
            shed(t, o, place + 1, 17);
        }
        Variable::Coordinate(o, d, down) => {
            let _objects = t.state().objects();
            if down {
                t.set_low(o, d, u);
            } else {
                t.set_high(o, d, u);
            }
        }
    }
}

/// Fixes a variable to its first value. Where it has no later one, it is fixed already.
pub fn fix<const K: usize>(t: &mut Trailed<K>, x: Variable, u: i64)
    requires k { K ≤ MAX_DIMS }
    requires object { object_of (variable_of x) < length t.old.state }
    requires dimension { HasDimension K (variable_of x) }
    requires full { NotEmpty (reach t.old.state (object_of (variable_of x))) }
    requires first { IsFirstValue t.old.state (variable_of x) u }
    ensures narrows { Narrows t.old.state t.new.state (λ T. IsFixed T (variable_of x) u) }
    ensures fixed { IsFixedTo t.old.state (variable_of x) u t.new.state }
    ensures levels { t.new.levels ≡ t.old.levels }
    ensures restores { t.new.restores ≡ t.old.restores }
{
    if has_after(t.state(), x, u) {
        keep_first(t, x, u);
    }
}

/// Takes away the values of a variable before `v`.
pub fn bound<const K: usize>(t: &mut Trailed<K>, x: Variable, v: i64)
    requires k { K ≤ MAX_DIMS }
    requires object { object_of (variable_of x) < length t.old.state }
    requires dimension { HasDimension K (variable_of x) }
    ensures narrows { Narrows t.old.state t.new.state (λ T. IsFrom T (variable_of x) v) }
    ensures later { (u : ℤ) → v ≡ after (variable_of x) u
        → IsFirstValue t.old.state (variable_of x) u → HasAfter t.old.state (variable_of x) u
        → t.new.state ≡ with_later (variable_of x) u t.old.state }
    ensures levels { t.new.levels ≡ t.old.levels }
    ensures restores { t.new.restores ≡ t.old.restores }
{
    match x {
        Variable::Place(o) => {
            let _region = t.state().region(o);
            shed(t, o, 1, place_within(v));
        }
        Variable::Coordinate(o, d, down) => {
            if down {
                lower_to(t, o, d, v);
            } else {
                raise_to(t, o, d, v);
            }
        }
    }
}

/// Takes away the coordinates below `v`. Where that is all of them, the object loses its places.
fn raise_to<const K: usize>(t: &mut Trailed<K>, o: ObjId, d: usize, v: i64)
    requires k { K ≤ MAX_DIMS }
    requires object { o.0 < length t.old.state }
    requires dimension { d < K }
    ensures narrows { Narrows t.old.state t.new.state
        (λ T. IsFrom T (CoordinateOf o.0 d false) v) }
    ensures raised { low t.old.state o.0 d <ℤ v → v ≤ℤ high t.old.state o.0 d
        → t.new.state ≡ slice_set t.old.state o.0 (with_low (reach t.old.state o.0) d v) }
    ensures levels { t.new.levels ≡ t.old.levels }
    ensures restores { t.new.restores ≡ t.old.restores }
{
    let state = t.state();
    let _objects = state.objects();
    let region = state.region(o);
    let low = region.lo.get(d);
    let high = region.hi.get(d);
    if high < v {
        shed(t, o, 1, 17);
    } else if low < v {
        t.set_low(o, d, v);
    }
}

/// Takes away the coordinates above `v`. Where that is all of them, the object loses its places.
fn lower_to<const K: usize>(t: &mut Trailed<K>, o: ObjId, d: usize, v: i64)
    requires k { K ≤ MAX_DIMS }
    requires object { o.0 < length t.old.state }
    requires dimension { d < K }
    ensures narrows { Narrows t.old.state t.new.state (λ T. IsFrom T (CoordinateOf o.0 d true) v) }
    ensures lowered { v <ℤ high t.old.state o.0 d → low t.old.state o.0 d ≤ℤ v
        → t.new.state ≡ slice_set t.old.state o.0 (with_high (reach t.old.state o.0) d v) }
    ensures levels { t.new.levels ≡ t.old.levels }
    ensures restores { t.new.restores ≡ t.old.restores }
{
    let state = t.state();
    let _objects = state.objects();
    let region = state.region(o);
    let low = region.lo.get(d);
    let high = region.hi.get(d);
    if v < low {
        shed(t, o, 1, 17);
    } else if v < high {
        t.set_high(o, d, v);
    }
}

/// The least place that is not before `v`, and 17 where there is none.
fn place_within(v: i64) -> u8
    ensures from { 1 ≤ result }
    ensures to { result ≤ 17 }
    ensures above { result ≤ 16 → v ≤ℤ pos result }
    ensures below { 1 < result → pos result ≤ℤ v }
{
    if v < 1 {
        1
    } else if v > 17 {
        17
    } else {
        v as u8
    }
}
