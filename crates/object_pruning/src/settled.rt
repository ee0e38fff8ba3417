//! Whether the supports that are kept of an object tell that nothing of it goes.

ghost use Rattle.std.specs.Prelude.{◌≡◌, ℕ, ◌<◌, ◌≤◌, Bool, List, ℤ, true, length, IsTrue};
ghost use Rattle.geo_conditions.specs.declared.cond.Cond.{Cond};
ghost use Rattle.geo_conditions.specs.Reach.{has};
ghost use Rattle.object_pruning.specs.Ends.{HavePoints, IsTightEnd};
ghost use Rattle.object_pruning.specs.Kept.{AllSupport};
ghost use Rattle.object_pruning.specs.Pruning.{CanBe, IsTight};

use crate::kept::{Placed, end_stands, place_stands};
use crate::places::last_place;
use geo_base::MAX_DIMS;
use geo_conditions::{ObjId, State};

// Whether a point is kept at which the object has that place, if the place is there.
#[inline(always)]
fn is_place_settled<const K: usize>(
    s: &State<K>,
    o: ObjId,
    place: u8,
    kept: &[Option<Placed<K>>],
) -> bool
    requires k { K ≤ MAX_DIMS }
    requires object { o.0 < length s.now }
    ensures { IsTrue result → has s.now o.0 place ≡ true → (cs : List Cond)
        → AllSupport cs s.now o.0 kept.now → (p : List ℤ) × CanBe cs s.now o.0 place p }
{
    if !s.has_shape(o, place) {
        return true;
    }
    place_stands(s, o, place, kept)
}

// Whether each place of the object has a point that is kept.
fn are_places_settled<const K: usize>(s: &State<K>, o: ObjId, kept: &[Option<Placed<K>>]) -> bool
    requires k { K ≤ MAX_DIMS }
    requires object { o.0 < length s.now }
    ensures { IsTrue result → (cs : List Cond) → AllSupport cs s.now o.0 kept.now
        → HavePoints cs s.now o.0 }
{
    let last = last_place(s, o);
    for before in 0..last {
        if !is_place_settled(s, o, before + 1, kept) {
            return false;
        }
    }
    true
}

// Whether both ends of an interval of the object have a point that is kept.
#[inline(always)]
fn are_both_settled<const K: usize>(
    s: &State<K>,
    o: ObjId,
    d: usize,
    kept: &[Option<Placed<K>>],
) -> bool
    requires k { K ≤ MAX_DIMS }
    requires object { o.0 < length s.now }
    requires dimension { d < K }
    ensures { IsTrue result → (cs : List Cond) → AllSupport cs s.now o.0 kept.now
        → (up : Bool) → IsTightEnd cs s.now o.0 d up }
{
    if !end_stands(s, o, d, true, kept) {
        return false;
    }
    end_stands(s, o, d, false, kept)
}

// Whether each end of each interval of the object has a point that is kept.
fn are_ends_settled<const K: usize>(s: &State<K>, o: ObjId, kept: &[Option<Placed<K>>]) -> bool
    requires k { K ≤ MAX_DIMS }
    requires object { o.0 < length s.now }
    ensures { IsTrue result → (cs : List Cond) → AllSupport cs s.now o.0 kept.now
        → (d : ℕ) (up : Bool) → d < K → IsTightEnd cs s.now o.0 d up }
{
    for d in 0..K {
        if !are_both_settled(s, o, d, kept) {
            return false;
        }
    }
    true
}

/// Whether each place of the object, and each end of its intervals, has a point that is kept. Then
/// none of them goes.
pub fn is_settled<const K: usize>(s: &State<K>, o: ObjId, kept: &[Option<Placed<K>>]) -> bool
    requires k { K ≤ MAX_DIMS }
    requires object { o.0 < length s.now }
    ensures { IsTrue result → (cs : List Cond) → AllSupport cs s.now o.0 kept.now
        → IsTight cs s.now o.0 }
{
    let _objects = s.objects();
    if !are_places_settled(s, o, kept) {
        return false;
    }
    are_ends_settled(s, o, kept)
}
