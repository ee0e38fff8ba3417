//! Hints: points of which nothing is known, and that are tried before a sweep.

ghost use Rattle.std.specs.Prelude.{◌≡◌, ◌<◌, ◌≤◌, ℤ, List, length, map, IfSome, IsTrue};
ghost use Rattle.geo_conditions.specs.Conditions.{AllFit};
ghost use Rattle.sweep.specs.Picks.{ArePicks, picked};
ghost use Rattle.object_pruning.specs.Ends.{IsEndPoint, IsTightEnd};
ghost use Rattle.object_pruning.specs.InRows.{AreRows};
ghost use Rattle.object_pruning.specs.Kept.{AllSupport};
ghost use Rattle.object_pruning.specs.Pruning.{CanBe};

use crate::kept::{
    Placed, end_of, end_slot, end_stands, is_there, keep, kept_in, place_slot, place_stands,
};
use crate::rows::Rows;
use crate::unrefuted::is_unrefuted;
use geo_base::MAX_DIMS;
use geo_conditions::{ObjId, State};
use indexical::Indexical;

// Whether the object can be there: it has the place and the point, and no picked condition is
// refuted.
fn can_be<const K: usize, I: Indexical<K>>(
    s: &State<K>,
    o: ObjId,
    q: &Placed<K>,
    list: &[I],
    picks: &[u32],
    rows: Option<&Rows>,
) -> bool
    requires k { (0 < K) × (K ≤ MAX_DIMS) }
    requires fits { AllFit (map I.cond list.now) s.now }
    requires object { o.0 < length s.now }
    requires picks { ArePicks (length list.now) picks.now }
    requires rows { IfSome rows (λ r. AreRows (map I.cond list.now) o.0 picks.now r.now) }
    ensures { IsTrue result → CanBe (picked (map I.cond list.now) picks.now) s.now o.0
        q.now.place q.now.point.coordinates }
{
    is_there(s, o, q) && is_unrefuted(s, o, q, list, picks, rows)
}

// The hint of a place, if the object can be there.
fn hint_of_place<const K: usize, I: Indexical<K>>(
    s: &State<K>,
    o: ObjId,
    place: u8,
    list: &[I],
    picks: &[u32],
    rows: Option<&Rows>,
    hints: &[Option<Placed<K>>],
) -> Option<Placed<K>>
    requires k { (0 < K) × (K ≤ MAX_DIMS) }
    requires fits { AllFit (map I.cond list.now) s.now }
    requires object { o.0 < length s.now }
    requires picks { ArePicks (length list.now) picks.now }
    requires rows { IfSome rows (λ r. AreRows (map I.cond list.now) o.0 picks.now r.now) }
    ensures { IfSome result (λ q. (q.place ≡ place)
        × CanBe (picked (map I.cond list.now) picks.now) s.now o.0 q.place q.point.coordinates) }
{
    let q = kept_in(hints, place_slot::<K>(place))?;
    if q.place == place && can_be(s, o, &q, list, picks, rows) {
        Some(q)
    } else {
        None
    }
}

// The hint of an end of an interval, if the object can be there and it has that end as its
// coordinate.
fn hint_of_end<const K: usize, I: Indexical<K>>(
    s: &State<K>,
    o: ObjId,
    d: usize,
    up: bool,
    list: &[I],
    picks: &[u32],
    rows: Option<&Rows>,
    hints: &[Option<Placed<K>>],
) -> Option<Placed<K>>
    requires k { K ≤ MAX_DIMS }
    requires fits { AllFit (map I.cond list.now) s.now }
    requires object { o.0 < length s.now }
    requires dimension { d < K }
    requires picks { ArePicks (length list.now) picks.now }
    requires rows { IfSome rows (λ r. AreRows (map I.cond list.now) o.0 picks.now r.now) }
    ensures { IfSome result (λ q.
        IsEndPoint (picked (map I.cond list.now) picks.now) s.now o.0 d up q) }
{
    let q = kept_in(hints, end_slot(d, up))?;
    let there = end_of(s, o, d, up);
    if q.point.get(d) == there && can_be(s, o, &q, list, picks, rows) {
        Some(q)
    } else {
        None
    }
}

/// Whether a point is known at which the object has that place, which is there: a kept one, or else
/// the hint, which is kept then.
pub fn knows_place<const K: usize, I: Indexical<K>>(
    s: &State<K>,
    o: ObjId,
    place: u8,
    list: &[I],
    picks: &[u32],
    rows: Option<&Rows>,
    kept: &mut [Option<Placed<K>>],
    hints: &[Option<Placed<K>>],
) -> bool
    requires k { (0 < K) × (K ≤ MAX_DIMS) }
    requires fits { AllFit (map I.cond list.now) s.now }
    requires object { o.0 < length s.now }
    requires picks { ArePicks (length list.now) picks.now }
    requires rows { IfSome rows (λ r. AreRows (map I.cond list.now) o.0 picks.now r.now) }
    requires kept { AllSupport (picked (map I.cond list.now) picks.now) s.now o.0 kept.old }
    ensures point { IsTrue result → (p : List ℤ)
        × CanBe (picked (map I.cond list.now) picks.now) s.now o.0 place p }
    ensures kept { AllSupport (picked (map I.cond list.now) picks.now) s.now o.0 kept.new }
{
    if place_stands(s, o, place, kept) {
        return true;
    }
    match hint_of_place(s, o, place, list, picks, rows, hints) {
        Some(q) => {
            keep(kept, place_slot::<K>(place), &q);
            true
        }
        None => false,
    }
}

/// Whether a point is known at which the object has that end of an interval: a kept one, or else
/// the hint, which is kept then.
pub fn knows_end<const K: usize, I: Indexical<K>>(
    s: &State<K>,
    o: ObjId,
    d: usize,
    up: bool,
    list: &[I],
    picks: &[u32],
    rows: Option<&Rows>,
    kept: &mut [Option<Placed<K>>],
    hints: &[Option<Placed<K>>],
) -> bool
    requires k { K ≤ MAX_DIMS }
    requires fits { AllFit (map I.cond list.now) s.now }
    requires object { o.0 < length s.now }
    requires dimension { d < K }
    requires picks { ArePicks (length list.now) picks.now }
    requires rows { IfSome rows (λ r. AreRows (map I.cond list.now) o.0 picks.now r.now) }
    requires kept { AllSupport (picked (map I.cond list.now) picks.now) s.now o.0 kept.old }
    ensures tight { IsTrue result
        → IsTightEnd (picked (map I.cond list.now) picks.now) s.now o.0 d up }
    ensures kept { AllSupport (picked (map I.cond list.now) picks.now) s.now o.0 kept.new }
{
    if end_stands(s, o, d, up, kept) {
        return true;
    }
    match hint_of_end(s, o, d, up, list, picks, rows, hints) {
        Some(q) => {
            keep(kept, end_slot(d, up), &q);
            true
        }
        None => false,
    }
}
