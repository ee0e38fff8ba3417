//! Supports of an object that are kept.

ghost use Rattle.std.specs.Prelude.{◌≡◌, ℕ, ◌+◌, ◌-◌, ◌*◌, ◌<◌, ◌≤◌, List, ℤ, length, map, slice_index_or, slice_set, true, if◌then◌else◌, IfSome, IsTrue};
ghost use Rattle.geo_base.specs.Boxes.{coordinate};
ghost use Rattle.geo_conditions.specs.declared.cond.Cond.{Cond};
ghost use Rattle.geo_conditions.specs.Conditions.{possible, FitsIn};
ghost use Rattle.geo_conditions.specs.Reach.{InBox, has, reach};
ghost use Rattle.object_pruning.specs.Ends.{IsTightEnd, end};
ghost use Rattle.object_pruning.specs.Kept.{AllSupport, IsAnswered, placed, retried};
ghost use Rattle.object_pruning.specs.Pruning.{CanBe};

use geo_base::{MAX_DIMS, Point};
use geo_conditions::{ObjId, State};
use indexical::Indexical;

/// A point of an object at a place.
#[derive(Clone, Copy)]
pub struct Placed<const K: usize> {
    pub place: u8,
    pub point: Point<K>,
}

/// How many supports are kept of an object at most: one for each end of each interval, and behind
/// them one for each place. There may be fewer slots, and then none for the last places.
pub fn slots<const K: usize>() -> usize
    requires { K ≤ MAX_DIMS }
    ensures { result ≡ 16 + 2 * K }
{
    16 + 2 * K
}

/// The slot of a place.
pub fn place_slot<const K: usize>(place: u8) -> usize
    requires { K ≤ MAX_DIMS }
    ensures { result ≡ 2 * K + (place - 1) }
{
    2 * K + usize::from(place).saturating_sub(1)
}

/// The slot of an end of an interval: of the low end, where it is upwards.
pub fn end_slot(d: usize, up: bool) -> usize
    requires { d < MAX_DIMS }
    ensures { result ≡ 2 * d + (if up then 0 else 1) }
{
    if up { 2 * d } else { 2 * d + 1 }
}

/// Keeps the support in a slot, where there is one.
pub fn keep<const K: usize>(kept: &mut [Option<Placed<K>>], slot: usize, q: &Placed<K>)
    ensures { kept.new ≡ slice_set kept.old slot (Some q.now) }
{
    if slot < kept.len() {
        kept[slot] = Some(*q);
    }
}

/// Keeps a point that was found, as a support and as a hint.
pub fn keep_found<const K: usize>(
    kept: &mut [Option<Placed<K>>],
    hints: &mut [Option<Placed<K>>],
    slot: usize,
    q: &Placed<K>,
)
    ensures { kept.new ≡ slice_set kept.old slot (Some q.now) }
{
    keep(kept, slot, q);
    keep(hints, slot, q);
}

// A point that was asked about, and whether the condition is possible with the object there.
#[derive(Clone, Copy)]
struct Asked<const K: usize> {
    q: Placed<K>,
    possible: bool,
}

/// Whether both are the same point at the same place.
pub fn is_same_point<const K: usize>(a: &Placed<K>, b: &Placed<K>) -> bool
    ensures { IsTrue result → a.now ≡ b.now }
{
    a.place == b.place && a.point.coordinates == b.point.coordinates
}

// Whether the condition is possible with the object there. The point that was asked about last is
// not asked again.
fn is_possible_there<const K: usize, I: Indexical<K>>(
    q: &Placed<K>,
    last: &mut Option<Asked<K>>,
    s: &State<K>,
    o: ObjId,
    x: &I,
) -> bool
    requires k { K ≤ MAX_DIMS }
    requires fits { FitsIn (I.cond x.now) s.now }
    requires object { o.0 < length s.now }
    requires last { IsAnswered (I.cond x.now) s.now o.0 last.old }
    ensures answer { result ≡ possible (I.cond x.now) (placed s.now o.0 q.now) }
    ensures last { IsAnswered (I.cond x.now) s.now o.0 last.new }
{
    if let Some(asked) = last {
        if is_same_point(&asked.q, q) {
            return asked.possible;
        }
    }
    let possible = x.is_possible_at(s, o, q.place, &q.point);
    *last = Some(Asked { q: *q, possible });
    possible
}

// Forgets the kept support where the condition refutes it with the object there.
fn retry_one<const K: usize, I: Indexical<K>>(
    slot: &mut Option<Placed<K>>,
    last: &mut Option<Asked<K>>,
    s: &State<K>,
    o: ObjId,
    x: &I,
)
    requires k { K ≤ MAX_DIMS }
    requires fits { FitsIn (I.cond x.now) s.now }
    requires object { o.0 < length s.now }
    requires last { IsAnswered (I.cond x.now) s.now o.0 last.old }
    ensures kept { slot.new ≡ retried (I.cond x.now) s.now o.0 slot.old }
    ensures last { IsAnswered (I.cond x.now) s.now o.0 last.new }
{
    if let Some(q) = slot {
        if !is_possible_there(q, last, s, o, x) {
            *slot = None;
        }
    }
}

/// Forgets each kept support that the condition refutes with the object there.
pub fn retry<const K: usize, I: Indexical<K>>(
    kept: &mut [Option<Placed<K>>],
    s: &State<K>,
    o: ObjId,
    x: &I,
)
    requires k { K ≤ MAX_DIMS }
    requires fits { FitsIn (I.cond x.now) s.now }
    requires object { o.0 < length s.now }
    ensures { kept.new ≡ map (retried (I.cond x.now) s.now o.0) kept.old }
{
    let mut last = None;
    for slot in kept.iter_mut() {
        retry_one(slot, &mut last, s, o, x);
    }
}

/// What is in a slot.
pub fn kept_in<const K: usize>(kept: &[Option<Placed<K>>], slot: usize) -> Option<Placed<K>>
    ensures { result ≡ slice_index_or kept.now slot None }
{
    match kept.get(slot) {
        Some(q) => *q,
        None => None,
    }
}

/// Whether the object has that place and that point.
pub fn is_there<const K: usize>(s: &State<K>, o: ObjId, q: &Placed<K>) -> bool
    requires k { K ≤ MAX_DIMS }
    requires object { o.0 < length s.now }
    ensures place { IsTrue result → has s.now o.0 q.now.place ≡ true }
    ensures point { IsTrue result → InBox q.now.point.coordinates (reach s.now o.0).region }
{
    let _objects = s.objects();
    let _coordinates = q.point.dimensions();
    s.has_shape(o, q.place) && s.region(o).has(&q.point)
}

// The support in a slot, if the object still has its place and its point.
fn kept_at<const K: usize>(
    s: &State<K>,
    o: ObjId,
    kept: &[Option<Placed<K>>],
    slot: usize,
) -> Option<Placed<K>>
    requires k { K ≤ MAX_DIMS }
    requires object { o.0 < length s.now }
    ensures { IfSome result (λ q. (cs : List Cond) → AllSupport cs s.now o.0 kept.now
        → CanBe cs s.now o.0 q.place q.point.coordinates) }
{
    let q = kept_in(kept, slot)?;
    if is_there(s, o, &q) { Some(q) } else { None }
}

/// Whether a point is kept at which the object still has that place.
pub fn place_stands<const K: usize>(
    s: &State<K>,
    o: ObjId,
    place: u8,
    kept: &[Option<Placed<K>>],
) -> bool
    requires k { K ≤ MAX_DIMS }
    requires object { o.0 < length s.now }
    ensures { IsTrue result → (cs : List Cond) → AllSupport cs s.now o.0 kept.now
        → (p : List ℤ) × CanBe cs s.now o.0 place p }
{
    match kept_at(s, o, kept, place_slot::<K>(place)) {
        Some(q) => q.place == place,
        None => false,
    }
}

/// The end of an interval: the low one upwards, else the high one.
pub fn end_of<const K: usize>(s: &State<K>, o: ObjId, d: usize, up: bool) -> i64
    requires k { K ≤ MAX_DIMS }
    requires object { o.0 < length s.now }
    requires dimension { d < K }
    ensures { result ≡ end up s.now o.0 d }
{
    let ends = s.interval(o, d);
    if up { ends.lo } else { ends.hi }
}

// Whether the point has that coordinate in a dimension.
fn has_coordinate<const K: usize>(q: &Placed<K>, d: usize, there: i64) -> bool
    requires { d < K }
    ensures { IsTrue result → coordinate q.now.point.coordinates d ≡ there }
{
    q.point.get(d) == there
}

// Whether the point in a slot is one at which the object still has that coordinate in a dimension.
fn is_kept_there<const K: usize>(
    s: &State<K>,
    o: ObjId,
    d: usize,
    there: i64,
    kept: &[Option<Placed<K>>],
    slot: usize,
) -> bool
    requires k { K ≤ MAX_DIMS }
    requires object { o.0 < length s.now }
    requires dimension { d < K }
    ensures { IsTrue result → (cs : List Cond) → AllSupport cs s.now o.0 kept.now
        → (u : ℕ) × (p : List ℤ) × CanBe cs s.now o.0 u p × (coordinate p d ≡ there) }
{
    match kept_in(kept, slot) {
        Some(q) => has_coordinate(&q, d, there) && is_there(s, o, &q),
        None => false,
    }
}

/// Whether a point is kept at which the object still has that end of an interval: the one that was
/// kept for it, or another.
pub fn end_stands<const K: usize>(
    s: &State<K>,
    o: ObjId,
    d: usize,
    up: bool,
    kept: &[Option<Placed<K>>],
) -> bool
    requires k { K ≤ MAX_DIMS }
    requires object { o.0 < length s.now }
    requires dimension { d < K }
    ensures { IsTrue result → (cs : List Cond) → AllSupport cs s.now o.0 kept.now
        → IsTightEnd cs s.now o.0 d up }
{
    let there = end_of(s, o, d, up);
    if is_kept_there(s, o, d, there, kept, end_slot(d, up)) {
        return true;
    }
    for before in 0..kept.len() {
        let slot = kept.len() - 1 - before;
        if is_kept_there(s, o, d, there, kept, slot) {
            return true;
        }
    }
    false
}
