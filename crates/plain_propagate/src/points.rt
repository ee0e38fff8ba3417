//! Whether the points of a box are refuted, one after another in the order of their coordinates,
//! and whether places and ends of intervals have a point that is not.

ghost use Rattle.std.specs.Prelude.{◌≡◌, ◌-◌, ◌<◌, ◌≤◌, ◌≤ℤ◌, length, take, ◌↔◌, IsTrue, true, MatchOption, IfSome};
ghost use Rattle.std.specs.List.{All};
ghost use Rattle.geo_conditions.specs.Conditions.{FitsIn};
ghost use Rattle.geo_conditions.specs.Reach.{with_at, low, high, has};
ghost use Rattle.geo_conditions.specs.Regions.{region_of};
ghost use Rattle.geo_conditions.specs.Supported.{NoneRefuted};
ghost use Rattle.derivation.specs.Covers.{refutes};
ghost use Rattle.plain_propagate.specs.Points.{HasPoint, HasSupport, HasEnd, cut_to};

use geo_base::{KBox, MAX_DIMS, Point};
use geo_conditions::{Cond, ObjId, State, refuted, refuted_at};

/// The number of the first condition that is refuted on the state, from 1; none where none is.
pub fn first_refuted<const K: usize>(cs: &[Cond], s: &State<K>) -> Option<usize>
    requires k { K ≤ MAX_DIMS }
    requires fits { All (λ c. FitsIn c s.now) cs.now }
    ensures found { MatchOption result (NoneRefuted cs.now s.now)
        (λ i. refutes cs.now i s.now ≡ true) }
    ensures first { IfSome result (λ i. NoneRefuted (take (i - 1) cs.now) s.now) }
    ensures number { IfSome result (λ i. i ≤ length cs.now) }
{
    for (i, c) in cs.iter().enumerate() {
        if refuted(c, s) {
            return Some(i + 1);
        }
    }
    None
}

/// The same with the object at that place in that box.
pub fn first_refuted_at<const K: usize>(
    cs: &[Cond],
    s: &State<K>,
    o: ObjId,
    place: u8,
    b: &KBox<K>,
) -> Option<usize>
    requires k { K ≤ MAX_DIMS }
    requires fits { All (λ c. FitsIn c s.now) cs.now }
    requires object { o.0 < length s.now }
    ensures found { let put = with_at s.now o.0 place (region_of b.now) in
        MatchOption result (NoneRefuted cs.now put) (λ i. refutes cs.now i put ≡ true) }
    ensures number { IfSome result (λ i. i ≤ length cs.now) }
{
    for (i, c) in cs.iter().enumerate() {
        if refuted_at(c, s, o, place, b) {
            return Some(i + 1);
        }
    }
    None
}

/// Whether no condition is refuted with the object at that place in that box.
fn none_refuted_at<const K: usize>(
    cs: &[Cond],
    s: &State<K>,
    o: ObjId,
    place: u8,
    b: &KBox<K>,
) -> bool
    requires k { K ≤ MAX_DIMS }
    requires fits { All (λ c. FitsIn c s.now) cs.now }
    requires object { o.0 < length s.now }
    ensures { IsTrue result ↔ NoneRefuted cs.now (with_at s.now o.0 place (region_of b.now)) }
{
    match first_refuted_at(cs, s, o, place, b) {
        Some(_) => false,
        None => true,
    }
}

/// Whether some point of the box that agrees with `p` below `d` is one at which no condition is
/// refuted. The points are tried in turn, and the first such point ends the search.
fn any_point<const K: usize>(
    cs: &[Cond],
    s: &State<K>,
    o: ObjId,
    place: u8,
    b: &KBox<K>,
    p: Point<K>,
    d: usize,
) -> bool
    requires k { K ≤ MAX_DIMS }
    requires fits { All (λ c. FitsIn c s.now) cs.now }
    requires object { o.0 < length s.now }
    requires dimension { d ≤ K }
    requires lows { length b.now.lo.coordinates ≡ K }
    requires highs { length b.now.hi.coordinates ≡ K }
    ensures { IsTrue result
        ↔ HasPoint cs.now s.now o.0 place (region_of b.now) p.entry.coordinates d }
{
    if d == K {
        return b.has(&p) && none_refuted_at(cs, s, o, place, &KBox::new(p, p));
    }
    let from = b.lo.get(d);
    let to = b.hi.get(d);
    for v in from..=to {
        if any_point(cs, s, o, place, b, p.with(d, v), d + 1) {
            return true;
        }
    }
    false
}

/// Whether the object has a point of its region at that place.
pub fn place_supported<const K: usize>(cs: &[Cond], s: &State<K>, o: ObjId, place: u8) -> bool
    requires k { K ≤ MAX_DIMS }
    requires fits { All (λ c. FitsIn c s.now) cs.now }
    requires object { o.0 < length s.now }
    requires there { has s.now o.0 place ≡ true }
    ensures { IsTrue result ↔ HasSupport cs.now s.now o.0 place }
{
    let region = s.region(o);
    any_point(cs, s, o, place, &region, region.lo, 0)
}

/// The part of the box that has one number in the dimension.
pub fn cut_to<const K: usize>(b: &KBox<K>, d: usize, v: i64) -> KBox<K>
    requires { d < K }
    ensures { region_of result ≡ cut_to (region_of b.now) d v }
{
    KBox::new(b.lo.with(d, v), b.hi.with(d, v))
}

/// Whether the object has a point of its region with that coordinate, at some place.
pub fn end_supported<const K: usize>(cs: &[Cond], s: &State<K>, o: ObjId, d: usize, v: i64) -> bool
    requires k { K ≤ MAX_DIMS }
    requires fits { All (λ c. FitsIn c s.now) cs.now }
    requires object { o.0 < length s.now }
    requires dimension { d < K }
    requires within { (low s.now o.0 d ≤ℤ v) × (v ≤ℤ high s.now o.0 d) }
    ensures { IsTrue result ↔ HasEnd cs.now s.now o.0 d v }
{
    let region = s.region(o);
    let cut = cut_to(&region, d, v);
    for place in 1..=16u8 {
        if s.has_shape(o, place) && any_point(cs, s, o, place, &cut, cut.lo, 0) {
            return true;
        }
    }
    false
}
