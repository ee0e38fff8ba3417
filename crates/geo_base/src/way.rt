//! Orders of points for sweeps: one dimension leads, the others follow around, all upwards or all
//! downwards. What is said of a way upwards holds of one downwards with the ends exchanged.

ghost use Rattle.std.specs.Prelude.{◌≡◌, ◌≢◌, ℕ, ◌+◌, ◌<◌, ◌≤◌, pos, negsuc, ◌+ℤ◌, ◌≤ℤ◌, ◌<ℤ◌, ◌↔◌, IsTrue, MatchBool};
ghost use Rattle.std.specs.Int.{int_min};
ghost use Rattle.geo_base.specs.Boxes.{coordinate};
ghost use Rattle.geo_base.specs.Ways.{dimension, toward, key, Before, start, end, one_past, Advances, RunsOut, IsSmallPoint};
ghost use Rattle.geo_base.specs.declared.TheConstants.{MAX_DIMS};

use crate::MAX_DIMS;
use crate::kbox::KBox;
use crate::point::Point;

/// An order of points: lexicographic, the lead dimension first, then those after it, and around;
/// upwards in each dimension, or downwards in each.
#[derive(Clone, Copy)]
pub struct Way<const K: usize> {
    lead: usize,
    up: bool,
    ghost lead_in: { lead < K },
    ghost small: { K ≤ MAX_DIMS },
}

impl<const K: usize> Way<K> {
    /// The way that begins with the dimension `lead`.
    pub fn new(lead: usize, up: bool) -> Self
        requires lead_in { lead < K }
        requires small { K ≤ MAX_DIMS }
        ensures lead { result.lead ≡ lead }
        ensures up { result.up ≡ up }
    {
        Way { lead, up }
    }

    /// The dimension at the place `j` of significance; 0 is the lead's.
    #[inline(always)]
    pub fn dimension(&self, j: usize) -> usize
        requires { j < K }
        ensures is { result ≡ dimension K self.now.lead j }
        ensures within { result < K }
    {
        if self.lead + j < K {
            self.lead + j
        } else {
            self.lead + j - K
        }
    }

    /// Whether the way goes upwards.
    #[inline(always)]
    pub fn up(&self) -> bool
        ensures { result ≡ self.now.up }
    {
        self.up
    }

    /// Gives the coordinate of `from` at the place `j` of significance to `into`.
    #[inline(always)]
    pub fn copy(&self, from: &Point<K>, into: &mut Point<K>, j: usize)
        requires { j < K }
        ensures same { let k = key K self.now.lead self.now.up in
            k into.new.coordinates j ≡ k from.now.coordinates j }
        ensures others { let k = key K self.now.lead self.now.up in (i : ℕ) → i < K → i ≢ j →
            k into.new.coordinates i ≡ k into.old.coordinates i }
    {
        let d = self.dimension(j);
        into.set(d, from.get(d));
    }

    /// Whether p and q have the same coordinate at the place `j` of significance.
    #[inline(always)]
    pub fn same_at(&self, p: &Point<K>, q: &Point<K>, j: usize) -> bool
        requires { j < K }
        ensures { let k = key K self.now.lead self.now.up in
            IsTrue result ↔ (k p.now.coordinates j ≡ k q.now.coordinates j) }
    {
        let d = self.dimension(j);
        p.get(d) == q.get(d)
    }

    /// Whether p comes strictly before q at the place `j` of significance.
    #[inline(always)]
    fn is_sooner_at(&self, p: &Point<K>, q: &Point<K>, j: usize) -> bool
        requires { j < K }
        ensures { let k = key K self.now.lead self.now.up in
            IsTrue result ↔ (k p.now.coordinates j <ℤ k q.now.coordinates j) }
    {
        let d = self.dimension(j);
        let a = p.get(d);
        let b = q.get(d);
        if self.up { a < b } else { b < a }
    }

    /// The corner of the box that comes first.
    #[inline(always)]
    pub fn start<'a>(&self, b: &'a KBox<K>) -> &'a Point<K>
        ensures { result.now.coordinates
            ≡ start self.now.up b.now.lo.coordinates b.now.hi.coordinates }
    {
        if self.up { &b.lo } else { &b.hi }
    }

    /// The corner of the box that comes last.
    #[inline(always)]
    pub fn end<'a>(&self, b: &'a KBox<K>) -> &'a Point<K>
        ensures { result.now.coordinates
            ≡ end self.now.up b.now.lo.coordinates b.now.hi.coordinates }
    {
        if self.up { &b.hi } else { &b.lo }
    }

    /// The number one past v.
    #[inline(always)]
    pub fn past(&self, v: i64) -> i64
        requires { (negsuc 1999999 ≤ℤ v) × (v ≤ℤ pos 2000000) }
        ensures { toward self.now.up result ≡ toward self.now.up v +ℤ pos 1 }
    {
        if self.up { v + 1 } else { v - 1 }
    }

    /// The one of v and w that comes first.
    #[inline(always)]
    pub fn sooner(&self, v: i64, w: i64) -> i64
        ensures { toward self.now.up result
            ≡ int_min (toward self.now.up v) (toward self.now.up w) }
    {
        if self.up { v.min(w) } else { v.max(w) }
    }

    /// The point one past e in each dimension.
    #[inline(always)]
    pub fn one_past(&self, e: &Point<K>) -> Point<K>
        requires { IsSmallPoint K e.now.coordinates }
        ensures { (d : ℕ) → d < K → toward self.now.up (coordinate result.coordinates d)
            ≡ toward self.now.up (coordinate e.now.coordinates d) +ℤ pos 1 }
    {
        let mut p = *e;
        for d in 0..K {
            p.set(d, self.past(e.get(d)));
        }
        p
    }

    /// Draws the jump n in to one past the corner e, in each dimension where it lies further on.
    #[inline(always)]
    pub fn draw_in(&self, e: &Point<K>, n: &mut Point<K>)
        requires { IsSmallPoint K e.now.coordinates }
        ensures { (d : ℕ) → d < K → toward self.now.up (coordinate n.new.coordinates d)
            ≡ int_min (toward self.now.up (coordinate n.old.coordinates d))
            (toward self.now.up (coordinate e.now.coordinates d) +ℤ pos 1) }
    {
        for d in 0..K {
            self.draw_in_at(e, n, d);
        }
    }

    /// The same in the dimension d alone.
    #[inline(always)]
    fn draw_in_at(&self, e: &Point<K>, n: &mut Point<K>, d: usize)
        requires dimension { d < K }
        requires small { IsSmallPoint K e.now.coordinates }
        ensures same { toward self.now.up (coordinate n.new.coordinates d)
            ≡ int_min (toward self.now.up (coordinate n.old.coordinates d))
            (toward self.now.up (coordinate e.now.coordinates d) +ℤ pos 1) }
        ensures others { (i : ℕ) → i ≢ d →
            coordinate n.new.coordinates i ≡ coordinate n.old.coordinates i }
    {
        n.set(d, self.sooner(n.get(d), self.past(e.get(d))));
    }
}

/// Whether p comes strictly before q in the way's order.
pub fn before<const K: usize>(way: &Way<K>, p: &Point<K>, q: &Point<K>) -> bool
    ensures { IsTrue result
        ↔ Before K way.now.lead way.now.up p.now.coordinates q.now.coordinates }
{
    for j in 0..K {
        if !way.same_at(p, q, j) {
            return way.is_sooner_at(p, q, j);
        }
    }
    false
}

/// Moves c on to the jump that n holds, and begins the jump anew where coordinates ran out: from the
/// least significant dimension on, c takes n's coordinate and n the one past the region's last. If
/// that was c's new coordinate too, c begins again there and the next dimension moves.
/// False where each coordinate ran out.
pub fn advance<const K: usize>(
    way: &Way<K>,
    region: &KBox<K>,
    c: &mut Point<K>,
    n: &mut Point<K>,
) -> bool
    requires low_corner { IsSmallPoint K region.now.lo.coordinates }
    requires high_corner { IsSmallPoint K region.now.hi.coordinates }
    ensures { let lo = region.now.lo.coordinates in
        let hi = region.now.hi.coordinates in
        let k = key K way.now.lead way.now.up in
        let past = one_past (k (end way.now.up lo hi)) in
        MatchBool result
        (Advances K (k (start way.now.up lo hi)) past
        (k c.old.coordinates) (k n.old.coordinates) (k c.new.coordinates) (k n.new.coordinates))
        (RunsOut K past (k n.old.coordinates)) }
{
    let past = way.one_past(way.end(region));
    advance_between(way, way.start(region), &past, c, n)
}

/// Moves c on as `advance` does, from `first` to before `past` in each dimension.
#[inline(always)]
pub fn advance_between<const K: usize>(
    way: &Way<K>,
    first: &Point<K>,
    past: &Point<K>,
    c: &mut Point<K>,
    n: &mut Point<K>,
) -> bool
    ensures { let k = key K way.now.lead way.now.up in
        MatchBool result
        (Advances K (k first.now.coordinates) (k past.now.coordinates)
        (k c.old.coordinates) (k n.old.coordinates) (k c.new.coordinates) (k n.new.coordinates))
        (RunsOut K (k past.now.coordinates) (k n.old.coordinates)) }
{
    for j in (0..K).rev() {
        let ran_out = way.same_at(n, past, j);
        way.copy(n, c, j);
        way.copy(past, n, j);
        if !ran_out {
            return true;
        }
        way.copy(first, c, j);
    }
    false
}
