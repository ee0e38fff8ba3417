//! Boxes of points in K dimensions.

ghost use Rattle.std.specs.Prelude.{◌≡◌, ℕ, ℤ, List, ◌<◌, ◌≤ℤ◌, ◌<ℤ◌, ◌↔◌, IsTrue, MatchBool};
ghost use Rattle.std.specs.Int.{int_min, int_max};
ghost use Rattle.geo_base.specs.Boxes.{coordinate, Has, HasNone, IsCrossed, IsUncrossed};

use crate::point::Point;

/// The points between two corners, both included. There is none where in some dimension `hi` is
/// below `lo`.
#[derive(Clone, Copy)]
pub struct KBox<const K: usize> {
    pub lo: Point<K>,
    pub hi: Point<K>,
}

impl<const K: usize> KBox<K> {
    /// The box between two corners.
    pub fn new(lo: Point<K>, hi: Point<K>) -> Self
        ensures lo { result.lo ≡ lo.entry }
        ensures hi { result.hi ≡ hi.entry }
    {
        Self { lo, hi }
    }

    /// The corner with the low ends.
    #[inline(always)]
    pub fn lo(&self) -> Point<K>
        ensures { result ≡ self.now.lo }
    {
        self.lo
    }

    /// The corner with the high ends.
    #[inline(always)]
    pub fn hi(&self) -> Point<K>
        ensures { result ≡ self.now.hi }
    {
        self.hi
    }

    /// Whether the point lies in the box.
    pub fn has(&self, p: &Point<K>) -> bool
        ensures { IsTrue result
            ↔ Has K self.now.lo.coordinates self.now.hi.coordinates p.now.coordinates }
    {
        for d in 0..K {
            let v = p.get(d);
            if v < self.lo.get(d) || self.hi.get(d) < v {
                return false;
            }
        }
        true
    }

    /// Whether the box has no point.
    pub fn is_empty(&self) -> bool
        ensures ends { let lo = self.now.lo.coordinates in let hi = self.now.hi.coordinates in
            MatchBool result (IsCrossed K lo hi) (IsUncrossed K lo hi) }
        ensures points { IsTrue result
            ↔ HasNone K self.now.lo.coordinates self.now.hi.coordinates }
    {
        for d in 0..K {
            if self.hi.get(d) < self.lo.get(d) {
                return true;
            }
        }
        false
    }

    /// The points that both boxes have.
    pub fn meet(&self, other: &KBox<K>) -> KBox<K>
        ensures points { (p : List ℤ) → Has K result.lo.coordinates result.hi.coordinates p
            ↔ (Has K self.now.lo.coordinates self.now.hi.coordinates p
            × Has K other.now.lo.coordinates other.now.hi.coordinates p) }
        ensures lo { (d : ℕ) → d < K → coordinate result.lo.coordinates d
            ≡ int_max (coordinate self.now.lo.coordinates d)
            (coordinate other.now.lo.coordinates d) }
        ensures hi { (d : ℕ) → d < K → coordinate result.hi.coordinates d
            ≡ int_min (coordinate self.now.hi.coordinates d)
            (coordinate other.now.hi.coordinates d) }
    {
        let mut lo = self.lo;
        let mut hi = self.hi;
        for d in 0..K {
            lo.set(d, lo.get(d).max(other.lo.get(d)));
            hi.set(d, hi.get(d).min(other.hi.get(d)));
        }
        KBox { lo, hi }
    }
}
