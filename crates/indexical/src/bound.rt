//! A condition that keeps one coordinate of an object, where it has a place, on one side of a number,
//! as `within` makes them, or out of a hole between two numbers, as ranges of several pieces do.

ghost use Rattle.std.specs.Prelude.{None, Some, false, ◌≡◌, ◌≢◌, ◌↔◌, ℕ, ◌^◌, ◌-◌, ◌-ℤ◌, ◌<◌, ◌≤◌, ◌≤ℤ◌, ◌<ℤ◌, true, List, ℤ, pos, negsuc, IfNone, IfSome, IsTrue, is_some};
ghost use Rattle.std.specs.Int.{int_min, int_max};
ghost use Rattle.std.specs.Option.{ForSome};
ghost use Rattle.geo_base.specs.Boxes.{coordinate, Has};
ghost use Rattle.geo_conditions.specs.Reach.{is_only, only};

use geo_base::{KBox, Point};
use geo_conditions::ObjId;

/// The condition that an object has another place than the one that is asked for, if there is one,
/// or keeps its coordinate in a dimension on one side of a number, or out of a hole.
#[derive(Clone, Copy)]
pub struct BoundIndexical<const K: usize> {
    object: ObjId,
    asked: Option<u8>,
    dimension: usize,
    // whether the coordinate has to be at least the constant; else its sum with the constant is at most 0
    least: bool,
    constant: i64,
    // of a hole, the number from which on the coordinate is on the right side again
    until: Option<i64>,
    ghost inside: { dimension < K },
    ghost small: { (negsuc (10 ^ 14 - 1) ≤ℤ constant) × (constant ≤ℤ pos (10 ^ 14)) },
    ghost near: { ForSome until (λ v. (negsuc (10 ^ 14 - 1) ≤ℤ v) × (v ≤ℤ pos (10 ^ 14))) },
}

/// The part of the region whose coordinate in a dimension is at most a number, if there is one.
#[inline(always)]
fn at_most<const K: usize>(region: &KBox<K>, d: usize, last: i64) -> Option<KBox<K>>
    requires { d < K }
    ensures none { IfNone result (last <ℤ coordinate region.now.lo.coordinates d) }
    ensures some { IfSome result (λ r. coordinate region.now.lo.coordinates d ≤ℤ last) }
    ensures lo { IfSome result (λ r. r.lo ≡ region.now.lo) }
    ensures hi { IfSome result (λ r. coordinate r.hi.coordinates d
        ≡ int_min (coordinate region.now.hi.coordinates d) last) }
    ensures others { IfSome result (λ r. (e : ℕ) → e ≢ d
        → coordinate r.hi.coordinates e ≡ coordinate region.now.hi.coordinates e) }
{
    if last < region.lo.get(d) {
        return None;
    }
    let mut hi = region.hi;
    hi.set(d, region.hi.get(d).min(last));
    Some(KBox::new(region.lo, hi))
}

/// The part of the region whose coordinate in a dimension is at least a number, if there is one.
#[inline(always)]
fn at_least<const K: usize>(region: &KBox<K>, d: usize, first: i64) -> Option<KBox<K>>
    requires { d < K }
    ensures none { IfNone result (coordinate region.now.hi.coordinates d <ℤ first) }
    ensures some { IfSome result (λ r. first ≤ℤ coordinate region.now.hi.coordinates d) }
    ensures hi { IfSome result (λ r. r.hi ≡ region.now.hi) }
    ensures lo { IfSome result (λ r. coordinate r.lo.coordinates d
        ≡ int_max (coordinate region.now.lo.coordinates d) first) }
    ensures others { IfSome result (λ r. (e : ℕ) → e ≢ d
        → coordinate r.lo.coordinates e ≡ coordinate region.now.lo.coordinates e) }
{
    if region.hi.get(d) < first {
        return None;
    }
    let mut lo = region.lo;
    lo.set(d, region.lo.get(d).max(first));
    Some(KBox::new(lo, region.hi))
}

/// Whether an object that is put at that place has the one that is asked for, if one is.
#[inline(always)]
fn has_asked(asked: Option<u8>, place: u8) -> bool
    ensures { IsTrue result ↔ ForSome asked (λ p. is_only (only place) p ≡ true) }
{
    match asked {
        Some(p) => place != 0 && place == p,
        None => true,
    }
}

/// The number before n.
#[inline(always)]
fn just_before(n: i64) -> i64
    requires { (negsuc (10 ^ 14 - 1) ≤ℤ n) × (n ≤ℤ pos (10 ^ 14)) }
    ensures { result ≡ n -ℤ pos 1 }
{
    n - 1
}

/// Whether v is below `until`, where there is such a number.
#[inline(always)]
fn is_before(until: Option<i64>, v: i64) -> bool
    ensures { IsTrue result ↔ IfSome until (λ n. v <ℤ n) }
{
    match until {
        Some(n) => v < n,
        None => true,
    }
}

impl<const K: usize> BoundIndexical<K> {
    ghost use Rattle.std.specs.Prelude.{◌≡◌, ◌==◌, ◌↔◌, List, ℤ, IfNone, IfSome, IsTrue, None, Some, true, false};
    ghost use Rattle.geo_base.specs.Boxes.{Has, IsUncrossed};
    ghost use Rattle.indexical.specs.Bound.{IsPast, PassesAt, IsSidePart};
    ghost use Rattle.indexical.specs.Names.{IsFirstBefore};

    /// The bound on that coordinate of an object, where it has the place that is asked for, if one is.
    /// The constant lies within -10^14 to 10^14.
    pub fn new(
        object: ObjId,
        asked: Option<u8>,
        dimension: usize,
        least: bool,
        constant: i64,
    ) -> BoundIndexical<K>
        requires dimension { dimension < K }
        requires constant { (negsuc (10 ^ 14 - 1) ≤ℤ constant) × (constant ≤ℤ pos (10 ^ 14)) }
        ensures object { result.object ≡ object }
        ensures asked { result.asked ≡ asked }
        ensures dimension { result.dimension ≡ dimension }
        ensures least { result.least ≡ least }
        ensures constant { result.constant ≡ constant }
        ensures until { result.until ≡ None }
    {
        BoundIndexical {
            object,
            asked,
            dimension,
            least,
            constant,
            until: None,
        }
    }

    /// The hole between the greatest number that this bound allows and the least that `lower` allows,
    /// where both are on one coordinate.
    pub fn between(&self, lower: &BoundIndexical<K>) -> Option<BoundIndexical<K>>
        ensures object { IfSome result (λ b. (b.object ≡ self.now.object)
            × (b.object ≡ lower.now.object)) }
        ensures asked { IfSome result (λ b. b.asked ≡ self.now.asked) }
        ensures dimension { IfSome result (λ b. (b.dimension ≡ self.now.dimension)
            × (b.dimension ≡ lower.now.dimension)) }
        ensures least { IfSome result (λ b. (b.least ≡ false) × (self.now.least ≡ false)
            × (lower.now.least ≡ true)) }
        ensures constant { IfSome result (λ b. b.constant ≡ self.now.constant) }
        ensures until { IfSome result (λ b. b.until ≡ Some lower.now.constant) }
    {
        if self.least
            || !lower.least
            || self.object.0 != lower.object.0
            || self.dimension != lower.dimension
        {
            return None;
        }
        Some(BoundIndexical {
            object: self.object,
            asked: self.asked,
            dimension: self.dimension,
            least: false,
            constant: self.constant,
            until: Some(lower.constant),
        })
    }

    /// The object that the condition is on, where it is one of those from `from` on and before `end`.
    pub fn object_within(&self, from: usize, end: usize) -> Option<ObjId>
        ensures { IsFirstBefore (λ o. self.now.object.0 == o) from end result }
    {
        let o = usize::from(self.object.0);
        if from <= o && o < end {
            Some(self.object)
        } else {
            None
        }
    }

    /// Whether the condition is on that object.
    #[inline(always)]
    pub fn is_of(&self, o: ObjId) -> bool
        ensures { IsTrue result ↔ (self.now.object.0 ≡ o.0) }
    {
        self.object.0 == o.0
    }

    // Whether a coordinate is on the wrong side.
    #[inline(always)]
    fn is_past(&self, v: i64) -> bool
        ensures { IsTrue result ↔ IsPast self.now.least self.now.constant v v }
    {
        if self.least {
            v < self.constant
        } else {
            -self.constant < v
        }
    }

    /// Whether the condition is refuted with its object at that place and point.
    #[inline(always)]
    pub fn is_broken_at(&self, place: u8, c: &Point<K>) -> bool
        ensures { IsTrue result ↔ PassesAt self.now place c.now.coordinates c.now.coordinates }
    {
        if !has_asked(self.asked, place) {
            return false;
        }
        let v = c.get(self.dimension);
        self.is_past(v) && is_before(self.until, v)
    }

    /// The part of the region in which the condition is refuted with its object at that place, if
    /// there is one.
    pub fn broken_part(&self, place: u8, region: &KBox<K>) -> Option<KBox<K>>
        ensures none { IfNone result ((q : List ℤ)
            → Has K region.now.lo.coordinates region.now.hi.coordinates q
            → PassesAt self.now place q q → ⊥) }
        ensures within { IfSome result (λ r.
            Has K region.now.lo.coordinates region.now.hi.coordinates r.lo.coordinates
            × Has K region.now.lo.coordinates region.now.hi.coordinates r.hi.coordinates) }
        ensures passes { IfSome result (λ r.
            PassesAt self.now place r.lo.coordinates r.hi.coordinates) }
        ensures whole { IfSome result (λ r. (q : List ℤ)
            → Has K region.now.lo.coordinates region.now.hi.coordinates q
            → PassesAt self.now place q q → Has K r.lo.coordinates r.hi.coordinates q) }
    {
        if !has_asked(self.asked, place) || region.is_empty() {
            return None;
        }
        let part = self.side_part(region)?;
        match self.until {
            Some(first) => at_most(&part, self.dimension, just_before(first)),
            None => Some(part),
        }
    }

    // The part of a region with points in which the coordinate is on the wrong side.
    #[inline(always)]
    fn side_part(&self, region: &KBox<K>) -> Option<KBox<K>>
        requires { IsUncrossed K region.now.lo.coordinates region.now.hi.coordinates }
        ensures { IsSidePart self.now region.now result }
    {
        if self.least {
            at_most(region, self.dimension, self.constant - 1)
        } else {
            at_least(region, self.dimension, 1 - self.constant)
        }
    }
}
