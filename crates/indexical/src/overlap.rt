//! Where two boxes must overlap: the origins of one of them, beside the origins of the other.

ghost use Rattle.std.specs.Prelude.{◌≡◌, ◌≢◌, ◌↔◌, ℕ, ◌^◌, ◌<◌, ◌≤◌, IsTrue, true, length, pos, neg_ℤ, ◌*◌, List, ℤ, ◌+ℤ◌, ◌-ℤ◌, ◌≤ℤ◌, ◌<ℤ◌, IfNone, IfSome, MatchOption};
ghost use Rattle.std.specs.Int.{int_min, int_max};
ghost use Rattle.geo_base.specs.Boxes.{coordinate, Has};
ghost use Rattle.geo_conditions.specs.Reach.{reach, is_only, only, with_at, just};
ghost use Rattle.geo_conditions.specs.Regions.{region_of};
ghost use Rattle.indexical.specs.Apart.{gap, AreGaps, first, last, Clashes, MustOverlap, NeedNotOverlap, IsOverlapPart};

use crate::placed::PlacedBox;
use geo_base::{Interval, KBox, MAX_DIMS, Point};
use geo_conditions::{ObjId, State};

/// How far before b's origin a's has to lie, in the dimension d, for a to end where b begins.
#[inline(always)]
fn gap<const K: usize>(a: &PlacedBox<K>, b: &PlacedBox<K>, d: usize) -> i64
    requires { d < K }
    ensures { result ≡ gap a.now b.now d }
{
    a.offset().get(d) + a.size().get(d) - b.offset().get(d)
}

/// How far before b's origin a's has to lie, in each dimension, for a to end where b begins.
pub fn gaps<const K: usize>(a: &PlacedBox<K>, b: &PlacedBox<K>) -> Point<K>
    ensures { AreGaps a.now b.now result.coordinates }
{
    let mut gaps = Point::filled(0);
    for d in 0..K {
        gaps.set(d, gap(a, b, d));
    }
    gaps
}

/// Whether one number is below another one.
#[inline(always)]
fn is_below(a: i128, b: i128) -> bool
    ensures { IsTrue result ↔ (a <ℤ b) }
{
    a < b
}

/// Whether one number is at most another one.
#[inline(always)]
fn at_most(a: i128, b: i128) -> bool
    ensures { IsTrue result ↔ (a ≤ℤ b) }
{
    a <= b
}

/// Whether an end lies before what a length leads to from a start.
#[inline(always)]
fn is_before(end: i64, start: i64, length: i64) -> bool
    ensures { IsTrue result ↔ (end <ℤ (start +ℤ length)) }
{
    is_below(i128::from(end), i128::from(start) + i128::from(length))
}

/// Whether a and b overlap in each dimension wherever a's origin lies between two corners and b's is held.
#[inline(always)]
fn clashes<const K: usize>(
    a: &PlacedBox<K>,
    b: &PlacedBox<K>,
    ahead: &Point<K>,
    behind: &Point<K>,
    s: &State<K>,
    lo: &Point<K>,
    hi: &Point<K>,
) -> bool
    requires k { K ≤ MAX_DIMS }
    requires object { b.now.object.0 < length s.now }
    requires ahead { AreGaps a.now b.now ahead.now.coordinates }
    requires behind { AreGaps b.now a.now behind.now.coordinates }
    ensures { IsTrue result ↔ Clashes a.now b.now (reach s.now b.now.object.0).region
        lo.now.coordinates hi.now.coordinates }
{
    let other = b.object();
    for d in 0..K {
        let held = s.interval(other, d);
        let low = lo.get(d);
        let high = hi.get(d);
        let before = ahead.get(d);
        let after = behind.get(d);
        if !is_before(held.hi, low, before) {
            return false;
        }
        if !is_before(high, held.lo, after) {
            return false;
        }
    }
    true
}

/// The first coordinate past the start of a gap that ends at that one.
#[inline(always)]
fn first_past(end: i64, gap: i64) -> i128
    ensures { result ≡ end -ℤ gap +ℤ pos 1 }
{
    i128::from(end) - i128::from(gap) + 1
}

/// The last coordinate before the end of a gap that starts at that one.
#[inline(always)]
fn last_before(start: i64, gap: i64) -> i128
    ensures { result ≡ start +ℤ gap -ℤ pos 1 }
{
    i128::from(start) + i128::from(gap) - 1
}

/// The greater of two numbers, at most a third one.
#[inline(always)]
fn later(end: i64, first: i128, most: i64) -> i64
    requires { first ≤ℤ most }
    ensures { result ≡ int_max end first }
{
    i128::from(end).max(first) as i64
}

/// The lesser of two numbers, at least a third one.
#[inline(always)]
fn sooner(end: i64, last: i128, least: i64) -> i64
    requires { least ≤ℤ last }
    ensures { result ≡ int_min end last }
{
    i128::from(end).min(last) as i64
}

/// Whether a number between two ends lies between two others too.
#[inline(always)]
fn meets(low: i64, high: i64, first: i128, last: i128) -> bool
    ensures { IsTrue result
        ↔ ((low ≤ℤ high) × (first ≤ℤ high) × (low ≤ℤ last) × (first ≤ℤ last)) }
{
    if !at_most(i128::from(low), i128::from(high)) {
        return false;
    }
    if !at_most(first, i128::from(high)) {
        return false;
    }
    if !at_most(i128::from(low), last) {
        return false;
    }
    at_most(first, last)
}

/// The ends of what lies between two ends and between two other numbers, if there is any.
#[inline(always)]
fn part_between(low: i64, high: i64, first: i128, last: i128) -> Option<(i64, i64)>
    ensures none { IfNone result ((v : ℤ) → low ≤ℤ v → v ≤ℤ high → first ≤ℤ v → v ≤ℤ last → ⊥) }
    ensures lo { IfSome result (λ r. r.0 ≡ int_max low first) }
    ensures hi { IfSome result (λ r. r.1 ≡ int_min high last) }
    ensures some { IfSome result (λ r. r.0 ≤ℤ r.1) }
{
    if !meets(low, high, first, last) {
        return None;
    }
    let lo = later(low, first, high);
    let hi = sooner(high, last, low);
    Some((lo, hi))
}

/// The part of the region in which a and b overlap in each dimension wherever b's origin is held, if there is one.
fn clash_part<const K: usize>(
    a: &PlacedBox<K>,
    b: &PlacedBox<K>,
    ahead: &Point<K>,
    behind: &Point<K>,
    s: &State<K>,
    region: &KBox<K>,
) -> Option<KBox<K>>
    requires k { K ≤ MAX_DIMS }
    requires object { b.now.object.0 < length s.now }
    requires ahead { AreGaps a.now b.now ahead.now.coordinates }
    requires behind { AreGaps b.now a.now behind.now.coordinates }
    ensures none { IfNone result ((q : List ℤ)
        → Has K region.now.lo.coordinates region.now.hi.coordinates q
        → Clashes a.now b.now (reach s.now b.now.object.0).region q q → ⊥) }
    ensures lo { IfSome result (λ r. (d : ℕ) → d < K → coordinate r.lo.coordinates d
        ≡ int_max (coordinate region.now.lo.coordinates d)
        (first a.now b.now (reach s.now b.now.object.0).region d)) }
    ensures hi { IfSome result (λ r. (d : ℕ) → d < K → coordinate r.hi.coordinates d
        ≡ int_min (coordinate region.now.hi.coordinates d)
        (last a.now b.now (reach s.now b.now.object.0).region d)) }
    ensures some { IfSome result (λ r. (d : ℕ) → d < K
        → coordinate r.lo.coordinates d ≤ℤ coordinate r.hi.coordinates d) }
{
    let other = b.object();
    let mut lo = region.lo;
    let mut hi = region.hi;
    for d in 0..K {
        let held = s.interval(other, d);
        let low = lo.get(d);
        let high = hi.get(d);
        let before = ahead.get(d);
        let after = behind.get(d);
        let first = first_past(held.hi, before);
        let last = last_before(held.lo, after);
        match part_between(low, high, first, last) {
            None => return None,
            Some((from, to)) => {
                lo.set(d, from);
                hi.set(d, to);
            }
        }
    }
    Some(KBox::new(lo, hi))
}

/// Whether an object that is put at that place has the box's shape, where that is asked.
#[inline(always)]
fn stands<const K: usize>(a: &PlacedBox<K>, place: u8) -> bool
    ensures { IsTrue result ↔ (a.now.leaf ≡ true → is_only (only place) a.now.place ≡ true) }
{
    !a.leaf() || (place != 0 && place == a.place())
}

/// Whether the box's object has the box's shape for certain, where that is asked.
#[inline(always)]
fn has_shape<const K: usize>(b: &PlacedBox<K>, s: &State<K>) -> bool
    requires k { K ≤ MAX_DIMS }
    requires object { b.now.object.0 < length s.now }
    ensures { IsTrue result ↔ (b.now.leaf ≡ true
        → is_only (reach s.now b.now.object.0).places b.now.place ≡ true) }
{
    !b.leaf() || s.is_only_shape(b.object(), b.place())
}

/// Whether an origin of a box is left at which it overlaps another one wherever that one's origin is held.
#[inline(always)]
fn clashes_somewhere(held: Interval, before: i64, after: i64) -> bool
    ensures { IsTrue result ↔ ((held.hi -ℤ before +ℤ pos 1) ≤ℤ (held.lo +ℤ after -ℤ pos 1)) }
{
    at_most(first_past(held.hi, before), last_before(held.lo, after))
}

/// Whether b covers an origin of a: b's object has b's shape for certain, where that is asked, and in each dimension an origin
/// of a is left at which they overlap wherever b's object is. Else the boxes need not overlap wherever a's object is put.
pub fn covers_some<const K: usize>(
    a: &PlacedBox<K>,
    b: &PlacedBox<K>,
    ahead: &Point<K>,
    behind: &Point<K>,
    s: &State<K>,
) -> bool
    requires k { K ≤ MAX_DIMS }
    requires first { a.now.object.0 < length s.now }
    requires second { b.now.object.0 < length s.now }
    requires ahead { AreGaps a.now b.now ahead.now.coordinates }
    requires behind { AreGaps b.now a.now behind.now.coordinates }
    requires objects { b.now.object.0 ≢ a.now.object.0 }
    ensures { (place : ℕ) (p : List ℤ)
        → MustOverlap a.now b.now (with_at s.now a.now.object.0 place (just p)) → IsTrue result }
{
    if !has_shape(b, s) {
        return false;
    }
    let other = b.object();
    for d in 0..K {
        let held = s.interval(other, d);
        let before = ahead.get(d);
        let after = behind.get(d);
        if !clashes_somewhere(held, before, after) {
            return false;
        }
    }
    true
}

/// Whether the boxes must overlap on the state.
#[inline(never)]
pub fn must_overlap<const K: usize>(
    a: &PlacedBox<K>,
    b: &PlacedBox<K>,
    ahead: &Point<K>,
    behind: &Point<K>,
    s: &State<K>,
) -> bool
    requires k { K ≤ MAX_DIMS }
    requires first { a.now.object.0 < length s.now }
    requires second { b.now.object.0 < length s.now }
    requires ahead { AreGaps a.now b.now ahead.now.coordinates }
    requires behind { AreGaps b.now a.now behind.now.coordinates }
    ensures { IsTrue result ↔ MustOverlap a.now b.now s.now }
{
    if !has_shape(a, s) || !has_shape(b, s) {
        return false;
    }
    let own = s.region(a.object());
    clashes(a, b, ahead, behind, s, &own.lo, &own.hi)
}

/// Whether the boxes must overlap with a's object at that place and point.
#[inline(always)]
pub fn must_overlap_beside<const K: usize>(
    a: &PlacedBox<K>,
    b: &PlacedBox<K>,
    ahead: &Point<K>,
    behind: &Point<K>,
    s: &State<K>,
    place: u8,
    c: &Point<K>,
) -> bool
    requires k { K ≤ MAX_DIMS }
    requires first { a.now.object.0 < length s.now }
    requires second { b.now.object.0 < length s.now }
    requires ahead { AreGaps a.now b.now ahead.now.coordinates }
    requires behind { AreGaps b.now a.now behind.now.coordinates }
    requires objects { b.now.object.0 ≢ a.now.object.0 }
    ensures { IsTrue result ↔ MustOverlap a.now b.now
        (with_at s.now a.now.object.0 place (just c.now.coordinates)) }
{
    if !stands(a, place) || !has_shape(b, s) {
        return false;
    }
    clashes(a, b, ahead, behind, s, c, c)
}

/// The part of the region in which a and b must overlap with a's object at that place, if there is one.
#[inline(always)]
pub fn overlap_beside<const K: usize>(
    a: &PlacedBox<K>,
    b: &PlacedBox<K>,
    ahead: &Point<K>,
    behind: &Point<K>,
    s: &State<K>,
    place: u8,
    region: &KBox<K>,
) -> Option<KBox<K>>
    requires k { K ≤ MAX_DIMS }
    requires first { a.now.object.0 < length s.now }
    requires second { b.now.object.0 < length s.now }
    requires ahead { AreGaps a.now b.now ahead.now.coordinates }
    requires behind { AreGaps b.now a.now behind.now.coordinates }
    requires objects { b.now.object.0 ≢ a.now.object.0 }
    ensures { MatchOption result
        (NeedNotOverlap a.now b.now s.now a.now.object.0 place (region_of region.now))
        (λ r. IsOverlapPart a.now b.now s.now a.now.object.0 place
        (region_of region.now) (region_of r)) }
{
    if !stands(a, place) {
        return None;
    }
    if !has_shape(b, s) {
        return None;
    }
    clash_part(a, b, ahead, behind, s, region)
}
