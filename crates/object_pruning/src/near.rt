//! How near an object and another one are where a condition of a row is refuted that names both. It
//! tells at once that a whole run is in nobody's way, where most of the pairs are far apart.

ghost use Rattle.std.specs.Prelude.{◌≡◌, ◌<◌, ◌≤◌, pos, ◌+ℤ◌, ◌≤ℤ◌, length, IfSome, IsTrue};
ghost use Rattle.object_pruning.specs.Limits.{IsAtLeast, IsInReach, IsWithinReach};

use geo_base::{Interval, MAX_DIMS, Point};
use geo_conditions::{ObjId, State};
use indexical::Nearness;

/// The limit of the numbers of a nearness; the ends of intervals are far below it.
const LIMIT: i64 = 1_000_000_000_000;

/// How near an object and another one are where a condition is refuted: in each of the first `dims`
/// dimensions the other one ends less than `ahead` behind the object's start, and the object less
/// than `behind` behind that of the other one.
#[derive(Clone, Copy)]
pub struct Near {
    pub dims: usize,
    pub ahead: Point<MAX_DIMS>,
    pub behind: Point<MAX_DIMS>,
    ghost small: { IsWithinReach ahead.coordinates × IsWithinReach behind.coordinates },
}

// The greater of two numbers, where it is within the limit.
fn greater(a: i64, b: i64) -> Option<i64>
    requires { IsInReach a }
    ensures { IfSome result (λ m. IsInReach m × (a ≤ℤ m) × (b ≤ℤ m)) }
{
    let greater = a.max(b);
    if greater <= LIMIT {
        Some(greater)
    } else {
        None
    }
}

// In each dimension the greater coordinate of two points, where all are within the limit.
fn wider_point<const K: usize>(p: &Point<MAX_DIMS>, q: &Point<K>) -> Option<Point<MAX_DIMS>>
    requires k { K ≤ MAX_DIMS }
    requires small { IsWithinReach p.now.coordinates }
    ensures small { IfSome result (λ r. IsWithinReach r.coordinates) }
    ensures first { IfSome result (λ r. IsAtLeast K p.now.coordinates r.coordinates) }
    ensures second { IfSome result (λ r. IsAtLeast K q.now.coordinates r.coordinates) }
{
    let mut wider = *p;
    for d in 0..K {
        let coordinate = greater(wider.get(d), q.get(d))?;
        wider.set(d, coordinate);
    }
    Some(wider)
}

impl Near {
    ghost use Rattle.object_pruning.specs.Near.{IsIdle, IsWider};

    /// That of no condition: nothing is so near.
    pub fn nowhere(dims: usize) -> Near
        ensures { result.dims ≡ dims }
    {
        Near {
            dims,
            ahead: Point::filled(-LIMIT),
            behind: Point::filled(-LIMIT),
        }
    }

    /// The one that holds where this one or the other one does.
    pub fn wider<const K: usize>(&self, other: &Nearness<K>) -> Option<Near>
        requires k { K ≤ MAX_DIMS }
        requires dims { self.now.dims ≡ K }
        ensures own { IfSome result (IsWider self.now) }
        ensures ahead { IfSome result (λ n.
            IsAtLeast K other.now.ahead.coordinates n.ahead.coordinates) }
        ensures behind { IfSome result (λ n.
            IsAtLeast K other.now.behind.coordinates n.behind.coordinates) }
    {
        let ahead = wider_point(&self.ahead, &other.ahead)?;
        let behind = wider_point(&self.behind, &other.behind)?;
        Some(Near {
            dims: self.dims,
            ahead,
            behind,
        })
    }

    /// Whether the object, as the state has it, leaves the other object of each pair free: in some
    /// dimension its interval is too long for that one to be so near wherever the object is.
    pub fn is_idle<const K: usize>(&self, s: &State<K>, o: ObjId) -> bool
        requires k { K ≤ MAX_DIMS }
        requires object { o.0 < length s.now }
        ensures { IsTrue result → IsIdle s.now o.0 self.now }
    {
        if self.dims != K {
            return false;
        }
        for d in 0..K {
            if is_longer(s.interval(o, d), self.ahead.get(d), self.behind.get(d)) {
                return true;
            }
        }
        false
    }
}

// Whether one number is at most another one.
fn at_most(a: i128, b: i128) -> bool
    ensures { IsTrue result → a ≤ℤ b }
{
    a <= b
}

// Whether what a length leads to from the start of the interval is at most its end.
fn has_length(held: Interval, length: i64) -> bool
    ensures { IsTrue result → (held.lo +ℤ length) ≤ℤ held.hi }
{
    at_most(
        i128::from(held.lo) + i128::from(length),
        i128::from(held.hi),
    )
}

// Whether no number is near the interval, for its length: less than `behind` behind its start, with
// its end less than `ahead` behind the number.
fn is_longer(held: Interval, ahead: i64, behind: i64) -> bool
    requires { IsInReach ahead × IsInReach behind }
    ensures { IsTrue result → (held.lo +ℤ ahead +ℤ behind) ≤ℤ (held.hi +ℤ pos 1) }
{
    has_length(held, ahead + behind - 1)
}
