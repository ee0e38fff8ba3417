//! The least value of a term, and of a form with an object at a point.

ghost use Rattle.std.specs.Prelude.{◌≡◌, ℕ, ◌+◌, ◌*◌, ◌<◌, ◌≤◌, length, ◌*ℤ◌};
ghost use Rattle.std.specs.List.{All};
ghost use Rattle.geo_base.specs.declared.TheConstants.{MAX_DIMS};
ghost use Rattle.geo_conditions.specs.declared.object.TheConstants.{MAX_OBJECTS};
ghost use Rattle.geo_conditions.specs.Conditions.{least_value, least_term};
ghost use Rattle.geo_conditions.specs.Form.{IsBounded};
ghost use Rattle.geo_conditions.specs.Reach.{Exists, high, just, low, with_at};
ghost use Rattle.geo_conditions.specs.Sums.{InSum};

use geo_base::{MAX_DIMS, Point};
use geo_conditions::{Form, ObjId, State, Term};

/// The low end of a coordinate.
#[inline(always)]
fn low_of<const K: usize>(s: &State<K>, u: ObjId, d: usize) -> i64
    requires k { K ≤ MAX_DIMS }
    requires object { u.0 < length s.now }
    requires dimension { d < K }
    ensures { result ≡ low s.now u.0 d }
{
    s.interval(u, d).lo
}

/// The high end of a coordinate.
#[inline(always)]
fn high_of<const K: usize>(s: &State<K>, u: ObjId, d: usize) -> i64
    requires k { K ≤ MAX_DIMS }
    requires object { u.0 < length s.now }
    requires dimension { d < K }
    ensures { result ≡ high s.now u.0 d }
{
    s.interval(u, d).hi
}

/// The low end of a coordinate of u, with o at the point.
#[inline(always)]
fn low_with<const K: usize>(s: &State<K>, o: ObjId, c: &Point<K>, u: ObjId, d: usize) -> i64
    requires k { K ≤ MAX_DIMS }
    requires object { o.0 < length s.now }
    requires other { u.0 < length s.now }
    requires dimension { d < K }
    ensures { (place : ℕ)
        → result ≡ low (with_at s.now o.0 place (just c.now.coordinates)) u.0 d }
{
    if u.0 == o.0 {
        c.get(d)
    } else {
        low_of(s, u, d)
    }
}

/// The high end of a coordinate of u, with o at the point.
#[inline(always)]
fn high_with<const K: usize>(s: &State<K>, o: ObjId, c: &Point<K>, u: ObjId, d: usize) -> i64
    requires k { K ≤ MAX_DIMS }
    requires object { o.0 < length s.now }
    requires other { u.0 < length s.now }
    requires dimension { d < K }
    ensures { (place : ℕ)
        → result ≡ high (with_at s.now o.0 place (just c.now.coordinates)) u.0 d }
{
    if u.0 == o.0 {
        c.get(d)
    } else {
        high_of(s, u, d)
    }
}

/// The product of a factor and an end.
#[inline(always)]
pub fn product(factor: i64, end: i64) -> i128
    ensures { result ≡ factor *ℤ end }
{
    factor as i128 * end as i128
}

/// The least value of a term.
#[inline(always)]
pub fn least_term_of<const K: usize>(term: &Term, s: &State<K>) -> i128
    requires k { K ≤ MAX_DIMS }
    requires bounded { IsBounded term.now.factor }
    requires exists { Exists s.now term.now.object.0 term.now.dimension }
    ensures value { result ≡ least_term s.now term.now }
    ensures bound { InSum 1 result }
{
    let _objects = s.objects();
    if term.factor < 0 {
        product(term.factor, high_of(s, term.object, term.dimension))
    } else {
        product(term.factor, low_of(s, term.object, term.dimension))
    }
}

/// The least value of a term, with the object at the point.
#[inline(always)]
fn least_term_with<const K: usize>(term: &Term, s: &State<K>, o: ObjId, c: &Point<K>) -> i128
    requires k { K ≤ MAX_DIMS }
    requires bounded { IsBounded term.now.factor }
    requires exists { Exists s.now term.now.object.0 term.now.dimension }
    requires object { o.0 < length s.now }
    ensures value { (place : ℕ)
        → result ≡ least_term (with_at s.now o.0 place (just c.now.coordinates)) term.now }
    ensures bound { InSum 1 result }
{
    let _objects = s.objects();
    if term.factor < 0 {
        product(term.factor, high_with(s, o, c, term.object, term.dimension))
    } else {
        product(term.factor, low_with(s, o, c, term.object, term.dimension))
    }
}

/// The least value of the form on the state with the object at the point.
#[inline(always)]
pub fn least_value_with<const K: usize>(f: &Form, s: &State<K>, o: ObjId, c: &Point<K>) -> i128
    requires k { K ≤ MAX_DIMS }
    requires fits { All (λ a. Exists s.now a.object.0 a.dimension) f.now.terms }
    requires object { o.0 < length s.now }
    ensures { (place : ℕ)
        → result ≡ least_value f.now (with_at s.now o.0 place (just c.now.coordinates)) }
{
    // The state has few coordinates, and a form names each of them at most once.
    let _objects = s.objects();
    let mut sum = f.constant() as i128;
    for term in f.terms() {
        sum += least_term_with(term, s, o, c);
    }
    sum
}

/// The least value of the form on the state.
pub fn least_value_of<const K: usize>(f: &Form, s: &State<K>) -> i128
    requires k { K ≤ MAX_DIMS }
    requires fits { All (λ a. Exists s.now a.object.0 a.dimension) f.now.terms }
    ensures value { result ≡ least_value f.now s.now }
    ensures bound { InSum (MAX_OBJECTS * MAX_DIMS + 1) result }
{
    // The state has few coordinates, and a form names each of them at most once.
    let _objects = s.objects();
    let mut sum = f.constant() as i128;
    for term in f.terms() {
        sum += least_term_of(term, s);
    }
    sum
}
