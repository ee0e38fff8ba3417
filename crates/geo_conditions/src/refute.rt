//! Whether a condition is refuted on a state: no tuple inside the state makes it true, as far as
//! each sum and each count tell by itself. A sum is looked at by its least value.

ghost use Rattle.std.specs.Prelude.{◌≡◌, ◌<◌, ◌≤◌, length, not, true, IsTrue, ◌*ℤ◌};
ghost use Rattle.std.specs.List.{All};
ghost use Rattle.geo_conditions.specs.Conditions.{possible, least_value, least_term, FitsIn};
ghost use Rattle.geo_conditions.specs.Form.{IsBounded};
ghost use Rattle.geo_conditions.specs.Reach.{has, reach, low, high, with_at, is_only, Exists, put_on};
ghost use Rattle.geo_conditions.specs.Regions.{region_of};
ghost use Rattle.geo_conditions.specs.Puts.{put_of};
ghost use Rattle.geo_conditions.specs.Sums.{InSum};

use crate::cond::{Cond, Conds};
use crate::form::{Form, Term};
use crate::object::ObjId;
use crate::state::State;
use geo_base::{KBox, MAX_DIMS};

/// From so many parts of a condition on, the last one is asked first.
const MANY_PARTS: usize = 8;

/// An object put at a place in a box.
#[derive(Clone, Copy)]
struct Put<const K: usize> {
    object: ObjId,
    place: u8,
    region: KBox<K>,
}

fn low_in<const K: usize>(s: &State<K>, put: &Option<Put<K>>, o: ObjId, d: usize) -> i64
    requires k { K ≤ MAX_DIMS }
    requires object { o.0 < length s.now }
    requires dimension { d < K }
    ensures { result ≡ low (put_on (put_of put.now) s.now) o.0 d }
{
    match put {
        Some(p) if p.object.0 == o.0 => p.region.lo.get(d),
        _ => s.interval(o, d).lo,
    }
}

fn high_in<const K: usize>(s: &State<K>, put: &Option<Put<K>>, o: ObjId, d: usize) -> i64
    requires k { K ≤ MAX_DIMS }
    requires object { o.0 < length s.now }
    requires dimension { d < K }
    ensures { result ≡ high (put_on (put_of put.now) s.now) o.0 d }
{
    match put {
        Some(p) if p.object.0 == o.0 => p.region.hi.get(d),
        _ => s.interval(o, d).hi,
    }
}

fn has_in<const K: usize>(s: &State<K>, put: &Option<Put<K>>, o: ObjId, place: u8) -> bool
    requires k { K ≤ MAX_DIMS }
    requires object { o.0 < length s.now }
    ensures { result ≡ has (put_on (put_of put.now) s.now) o.0 place }
{
    match put {
        Some(p) if p.object.0 == o.0 => p.place != 0 && p.place == place,
        _ => s.has_shape(o, place),
    }
}

fn is_only_in<const K: usize>(s: &State<K>, put: &Option<Put<K>>, o: ObjId, place: u8) -> bool
    requires k { K ≤ MAX_DIMS }
    requires object { o.0 < length s.now }
    ensures { result ≡ is_only (reach (put_on (put_of put.now) s.now) o.0).places place }
{
    match put {
        Some(p) if p.object.0 == o.0 => p.place != 0 && p.place == place,
        _ => s.is_only_shape(o, place),
    }
}

fn product(factor: i64, end: i64) -> i128
    ensures { result ≡ factor *ℤ end }
{
    factor as i128 * end as i128
}

fn least_term<const K: usize>(term: &Term, s: &State<K>, put: &Option<Put<K>>) -> i128
    requires k { K ≤ MAX_DIMS }
    requires bounded { IsBounded term.now.factor }
    requires exists { Exists s.now term.now.object.0 term.now.dimension }
    ensures value { result ≡ least_term (put_on (put_of put.now) s.now) term.now }
    ensures bound { InSum 1 result }
{
    let _objects = s.objects();
    if term.factor < 0 {
        product(term.factor, high_in(s, put, term.object, term.dimension))
    } else {
        product(term.factor, low_in(s, put, term.object, term.dimension))
    }
}

fn least_value<const K: usize>(f: &Form, s: &State<K>, put: &Option<Put<K>>) -> i128
    requires k { K ≤ MAX_DIMS }
    requires fits { All (λ a. Exists s.now a.object.0 a.dimension) f.now.terms }
    ensures { result ≡ least_value f.now (put_on (put_of put.now) s.now) }
{
    // The state has few coordinates, and a form names each of them at most once.
    let _objects = s.objects();
    let mut sum = f.constant() as i128;
    for term in f.terms() {
        sum += least_term(term, s, put);
    }
    sum
}

// Whether one of the conditions is enough, and the first one says that an object has another shape than some, which is possible.
// Most conditions on an object of several shapes begin so.
#[inline(always)]
fn is_of_other_shape<const K: usize>(
    n: i64,
    children: &Conds,
    s: &State<K>,
    put: &Option<Put<K>>,
) -> bool
    requires k { K ≤ MAX_DIMS }
    requires fits { FitsIn (Cond.AtLeast n children.now) s.now }
    ensures { IsTrue result
        → possible (Cond.AtLeast n children.now) (put_on (put_of put.now) s.now) ≡ true }
{
    let parts = children.as_slice();
    if n > 1 || parts.is_empty() {
        return false;
    }
    match &parts[0] {
        Cond::NotShape(o, place) => !is_only_in(s, put, *o, *place),
        _ => false,
    }
}

// Whether enough of the conditions are possible.
#[cycle(possible)]
fn are_enough<const K: usize>(n: i64, children: &Conds, s: &State<K>, put: &Option<Put<K>>) -> bool
    requires k { K ≤ MAX_DIMS }
    requires fits { FitsIn (Cond.AtLeast n children.now) s.now }
    ensures { result ≡ possible (Cond.AtLeast n children.now) (put_on (put_of put.now) s.now) }
{
    let least = i128::from(n);
    let mut sure: usize = 0;
    let mut open = children.len();
    for child in children.as_slice() {
        if possible_in(child, s, put) {
            sure += 1;
            if least <= sure as i128 {
                return true;
            }
        } else {
            open -= 1;
            if (open as i128) < least {
                return false;
            }
        }
    }
    least <= sure as i128
}

// The same of many conditions, from the last one on. Objects are fixed in their order for the most part, so that what is said of the
// last ones is possible most often.
#[cycle(possible)]
fn are_enough_of_many<const K: usize>(
    n: i64,
    children: &Conds,
    s: &State<K>,
    put: &Option<Put<K>>,
) -> bool
    requires k { K ≤ MAX_DIMS }
    requires fits { FitsIn (Cond.AtLeast n children.now) s.now }
    ensures { result ≡ possible (Cond.AtLeast n children.now) (put_on (put_of put.now) s.now) }
{
    let least = i128::from(n);
    let parts = children.as_slice();
    let mut sure: usize = 0;
    for i in (0..parts.len()).rev() {
        if possible_in(&parts[i], s, put) {
            sure += 1;
            if least <= sure as i128 {
                return true;
            }
        } else if ((i + sure) as i128) < least {
            return false;
        }
    }
    least <= sure as i128
}

// Whether a condition is possible. It is inlined where parts are asked, so that a literal takes no call.
#[cycle(possible)]
#[inline(always)]
fn possible_in<const K: usize>(c: &Cond, s: &State<K>, put: &Option<Put<K>>) -> bool
    requires k { K ≤ MAX_DIMS }
    requires fits { FitsIn c.now s.now }
    ensures { result ≡ possible c.now (put_on (put_of put.now) s.now) }
{
    match c {
        Cond::Lin(f) => least_value(f, s, put) <= 0,
        Cond::Shape(o, place) => has_in(s, put, *o, *place),
        Cond::NotShape(o, place) => !is_only_in(s, put, *o, *place),
        Cond::AtLeast(n, children) => {
            if is_of_other_shape(*n, children, s, put) {
                true
            } else if children.len() < MANY_PARTS {
                are_enough(*n, children, s, put)
            } else {
                are_enough_of_many(*n, children, s, put)
            }
        }
    }
}

/// The least value of the form on the state with the object at that place in that box.
pub fn least_value_at<const K: usize>(
    f: &Form,
    s: &State<K>,
    o: ObjId,
    place: u8,
    b: &KBox<K>,
) -> i128
    requires k { K ≤ MAX_DIMS }
    requires fits { All (λ a. Exists s.now a.object.0 a.dimension) f.now.terms }
    requires object { o.0 < length s.now }
    ensures { result ≡ least_value f.now (with_at s.now o.0 place (region_of b.now)) }
{
    least_value(
        f,
        s,
        &Some(Put {
            object: o,
            place,
            region: *b,
        }),
    )
}

/// Whether the condition is refuted on the state.
pub fn refuted<const K: usize>(c: &Cond, s: &State<K>) -> bool
    requires k { K ≤ MAX_DIMS }
    requires fits { FitsIn c.now s.now }
    ensures { result ≡ not (possible c.now s.now) }
{
    !possible_in(c, s, &None)
}

/// Whether the condition is refuted on the state with the object at that place in that box.
pub fn refuted_at<const K: usize>(c: &Cond, s: &State<K>, o: ObjId, place: u8, b: &KBox<K>) -> bool
    requires k { K ≤ MAX_DIMS }
    requires fits { FitsIn c.now s.now }
    requires object { o.0 < length s.now }
    ensures { result ≡ not (possible c.now (with_at s.now o.0 place (region_of b.now))) }
{
    !possible_in(
        c,
        s,
        &Some(Put {
            object: o,
            place,
            region: *b,
        }),
    )
}
