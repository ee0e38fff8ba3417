//! The two boxes of a condition of the form that two boxes have.

ghost use Rattle.std.specs.Prelude.{◌≡◌, ◌↔◌, ℕ, ◌*◌, ◌^◌, ◌<◌, ◌≤◌, ◌++◌, ◌∷◌, [], List, length, pos, negsuc, IsTrue, IfSome, ◌-◌, ◌≤ℤ◌};
ghost use Rattle.geo_conditions.specs.declared.cond.Cond.{Cond};
ghost use Rattle.geo_conditions.specs.declared.form.Term.{Term};
ghost use Rattle.geo_conditions.specs.Terms.{term_of};
ghost use Rattle.geo_base.specs.Boxes.{coordinate};
ghost use Rattle.geo_base.specs.declared.TheConstants.{MAX_DIMS};
ghost use Rattle.indexical.specs.Limits.{IsWithinLimit};
ghost use Rattle.indexical.specs.Apart.{apart_parts, other_shape, SaysApart};
ghost use Rattle.indexical.specs.TwoBoxes.{lengths_from, spared};

use crate::apart::ApartIndexical;
use crate::placed::PlacedBox;
use geo_base::{MAX_DIMS, Point};
use geo_conditions::{Cond, ObjId, Term};

/// The limit of the numbers of a placed box, and of a bound.
pub const LIMIT: i64 = 100_000_000_000_000;

fn same_term(t: &Term, u: &Term) -> bool
    ensures { IsTrue result ↔ (t.now ≡ u.now) }
{
    t.object.0 == u.object.0 && t.dimension == u.dimension && t.factor == u.factor
}

/// The constant of a form of those two terms, where it is one and the constant is within the limit.
fn constant_of(c: &Cond, first: &Term, second: &Term) -> Option<i64>
    ensures form { IfSome result (λ n.
        c.now ≡ Cond.Lin (record { terms = first.now ∷ second.now ∷ []; constant = n })) }
    ensures limit { IfSome result (λ n. (negsuc (10 ^ 14 - 1) ≤ℤ n) × (n ≤ℤ pos (10 ^ 14))) }
{
    match c {
        Cond::Lin(f) => {
            let terms = f.terms();
            let n = f.constant();
            if terms.len() != 2 || n < -LIMIT || LIMIT < n {
                return None;
            }
            if same_term(&terms[0], first) && same_term(&terms[1], second) {
                Some(n)
            } else {
                None
            }
        }
        _ => None,
    }
}

/// The lengths of both boxes in the dimension d, where the two literals are those of the dimension.
fn lengths_at(first: &Cond, second: &Cond, a: ObjId, b: ObjId, d: usize) -> Option<(i64, i64)>
    ensures form { IfSome result (λ r. (first.now ∷ second.now ∷ []) ≡ (
        Cond.Lin (record {
          terms = term_of (a, d, pos 1) ∷ term_of (b, d, negsuc 0) ∷ [];
          constant = r.0;
        })
        ∷ Cond.Lin (record {
          terms = term_of (a, d, negsuc 0) ∷ term_of (b, d, pos 1) ∷ [];
          constant = r.1;
        })
        ∷ [])) }
    ensures limit { IfSome result (λ r. (negsuc (10 ^ 14 - 1) ≤ℤ r.0) × (r.0 ≤ℤ pos (10 ^ 14))
        × (negsuc (10 ^ 14 - 1) ≤ℤ r.1) × (r.1 ≤ℤ pos (10 ^ 14))) }
{
    let ahead = Term {
        object: a,
        dimension: d,
        factor: 1,
    };
    let behind = Term {
        object: b,
        dimension: d,
        factor: 1,
    };
    let p = constant_of(
        first,
        &ahead,
        &Term {
            factor: -1,
            ..behind
        },
    );
    let q = constant_of(
        second,
        &Term {
            factor: -1,
            ..ahead
        },
        &behind,
    );
    match (p, q) {
        (Some(p), Some(q)) => Some((p, q)),
        _ => None,
    }
}

/// The lengths of both boxes, where the parts are the literals of the K dimensions.
fn lengths_of<const K: usize>(parts: &[Cond], a: ObjId, b: ObjId) -> Option<(Point<K>, Point<K>)>
    requires few { K ≤ MAX_DIMS }
    requires parts { length parts.now ≡ 2 * K }
    ensures form { IfSome result (λ r.
        parts.now ≡ lengths_from a b r.0.coordinates r.1.coordinates 0 K) }
    ensures limit { IfSome result (λ r.
        IsWithinLimit K r.0.coordinates × IsWithinLimit K r.1.coordinates) }
{
    let mut p = Point::filled(0);
    let mut q = Point::filled(0);
    for d in (0..K).rev() {
        match lengths_at(&parts[2 * d], &parts[2 * d + 1], a, b, d) {
            None => return None,
            Some((m, n)) => {
                p.set(d, m);
                q.set(d, n);
            }
        }
    }
    Some((p, q))
}

/// The place of a literal that the object has another shape, if it is one.
pub fn spared_place(c: &Cond, o: ObjId) -> Option<u8>
    ensures { IfSome result (λ p. c.now ≡ Cond.NotShape o p) }
{
    match c {
        Cond::NotShape(u, place) if u.0 == o.0 => Some(*place),
        _ => None,
    }
}

/// The places at which the objects are spared, where the parts are at most one literal of each.
fn spared_places(parts: &[Cond], a: ObjId, b: ObjId) -> Option<(Option<u8>, Option<u8>)>
    ensures { IfSome result (λ r. parts.now ≡ spared a r.0 ++ spared b r.1) }
{
    if parts.is_empty() {
        return Some((None, None));
    }
    let first = spared_place(&parts[0], a);
    if parts.len() == 1 {
        if first.is_some() {
            return Some((first, None));
        }
        let second = spared_place(&parts[0], b);
        if second.is_some() {
            return Some((None, second));
        }
        return None;
    }
    let second = spared_place(&parts[1], b);
    if parts.len() == 2 && first.is_some() && second.is_some() {
        Some((first, second))
    } else {
        None
    }
}

/// The objects of the two terms of a form, the first of them with the lesser number.
fn two_objects(c: &Cond) -> Option<(ObjId, ObjId)>
    ensures { IfSome result (λ r. r.0.0 < r.1.0) }
{
    match c {
        Cond::Lin(f) => {
            let terms = f.terms();
            if terms.len() == 2 && terms[0].object.0 < terms[1].object.0 {
                Some((terms[0].object, terms[1].object))
            } else {
                None
            }
        }
        _ => None,
    }
}

/// The box of that length at the object's origin, of which the object is spared at another place
/// than the one, where there is one.
fn box_at_origin<const K: usize>(o: ObjId, place: Option<u8>, length: Point<K>) -> PlacedBox<K>
    requires { IsWithinLimit K length.coordinates }
    ensures object { result.object ≡ o }
    ensures spared { other_shape result ≡ spared o place }
    ensures origin { (d : ℕ) → d < K → coordinate result.offset.coordinates d ≡ pos 0 }
    ensures length { result.size ≡ length.entry }
{
    let origin = Point::filled(0);
    match place {
        Some(p) => PlacedBox::new(o, p, true, origin, length),
        None => PlacedBox::new(o, 0, false, origin, length),
    }
}

/// The two boxes whose parts these are, if they are those of two boxes.
fn boxes_of_parts<const K: usize>(parts: &[Cond]) -> Option<ApartIndexical<K>>
    requires some { 0 < K }
    requires few { K ≤ MAX_DIMS }
    ensures { IfSome result (λ x. parts.now ≡ apart_parts x.first x.second) }
{
    if parts.len() < 2 * K {
        return None;
    }
    let (shapes, literals) = parts.split_at(parts.len() - 2 * K);
    match two_objects(&literals[0]) {
        None => None,
        Some((a, b)) => match (spared_places(shapes, a, b), lengths_of(literals, a, b)) {
            (Some((s, t)), Some((p, q))) => Some(ApartIndexical::new(
                box_at_origin(a, s, p),
                box_at_origin(b, t, q),
            )),
            _ => None,
        },
    }
}

/// The two boxes that the condition keeps apart, if it is of the form that two boxes have.
pub fn two_boxes<const K: usize>(c: &Cond) -> Option<ApartIndexical<K>>
    ensures { IfSome result (λ x. SaysApart x.first x.second x.short c.now) }
{
    if K == 0 || MAX_DIMS < K {
        return None;
    }
    match c {
        Cond::AtLeast(n, parts) => {
            if *n == 1 {
                boxes_of_parts(parts.as_slice())
            } else {
                None
            }
        }
        _ => None,
    }
}
