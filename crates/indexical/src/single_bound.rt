//! The bound on one coordinate that a condition is.

ghost use Rattle.std.specs.Prelude.{◌≡◌, ℕ, IfSome, None, Some};
ghost use Rattle.geo_conditions.specs.declared.cond.Cond.{Cond};
ghost use Rattle.indexical.specs.Bound.{IsHole, SaysTwo, SaysBound, bound_sum};

use crate::bound::BoundIndexical;
use crate::two_boxes::LIMIT;
use geo_conditions::{Cond, ObjId};

/// The bound that a form of one coordinate is, with factor 1 or -1, in one of the K dimensions.
fn bound_of_form<const K: usize>(c: &Cond, asked: Option<u8>) -> Option<BoundIndexical<K>>
    ensures form { IfSome result (λ b.
        c.now ≡ Cond.Lin (bound_sum b.least b.object b.dimension b.constant)) }
    ensures asked { IfSome result (λ b. b.asked ≡ asked) }
    ensures until { IfSome result (λ b. b.until ≡ None) }
{
    match c {
        Cond::Lin(f) => {
            let terms = f.terms();
            let constant = f.constant();
            if terms.len() != 1 || constant < -LIMIT || LIMIT < constant {
                return None;
            }
            let term = terms[0];
            if K <= term.dimension || (term.factor != 1 && term.factor != -1) {
                return None;
            }
            Some(BoundIndexical::new(
                term.object,
                asked,
                term.dimension,
                term.factor == -1,
                constant,
            ))
        }
        _ => None,
    }
}

/// The bound of a form behind a literal that its object has another place than one.
fn bound_at_place<const K: usize>(spared: &Cond, form: &Cond) -> Option<BoundIndexical<K>>
    ensures form { IfSome result (λ b.
        form.now ≡ Cond.Lin (bound_sum b.least b.object b.dimension b.constant)) }
    ensures asked { IfSome result (λ b. (p : ℕ) × (b.asked ≡ Some p)
        × (spared.now ≡ Cond.NotShape b.object p)) }
    ensures until { IfSome result (λ b. b.until ≡ None) }
{
    match spared {
        Cond::NotShape(o, place) => {
            let b = bound_of_form(form, Some(*place))?;
            if b.is_of(*o) { Some(b) } else { None }
        }
        _ => None,
    }
}

/// The hole that one of two forms leaves: the first says at most, the second at least.
fn hole_between<const K: usize>(upper: &Cond, lower: &Cond) -> Option<BoundIndexical<K>>
    ensures { IfSome result (λ b. IsHole b upper.now lower.now) }
{
    let up = bound_of_form::<K>(upper, None)?;
    let down = bound_of_form::<K>(lower, None)?;
    up.between(&down)
}

/// The bound of two conditions of which one has to hold, if it is one.
fn bound_of_two<const K: usize>(first: &Cond, second: &Cond) -> Option<BoundIndexical<K>>
    ensures { IfSome result (λ b. SaysTwo b first.now second.now) }
{
    match first {
        Cond::NotShape(_, _) => bound_at_place(first, second),
        Cond::Lin(_) => hole_between(first, second),
        _ => None,
    }
}

/// The bound that the condition is, if it is one.
pub fn bound_of<const K: usize>(c: &Cond) -> Option<BoundIndexical<K>>
    ensures { IfSome result (λ b. SaysBound b c.now) }
{
    match c {
        Cond::Lin(_) => bound_of_form(c, None),
        Cond::AtLeast(n, parts) => {
            let parts = parts.as_slice();
            if *n == 1 && parts.len() == 2 {
                bound_of_two(&parts[0], &parts[1])
            } else {
                None
            }
        }
        _ => None,
    }
}
