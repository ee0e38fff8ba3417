//! The objects that a condition names beside two others.

ghost use Rattle.std.specs.Prelude.{◌≡◌, ◌⊎◌, None};
ghost use Rattle.watches.specs.Rests.{HasOnly, NamesOnly};

use geo_conditions::{Cond, Form, ObjId};

// The object, if it is neither of the two.
fn other_than(u: ObjId, a: ObjId, b: ObjId) -> Option<ObjId>
    ensures { result ≡ None → (u.0 ≡ a.0) ⊎ (u.0 ≡ b.0) }
{
    if u.0 == a.0 || u.0 == b.0 {
        None
    } else {
        Some(u)
    }
}

// An object of a term of the form that is neither of the two, if there is one.
fn form_beside(f: &Form, a: ObjId, b: ObjId) -> Option<ObjId>
    ensures { result ≡ None → HasOnly f.now a.0 b.0 }
{
    for term in f.terms() {
        if let Some(u) = other_than(term.object, a, b) {
            return Some(u);
        }
    }
    None
}

/// An object that the condition names and that is neither of the two, if there is one.
pub fn beside(c: &Cond, a: ObjId, b: ObjId) -> Option<ObjId>
    ensures { result ≡ None → NamesOnly c.now a.0 b.0 }
{
    match c {
        Cond::Lin(f) => form_beside(f, a, b),
        Cond::Shape(u, _) => other_than(*u, a, b),
        Cond::NotShape(u, _) => other_than(*u, a, b),
        Cond::AtLeast(_, children) => {
            for child in children.as_slice() {
                if let Some(u) = beside(child, a, b) {
                    return Some(u);
                }
            }
            None
        }
    }
}
