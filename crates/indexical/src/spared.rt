//! Which objects a condition names, and which it spares wherever they are put.

ghost use Rattle.std.specs.Prelude.{◌≡◌, ◌==◌, ◌<◌, ◌≤◌, length, IsTrue};
ghost use Rattle.std.specs.List.{list_any};
ghost use Rattle.geo_conditions.specs.Conditions.{FitsIn};
ghost use Rattle.indexical.specs.Forbidden.{IsOnShape};
ghost use Rattle.indexical.specs.Free.{Spares, SparesAnywhere};
ghost use Rattle.indexical.specs.Names.{names};

use crate::least::least_value_of;
use crate::shape_literals::shape_refuted;
use geo_base::MAX_DIMS;
use geo_conditions::{Cond, Conds, Form, ObjId, State, refuted};

fn is_in_form(f: &Form, o: ObjId) -> bool
    ensures { result ≡ list_any (λ t. t.object.0 == o.0) f.now.terms }
{
    for term in f.terms() {
        if term.object.0 == o.0 {
            return true;
        }
    }
    false
}

/// Whether the condition names the object.
pub fn is_named(c: &Cond, o: ObjId) -> bool
    ensures { result ≡ names o.0 c.now }
{
    match c {
        Cond::Lin(f) => is_in_form(f, o),
        Cond::Shape(u, _) => u.0 == o.0,
        Cond::NotShape(u, _) => u.0 == o.0,
        Cond::AtLeast(_, children) => {
            for child in children.as_slice() {
                if is_named(child, o) {
                    return true;
                }
            }
            false
        }
    }
}

/// Whether a literal on a shape is possible with the object at that place.
fn shape_spares<const K: usize>(c: &Cond, s: &State<K>, o: ObjId, place: u8) -> bool
    requires k { K ≤ MAX_DIMS }
    requires fits { FitsIn c.now s.now }
    requires object { o.0 < length s.now }
    requires literal { IsOnShape c.now }
    ensures { IsTrue result → Spares c.now s.now o.0 place }
{
    !shape_refuted(c, s, o, place)
}

/// Whether a form is possible and does not name the object.
pub fn form_spares<const K: usize>(f: &Form, s: &State<K>, o: ObjId) -> bool
    requires k { K ≤ MAX_DIMS }
    requires fits { FitsIn (Cond.Lin f.now) s.now }
    ensures { IsTrue result → SparesAnywhere (Cond.Lin f.now) s.now o.0 }
{
    if is_in_form(f, o) {
        return false;
    }
    least_value_of(f, s) <= 0
}

/// Whether a condition is possible and does not name the object.
pub fn spares_unnamed<const K: usize>(c: &Cond, s: &State<K>, o: ObjId) -> bool
    requires k { K ≤ MAX_DIMS }
    requires fits { FitsIn c.now s.now }
    ensures { IsTrue result → SparesAnywhere c.now s.now o.0 }
{
    match c {
        Cond::Lin(f) => form_spares(f, s, o),
        _ => !is_named(c, o) && !refuted(c, s),
    }
}

/// Whether enough of the parts spare the object at that place. No further part is asked where too
/// few are left.
#[cycle(spares)]
fn enough_spare<const K: usize>(n: i64, children: &Conds, s: &State<K>, o: ObjId, place: u8) -> bool
    requires k { K ≤ MAX_DIMS }
    requires fits { FitsIn (Cond.AtLeast n children.now) s.now }
    requires object { o.0 < length s.now }
    ensures { IsTrue result → Spares (Cond.AtLeast n children.now) s.now o.0 place }
{
    let least = i128::from(n);
    let most = children.len() as i128 - least;
    let mut sparing: usize = 0;
    let mut others: usize = 0;
    for child in children.as_slice() {
        if tree_spares(child, s, o, place) {
            sparing += 1;
            if least <= sparing as i128 {
                return true;
            }
        } else {
            others += 1;
            if most < others as i128 {
                return false;
            }
        }
    }
    false
}

/// Whether enough parts of the condition spare the object at that place: a literal on a shape that
/// is possible then, a form that does not name the object and is possible. It is inlined where parts
/// are asked, so that a literal on a shape takes no call.
#[cycle(spares)]
#[inline(always)]
pub fn tree_spares<const K: usize>(c: &Cond, s: &State<K>, o: ObjId, place: u8) -> bool
    requires k { K ≤ MAX_DIMS }
    requires fits { FitsIn c.now s.now }
    requires object { o.0 < length s.now }
    ensures { IsTrue result → Spares c.now s.now o.0 place }
{
    match c {
        Cond::Lin(f) => form_spares(f, s, o),
        Cond::Shape(_, _) => shape_spares(c, s, o, place),
        Cond::NotShape(_, _) => shape_spares(c, s, o, place),
        Cond::AtLeast(n, children) => enough_spare(*n, children, s, o, place),
    }
}

/// So many parts are many: a condition that asks for all of them is not asked whether it spares an object, and of one that asks for
/// one of them the parts are watched.
pub const MANY_PARTS: usize = 8;

/// Whether enough of the parts spare the object at any place. No further part is asked where too
/// few are left. Where all of many parts are asked for they are not gone into, since one of them
/// names the object for the most part.
#[cycle(anywhere)]
fn enough_spare_anywhere<const K: usize>(n: i64, children: &Conds, s: &State<K>, o: ObjId) -> bool
    requires k { K ≤ MAX_DIMS }
    requires fits { FitsIn (Cond.AtLeast n children.now) s.now }
    ensures { IsTrue result → SparesAnywhere (Cond.AtLeast n children.now) s.now o.0 }
{
    let least = i128::from(n);
    let most = children.len() as i128 - least;
    if most == 0 && children.len() >= MANY_PARTS {
        return false;
    }
    let mut sparing: usize = 0;
    let mut others: usize = 0;
    for child in children.as_slice() {
        if tree_spares_anywhere(child, s, o) {
            sparing += 1;
            if least <= sparing as i128 {
                return true;
            }
        } else {
            others += 1;
            if most < others as i128 {
                return false;
            }
        }
    }
    false
}

/// Whether enough parts of the condition spare the object at any place: a literal or a form that
/// does not name the object and is possible. It is inlined where parts are asked.
#[cycle(anywhere)]
#[inline(always)]
pub fn tree_spares_anywhere<const K: usize>(c: &Cond, s: &State<K>, o: ObjId) -> bool
    requires k { K ≤ MAX_DIMS }
    requires fits { FitsIn c.now s.now }
    ensures { IsTrue result → SparesAnywhere c.now s.now o.0 }
{
    match c {
        Cond::AtLeast(n, children) => enough_spare_anywhere(*n, children, s, o),
        _ => spares_unnamed(c, s, o),
    }
}
