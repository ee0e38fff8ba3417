//! An object that each way to meet a condition names, so that the condition spares it on no state.
//! Nothing is promised of it: to know of such an object saves the look for parts that spare it.

use crate::spared::MANY_PARTS;
use crate::watched::may_spare;
use geo_conditions::{Cond, ObjId};

/// Whether many parts have to be looked at.
pub fn has_many_parts(c: &Cond) -> bool {
    match c {
        Cond::AtLeast(_, children) => {
            if children.len() >= MANY_PARTS {
                return true;
            }
            for child in children.as_slice() {
                if has_many_parts(child) {
                    return true;
                }
            }
            false
        }
        _ => false,
    }
}

/// The object, where the condition spares it on no state.
fn unless_spared(c: &Cond, o: ObjId) -> Option<ObjId> {
    if may_spare(c, o) { None } else { Some(o) }
}

/// The first object that a part names and the whole condition spares on no state. Where one part is
/// enough, the first one names such an object, if there is one.
fn unspared_in(part: &Cond, whole: &Cond) -> Option<ObjId> {
    match part {
        Cond::Lin(f) => {
            for term in f.terms() {
                if let Some(o) = unless_spared(whole, term.object) {
                    return Some(o);
                }
            }
            None
        }
        Cond::Shape(o, _) | Cond::NotShape(o, _) => unless_spared(whole, *o),
        Cond::AtLeast(n, children) => {
            for child in children.as_slice() {
                let found = unspared_in(child, whole);
                if *n <= 1 || found.is_some() {
                    return found;
                }
            }
            None
        }
    }
}

/// An object that a condition of many parts spares on no state, if one is found.
pub fn unspared_object(c: &Cond) -> Option<ObjId> {
    if has_many_parts(c) {
        unspared_in(c, c)
    } else {
        None
    }
}
