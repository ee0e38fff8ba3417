//! The first object that a condition names.

ghost use Rattle.std.specs.Prelude.{◌==◌, ◌≤◌};
ghost use Rattle.std.specs.List.{list_any};
ghost use Rattle.geo_conditions.specs.declared.object.TheConstants.{MAX_OBJECTS};
ghost use Rattle.indexical.specs.Names.{IsFirstBefore, IsNext, names};

use geo_conditions::{Cond, Form, ObjId};

/// The object, if it is one of those from `from` on and before `end`; else `end`.
#[inline(always)]
fn next_of(u: ObjId, from: usize, end: usize) -> usize
    ensures { IsNext (λ o. u.0 == o) from end result }
{
    let o = usize::from(u.0);
    if from <= o && o < end { o } else { end }
}

/// The first object that the form names, of those from `from` on and before `end`; `end` where it
/// names none of them.
fn next_in_form(f: &Form, from: usize, end: usize) -> usize
    ensures { IsNext (λ o. list_any (λ t. t.object.0 == o) f.now.terms) from end result }
{
    let mut next = end;
    for term in f.terms() {
        next = next_of(term.object, from, next);
    }
    next
}

/// The first object that the condition names, of those from `from` on and before `end`; `end` where
/// it names none of them.
fn next_named(c: &Cond, from: usize, end: usize) -> usize
    ensures { IsNext (λ o. names o c.now) from end result }
{
    match c {
        Cond::Lin(f) => next_in_form(f, from, end),
        Cond::Shape(u, _) => next_of(*u, from, end),
        Cond::NotShape(u, _) => next_of(*u, from, end),
        Cond::AtLeast(_, children) => {
            let mut next = end;
            for child in children.as_slice() {
                if next <= from {
                    return next;
                }
                next = next_named(child, from, next);
            }
            next
        }
    }
}

/// The first object that the condition names, of those from `from` on and before `end`.
pub fn first_in_tree(c: &Cond, from: usize, end: usize) -> Option<ObjId>
    requires { end ≤ MAX_OBJECTS }
    ensures { IsFirstBefore (λ o. names o c.now) from end result }
{
    let next = next_named(c, from, end);
    if next < end {
        Some(ObjId(next as u16))
    } else {
        None
    }
}
