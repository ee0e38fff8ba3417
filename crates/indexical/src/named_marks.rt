//! Marks of the objects that a condition names.

ghost use Rattle.std.specs.Prelude.{◌==◌};
ghost use Rattle.std.specs.List.{list_any};
ghost use Rattle.indexical.specs.Names.{MarksThose, names};

use geo_conditions::{Cond, Form, ObjId};

// Marks the object, if there is a mark for it.
#[inline(always)]
fn mark_object(u: ObjId, marks: &mut [bool])
    ensures { MarksThose (λ o. u.0 == o) marks.old marks.new }
{
    let at = usize::from(u.0);
    if at < marks.len() {
        marks[at] = true;
    }
}

// Marks the objects that the form names.
fn mark_form(f: &Form, marks: &mut [bool])
    ensures { MarksThose (λ o. list_any (λ t. t.object.0 == o) f.now.terms) marks.old marks.new }
{
    for term in f.terms() {
        mark_object(term.object, marks);
    }
}

/// Marks the objects that the condition names, as far as there are marks for them, in one walk.
pub fn mark_tree(c: &Cond, marks: &mut [bool])
    ensures { MarksThose (λ o. names o c.now) marks.old marks.new }
{
    match c {
        Cond::Lin(f) => mark_form(f, marks),
        Cond::Shape(u, _) => mark_object(*u, marks),
        Cond::NotShape(u, _) => mark_object(*u, marks),
        Cond::AtLeast(_, children) => {
            for child in children.as_slice() {
                mark_tree(child, marks);
            }
        }
    }
}
