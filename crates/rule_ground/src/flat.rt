//! From the condition of a rule to the conditions that it gives.

ghost use Rattle.std.specs.List.{flat_map};
ghost use Rattle.std.specs.Prelude.{◌≡◌, ◌++◌, ◌∷◌, [], IfOk, OnOk, map};
ghost use Rattle.linear_conditions.specs.CondTree.{at_least, cond_view, conds};
ghost use Rattle.rule_ground.specs.Rules.{conds_of, is_count};

use geo_conditions::{Cond, Conds, Form, ObjId};
use smallvec::SmallVec;
use std::alloc::{AllocError, Global};

// A form once more.
fn copied_form(alloc: Global, f: &Form) -> Result<Form, AllocError>
    ensures { IfOk result (λ g. g ≡ f.now) }
{
    let mut terms: SmallVec<(ObjId, usize, i64), 2> = SmallVec::new(alloc);
    for term in f.terms() {
        terms.push((term.object, term.dimension, term.factor))?;
    }
    Form::new(alloc, terms.as_slice(), f.constant())
}

// At least so many of conditions.
fn node(n: &i64, children: Conds) -> Cond
    ensures { cond_view result ≡ at_least n.now (conds (map cond_view children.items.items)) }
{
    Cond::AtLeast(*n, children)
}

// A condition once more.
#[cycle(copied)]
fn copied(alloc: Global, c: &Cond) -> Result<Cond, AllocError>
    ensures { IfOk result (λ d. cond_view d ≡ cond_view c.now) }
{
    match c {
        Cond::Lin(f) => Ok(Cond::Lin(copied_form(alloc, f)?)),
        Cond::Shape(object, place) => Ok(Cond::Shape(*object, *place)),
        Cond::NotShape(object, place) => Ok(Cond::NotShape(*object, *place)),
        Cond::AtLeast(n, children) => Ok(node(n, copied_children(alloc, children)?)),
    }
}

#[cycle(copied)]
fn copied_children(alloc: Global, children: &Conds) -> Result<Conds, AllocError>
    ensures { IfOk result (λ list. map cond_view list.items.items
        ≡ map cond_view children.now.items.items) }
{
    let mut list = Conds::new(alloc);
    for child in children.as_slice() {
        list.push(copied(alloc, child)?)?;
    }
    Ok(list)
}

// Whether the number is the count.
fn is_count(n: &i64, count: usize) -> bool
    ensures { result ≡ is_count n.now count }
{
    *n >= 0 && *n as usize == count
}

/// Appends the conditions that a condition gives: a node all of whose children must hold gives those of each of them in turn.
#[cycle(flat)]
pub fn push_conditions(alloc: Global, c: &Cond, out: &mut Vec<Cond>) -> Result<(), AllocError>
    ensures { OnOk result (map cond_view out.new.items ≡ map cond_view out.old.items
        ++ conds_of (cond_view c.now)) }
{
    match c {
        Cond::Lin(_form) => push_copy(alloc, c, out),
        Cond::Shape(_object, _place) => push_copy(alloc, c, out),
        Cond::NotShape(_object, _place) => push_copy(alloc, c, out),
        Cond::AtLeast(n, children) => {
            if is_count(n, children.len()) {
                return push_each(alloc, children, out);
            }
            push_copy(alloc, c, out)
        }
    }
}

// Appends a condition once more.
fn push_copy(alloc: Global, c: &Cond, out: &mut Vec<Cond>) -> Result<(), AllocError>
    ensures { OnOk result (map cond_view out.new.items ≡ map cond_view out.old.items
        ++ cond_view c.now ∷ []) }
{
    out.push(copied(alloc, c)?)?;
    Ok(())
}

#[cycle(flat)]
fn push_each(alloc: Global, children: &Conds, out: &mut Vec<Cond>) -> Result<(), AllocError>
    ensures { OnOk result (map cond_view out.new.items ≡ map cond_view out.old.items
        ++ flat_map conds_of (map cond_view children.now.items.items)) }
{
    for child in children.as_slice() {
        push_conditions(alloc, child, out)?;
    }
    Ok(())
}
