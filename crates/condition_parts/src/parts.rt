//! The parts of a condition.
//!
//! That an object has another shape than some, or else that several things hold, says for each of these that the object has another
//! shape or that it holds: each is a condition of its own, which often names two objects alone.

ghost use Rattle.std.specs.Prelude.{◌≡◌, ◌++◌, ◌∷◌, [], true, pos, IfOk, IfSome};
ghost use Rattle.geo_conditions.specs.declared.cond.Cond.{Cond};
ghost use Rattle.condition_parts.specs.Literals.{AddsAll};
ghost use Rattle.condition_parts.specs.Parts.{AreUnder, AreUnderAll, IsAllOf, PutsUnder, PutsUnderAll};

use crate::literals::{one_of, put_all, put_literals};
use geo_conditions::{Cond, Conds};
use std::alloc::{AllocError, Global};

// Whether the number is the count.
fn is_count(n: &i64, count: usize) -> bool
    ensures { result ≡ true → n.now ≡ pos count }
{
    *n >= 0 && *n as usize == count
}

// Puts one part: one of the literals before is enough, or of those of the condition. False where it has others.
fn put_part(
    alloc: Global,
    before: &[Cond],
    c: &Cond,
    parts: &mut Vec<Cond>,
) -> Result<bool, AllocError>
    ensures { IfOk result (λ b. b ≡ true
        → PutsUnder before.now c.now parts.old.items parts.new.items) }
{
    let mut literals = Vec::new(alloc);
    if !put_all(alloc, before, &mut literals)? {
        return Ok(false);
    }
    if !put_literals(alloc, c, &mut literals)? {
        return Ok(false);
    }
    parts.push(one_of(alloc, literals)?)?;
    Ok(true)
}

// The literals, with those of some conditions; None where one of these has others.
fn longer(
    alloc: Global,
    before: &[Cond],
    conditions: &[Cond],
) -> Result<Option<Vec<Cond>>, AllocError>
    ensures { IfOk result (λ r. IfSome r (λ v. AddsAll conditions.now before.now v.items)) }
{
    let mut literals = Vec::new(alloc);
    if !put_all(alloc, before, &mut literals)? {
        return Ok(None);
    }
    if !put_all(alloc, conditions, &mut literals)? {
        return Ok(None);
    }
    Ok(Some(literals))
}

// Puts the parts of a condition, for each of which one of the literals before is enough. The answer is false where the condition
// cannot be taken apart, and of the parts nothing is promised then.
#[cycle(parts)]
fn put_parts(
    alloc: Global,
    c: &Cond,
    before: &[Cond],
    parts: &mut Vec<Cond>,
) -> Result<bool, AllocError>
    ensures { IfOk result (λ b. b ≡ true
        → PutsUnder before.now c.now parts.old.items parts.new.items) }
{
    match c {
        Cond::AtLeast(n, children) => {
            if is_count(n, children.len()) {
                return put_each(alloc, children, before, parts);
            }
            if *n != 1 {
                return Ok(false);
            }
            put_either(alloc, children, before, parts)
        }
        _ => put_part(alloc, before, c, parts),
    }
}

// The same of all of some conditions.
#[cycle(parts)]
fn put_each(
    alloc: Global,
    children: &Conds,
    before: &[Cond],
    parts: &mut Vec<Cond>,
) -> Result<bool, AllocError>
    ensures { IfOk result (λ b. b ≡ true
        → PutsUnderAll before.now children.now.items.items parts.old.items parts.new.items) }
{
    for c in children.as_slice() {
        if !put_parts(alloc, c, before, parts)? {
            return Ok(false);
        }
    }
    Ok(true)
}

// The same of one of some conditions: all but the last one have to be literals.
#[cycle(parts)]
fn put_either(
    alloc: Global,
    children: &Conds,
    before: &[Cond],
    parts: &mut Vec<Cond>,
) -> Result<bool, AllocError>
    ensures { IfOk result (λ b. b ≡ true
        → PutsUnder before.now (Cond.AtLeast (pos 1) children.now) parts.old.items parts.new.items) }
{
    let conditions = children.as_slice();
    let count = conditions.len();
    if count == 0 {
        return Ok(false);
    }
    let last = count - 1;
    match longer(alloc, before, &conditions[0..last])? {
        Some(literals) => put_parts(alloc, &conditions[last], literals.as_slice(), parts),
        None => Ok(false),
    }
}

/// The parts of a condition that was taken apart; there is at least one.
#[derive(Drop)]
pub struct Parts {
    pub first: Cond,
    pub others: Vec<Cond>,
}

/// The parts of a condition: together they say what it says. None where it is not taken apart.
pub fn parts_of(alloc: Global, c: &Cond) -> Result<Option<Parts>, AllocError>
    ensures { IfOk result (λ r. IfSome r (λ parts.
        IsAllOf c.now (parts.others.items ++ parts.first ∷ []))) }
{
    let mut parts = Vec::new(alloc);
    if !put_parts(alloc, c, &[], &mut parts)? {
        return Ok(None);
    }
    match parts.pop() {
        Some(first) => Ok(Some(Parts {
            first,
            others: parts,
        })),
        None => Ok(None),
    }
}
