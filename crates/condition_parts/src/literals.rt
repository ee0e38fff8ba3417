//! Conditions of which one of some literals is enough.

ghost use Rattle.std.specs.Prelude.{◌≡◌, true, OnOk, IfOk, IfSome, map};
ghost use Rattle.geo_conditions.specs.Terms.{term_of};
ghost use Rattle.condition_parts.specs.Literals.{AddsTo, AddsAll, IsOneOf};

use geo_conditions::{Cond, Conds, Form, ObjId};
use smallvec::SmallVec;
use std::alloc::{AllocError, Global};

// A form once more.
fn copied_form(alloc: Global, f: &Form) -> Result<Form, AllocError>
    ensures { IfOk result (λ g. g ≡ f.now) }
{
    let mut terms: SmallVec<(ObjId, usize, i64), 2> = SmallVec::new(alloc);
    for term in f.terms() {
        terms.push((term.object, term.dimension, term.factor))?;
    }
    Form::new(alloc, terms.as_slice(), f.constant())
}

// A literal once more; None of a condition that has parts.
fn copied(alloc: Global, c: &Cond) -> Result<Option<Cond>, AllocError>
    ensures { IfOk result (λ r. IfSome r (λ d. d ≡ c.now)) }
{
    match c {
        Cond::Lin(f) => {
            let form = copied_form(alloc, f)?;
            Ok(Some(Cond::Lin(form)))
        }
        Cond::Shape(o, place) => Ok(Some(Cond::Shape(*o, *place))),
        Cond::NotShape(o, place) => Ok(Some(Cond::NotShape(*o, *place))),
        Cond::AtLeast(_, _) => Ok(None),
    }
}

/// Where a literal stands among others: first those that an object has another shape, by object, and then forms of two coordinates,
/// by dimension, and of each dimension the one first whose first factor is positive. So what keeps two boxes apart has the order that
/// two boxes have.
#[derive(Clone, Copy)]
enum Rank {
    OtherShape(ObjId),
    Difference { dimension: usize, is_second: bool },
    Last,
}

// The rank of a literal.
fn rank_of(c: &Cond) -> Rank {
    match c {
        Cond::NotShape(o, _) => Rank::OtherShape(*o),
        Cond::Lin(f) => form_rank(f),
        _ => Rank::Last,
    }
}

// The rank of a form.
fn form_rank(f: &Form) -> Rank {
    let terms = f.terms();
    if terms.len() != 2 {
        return Rank::Last;
    }
    Rank::Difference {
        dimension: terms[0].dimension,
        is_second: terms[0].factor < 0,
    }
}

// Whether the first comes behind the second.
fn is_behind(a: Rank, b: Rank) -> bool {
    match (a, b) {
        (Rank::OtherShape(o), Rank::OtherShape(u)) => o.0 > u.0,
        (Rank::OtherShape(_), _) => false,
        (_, Rank::OtherShape(_)) => true,
        (
            Rank::Difference {
                dimension: d,
                is_second: later,
            },
            Rank::Difference {
                dimension: e,
                is_second: other,
            },
        ) => d > e || (d == e && later && !other),
        (Rank::Difference { .. }, _) => false,
        (_, Rank::Difference { .. }) => true,
        _ => false,
    }
}

// Puts a literal among the others, by its rank.
fn put_literal(literals: &mut Vec<Cond>, c: Cond) -> Result<(), AllocError>
    ensures { OnOk result (AddsTo c literals.old.items literals.new.items) }
{
    let own = rank_of(&c);
    let mut at = literals.len();
    while at > 0 && is_behind(rank_of(&literals[at - 1]), own) {
        at -= 1;
    }
    literals.insert(at, c)?;
    Ok(())
}

// Puts a literal among the others once more; false of a condition that has parts.
fn put_copy(alloc: Global, c: &Cond, literals: &mut Vec<Cond>) -> Result<bool, AllocError>
    ensures { IfOk result (λ b. b ≡ true → AddsTo c.now literals.old.items literals.new.items) }
{
    match copied(alloc, c)? {
        Some(literal) => {
            put_literal(literals, literal)?;
            Ok(true)
        }
        None => Ok(false),
    }
}

/// Puts the literals of a condition among the others, of which one is enough then. The answer is false where one of them is not
/// enough for the condition, and of the others nothing is promised then.
#[cycle(literals)]
pub fn put_literals(alloc: Global, c: &Cond, literals: &mut Vec<Cond>) -> Result<bool, AllocError>
    ensures { IfOk result (λ b. b ≡ true → AddsTo c.now literals.old.items literals.new.items) }
{
    match c {
        Cond::AtLeast(n, children) => {
            if *n != 1 {
                return Ok(false);
            }
            put_all(alloc, children.as_slice(), literals)
        }
        _ => put_copy(alloc, c, literals),
    }
}

/// The same of each of some conditions.
#[cycle(literals)]
pub fn put_all(
    alloc: Global,
    conditions: &[Cond],
    literals: &mut Vec<Cond>,
) -> Result<bool, AllocError>
    ensures { IfOk result (λ b. b ≡ true
        → AddsAll conditions.now literals.old.items literals.new.items) }
{
    for c in conditions {
        if !put_literals(alloc, c, literals)? {
            return Ok(false);
        }
    }
    Ok(true)
}

// The literals as the parts of a condition.
fn children_of(alloc: Global, literals: Vec<Cond>) -> Result<Conds, AllocError>
    ensures { IfOk result (λ children. children.items.items ≡ literals.items) }
{
    let mut children = Conds::new(alloc);
    for c in literals {
        children.push(c)?;
    }
    Ok(children)
}

/// The condition of which one of the literals is enough.
pub fn one_of(alloc: Global, literals: Vec<Cond>) -> Result<Cond, AllocError>
    ensures { IfOk result (λ c. IsOneOf literals.items c) }
{
    let children = children_of(alloc, literals)?;
    Ok(Cond::AtLeast(1, children))
}
