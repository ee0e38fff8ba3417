//! One node of an expanded rule.

ghost use Rattle.std.specs.Prelude.{◌≡◌, ◌+◌, ◌<◌, ◌∷◌, ◌++◌, ◌⊎◌, [], MatchBool, MatchResult};
ghost use Rattle.rule_expand.specs.Plain as plain;
ghost use Rattle.rule_expand.specs.PlainView.{plain_expr_view, plain_sum_view, plain_product_view, plain_sums_view, plain_products_view, plain_coll_view, plain_formula_view, plain_formulas_view};
ghost use Rattle.rule_expand.specs.Limits.{GivesExpr, GivesUnbound};

use crate::limits::ExpandFault;
use crate::plain::{PlainColl, PlainExpr, PlainFormula, PlainProd, PlainSum, Subject};
use geo_tokens::name::Name;
use rule_syntax::tree::{QuantKind, Rel};
use std::alloc::Global;

/// Takes one node from the room, if one is left and the depth allows it.
pub fn take_node(room: &mut u32, deep: u32) -> bool
    ensures { MatchBool result ((room.new + 1 ≡ room.old)
        × (0 < deep)) ((room.old ≡ 0) ⊎ (deep ≡ 0)) }
{
    if *room == 0 || deep == 0 {
        return false;
    }
    *room -= 1;
    true
}

/// A number.
pub fn number(n: u32, room: &mut u32, deep: u32) -> Result<PlainExpr, ExpandFault>
    ensures { GivesExpr (plain.number n) room.old deep room.new result }
{
    if !take_node(room, deep) {
        return Err(ExpandFault::TooLarge);
    }
    Ok(PlainExpr::Num(n))
}

/// The number of a shape.
pub fn shape_number(position: usize, room: &mut u32, deep: u32) -> Result<PlainExpr, ExpandFault>
    ensures { GivesExpr (plain.shape_number position) room.old deep room.new result }
{
    if !take_node(room, deep) {
        return Err(ExpandFault::TooLarge);
    }
    Ok(PlainExpr::ShapeNum(position))
}

/// A field.
pub fn field(
    alloc: Global,
    of: Subject,
    name: &Name,
    room: &mut u32,
    deep: u32,
) -> Result<PlainExpr, ExpandFault>
    ensures { GivesExpr (plain.field of name.now) room.old deep room.new result }
{
    if !take_node(room, deep) {
        return Err(ExpandFault::TooLarge);
    }
    match name.try_clone(alloc) {
        Ok(own) => Ok(PlainExpr::Field(of, own)),
        Err(_e) => Err(ExpandFault::Memory),
    }
}

/// A minus in front.
pub fn negative(alloc: Global, e: PlainExpr) -> Result<PlainExpr, ExpandFault>
    ensures { MatchResult result (λ q. plain_expr_view q ≡ plain.negative (plain_expr_view e))
        (λ f. f ≡ ExpandFault.Memory) }
{
    Ok(PlainExpr::Neg(Box::new(alloc, e)?))
}

/// A sum.
pub fn sum(alloc: Global, first: PlainExpr, steps: Vec<PlainSum>) -> Result<PlainExpr, ExpandFault>
    ensures { MatchResult result (λ q. plain_expr_view q
        ≡ plain.sum (plain_expr_view first) (plain_sums_view steps.items))
        (λ f. f ≡ ExpandFault.Memory) }
{
    Ok(PlainExpr::Sum(Box::new(alloc, first)?, steps))
}

/// A product.
pub fn product(
    alloc: Global,
    first: PlainExpr,
    steps: Vec<PlainProd>,
) -> Result<PlainExpr, ExpandFault>
    ensures { MatchResult result (λ q. plain_expr_view q
        ≡ plain.product (plain_expr_view first) (plain_products_view steps.items)) (λ f. f
        ≡ ExpandFault.Memory) }
{
    Ok(PlainExpr::Prod(Box::new(alloc, first)?, steps))
}

/// The least of two.
pub fn least(alloc: Global, a: PlainExpr, b: PlainExpr) -> Result<PlainExpr, ExpandFault>
    ensures { MatchResult result (λ q. plain_expr_view q
        ≡ plain.least (plain_expr_view a) (plain_expr_view b)) (λ f. f ≡ ExpandFault.Memory) }
{
    Ok(PlainExpr::Min(Box::new(alloc, a)?, Box::new(alloc, b)?))
}

/// The greatest of two.
pub fn greatest(alloc: Global, a: PlainExpr, b: PlainExpr) -> Result<PlainExpr, ExpandFault>
    ensures { MatchResult result (λ q. plain_expr_view q
        ≡ plain.greatest (plain_expr_view a) (plain_expr_view b)) (λ f. f ≡ ExpandFault.Memory) }
{
    Ok(PlainExpr::Max(Box::new(alloc, a)?, Box::new(alloc, b)?))
}

/// One step of a sum more.
pub fn add_sum(steps: &mut Vec<PlainSum>, step: PlainSum) -> Result<(), ExpandFault>
    ensures { MatchResult result (λ u. steps.new.items ≡ steps.old.items ++ step ∷ []) (λ e. e
        ≡ ExpandFault.Memory) }
{
    steps.push(step)?;
    Ok(())
}

/// One step of a product more.
pub fn add_product(steps: &mut Vec<PlainProd>, step: PlainProd) -> Result<(), ExpandFault>
    ensures { MatchResult result (λ u. steps.new.items ≡ steps.old.items ++ step ∷ []) (λ e. e
        ≡ ExpandFault.Memory) }
{
    steps.push(step)?;
    Ok(())
}

/// `true`.
pub fn truth(room: &mut u32, deep: u32) -> Result<PlainFormula, ExpandFault>
    ensures { GivesUnbound plain.truth room.old deep room.new result }
{
    if !take_node(room, deep) {
        return Err(ExpandFault::TooLarge);
    }
    Ok(PlainFormula::True)
}

/// `false`.
pub fn falsehood(room: &mut u32, deep: u32) -> Result<PlainFormula, ExpandFault>
    ensures { GivesUnbound plain.falsehood room.old deep room.new result }
{
    if !take_node(room, deep) {
        return Err(ExpandFault::TooLarge);
    }
    Ok(PlainFormula::False)
}

/// A comparison.
pub fn comparison(
    alloc: Global,
    a: PlainExpr,
    rel: Rel,
    b: PlainExpr,
) -> Result<PlainFormula, ExpandFault>
    ensures { MatchResult result (λ q. plain_formula_view q
        ≡ plain.comparison (plain_expr_view a) rel (plain_expr_view b))
        (λ e. e ≡ ExpandFault.Memory) }
{
    Ok(PlainFormula::Compare(Box::new(alloc, a)?, rel, Box::new(alloc, b)?))
}

/// A `not`.
pub fn negation(alloc: Global, f: PlainFormula) -> Result<PlainFormula, ExpandFault>
    ensures { MatchResult result (λ q. plain_formula_view q ≡ plain.negation (plain_formula_view f))
        (λ e. e ≡ ExpandFault.Memory) }
{
    Ok(PlainFormula::Not(Box::new(alloc, f)?))
}

/// An `and`.
pub fn all_of(parts: Vec<PlainFormula>) -> PlainFormula
    ensures { plain_formula_view result ≡ plain.all_of (plain_formulas_view parts.items) }
{
    PlainFormula::And(parts)
}

/// An `or`.
pub fn any_of(parts: Vec<PlainFormula>) -> PlainFormula
    ensures { plain_formula_view result ≡ plain.any_of (plain_formulas_view parts.items) }
{
    PlainFormula::Or(parts)
}

/// An `implies`.
pub fn implication(
    alloc: Global,
    f: PlainFormula,
    g: PlainFormula,
) -> Result<PlainFormula, ExpandFault>
    ensures { MatchResult result (λ q. plain_formula_view q
        ≡ plain.implication (plain_formula_view f) (plain_formula_view g))
        (λ e. e ≡ ExpandFault.Memory) }
{
    Ok(PlainFormula::Implies(Box::new(alloc, f)?, Box::new(alloc, g)?))
}

/// An `iff`.
pub fn equivalence(
    alloc: Global,
    f: PlainFormula,
    g: PlainFormula,
) -> Result<PlainFormula, ExpandFault>
    ensures { MatchResult result (λ q. plain_formula_view q
        ≡ plain.equivalence (plain_formula_view f) (plain_formula_view g))
        (λ e. e ≡ ExpandFault.Memory) }
{
    Ok(PlainFormula::Iff(Box::new(alloc, f)?, Box::new(alloc, g)?))
}

/// A quantifier.
pub fn quantified(
    alloc: Global,
    kind: QuantKind,
    variable: u32,
    coll: PlainColl,
    f: PlainFormula,
) -> Result<PlainFormula, ExpandFault>
    ensures { MatchResult result (λ q. plain_formula_view q
        ≡ plain.quantified kind variable (plain_coll_view coll) (plain_formula_view f)) (λ e. e
        ≡ ExpandFault.Memory) }
{
    Ok(PlainFormula::Quant(kind, variable, coll, Box::new(alloc, f)?))
}

/// One operand more.
pub fn add_formula(parts: &mut Vec<PlainFormula>, part: PlainFormula) -> Result<(), ExpandFault>
    ensures { MatchResult result (λ u. parts.new.items ≡ parts.old.items ++ part ∷ []) (λ e. e
        ≡ ExpandFault.Memory) }
{
    parts.push(part)?;
    Ok(())
}
