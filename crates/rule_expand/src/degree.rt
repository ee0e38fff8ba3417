//! Whether a rule without macros multiplies coordinates.

ghost use Rattle.std.specs.Prelude.{◌≡◌, ◌||◌, is_some, map};
ghost use Rattle.problem_data.specs.Value.{coordinate_of};
ghost use Rattle.rule_expand.specs.Degree.{has_coordinate, expr_breaks, sum_has, sum_breaks, sums_have, sums_break, product_has, product_breaks, products_have, products_break, formula_breaks, formulas_break};
ghost use Rattle.rule_expand.specs.PlainView.{plain_expr_view, plain_sum_view, plain_sums_view, plain_product_view, plain_products_view, plain_formula_view, plain_formulas_view};

use crate::plain::{PlainExpr, PlainFormula, PlainProd, PlainSum};
use geo_tokens::name::Name;

/// Whether coordinates stand in an expression, and whether they are multiplied there, divided, or compared.
#[derive(Clone, Copy)]
struct Degree {
    coordinates: bool,
    broken: bool,
}

/// Whether one of two is true.
fn either(a: bool, b: bool) -> bool
    ensures { result ≡ (a || b) }
{
    a || b
}

/// Of two expressions, one beside the other.
fn joined(a: Degree, b: Degree) -> Degree
    ensures coordinates { result.coordinates ≡ (a.coordinates || b.coordinates) }
    ensures broken { result.broken ≡ (a.broken || b.broken) }
{
    Degree {
        coordinates: either(a.coordinates, b.coordinates),
        broken: either(a.broken, b.broken),
    }
}

/// Of the least or the greatest of two.
fn bounded(a: Degree, b: Degree) -> Degree
    ensures coordinates { result.coordinates ≡ (a.coordinates || b.coordinates) }
    ensures broken { result.broken ≡ (a.coordinates || b.coordinates) }
{
    let coordinates = either(a.coordinates, b.coordinates);
    Degree {
        coordinates,
        broken: coordinates,
    }
}

/// Whether a field is a coordinate.
fn is_coordinate(field: &Name) -> bool
    ensures { result ≡ is_some (coordinate_of field.now) }
{
    match field.as_bytes() {
        [letter, digit] => *letter == b'x' && *digit >= b'1' && *digit <= b'9',
        _ => false,
    }
}

#[cycle(degree)]
fn expr_degree(e: &PlainExpr) -> Degree
    ensures coordinates { result.coordinates ≡ has_coordinate (plain_expr_view e.now) }
    ensures broken { result.broken ≡ expr_breaks (plain_expr_view e.now) }
{
    match e {
        PlainExpr::Num(_) => Degree {
            coordinates: false,
            broken: false,
        },
        PlainExpr::Field(_, name) => Degree {
            coordinates: is_coordinate(name),
            broken: false,
        },
        PlainExpr::ShapeNum(_) => Degree {
            coordinates: false,
            broken: false,
        },
        PlainExpr::Neg(e) => expr_degree(e),
        PlainExpr::Sum(e, steps) => {
            let first = expr_degree(e);
            joined(first, sums_degree(steps))
        }
        PlainExpr::Prod(e, steps) => {
            let first = expr_degree(e);
            joined(first, products_degree(first.coordinates, steps))
        }
        PlainExpr::Min(a, b) => bounded(expr_degree(a), expr_degree(b)),
        PlainExpr::Max(a, b) => bounded(expr_degree(a), expr_degree(b)),
    }
}

#[cycle(degree)]
fn sum_degree(step: &PlainSum) -> Degree
    ensures coordinates { result.coordinates ≡ sum_has (plain_sum_view step.now) }
    ensures broken { result.broken ≡ sum_breaks (plain_sum_view step.now) }
{
    match step {
        PlainSum::Plus(e) => expr_degree(e),
        PlainSum::Minus(e) => expr_degree(e),
    }
}

#[cycle(degree)]
fn sums_degree(steps: &[PlainSum]) -> Degree
    ensures coordinates { result.coordinates ≡ sums_have (plain_sums_view steps.now) }
    ensures broken { result.broken ≡ sums_break (plain_sums_view steps.now) }
{
    let mut degree = Degree {
        coordinates: false,
        broken: false,
    };
    for step in steps {
        let one = sum_degree(step);
        degree = joined(degree, one);
    }
    degree
}

/// Of one step, where coordinates stand to its left or not.
#[cycle(degree)]
fn product_degree(left: bool, step: &PlainProd) -> Degree
    ensures coordinates { result.coordinates ≡ product_has (plain_product_view step.now) }
    ensures broken { result.broken ≡ product_breaks left (plain_product_view step.now) }
{
    match step {
        PlainProd::Times(e) => {
            let factor = expr_degree(e);
            Degree {
                coordinates: factor.coordinates,
                broken: either(factor.broken, left && factor.coordinates),
            }
        }
        PlainProd::Div(_) => Degree {
            coordinates: false,
            broken: left,
        },
        PlainProd::Mod(_) => Degree {
            coordinates: false,
            broken: left,
        },
    }
}

#[cycle(degree)]
fn products_degree(left: bool, steps: &[PlainProd]) -> Degree
    ensures coordinates { result.coordinates ≡ products_have (plain_products_view steps.now) }
    ensures broken { result.broken ≡ products_break left (plain_products_view steps.now) }
{
    let mut degree = Degree {
        coordinates: false,
        broken: false,
    };
    for step in steps {
        let before = either(left, degree.coordinates);
        let one = product_degree(before, step);
        degree = joined(degree, one);
    }
    degree
}

/// Whether coordinates are multiplied, divided, or compared with `min` or `max` in a formula.
#[cycle(formula_degree)]
pub fn multiplies(f: &PlainFormula) -> bool
    ensures { result ≡ formula_breaks (plain_formula_view f.now) }
{
    match f {
        PlainFormula::True => false,
        PlainFormula::False => false,
        PlainFormula::Not(f) => multiplies(f),
        PlainFormula::And(fs) => some_multiplies(fs),
        PlainFormula::Or(fs) => some_multiplies(fs),
        PlainFormula::Implies(f, g) => either(multiplies(f), multiplies(g)),
        PlainFormula::Iff(f, g) => either(multiplies(f), multiplies(g)),
        PlainFormula::Compare(a, _, b) => either(expr_degree(a).broken, expr_degree(b).broken),
        PlainFormula::Quant(_, _, _, f) => multiplies(f),
    }
}

#[cycle(formula_degree)]
fn some_multiplies(fs: &[PlainFormula]) -> bool
    ensures { result ≡ formulas_break (plain_formulas_view fs.now) }
{
    for f in fs {
        if multiplies(f) {
            return true;
        }
    }
    false
}
