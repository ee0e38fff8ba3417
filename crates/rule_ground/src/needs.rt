//! Whether a formula asks for the shape of an object: by its number, or by its boxes.

ghost use Rattle.std.specs.Prelude.{◌≡◌, ◌||◌};
ghost use Rattle.linear_conditions.specs.Settled.{expr_needs, is_sid, product_needs, products_need, same_subject, sum_needs, sums_need};
ghost use Rattle.rule_expand.specs.PlainView.{plain_coll_view, plain_expr_view, plain_formula_view, plain_formulas_view, plain_product_view, plain_products_view, plain_sum_view, plain_sums_view};
ghost use Rattle.rule_ground.specs.Grounding.{coll_needs, needs, some_needs};

use geo_tokens::name::Name;
use rule_expand::plain::{PlainColl, PlainExpr, PlainFormula, PlainProd, PlainSum, Subject};

// Whether it is the same subject.
fn same_subject(s: Subject, u: Subject) -> bool
    ensures { result ≡ same_subject s u }
{
    match s {
        Subject::Variable(m) => match u {
            Subject::Variable(n) => m == n,
            Subject::Object(_) => false,
        },
        Subject::Object(o) => match u {
            Subject::Variable(_) => false,
            Subject::Object(p) => o == p,
        },
    }
}

// Whether the field is the number of the shape.
fn is_sid(name: &Name) -> bool
    ensures { result ≡ is_sid name.now }
{
    name.as_bytes() == b"sid".as_slice()
}

// Whether an expression asks for the shape of the subject.
#[cycle(expr_needs)]
fn expr_needs(s: Subject, e: &PlainExpr) -> bool
    ensures { result ≡ expr_needs s (plain_expr_view e.now) }
{
    match e {
        PlainExpr::Num(_n) => false,
        PlainExpr::Field(u, f) => same_subject(s, *u) && is_sid(f),
        PlainExpr::ShapeNum(_s) => false,
        PlainExpr::Neg(e) => expr_needs(s, e),
        PlainExpr::Sum(e, steps) => expr_needs(s, e) || sums_need(s, steps),
        PlainExpr::Prod(e, steps) => expr_needs(s, e) || products_need(s, steps),
        PlainExpr::Min(a, b) | PlainExpr::Max(a, b) => expr_needs(s, a) || expr_needs(s, b),
    }
}

#[cycle(expr_needs)]
fn sum_needs(s: Subject, step: &PlainSum) -> bool
    ensures { result ≡ sum_needs s (plain_sum_view step.now) }
{
    match step {
        PlainSum::Plus(e) => expr_needs(s, e),
        PlainSum::Minus(e) => expr_needs(s, e),
    }
}

#[cycle(expr_needs)]
fn sums_need(s: Subject, steps: &[PlainSum]) -> bool
    ensures { result ≡ sums_need s (plain_sums_view steps.now) }
{
    for step in steps {
        if sum_needs(s, step) {
            return true;
        }
    }
    false
}

#[cycle(expr_needs)]
fn product_needs(s: Subject, step: &PlainProd) -> bool
    ensures { result ≡ product_needs s (plain_product_view step.now) }
{
    match step {
        PlainProd::Times(e) => expr_needs(s, e),
        PlainProd::Div(_n) => false,
        PlainProd::Mod(_n) => false,
    }
}

#[cycle(expr_needs)]
fn products_need(s: Subject, steps: &[PlainProd]) -> bool
    ensures { result ≡ products_need s (plain_products_view steps.now) }
{
    for step in steps {
        if product_needs(s, step) {
            return true;
        }
    }
    false
}

// Whether a variable ranges over the boxes of the subject.
fn coll_needs(s: Subject, coll: &PlainColl) -> bool
    ensures { result ≡ coll_needs s (plain_coll_view coll.now) }
{
    match coll {
        PlainColl::Objects => false,
        PlainColl::Listed(_objects) => false,
        PlainColl::BoxesOf(u) => same_subject(s, *u),
    }
}

// Whether a comparison asks for the shape of the subject.
fn compare_needs(s: Subject, a: &PlainExpr, b: &PlainExpr) -> bool
    ensures { result
        ≡ (expr_needs s (plain_expr_view a.now) || expr_needs s (plain_expr_view b.now)) }
{
    expr_needs(s, a) || expr_needs(s, b)
}

/// Whether a formula asks for the shape of the subject.
#[cycle(needs)]
pub fn needs(s: Subject, f: &PlainFormula) -> bool
    ensures { result ≡ needs s (plain_formula_view f.now) }
{
    match f {
        PlainFormula::True => false,
        PlainFormula::False => false,
        PlainFormula::Not(f) => needs(s, f),
        PlainFormula::And(fs) | PlainFormula::Or(fs) => some_needs(s, fs),
        PlainFormula::Implies(f, g) | PlainFormula::Iff(f, g) => needs(s, f) || needs(s, g),
        PlainFormula::Compare(a, _rel, b) => compare_needs(s, a, b),
        PlainFormula::Quant(_kind, _v, coll, f) => coll_needs(s, coll) || needs(s, f),
    }
}

#[cycle(needs)]
fn some_needs(s: Subject, fs: &[PlainFormula]) -> bool
    ensures { result ≡ some_needs s (plain_formulas_view fs.now) }
{
    for f in fs {
        if needs(s, f) {
            return true;
        }
    }
    false
}
