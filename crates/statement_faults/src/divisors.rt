//! Numbers behind `div` and `mod` that are 0.

ghost use Rattle.std.specs.Prelude.{◌≡◌, ◌++◌, ℕ, List, map};
ghost use Rattle.rule_syntax.specs.Tree.{sums, products, arguments, formulas};
ghost use Rattle.rule_syntax.specs.View.{expr_view, sum_view, product_view, argument_view, formula_view};
ghost use Rattle.problem_data.specs.View.{body_view};
ghost use Rattle.problem_data.specs.Divisors.{zero_at, lesser, least_in, expr_zeros, sums_zeros, sum_zeros, products_zeros, product_zeros, arguments_zeros, argument_zeros, formula_zeros, formulas_zeros, body_zeros};
ghost use Rattle.problem_data.specs.Faults.{divisor_at};

use geo_tokens::fault::FaultWord;
use problem_data::fault::Fault;
use problem_data::tree::MacroBody;
use rule_syntax::tree::{Argument, Expr, Formula, ProdStep, SumStep};

fn lesser_place(a: Option<u64>, b: Option<u64>) -> Option<u64>
    ensures { result ≡ lesser a b }
{
    match (a, b) {
        (Some(m), Some(n)) => Some(if m <= n { m } else { n }),
        (Some(m), None) => Some(m),
        (None, n) => n,
    }
}

/// The lesser of two places, where there are any: the least of two lists, from the least of each.
fn lesser(a: Option<u64>, b: Option<u64>) -> Option<u64>
    ensures value { result ≡ lesser a b }
    ensures lists { (ms ns : List ℕ) → a ≡ least_in ms → b ≡ least_in ns
        → result ≡ least_in (ms ++ ns) }
{
    lesser_place(a, b)
}

fn zero_at(place: u64, n: u32) -> Option<u64>
    ensures { result ≡ least_in (zero_at place n) }
{
    if n == 0 { Some(place) } else { None }
}

/// The least place of a divisor that is 0 in an expression.
#[cycle(zeros)]
fn expr_zero(e: &Expr) -> Option<u64>
    ensures { result ≡ least_in (expr_zeros (expr_view e.now)) }
{
    match e {
        Expr::Num(_, _) => None,
        Expr::Field(_, _, _) => None,
        Expr::Param(_) => None,
        Expr::ShapeNum(_, _) => None,
        Expr::Neg(_, inner) => expr_zero(inner),
        Expr::Sum(_, first, steps) => {
            let one = expr_zero(first);
            let others = sums_zero(steps.as_slice());
            lesser(one, others)
        }
        Expr::Prod(_, first, steps) => {
            let one = expr_zero(first);
            let others = products_zero(steps.as_slice());
            lesser(one, others)
        }
        Expr::Min(_, first, second) => {
            let one = expr_zero(first);
            let other = expr_zero(second);
            lesser(one, other)
        }
        Expr::Max(_, first, second) => {
            let one = expr_zero(first);
            let other = expr_zero(second);
            lesser(one, other)
        }
        Expr::CallValue(_, _, given) => arguments_zero(given.as_slice()),
    }
}

#[cycle(zeros)]
fn sums_zero(steps: &[SumStep]) -> Option<u64>
    ensures { result ≡ least_in (sums_zeros (sums (map sum_view steps.now))) }
{
    let mut found = None;
    'steps: for step in steps {
        let here = sum_zero(step);
        found = lesser(found, here);
    }
    found
}

#[cycle(zeros)]
fn sum_zero(step: &SumStep) -> Option<u64>
    ensures { result ≡ least_in (sum_zeros (sum_view step.now)) }
{
    match step {
        SumStep::Plus(term) => expr_zero(term),
        SumStep::Minus(term) => expr_zero(term),
    }
}

#[cycle(zeros)]
fn products_zero(steps: &[ProdStep]) -> Option<u64>
    ensures { result ≡ least_in (products_zeros (products (map product_view steps.now))) }
{
    let mut found = None;
    'steps: for step in steps {
        let here = product_zero(step);
        found = lesser(found, here);
    }
    found
}

#[cycle(zeros)]
fn product_zero(step: &ProdStep) -> Option<u64>
    ensures { result ≡ least_in (product_zeros (product_view step.now)) }
{
    match step {
        ProdStep::Times(factor) => expr_zero(factor),
        ProdStep::Div(place, n) => zero_at(*place, *n),
        ProdStep::Mod(place, n) => zero_at(*place, *n),
    }
}

#[cycle(zeros)]
fn arguments_zero(given: &[Argument]) -> Option<u64>
    ensures { result ≡ least_in (arguments_zeros (arguments (map argument_view given.now))) }
{
    let mut found = None;
    'arguments: for argument in given {
        let here = argument_zero(argument);
        found = lesser(found, here);
    }
    found
}

#[cycle(zeros)]
fn argument_zero(argument: &Argument) -> Option<u64>
    ensures { result ≡ least_in (argument_zeros (argument_view argument.now)) }
{
    let Argument { place: _, value } = argument;
    expr_zero(value)
}

/// The least place of a divisor that is 0 in a formula.
#[cycle(formula_zeros)]
pub fn formula_zero(formula: &Formula) -> Option<u64>
    ensures { result ≡ least_in (formula_zeros (formula_view formula.now)) }
{
    match formula {
        Formula::True(_) => None,
        Formula::False(_) => None,
        Formula::Not(_, inner) => formula_zero(inner),
        Formula::And(_, parts) => formulas_zero(parts.as_slice()),
        Formula::Or(_, parts) => formulas_zero(parts.as_slice()),
        Formula::Implies(_, first, second) => {
            let one = formula_zero(first);
            let other = formula_zero(second);
            lesser(one, other)
        }
        Formula::Iff(_, first, second) => {
            let one = formula_zero(first);
            let other = formula_zero(second);
            lesser(one, other)
        }
        Formula::Compare(_, left, _, right) => {
            let one = expr_zero(left);
            let other = expr_zero(right);
            lesser(one, other)
        }
        Formula::Quant(_, _, _, _, body) => formula_zero(body),
        Formula::Call(_, _, given) => arguments_zero(given.as_slice()),
    }
}

#[cycle(formula_zeros)]
fn formulas_zero(parts: &[Formula]) -> Option<u64>
    ensures { result ≡ least_in (formulas_zeros (formulas (map formula_view parts.now))) }
{
    let mut found = None;
    'parts: for part in parts {
        let here = formula_zero(part);
        found = lesser(found, here);
    }
    found
}

/// The least place of a divisor that is 0 in the body of a macro.
pub fn body_zero(body: &MacroBody) -> Option<u64>
    ensures { result ≡ least_in (body_zeros (body_view body.now)) }
{
    match body {
        MacroBody::Means(formula) => formula_zero(formula),
        MacroBody::Is(value) => expr_zero(value),
    }
}

/// The fault at the least place of a divisor that is 0.
pub fn divisor_fault(zero: Option<u64>) -> Option<Fault>
    ensures { result ≡ divisor_at zero }
{
    match zero {
        Some(place) => Some(Fault {
            place,
            word: FaultWord::Limit,
        }),
        None => None,
    }
}
