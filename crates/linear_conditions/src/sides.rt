//! The sides of comparisons as short forms. Where a side is none, `forms` makes its form.

ghost use Rattle.std.specs.Prelude.{◌≡◌, true};
ghost use Rattle.linear_conditions.specs.Faults.{GivesShort};
ghost use Rattle.linear_conditions.specs.Forms.{field_sum, fits_expr, product_fits, product_step, products_fit, products_taken, sum_fits, sum_of_expr, sum_step, sums_added, sums_fit};
ghost use Rattle.linear_conditions.specs.Sums.{add_sums, fits_sum};
ghost use Rattle.linear_conditions.specs.Views.{fixings_view, short_view};
ghost use Rattle.rule_expand.specs.PlainTruth.{subject_in};
ghost use Rattle.rule_expand.specs.PlainView.{plain_expr_view, plain_product_view, plain_products_view, plain_sum_view, plain_sums_view};
ghost use Rattle.rule_values.specs.View.{env_view};

use crate::fields::field_sum;
use crate::fixings::Fixings;
use crate::short::{
    Short, added, multiplied, negated, number, of_atom, quotient, remainder, subtracted,
};
use geo_tokens::name::Name;
use problem_data::problem::Problem;
use rule_expand::plain::{PlainExpr, PlainProd, PlainSum, Subject};
use rule_values::env::{Env, subject};

/// A field of what a variable stands for, or of an object.
fn short_field(
    problem: &Problem,
    of: Subject,
    name: &Name,
    env: &Env,
    fixings: &Fixings,
) -> Option<Short>
    ensures { let f = field_sum problem.now (fixings_view fixings.now) name.now
        (subject_in of (env_view env.now)) in
        GivesShort result f (fits_sum f) }
{
    of_atom(field_sum(problem, fixings, name, subject(env, of)))
}

/// The form of an expression, where it is short.
#[cycle(side)]
pub fn side_of(problem: &Problem, e: &PlainExpr, env: &Env, fixings: &Fixings) -> Option<Short>
    ensures { GivesShort result
        (sum_of_expr problem.now (plain_expr_view e.now) (env_view env.now)
        (fixings_view fixings.now))
        (fits_expr problem.now (plain_expr_view e.now) (env_view env.now)
        (fixings_view fixings.now)) }
{
    match e {
        PlainExpr::Num(n) => number(i128::from(*n)),
        PlainExpr::Field(of, name) => short_field(problem, *of, name, &*env, &*fixings),
        PlainExpr::ShapeNum(s) => number(*s as i128 + 1),
        PlainExpr::Neg(e) => negated(side_of(problem, e, &*env, &*fixings)?),
        PlainExpr::Sum(e, steps) => {
            let first = side_of(problem, e, &*env, &*fixings)?;
            sum_side(problem, first, steps, &*env, &*fixings)
        }
        PlainExpr::Prod(e, steps) => {
            let first = side_of(problem, e, &*env, &*fixings)?;
            product_side(problem, first, steps, &*env, &*fixings)
        }
        PlainExpr::Min(_a, _b) | PlainExpr::Max(_a, _b) => None,
    }
}

/// One step of a sum, on what stands before it.
#[cycle(side)]
fn sum_side_step(
    problem: &Problem,
    f: Short,
    step: &PlainSum,
    env: &Env,
    fixings: &Fixings,
) -> Option<Short>
    ensures { GivesShort result
        (add_sums (short_view f) (sum_step problem.now (plain_sum_view step.now)
        (env_view env.now) (fixings_view fixings.now)))
        (sum_fits problem.now (plain_sum_view step.now) (env_view env.now)
        (fixings_view fixings.now)) }
{
    match step {
        PlainSum::Plus(e) => added(f, side_of(problem, e, &*env, &*fixings)?),
        PlainSum::Minus(e) => subtracted(f, side_of(problem, e, &*env, &*fixings)?),
    }
}

/// A sum, from its first term.
#[cycle(side)]
fn sum_side(
    problem: &Problem,
    first: Short,
    steps: &[PlainSum],
    env: &Env,
    fixings: &Fixings,
) -> Option<Short>
    requires fits { fits_sum (short_view first) ≡ true }
    ensures { let f = sums_added problem.now (short_view first) (plain_sums_view steps.now)
        (env_view env.now) (fixings_view fixings.now) in
        GivesShort result f (sums_fit problem.now (plain_sums_view steps.now) (env_view env.now)
        (fixings_view fixings.now)) }
{
    let mut total = first;
    for step in steps {
        total = sum_side_step(problem, total, step, &*env, &*fixings)?;
    }
    Some(total)
}

/// One step of a product, on what stands before it.
#[cycle(side)]
fn product_side_step(
    problem: &Problem,
    f: Short,
    step: &PlainProd,
    env: &Env,
    fixings: &Fixings,
) -> Option<Short>
    ensures { let g = product_step problem.now (short_view f) (plain_product_view step.now)
        (env_view env.now) (fixings_view fixings.now) in
        GivesShort result g (product_fits problem.now (plain_product_view step.now)
        (env_view env.now) (fixings_view fixings.now)) }
{
    match step {
        PlainProd::Times(e) => multiplied(f, side_of(problem, e, &*env, &*fixings)?),
        PlainProd::Div(n) => quotient(f, *n),
        PlainProd::Mod(n) => remainder(f, *n),
    }
}

/// A product, from its first factor.
#[cycle(side)]
fn product_side(
    problem: &Problem,
    first: Short,
    steps: &[PlainProd],
    env: &Env,
    fixings: &Fixings,
) -> Option<Short>
    requires fits { fits_sum (short_view first) ≡ true }
    ensures { GivesShort result
        (products_taken problem.now (short_view first) (plain_products_view steps.now)
        (env_view env.now) (fixings_view fixings.now))
        (products_fit problem.now (short_view first) (plain_products_view steps.now)
        (env_view env.now) (fixings_view fixings.now)) }
{
    let mut so_far = first;
    for step in steps {
        so_far = product_side_step(problem, so_far, step, &*env, &*fixings)?;
    }
    Some(so_far)
}
