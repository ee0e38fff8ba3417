//! The linear forms of expressions. Each form that is complete is tested, a partial sum is not.

ghost use Rattle.std.specs.Prelude.{◌≡◌, ◌&&◌, IfOk, MatchResult, negsuc, true};
ghost use Rattle.std.specs.Int.{int_max, int_min};
ghost use Rattle.linear_conditions.specs.declared.fault.GroundFault.TheVariants.{Memory};
ghost use Rattle.linear_conditions.specs.Faults.{Gives, GivesAtom};
ghost use Rattle.linear_conditions.specs.Forms.{field_sum, fits_expr, product_fits, product_step, products_fit, products_taken, sum_fits, sum_of_expr, sum_step, sums_added, sums_fit};
ghost use Rattle.linear_conditions.specs.Room.{CanAdd};
ghost use Rattle.linear_conditions.specs.Sums.{add_sums, constant_sum, fits_sum, scale, times_sum};
ghost use Rattle.linear_conditions.specs.Views.{atom_view, fixings_view, wide_view};
ghost use Rattle.rule_expand.specs.PlainTruth.{subject_in};
ghost use Rattle.rule_expand.specs.PlainView.{plain_expr_view, plain_product_view, plain_products_view, plain_sum_view, plain_sums_view};
ghost use Rattle.rule_values.specs.View.{env_view};

use crate::fault::GroundFault;
use crate::fields::field_sum;
use crate::fixings::Fixings;
use crate::wide::{Atom, WideSum, is_atom_within};
use geo_tokens::name::Name;
use problem_data::problem::Problem;
use rule_expand::plain::{PlainExpr, PlainProd, PlainSum, Subject};
use rule_values::env::{Env, subject};
use rule_values::floor::{floor_quotient, floor_remainder};
use std::alloc::{AllocError, Global};

/// A form, if it is within the bounds.
#[inline(always)]
pub(crate) fn checked(f: WideSum) -> Result<WideSum, GroundFault>
    ensures { Gives result (wide_view f) (fits_sum (wide_view f)) }
{
    if f.fits() {
        Ok(f)
    } else {
        Err(GroundFault::Overflow)
    }
}

/// A number or a coordinate, if it is within the bounds.
fn checked_atom(atom: Atom) -> Result<Atom, GroundFault>
    ensures { GivesAtom result (atom_view atom) (fits_sum (atom_view atom)) }
{
    if is_atom_within(atom) {
        Ok(atom)
    } else {
        Err(GroundFault::Overflow)
    }
}

/// The form with the other sign.
fn negated(alloc: Global, f: &WideSum) -> Result<WideSum, GroundFault>
    requires { fits_sum (wide_view f.now) ≡ true }
    ensures { MatchResult result (λ g. (wide_view g ≡ scale (negsuc 0) (wide_view f.now))
        × (fits_sum (wide_view g) ≡ true)) (λ e. e ≡ Memory) }
{
    Ok(f.scaled(alloc, -1)?)
}

/// The product of two forms, one of which has no terms.
fn multiplied(alloc: Global, f: &WideSum, g: &WideSum) -> Result<WideSum, AllocError>
    requires f { fits_sum (wide_view f.now) ≡ true }
    requires g { fits_sum (wide_view g.now) ≡ true }
    ensures { IfOk result (λ h. wide_view h ≡ times_sum (wide_view f.now) (wide_view g.now)) }
{
    if f.has_terms() {
        f.scaled(alloc, g.constant())
    } else {
        g.scaled(alloc, f.constant())
    }
}

/// Adds a form to a partial sum.
fn add_part(total: &mut WideSum, part: WideSum) -> Result<(), GroundFault>
    requires { CanAdd (wide_view total.old) (wide_view part) }
    ensures { MatchResult result (λ _. wide_view total.new
        ≡ add_sums (wide_view total.old) (wide_view part)) (λ e. e ≡ Memory) }
{
    total.add(&part)?;
    Ok(())
}

/// Adds a number or a coordinate to a partial sum.
fn add_atom(total: &mut WideSum, atom: Atom) -> Result<(), GroundFault>
    requires { CanAdd (wide_view total.old) (atom_view atom) }
    ensures { MatchResult result (λ _. wide_view total.new
        ≡ add_sums (wide_view total.old) (atom_view atom)) (λ e. e ≡ Memory) }
{
    total.add_atom(atom)?;
    Ok(())
}

/// A number, if it is within the bounds.
fn constant(alloc: Global, z: i128) -> Result<WideSum, GroundFault>
    ensures { Gives result (constant_sum z) (fits_sum (constant_sum z)) }
{
    checked(WideSum::constant_of(alloc, z))
}

/// A field of what a variable stands for, or of an object, if it is within the bounds.
fn field_atom(
    problem: &Problem,
    of: Subject,
    name: &Name,
    env: &Env,
    fixings: &Fixings,
) -> Result<Atom, GroundFault>
    ensures { let f = field_sum problem.now (fixings_view fixings.now) name.now
        (subject_in of (env_view env.now)) in
        GivesAtom result f (fits_sum f) }
{
    checked_atom(field_sum(problem, fixings, name, subject(env, of)))
}

/// The form of a field, if it is within the bounds.
fn field(
    alloc: Global,
    problem: &Problem,
    of: Subject,
    name: &Name,
    env: &Env,
    fixings: &Fixings,
) -> Result<WideSum, GroundFault>
    ensures { let f = field_sum problem.now (fixings_view fixings.now) name.now
        (subject_in of (env_view env.now)) in
        Gives result f (fits_sum f) }
{
    let atom = field_atom(problem, of, name, &*env, &*fixings)?;
    Ok(WideSum::of_atom(alloc, atom)?)
}

/// The lesser of two numbers.
fn lesser(alloc: Global, f: &WideSum, g: &WideSum) -> Result<WideSum, GroundFault>
    ensures { let h = constant_sum (int_min f.now.constant g.now.constant) in
        Gives result h (fits_sum h) }
{
    constant(alloc, f.constant().min(g.constant()))
}

/// The greater of two numbers.
fn greater(alloc: Global, f: &WideSum, g: &WideSum) -> Result<WideSum, GroundFault>
    ensures { let h = constant_sum (int_max f.now.constant g.now.constant) in
        Gives result h (fits_sum h) }
{
    constant(alloc, f.constant().max(g.constant()))
}

/// The form of an expression.
#[cycle(form)]
pub fn sum_of(
    alloc: Global,
    problem: &Problem,
    e: &PlainExpr,
    env: &Env,
    fixings: &Fixings,
) -> Result<WideSum, GroundFault>
    ensures { Gives result
        (sum_of_expr problem.now (plain_expr_view e.now) (env_view env.now)
        (fixings_view fixings.now))
        (fits_expr problem.now (plain_expr_view e.now) (env_view env.now)
        (fixings_view fixings.now)) }
{
    match e {
        PlainExpr::Num(n) => constant(alloc, i128::from(*n)),
        PlainExpr::Field(of, name) => field(alloc, problem, *of, name, &*env, &*fixings),
        PlainExpr::ShapeNum(s) => constant(alloc, *s as i128 + 1),
        PlainExpr::Neg(e) => negative(alloc, problem, e, &*env, &*fixings),
        PlainExpr::Sum(e, steps) => {
            let first = sum_of(alloc, problem, e, &*env, &*fixings)?;
            sum(alloc, problem, first, steps, &*env, &*fixings)
        }
        PlainExpr::Prod(e, steps) => {
            let first = sum_of(alloc, problem, e, &*env, &*fixings)?;
            product(alloc, problem, first, steps, &*env, &*fixings)
        }
        PlainExpr::Min(a, b) => {
            let left = sum_of(alloc, problem, a, &*env, &*fixings)?;
            least(alloc, problem, left, b, &*env, &*fixings)
        }
        PlainExpr::Max(a, b) => {
            let left = sum_of(alloc, problem, a, &*env, &*fixings)?;
            greatest(alloc, problem, left, b, &*env, &*fixings)
        }
    }
}

/// An expression with the other sign.
#[cycle(form)]
fn negative(
    alloc: Global,
    problem: &Problem,
    e: &PlainExpr,
    env: &Env,
    fixings: &Fixings,
) -> Result<WideSum, GroundFault>
    ensures { let f = scale (negsuc 0)
        (sum_of_expr problem.now (plain_expr_view e.now) (env_view env.now)
        (fixings_view fixings.now)) in
        Gives result f (fits_expr problem.now (plain_expr_view e.now) (env_view env.now)
        (fixings_view fixings.now) && fits_sum f) }
{
    let f = sum_of(alloc, problem, e, &*env, &*fixings)?;
    checked(f.scaled(alloc, -1)?)
}

/// The lesser of a number and an expression.
#[cycle(form)]
fn least(
    alloc: Global,
    problem: &Problem,
    left: WideSum,
    b: &PlainExpr,
    env: &Env,
    fixings: &Fixings,
) -> Result<WideSum, GroundFault>
    ensures { let f = constant_sum (int_min left.constant
        (sum_of_expr problem.now (plain_expr_view b.now) (env_view env.now)
        (fixings_view fixings.now)).constant) in
        Gives result f (fits_expr problem.now (plain_expr_view b.now) (env_view env.now)
        (fixings_view fixings.now) && fits_sum f) }
{
    let right = sum_of(alloc, problem, b, &*env, &*fixings)?;
    lesser(alloc, &left, &right)
}

/// The greater of a number and an expression.
#[cycle(form)]
fn greatest(
    alloc: Global,
    problem: &Problem,
    left: WideSum,
    b: &PlainExpr,
    env: &Env,
    fixings: &Fixings,
) -> Result<WideSum, GroundFault>
    ensures { let f = constant_sum (int_max left.constant
        (sum_of_expr problem.now (plain_expr_view b.now) (env_view env.now)
        (fixings_view fixings.now)).constant) in
        Gives result f (fits_expr problem.now (plain_expr_view b.now) (env_view env.now)
        (fixings_view fixings.now) && fits_sum f) }
{
    let right = sum_of(alloc, problem, b, &*env, &*fixings)?;
    greater(alloc, &left, &right)
}

/// One step of a sum.
#[cycle(form)]
fn sum_step(
    alloc: Global,
    problem: &Problem,
    step: &PlainSum,
    env: &Env,
    fixings: &Fixings,
) -> Result<WideSum, GroundFault>
    ensures { Gives result
        (sum_step problem.now (plain_sum_view step.now) (env_view env.now)
        (fixings_view fixings.now))
        (sum_fits problem.now (plain_sum_view step.now) (env_view env.now)
        (fixings_view fixings.now)) }
{
    match step {
        PlainSum::Plus(e) => sum_of(alloc, problem, e, &*env, &*fixings),
        PlainSum::Minus(e) => {
            let f = sum_of(alloc, problem, e, &*env, &*fixings)?;
            negated(alloc, &f)
        }
    }
}

/// A sum, from its first term. A field, as most of its steps are, is added without a form of its own.
#[cycle(form)]
fn sum(
    alloc: Global,
    problem: &Problem,
    first: WideSum,
    steps: &[PlainSum],
    env: &Env,
    fixings: &Fixings,
) -> Result<WideSum, GroundFault>
    requires fits { fits_sum (wide_view first) ≡ true }
    ensures { let f = sums_added problem.now (wide_view first) (plain_sums_view steps.now)
        (env_view env.now) (fixings_view fixings.now) in
        Gives result f (sums_fit problem.now (plain_sums_view steps.now) (env_view env.now)
        (fixings_view fixings.now) && fits_sum f) }
{
    let mut total = first;
    for step in steps {
        match step {
            PlainSum::Plus(PlainExpr::Field(of, name)) => {
                let atom = field_atom(problem, *of, name, &*env, &*fixings)?;
                add_atom(&mut total, atom)?;
            }
            _ => {
                let part = sum_step(alloc, problem, step, &*env, &*fixings)?;
                add_part(&mut total, part)?;
            }
        }
    }
    checked(total)
}

/// One step of a product, on what stands before it.
#[cycle(form)]
fn product_step(
    alloc: Global,
    problem: &Problem,
    f: &WideSum,
    step: &PlainProd,
    env: &Env,
    fixings: &Fixings,
) -> Result<WideSum, GroundFault>
    requires { fits_sum (wide_view f.now) ≡ true }
    ensures { let g = product_step problem.now (wide_view f.now) (plain_product_view step.now)
        (env_view env.now) (fixings_view fixings.now) in
        Gives result g (product_fits problem.now (plain_product_view step.now) (env_view env.now)
        (fixings_view fixings.now) && fits_sum g) }
{
    match step {
        PlainProd::Times(e) => {
            let g = sum_of(alloc, problem, e, &*env, &*fixings)?;
            checked(multiplied(alloc, f, &g)?)
        }
        PlainProd::Div(n) => constant(alloc, floor_quotient(f.constant(), *n)),
        PlainProd::Mod(n) => constant(alloc, floor_remainder(f.constant(), *n)),
    }
}

/// A product, from its first factor.
#[cycle(form)]
fn product(
    alloc: Global,
    problem: &Problem,
    first: WideSum,
    steps: &[PlainProd],
    env: &Env,
    fixings: &Fixings,
) -> Result<WideSum, GroundFault>
    requires fits { fits_sum (wide_view first) ≡ true }
    ensures { Gives result
        (products_taken problem.now (wide_view first) (plain_products_view steps.now)
        (env_view env.now) (fixings_view fixings.now))
        (products_fit problem.now (wide_view first) (plain_products_view steps.now)
        (env_view env.now) (fixings_view fixings.now)) }
{
    let mut so_far = first;
    for step in steps {
        so_far = product_step(alloc, problem, &so_far, step, &*env, &*fixings)?;
    }
    Ok(so_far)
}
