//! The numbers of expressions.

ghost use Rattle.std.specs.Prelude.{◌≡◌, ◌+ℤ◌};
ghost use Rattle.std.specs.Int.{w128};
ghost use Rattle.std.specs.Int.RustNames.{FitsSigned};
ghost use Rattle.problem_data.specs.Cells.{IsShaped};
ghost use Rattle.problem_data.specs.Value.{field_value, object_field};
ghost use Rattle.rule_expand.specs.PlainTruth.{plain_product, plain_products, plain_sum, plain_sums, plain_value};
ghost use Rattle.rule_expand.specs.PlainView.{plain_expr_view, plain_product_view, plain_products_view, plain_sum_view, plain_sums_view};
ghost use Rattle.rule_values.specs.Calm.{AreTameProducts, AreTameSums, IsTame, IsTameProduct, IsTameSum};
ghost use Rattle.rule_values.specs.View.{env_view, thing_view};

use crate::places::{coordinate, place};
use geo_conditions::Layout;
use geo_tokens::name::Name;
use problem_data::problem::Problem;
use rule_expand::plain::{PlainExpr, PlainProd, PlainSum};
use rule_values::env::{Env, Thing, subject};
use rule_values::fields::{ObjectField, box_field, object_field};
use rule_values::floor::{floor_quotient, floor_remainder};
use rule_values::shapes::shape_number;

/// A field of an object.
fn field_of_object(problem: &Problem, layout: &Layout, o: usize, name: &Name) -> i128
    requires layout { IsShaped problem.now layout.now }
    ensures { result ≡ object_field problem.now layout.now o name.now }
{
    match object_field(problem, o, name) {
        ObjectField::Coordinate(d) => i128::from(coordinate(problem, layout, o, d)),
        ObjectField::Shape => i128::from(shape_number(problem, o, place(problem, layout, o))),
        ObjectField::Constant(number) => number,
    }
}

/// A field of what a variable stands for.
fn field(problem: &Problem, layout: &Layout, thing: Thing, name: &Name) -> i128
    requires layout { IsShaped problem.now layout.now }
    ensures { result ≡ field_value problem.now layout.now (thing_view thing.entry) name.now }
{
    match thing {
        Thing::Nothing => 0,
        Thing::Object(o) => field_of_object(problem, layout, o, name),
        Thing::Part(part) => i128::from(box_field(part, name)),
    }
}

/// The number of an expression.
#[cycle(number)]
pub fn number(problem: &Problem, layout: &Layout, e: &PlainExpr, env: &Env) -> i128
    requires layout { IsShaped problem.now layout.now }
    requires tame { IsTame problem.now layout.now (plain_expr_view e.now) (env_view env.now) }
    ensures { result
        ≡ plain_value problem.now layout.now (plain_expr_view e.now) (env_view env.now) }
{
    match e {
        PlainExpr::Num(n) => i128::from(*n),
        PlainExpr::Field(of, name) => field(problem, layout, subject(&*env, *of), name),
        PlainExpr::ShapeNum(shape) => *shape as i128 + 1,
        PlainExpr::Neg(e) => -number(problem, layout, e, &*env),
        PlainExpr::Sum(e, steps) => {
            let first = number(problem, layout, e, &*env);
            sum(problem, layout, first, steps, &*env)
        }
        PlainExpr::Prod(e, steps) => {
            let first = number(problem, layout, e, &*env);
            product(problem, layout, first, steps, &*env)
        }
        PlainExpr::Min(a, b) => {
            let left = number(problem, layout, a, &*env);
            left.min(number(problem, layout, b, &*env))
        }
        PlainExpr::Max(a, b) => {
            let left = number(problem, layout, a, &*env);
            left.max(number(problem, layout, b, &*env))
        }
    }
}

/// What the steps of a sum give, from the left.
#[cycle(number)]
fn sum(problem: &Problem, layout: &Layout, first: i128, steps: &[PlainSum], env: &Env) -> i128
    requires layout { IsShaped problem.now layout.now }
    requires tame { AreTameSums problem.now layout.now (plain_sums_view steps.now)
        (env_view env.now) first }
    ensures { result ≡ first
        +ℤ plain_sums problem.now layout.now (plain_sums_view steps.now) (env_view env.now) }
{
    let mut so_far = first;
    for step in steps {
        so_far = sum_step(problem, layout, so_far, step, &*env);
    }
    so_far
}

/// What one more step of a sum gives.
#[cycle(number)]
fn sum_step(problem: &Problem, layout: &Layout, so_far: i128, step: &PlainSum, env: &Env) -> i128
    requires layout { IsShaped problem.now layout.now }
    requires tame { IsTameSum problem.now layout.now (plain_sum_view step.now) (env_view env.now) }
    requires fits { FitsSigned w128 (so_far
        +ℤ plain_sum problem.now layout.now (plain_sum_view step.now) (env_view env.now)) }
    ensures { result ≡ so_far
        +ℤ plain_sum problem.now layout.now (plain_sum_view step.now) (env_view env.now) }
{
    match step {
        PlainSum::Plus(e) => so_far + number(problem, layout, e, &*env),
        PlainSum::Minus(e) => so_far - number(problem, layout, e, &*env),
    }
}

/// What the steps of a product give, from the left.
#[cycle(number)]
fn product(problem: &Problem, layout: &Layout, first: i128, steps: &[PlainProd], env: &Env) -> i128
    requires layout { IsShaped problem.now layout.now }
    requires tame { AreTameProducts problem.now layout.now (plain_products_view steps.now)
        (env_view env.now) first }
    ensures { result ≡ plain_products problem.now layout.now first (plain_products_view steps.now)
        (env_view env.now) }
{
    let mut so_far = first;
    for step in steps {
        so_far = product_step(problem, layout, so_far, step, &*env);
    }
    so_far
}

/// What one more step of a product gives.
#[cycle(number)]
fn product_step(
    problem: &Problem,
    layout: &Layout,
    so_far: i128,
    step: &PlainProd,
    env: &Env,
) -> i128
    requires layout { IsShaped problem.now layout.now }
    requires tame { IsTameProduct problem.now layout.now (plain_product_view step.now)
        (env_view env.now) }
    requires fits { FitsSigned w128
        (plain_product problem.now layout.now so_far (plain_product_view step.now)
        (env_view env.now)) }
    ensures { result ≡ plain_product problem.now layout.now so_far (plain_product_view step.now)
        (env_view env.now) }
{
    match step {
        PlainProd::Times(e) => so_far * number(problem, layout, e, &*env),
        PlainProd::Div(n) => floor_quotient(so_far, *n),
        PlainProd::Mod(n) => floor_remainder(so_far, *n),
    }
}
